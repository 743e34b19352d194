ghost use Rattle.std.specs.Prelude.{◌≡◌, ◌<◌, IfOk, IfSome, IsTrue};
ghost use Rattle.std.specs.Option.{option_copied};
ghost use Rattle.failover.specs.Adverts.{held_advert};
ghost use Rattle.switch_table.specs.Tables.{AreSoundSwitchTables};
ghost use Rattle.switch_core.specs.State.{HasSwitchAdvertUpTo, IsSoundSwitch, new_switch, switch_call_counted, switch_held_tables, holds_version, serves, switch_stamp_tables};

use crate::kept::SwitchKeptTables;
use crate::routes::SwitchRoutes;
use ctrl_msg::SharedTables;
use failover::{Advert, Database};
use std::alloc::{AllocError, Global};
use std::marker::Model;
use switch_table::Cache;

/// One switch. Contracts see the record of its number, boot, whether it is up and open, stamp,
/// collect mark, tables, cache, adverts, own seq, and how many packet calls it counted.
#[derive(Drop)]
pub struct Switch {
    pub(crate) number: u32,
    pub(crate) boot: u32,
    pub(crate) is_up: bool,
    pub(crate) is_open: bool,
    pub(crate) stamp: u32,
    pub(crate) collected: u32,
    pub(crate) tables: Vec<SwitchKeptTables>,
    pub(crate) cache: Cache,
    pub(crate) database: SwitchRoutes,
    pub(crate) seq: u32,
    pub(crate) handled: u64,
}

const _: () = prove!(size_of::<Switch>() < 8192);

impl Model for Switch {
    ghost use Rattle.switch_core.specs.State.{SwitchValue, IsSoundSwitch, switch_value};

    ghost Value = { SwitchValue };

    ghost view = { switch_value };

    ghost invariant = { λ s. IsSoundSwitch (switch_value s) };
}

impl Switch {
    /// The switch of this number, up and open in its first boot, with these tables of version 1
    /// and these adverts, and room for this many cached rules.
    ///
    /// # Errors
    /// Only out of memory.
    pub fn begin(
        alloc: Global,
        number: u32,
        cache: u32,
        tables: SharedTables,
        base: Database,
    ) -> Result<Switch, AllocError>
        requires switch { number < 64 }
        requires sound { AreSoundSwitchTables tables }
        requires version { tables.version ≡ 1 }
        requires own { HasSwitchAdvertUpTo base number 1 1 }
        ensures { IfOk result (λ switch. switch ≡ new_switch number cache tables base) }
    {
        let mut list = Vec::new(alloc);
        list.push(SwitchKeptTables::new(alloc, &tables)?)?;
        Ok(Switch {
            number,
            boot: 1,
            is_up: true,
            is_open: true,
            stamp: 1,
            collected: 0,
            tables: list,
            cache: Cache::new(alloc, cache),
            database: SwitchRoutes::new(alloc, base),
            seq: 1,
            handled: 0,
        })
    }

    /// Its number, from 0 in the order of the network.
    pub fn number(&self) -> u32
        ensures number { result ≡ self.now.number }
        ensures switch { IsSoundSwitch self.now }
    {
        self.number
    }

    /// Whether it is up and open, so that it handles packets.
    pub fn serves(&self) -> bool
        ensures { result ≡ serves self.now }
    {
        self.is_up && self.is_open
    }

    /// Whether it is up; it may be closed then.
    pub fn is_up(&self) -> bool
        ensures { result ≡ self.now.is_up }
    {
        self.is_up
    }

    /// The number of the boot that it is in, or, if it is down, of its last one.
    pub fn boot(&self) -> u32
        ensures { result ≡ self.now.boot }
    {
        self.boot
    }

    /// The version by which it looks headers up; 0 after a restart, until a message raises it.
    pub fn stamp(&self) -> u32
        ensures { result ≡ self.now.stamp }
    {
        self.stamp
    }

    /// Whether it has the tables of this version.
    pub fn holds_version(&self, version: u32) -> bool
        ensures { result ≡ holds_version self.now version }
    {
        self.held_tables(version).is_some()
    }

    /// How many packet calls it counted: `admit` for a packet that enters here, `pass` for one that
    /// is here at a place of its route, and `receive` for one at the end of its route. `enter`,
    /// `hop` and `arrive` each make one of these. A call needs the packet's header, or its route
    /// and its place on it, which has to be this switch. The count stops at its greatest value.
    pub fn handled(&self) -> u64
        ensures { result ≡ self.now.handled }
    {
        self.handled
    }

    /// The newest advert that it has of this origin; `None` exactly if it has none.
    pub fn known(&self, origin: u32) -> Option<Advert>
        ensures held { result ≡ held_advert self.now.database origin }
        ensures origin { IfSome result (λ advert. advert.origin ≡ origin) }
    {
        self.database.database().get(origin)
    }

    /// The tables of this version; `None` if it doesn't have them.
    pub(crate) fn held_tables(&self, version: u32) -> Option<&SwitchKeptTables>
        ensures { option_copied result ≡ switch_held_tables self.now version }
    {
        self.tables.iter().find(|kept| kept.version() == version)
    }

    /// The tables of the version that is its stamp.
    pub(crate) fn stamp_tables(&self) -> &SwitchKeptTables
        requires { IsTrue (holds_version self.now self.now.stamp) }
        ensures { result.now ≡ switch_stamp_tables self.now }
    {
        self.held_tables(self.stamp).unwrap()
    }

    /// Counts one more packet call.
    pub(crate) fn count(&mut self)
        ensures { self.new ≡ switch_call_counted self.old }
    {
        self.handled = self.handled.saturating_add(1);
    }
}
