ghost use Rattle.std.specs.Prelude.{◌≡◌, IfOk, map};
ghost use Rattle.std.specs.List.{range_with_len};
ghost use Rattle.switch_table.specs.Tables.{tables_of};
ghost use Rattle.controller.specs.Exports.{controller_install_act};

use crate::plan::Plan;
use crate::sends::Act;
use crate::tables::tables_of;
use base::Shared;
use ctrl_msg::{Body, SharedTables};
use std::alloc::{AllocError, Global};
use std::marker::Model;
use switch_table::Touched;

/// A version with its plan, and what the change that made it touches. The tables of each switch
/// are made once, and shared by each `Install` that carries them and by each switch that begins
/// with them; each `Stamp` shares the touched words. Contracts see version, plan and words.
#[derive(Drop)]
pub struct Version {
    version: u32,
    plan: Plan,
    touched: Shared<Touched>,
    /// The tables of each switch, by its number.
    made: Vec<SharedTables>,
}

impl Model for Version {
    ghost use Rattle.std.specs.Prelude.{◌≡◌, length};
    ghost use Rattle.controller.specs.Controller.{ControllerKeptPlan, controller_tables_by_switch};

    ghost Value = { ControllerKeptPlan };

    ghost view = { λ v. record {
      version = v.version;
      plan = v.plan;
      touched = v.touched;
    } };

    ghost invariant = { λ v. v.made.items ≡ controller_tables_by_switch
        (record { version = v.version; plan = v.plan; touched = v.touched })
        (length v.made.items) };
}

impl Version {
    /// A version: this plan, the words that its change touches, and this many switches' tables.
    ///
    /// # Errors
    /// Only out of memory.
    pub fn new(
        alloc: Global,
        version: u32,
        plan: Plan,
        touched: Touched,
        switches: u32,
    ) -> Result<Version, AllocError>
        ensures { IfOk result (λ kept.
            kept ≡ record { version = version; plan = plan; touched = touched }) }
    {
        let touched = Shared::new(alloc, touched)?;
        let made = make_switch_tables(alloc, version, &plan, switches)?;
        Ok(Version {
            version,
            plan,
            touched,
            made,
        })
    }

    pub fn version(&self) -> u32
        ensures { result ≡ self.now.version }
    {
        self.version
    }

    pub fn plan(&self) -> &Plan
        ensures { result.now ≡ self.now.plan }
    {
        &self.plan
    }

    /// What its change touches.
    ///
    /// # Errors
    /// Only out of memory.
    pub fn touched(&self) -> Result<Shared<Touched>, AllocError>
        ensures { IfOk result (λ touched. touched ≡ self.now.touched) }
    {
        self.touched.clone()
    }

    /// The message that carries a switch's tables, for this boot.
    ///
    /// # Errors
    /// Only out of memory.
    pub fn install(&self, alloc: Global, s: u32, boot: u32) -> Result<Act, AllocError>
        ensures { IfOk result (λ act. act ≡ controller_install_act s boot self.now) }
    {
        let tables = self.tables(alloc, s)?;
        Ok(Act::post(s, Body::Install { boot, tables }))
    }

    /// The tables of a switch: those that were made at the start, or new ones if there are none.
    ///
    /// # Errors
    /// Only out of memory.
    pub fn tables(&self, alloc: Global, s: u32) -> Result<SharedTables, AllocError>
        ensures { IfOk result (λ tables.
            tables ≡ tables_of self.now.plan.hosted self.now.version s) }
    {
        if let Some(tables) = self.made.get(s as usize) {
            let tables = tables.clone()?;
            return Ok(tables);
        }
        SharedTables::new(alloc, tables_of(alloc, &self.plan, self.version, s)?)
    }
}

// The tables of each switch.
fn make_switch_tables(
    alloc: Global,
    version: u32,
    plan: &Plan,
    switches: u32,
) -> Result<Vec<SharedTables>, AllocError>
    ensures { IfOk result (λ made. made.items
        ≡ map (tables_of plan.now.hosted version) (range_with_len 0 switches)) }
{
    let mut made = Vec::with_capacity(alloc, switches as usize)?;
    for s in 0..switches {
        let tables = tables_of(alloc, plan, version, s)?;
        made.push(SharedTables::new(alloc, tables)?)?;
    }
    Ok(made)
}
