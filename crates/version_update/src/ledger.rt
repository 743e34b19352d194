ghost use Rattle.std.specs.Prelude.{◌≡◌, ◌+◌, ◌<◌, ◌≤◌, length, map, replicate, slice_set};
ghost use Rattle.version_update.specs.Record.{first_update_record, IsSoundUpdateRecord, update_joining_opens_at, opened_update_record};
ghost use Rattle.version_update.specs.Marks.{first_marks, update_record_of, AreVersionMarksBounded, VersionMarksStaySettled, update_retired_of};
ghost use Rattle.version_update.specs.Settling.{MaskNamesUpdateSwitches, mark_rises_to, CurrentMarkRisesTo, SettlesVersionMarks};

use crate::marks::Settled;
use crate::record::SwitchRecord;
use crate::switches;
use base::MAX_SWITCHES;
use std::marker::Model;

/// The marks, settled or not.
#[derive(Drop)]
pub struct MarksLedger {
    /// How many versions there are.
    pub count: u32,
    /// The current version: it rises while each member acknowledged the next one.
    pub current: u32,
    /// The version up to which all are retired.
    pub retired: u32,
    /// How many switches there are; the records after them mean nothing.
    number: usize,
    switches: [SwitchRecord; MAX_SWITCHES as usize],
}

impl Model for MarksLedger {
    ghost use Rattle.std.specs.Prelude.{◌≤◌, take};
    ghost use Rattle.version_update.specs.Marks.{MarksValue, AreVersionMarksBounded};

    ghost Value = { MarksValue };

    ghost view = { λ l. record {
      count = l.count;
      current = l.current;
      retired = l.retired;
      switches = take l.number l.switches;
    } };

    ghost invariant = { λ l. (l.number ≤ 64) × AreVersionMarksBounded (record {
      count = l.count;
      current = l.current;
      retired = l.retired;
      switches = take l.number l.switches;
    }) };
}

impl MarksLedger {
    /// Each switch is a member in boot 1, with version 1.
    pub fn begin(number: u32) -> MarksLedger
        requires some { 1 ≤ number }
        requires few { number ≤ 64 }
        ensures { result ≡ first_marks number }
    {
        MarksLedger {
            count: 1,
            current: 1,
            retired: 0,
            number: number as usize,
            switches: first_switch_marks(),
        }
    }

    /// What is known of the switches, by their numbers.
    pub fn switches(&self) -> &[SwitchRecord]
        ensures switches { result.now ≡ self.now.switches }
        ensures bounds { AreVersionMarksBounded self.now }
    {
        &self.switches[..self.number]
    }

    /// What is known of a switch.
    pub fn record(&self, s: u32) -> SwitchRecord
        requires { s < length self.now.switches }
        ensures record { result ≡ update_record_of self.now s }
        ensures sound { IsSoundUpdateRecord self.now.count result }
    {
        self.switches[s as usize]
    }

    /// Replaces what is known of a switch.
    pub fn set_record(&mut self, s: u32, known: SwitchRecord)
        requires switch { s < length self.old.switches }
        requires sound { IsSoundUpdateRecord self.old.count known }
        ensures { self.new ≡ record self.old { switches = slice_set self.old.switches s known } }
    {
        self.switches[s as usize] = known;
    }

    /// Adds a version.
    pub fn add_version(&mut self)
        requires { self.old.count < 64 }
        ensures { self.new ≡ record self.old { count = self.old.count + 1 } }
    {
        self.count += 1;
    }

    /// Settles, and returns what rose and to which switches to send.
    pub fn settle(&mut self, taken: bool) -> Settled
        ensures settled { SettlesVersionMarks self.old self.new result }
        ensures rule { VersionMarksStaySettled self.old self.new }
        ensures taken { result.taken ≡ taken }
    {
        let current = self.risen();
        let stamps = switches::mask_of_members_where(self.current < current, self.switches());
        let old_current = self.current;
        let old_retired = self.retired;
        self.current = current;
        let opens = self.open_joining();
        let retired = self.allowed();
        self.retired = retired;
        Settled {
            taken,
            current: raised(old_current, current),
            stamps,
            opens,
            retired: raised(old_retired, retired),
            collects: switches::mask_of_members_where(old_retired < retired, self.switches()),
        }
    }

    // The version to which current rises.
    fn risen(&self) -> u32
        ensures { CurrentMarkRisesTo self.now result }
    {
        let mut current = self.current;
        while current < self.count && switches::all_acked(self.switches(), current + 1) {
            current += 1;
        }
        current
    }

    fn open_joining(&mut self) -> u64
        ensures opened { self.new
            ≡ record self.old { switches = map (opened_update_record self.old.current) self.old.switches } }
        ensures opens { MaskNamesUpdateSwitches result (update_joining_opens_at self.old.current) self.old.switches }
    {
        let number = self.number;
        let current = self.current;
        switches::open_if_acked(&mut self.switches[..number], current)
    }

    // The last version that the members allow to retire.
    fn allowed(&self) -> u32
        ensures allowed { result ≡ update_retired_of self.now }
        ensures live { result < self.now.count }
    {
        switches::least_acked_stamp(self.switches()).unwrap_or(self.current) - 1
    }
}

fn first_switch_marks() -> [SwitchRecord; MAX_SWITCHES as usize]
    ensures { result ≡ replicate 64 first_update_record }
{
    [SwitchRecord::first(); MAX_SWITCHES as usize]
}

// The new number, if it rose.
fn raised(old: u32, new: u32) -> Option<u32>
    ensures { result ≡ mark_rises_to old new }
{
    (old < new).then_some(new)
}
