ghost use Rattle.std.specs.Prelude.{◌≡◌, ◌≢◌, ◌-◌, ◌<◌, ◌≤◌, ◌↔◌, length, IsTrue, IfOk, OnErr, Err};
ghost use Rattle.version_update.specs.Record.{is_member, has_acked, update_takes_hello, update_hello_recorded, mark_takes_installed, mark_record_after_installed, update_takes_stamped, update_after_stamped, mark_record_after_over};
ghost use Rattle.version_update.specs.Marks.{first_marks, update_record_of, version_marks_with_switch_changed, version_marks_with_version, AreVersionMarksSettled, VersionMarksStaySettled};
ghost use Rattle.version_update.specs.Settling.{SettlesVersionMarks};
ghost use Rattle.version_update.specs.declared.marks.SubmitError.TheVariants.{TooManyLive, TooManyVersions};

use crate::ledger::MarksLedger;
use crate::record::Phase;
use base::MAX_VERSIONS;
use std::marker::Model;
use thiserror::Error;

/// The most versions that are not retired.
const MAX_LIVE: u32 = 8;

/// What followed from a change: the numbers that rose, and the switches to send to.
///
/// Bit s of a mask names the switch s.
#[derive(Clone, Copy, Debug, PartialEq, Eq)]
pub struct Settled {
    /// Whether the report was recorded, and not ignored for its boot or the phase of the switch.
    pub taken: bool,
    /// The current version, if it rose.
    pub current: Option<u32>,
    /// If the current version rose, the members from before: each is to stamp packets with it.
    pub stamps: u64,
    /// The switches that became members: each is to open at the current version.
    pub opens: u64,
    /// The last retired version, if it rose.
    pub retired: Option<u32>,
    /// If the last retired version rose, all members: each is to drop the tables up to it.
    pub collects: u64,
}

/// Why no version was added.
#[derive(Clone, Copy, Debug, PartialEq, Eq, Error)]
pub enum SubmitError {
    /// 8 versions are not retired.
    #[error("too many versions are not retired")]
    TooManyLive,
    /// There are 64 versions.
    #[error("there are too many versions")]
    TooManyVersions,
}

/// The marks of a policy's versions, settled after each call.
///
/// Versions are numbered from 1, switches from 0. Each call changes what is known of one switch, or
/// the number of versions, and then settles. The current version rises as far as each member
/// acknowledged every version on the way; the joining switches that acknowledged it open there.
/// Versions that no member stamps packets with any more are retired.
#[derive(Drop)]
pub struct Marks {
    ledger: MarksLedger,
}

const _: () = prove!(size_of::<Marks>() <= 4096);

impl Model for Marks {
    ghost use Rattle.version_update.specs.Marks.{MarksValue, AreVersionMarksSettled};

    ghost Value = { MarksValue };

    ghost view = { λ m. m.ledger };

    ghost invariant = { λ m. AreVersionMarksSettled m.ledger };
}

impl Marks {
    /// Every switch is a member in boot 1, with version 1.
    pub fn begin(switches: u32) -> Marks
        requires some { 1 ≤ switches }
        requires few { switches ≤ 64 }
        ensures marks { result ≡ first_marks switches }
        ensures rule { AreVersionMarksSettled result }
    {
        Marks {
            ledger: MarksLedger::begin(switches),
        }
    }

    /// The switch reported this boot: it is recorded if it is greater than the known one.
    pub fn hello(&mut self, s: u32, boot: u32) -> Settled
        requires { s < length self.old.switches }
        ensures taken { result.taken ≡ update_takes_hello boot (update_record_of self.old s) }
        ensures settled { SettlesVersionMarks (version_marks_with_switch_changed s (update_hello_recorded boot) self.old) self.new result }
        ensures rule { VersionMarksStaySettled self.old self.new }
    {
        let mut known = self.ledger.record(s);
        let taken = known.hello(boot);
        self.ledger.set_record(s, known);
        self.ledger.settle(taken)
    }

    /// The switch reported that it has this version's tables: this is recorded in the known boot
    /// of a switch that is not over.
    pub fn installed(&mut self, s: u32, boot: u32, version: u32) -> Settled
        requires switch { s < length self.old.switches }
        requires first { 1 ≤ version }
        requires last { version ≤ self.old.count }
        ensures taken { result.taken ≡ mark_takes_installed boot (update_record_of self.old s) }
        ensures settled { SettlesVersionMarks
            (version_marks_with_switch_changed s (mark_record_after_installed boot version) self.old) self.new result }
        ensures rule { VersionMarksStaySettled self.old self.new }
    {
        let mut known = self.ledger.record(s);
        let taken = known.installed(boot, version);
        self.ledger.set_record(s, known);
        self.ledger.settle(taken)
    }

    /// The switch reported that it stamps packets with this version: this is recorded in the known
    /// boot of a member.
    pub fn stamped(&mut self, s: u32, boot: u32, version: u32) -> Settled
        requires switch { s < length self.old.switches }
        requires first { 1 ≤ version }
        requires last { version ≤ self.old.count }
        ensures taken { result.taken ≡ update_takes_stamped boot (update_record_of self.old s) }
        ensures settled { SettlesVersionMarks
            (version_marks_with_switch_changed s (update_after_stamped boot version) self.old) self.new result }
        ensures rule { VersionMarksStaySettled self.old self.new }
    {
        let mut known = self.ledger.record(s);
        let taken = known.stamped(boot, version);
        self.ledger.set_record(s, known);
        self.ledger.settle(taken)
    }

    /// The switch was confirmed as down: it is over until it reports a greater boot.
    pub fn over(&mut self, s: u32) -> Settled
        requires { s < length self.old.switches }
        ensures taken { IsTrue result.taken }
        ensures settled { SettlesVersionMarks (version_marks_with_switch_changed s mark_record_after_over self.old) self.new result }
        ensures rule { VersionMarksStaySettled self.old self.new }
    {
        let mut known = self.ledger.record(s);
        known.over();
        self.ledger.set_record(s, known);
        self.ledger.settle(true)
    }

    /// Adds a version.
    ///
    /// # Errors
    /// `TooManyLive` exactly if 8 versions are not retired; otherwise `TooManyVersions`
    /// exactly if there are 64. Then nothing changed.
    pub fn submit(&mut self) -> Result<Settled, SubmitError>
        ensures settled { IfOk result (λ answer. SettlesVersionMarks (version_marks_with_version self.old) self.new answer) }
        ensures taken { IfOk result (λ answer. IsTrue answer.taken) }
        ensures live { (result ≡ Err TooManyLive) ↔ (self.old.count - self.old.retired ≡ 8) }
        ensures versions { (result ≡ Err TooManyVersions)
            ↔ ((self.old.count - self.old.retired ≢ 8) × (self.old.count ≡ 64)) }
        ensures refused { OnErr result (self.new ≡ self.old) }
        ensures rule { VersionMarksStaySettled self.old self.new }
    {
        if let Some(error) = self.refusal() {
            return Err(error);
        }
        self.ledger.add_version();
        Ok(self.ledger.settle(true))
    }

    /// Why no version can be added now: what `submit` returns as its error, if it returns one.
    pub fn refusal(&self) -> Option<SubmitError>
        ensures live { (result ≡ Some TooManyLive) ↔ (self.now.count - self.now.retired ≡ 8) }
        ensures versions { (result ≡ Some TooManyVersions)
            ↔ ((self.now.count - self.now.retired ≢ 8) × (self.now.count ≡ 64)) }
    {
        if self.count() - self.retired() == MAX_LIVE {
            return Some(SubmitError::TooManyLive);
        }
        if self.count() == MAX_VERSIONS {
            return Some(SubmitError::TooManyVersions);
        }
        None
    }

    /// The current version, which every member acknowledged.
    pub fn current(&self) -> u32
        ensures current { result ≡ self.now.current }
        ensures rule { AreVersionMarksSettled self.now }
    {
        self.ledger.current
    }

    /// The last version that is retired, or 0.
    pub fn retired(&self) -> u32
        ensures retired { result ≡ self.now.retired }
        ensures rule { AreVersionMarksSettled self.now }
    {
        self.ledger.retired
    }

    /// How many versions there are.
    pub fn count(&self) -> u32
        ensures count { result ≡ self.now.count }
        ensures rule { AreVersionMarksSettled self.now }
    {
        self.ledger.count
    }

    /// How many switches there are.
    pub fn switches(&self) -> u32
        ensures number { result ≡ length self.now.switches }
        ensures few { result ≤ 64 }
    {
        self.ledger.switches().len() as u32
    }

    /// The phase of the switch.
    pub fn phase(&self, s: u32) -> Phase
        requires { s < length self.now.switches }
        ensures { result ≡ (update_record_of self.now s).phase }
    {
        self.ledger.record(s).phase
    }

    /// The greatest boot that the switch reported, or 1.
    pub fn boot(&self, s: u32) -> u32
        requires { s < length self.now.switches }
        ensures { result ≡ (update_record_of self.now s).boot }
    {
        self.ledger.record(s).boot
    }

    /// Whether the switch acknowledged the version in the known boot.
    pub fn has_acked(&self, s: u32, version: u32) -> bool
        requires switch { s < length self.now.switches }
        requires first { 1 ≤ version }
        requires last { version ≤ self.now.count }
        ensures { result ≡ has_acked (update_record_of self.now s) version }
    {
        // For the proof: the contract of `count` says that the marks are settled.
        let _ = self.count();
        self.ledger.record(s).has_acked(version)
    }

    /// The version that a member was opened at.
    pub fn open_version(&self, s: u32) -> u32
        requires switch { s < length self.now.switches }
        requires member { IsTrue (is_member (update_record_of self.now s).phase) }
        ensures { result ≡ (update_record_of self.now s).open_version }
    {
        self.ledger.record(s).open_version
    }

    /// The greatest version that a member acknowledged to stamp packets with.
    pub fn acked_stamp(&self, s: u32) -> u32
        requires switch { s < length self.now.switches }
        requires member { IsTrue (is_member (update_record_of self.now s).phase) }
        ensures { result ≡ (update_record_of self.now s).acked_stamp }
    {
        self.ledger.record(s).acked_stamp
    }
}
