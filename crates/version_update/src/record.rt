ghost use Rattle.std.specs.Prelude.{◌≡◌, ◌<◌, ◌≤◌};
ghost use Rattle.version_update.specs.Record.{is_member, has_acked, first_update_record, update_takes_hello, update_hello_recorded, mark_takes_installed, mark_record_after_installed, update_takes_stamped, update_after_stamped, mark_record_after_over, update_joining_opens_at, opened_update_record};

use base::has;

/// The phase of a switch with respect to the versions of a policy.
#[derive(Clone, Copy, Debug, PartialEq, Eq)]
pub enum Phase {
    /// It reported a boot, and was not opened in it yet.
    Joining,
    /// It was opened, and decides packets.
    Member,
    /// It was confirmed as down; a greater boot brings it back.
    Over,
}

/// What the controller knows about one switch.
#[derive(Clone, Copy)]
pub struct SwitchRecord {
    /// The greatest boot that the switch reported.
    pub boot: u32,
    pub phase: Phase,
    /// The versions that it acknowledged in this boot: version v is the bit v - 1.
    pub acked: u64,
    /// The version that a member was opened at.
    pub open_version: u32,
    /// The greatest version that a member acknowledged to stamp packets with.
    pub acked_stamp: u32,
}

impl SwitchRecord {
    /// Every switch at the start: a member in boot 1, with version 1.
    pub fn first() -> SwitchRecord
        ensures { result ≡ first_update_record }
    {
        SwitchRecord {
            boot: 1,
            phase: Phase::Member,
            acked: 1,
            open_version: 1,
            acked_stamp: 1,
        }
    }

    pub fn is_member(&self) -> bool
        ensures { result ≡ is_member self.now.phase }
    {
        self.phase == Phase::Member
    }

    pub fn has_acked(&self, version: u32) -> bool
        requires first { 1 ≤ version }
        requires last { version ≤ 64 }
        ensures { result ≡ has_acked self.now version }
    {
        has(self.acked, version - 1)
    }

    pub fn hello(&mut self, boot: u32) -> bool
        ensures taken { result ≡ update_takes_hello boot self.old }
        ensures after { self.new ≡ update_hello_recorded boot self.old }
    {
        let taken = self.boot < boot;
        if taken {
            *self = SwitchRecord {
                boot,
                phase: Phase::Joining,
                acked: 0,
                open_version: 0,
                acked_stamp: 0,
            };
        }
        taken
    }

    pub fn installed(&mut self, boot: u32, version: u32) -> bool
        requires first { 1 ≤ version }
        requires last { version ≤ 64 }
        ensures taken { result ≡ mark_takes_installed boot self.old }
        ensures after { self.new ≡ mark_record_after_installed boot version self.old }
    {
        let taken = self.boot == boot && self.phase != Phase::Over;
        if taken {
            self.acked |= 1 << (version - 1);
        }
        taken
    }

    pub fn stamped(&mut self, boot: u32, version: u32) -> bool
        ensures taken { result ≡ update_takes_stamped boot self.old }
        ensures after { self.new ≡ update_after_stamped boot version self.old }
    {
        let taken = self.boot == boot && self.is_member();
        if taken {
            self.acked_stamp = self.acked_stamp.max(version);
        }
        taken
    }

    pub fn over(&mut self)
        ensures { self.new ≡ mark_record_after_over self.old }
    {
        self.phase = Phase::Over;
    }

    /// Opens a joining switch that acknowledged the current version, and returns whether it did.
    pub fn open_if_acked(&mut self, current: u32) -> bool
        requires first { 1 ≤ current }
        requires last { current ≤ 64 }
        ensures opens { result ≡ update_joining_opens_at current self.old }
        ensures after { self.new ≡ opened_update_record current self.old }
    {
        let opens = self.phase == Phase::Joining && self.has_acked(current);
        if opens {
            self.phase = Phase::Member;
            self.open_version = current;
            self.acked_stamp = current;
        }
        opens
    }
}
