ghost use Rattle.std.specs.Prelude.{◌≡◌, ◌≢◌, ◌<◌, OnErr, OnOk, unwrap_or};
ghost use Rattle.std.specs.Option.{option_copied};
ghost use Rattle.failover.specs.Links.{no_failover_links};
ghost use Rattle.travelling.specs.Travelling.{traveller_found_down_at, traveller_standing_kept};

use five_tuple::Header;
use journal::{DownSet, SharedLinks};
use std::alloc::{AllocError, Global};

/// A packet at a switch: as it enters, at the end of its route, or where its next link is down.
#[derive(Drop)]
pub struct Standing {
    pub packet: u32,
    pub header: Header,
    /// The switch where it entered.
    pub ingress: u32,
    pub switch: u32,
    /// The links that it found down; there is a set only if it found one.
    pub down: Option<SharedLinks>,
    /// The version of its decision; 0 before it.
    pub version: u32,
    /// The rule of its decision: a row's priority, or `None` for the default and before it.
    pub rule: Option<u32>,
}

impl Standing {
    /// Adds the link from its switch to this other one to the links that it found down.
    ///
    /// # Errors
    /// Only out of memory; then nothing changes.
    pub fn mark_down(&mut self, alloc: Global, other: u32) -> Result<(), AllocError>
        requires different { other ≢ self.old.switch }
        requires here { self.old.switch < 64 }
        requires switch { other < 64 }
        ensures marked { OnOk result
            (traveller_standing_kept self.new ≡ traveller_found_down_at (traveller_standing_kept self.old) other) }
        ensures rest { self.new ≡ record self.old { down = self.new.down } }
        ensures unchanged { OnErr result (self.new ≡ self.old) }
    {
        let mut down = match &self.down {
            None => DownSet::empty(),
            Some(links) => *links.get(),
        };
        down.add(self.switch, other);
        self.down = Some(SharedLinks::new(alloc, down)?);
        Ok(())
    }

    /// The links that it found down; `None` if it found none.
    pub fn links(&self) -> Option<&DownSet>
        ensures { unwrap_or (option_copied result) no_failover_links ≡ (traveller_standing_kept self.now).down }
    {
        match &self.down {
            None => None,
            Some(links) => Some(links.get()),
        }
    }
}
