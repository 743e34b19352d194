//! What each kind of meter does: the trait `Meter`.
ghost use Rattle.std.specs.Prelude.{◌≡◌, length, IfOk};
ghost use Rattle.meters.specs.Meters.{IsMeterNoted, meter_flow_records_of};
ghost use Rattle.meters.specs.Seen.{SeenMeter};

use crate::flows::Flows;
use policy_rules::Leaving;
use std::alloc::AllocError;

/// What a meter returns for a leaving.
#[derive(Clone, Copy, Debug, PartialEq, Eq)]
pub enum Stay {
    /// It recorded the leaving, and stays.
    Stay,
    /// It recorded the leaving, and its list is complete: the board takes it out.
    Leave,
    /// It ran out of memory, and is unchanged.
    NoMemory,
}

/// A recorder at a port, which keeps the list of the leavings that it recorded.
pub trait Meter: Drop {
    /// What contracts know about it.
    ghost seen: { Self → SeenMeter };

    /// Its port.
    fn port(&self) -> u32
        ensures { result ≡ (seen self.now).port };

    /// Appends the leaving to its list, and says whether the list is then complete.
    fn note(&mut self, leaving: &Leaving) -> Stay
        ensures { IsMeterNoted leaving.now (seen self.old) (seen self.new) result };

    /// How many leavings it has recorded.
    fn notes(&self) -> u64
        ensures { result ≡ length (seen self.now).held };

    /// The flow records of its list, by its kind.
    ///
    /// # Errors
    /// Only out of memory.
    fn records(&self) -> Result<Flows, AllocError>
        ensures { IfOk result (λ flows. flows ≡ meter_flow_records_of (seen self.now)) };
}

impl Meter for Box<dyn Meter> {
    ghost seen = { λ m. (Meter-box m).seen m.value };

    fn port(&self) -> u32 {
        (**self).port()
    }

    fn note(&mut self, leaving: &Leaving) -> Stay {
        (**self).note(leaving)
    }

    fn notes(&self) -> u64 {
        (**self).notes()
    }

    fn records(&self) -> Result<Flows, AllocError> {
        (**self).records()
    }
}
