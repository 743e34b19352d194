ghost use Rattle.std.specs.Prelude.{◌≡◌, ◌≤◌};
ghost use Rattle.schedule.specs.Refusals.{schedule_code};

use base::{Failure, InRow};
use thiserror::Error;

/// Why a schedule's text is refused.
#[derive(Clone, Copy, Debug, PartialEq, Eq, Error)]
pub enum ScheduleRefusal {
    /// There is no first record, or it is not the heading.
    #[error("the heading is missing or wrong")]
    Header = 1,
    /// The row has another number of fields than its kind needs.
    #[error("the row has the wrong number of fields for its kind")]
    Width = 2,
    /// The first field isn't the keyword of a kind.
    #[error("there is no such kind of row")]
    Kind = 3,
    /// No switch has the name.
    #[error("no switch has this name")]
    Switch = 4,
    /// A packet, a message or a place isn't a number from 0 to 999999999.
    #[error("a packet, a message or a place isn't a number")]
    Number = 5,
    /// A field of the packet's header isn't an address, a port or a protocol.
    #[error("a field of the packet's header can't be read")]
    Address = 6,
    /// The file isn't a number from 1 to the count of the policy files.
    #[error("there is no policy file of this number")]
    File = 7,
    /// There are more than 100,000 rows.
    #[error("there are too many rows")]
    TooManyRows = 8,
    /// No link joins the two switches.
    #[error("no link joins the two switches")]
    NoLink = 9,
}

impl ScheduleRefusal {
    /// The refusal's number, from 1 to 9 in the order of the variants.
    pub fn code(self) -> u32
        ensures code { result ≡ schedule_code self }
        ensures some { 1 ≤ result }
        ensures most { result ≤ 9 }
    {
        self as u32
    }
}

/// Why a text isn't read as a schedule. Rows are counted from 1; the row of the heading is 0.
pub type ScheduleError = Failure<InRow<ScheduleRefusal>>;
