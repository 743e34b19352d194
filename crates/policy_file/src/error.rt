ghost use Rattle.std.specs.Prelude.{◌≡◌};
ghost use Rattle.policy_file.specs.Reading.{policy_file_refusal_code};

use base::{Failure, InRow};
use thiserror::Error;

/// Why the text of a policy, or of a change, is refused.
#[derive(Clone, Copy, Debug, PartialEq, Eq, Error)]
pub enum PolicyRefusal {
    /// There is no first record, or it is not the heading.
    #[error("the heading is missing or wrong")]
    Header = 1,
    /// A policy's row doesn't have seven fields, or a change's row doesn't have seven after `add`
    /// or one after `remove`.
    #[error("the row has the wrong number of fields")]
    Width = 2,
    /// The priority isn't a number from 0 to 4294967295.
    #[error("the priority isn't a number")]
    Priority = 3,
    /// The source isn't a prefix.
    #[error("the source isn't a prefix")]
    Src = 4,
    /// The destination isn't a prefix.
    #[error("the destination isn't a prefix")]
    Dst = 5,
    /// The source ports aren't a range.
    #[error("the source ports aren't a range")]
    Sport = 6,
    /// The destination ports aren't a range.
    #[error("the destination ports aren't a range")]
    Dport = 7,
    /// No protocol has this name or number.
    #[error("there is no such protocol")]
    Proto = 8,
    /// The action is neither `drop` nor `out:` and a port from 0 to 63.
    #[error("there is no such action")]
    Action = 9,
    /// An earlier row has the same priority, and in a change also does the same.
    #[error("an earlier row has the same priority")]
    SamePriority = 10,
    /// There are more than 2,000 rows.
    #[error("there are too many rows")]
    TooManyRows = 11,
    /// The first field of a change's row is neither `remove` nor `add`.
    #[error("the first field is neither remove nor add")]
    Op = 22,
}

impl PolicyRefusal {
    /// The refusal's number, as it is printed: from 1 to 11, or 22.
    pub fn code(self) -> u32
        ensures { result ≡ policy_file_refusal_code self }
    {
        self as u32
    }
}

/// Why a text isn't read as a policy or a change, or that memory ran out. Rows are counted from 1;
/// the row of the heading is 0.
pub type PolicyError = Failure<InRow<PolicyRefusal>>;
