//! The codes by which a policy or a change of one is refused, in a journal's item as for a command.
ghost use Rattle.std.specs.Prelude.{◌≡◌};
ghost use Rattle.world.specs.Files.{world_plan_code_of};

use controller::PlanError;

/// Its rows have too many words.
const TOO_MANY_WORDS: u32 = 12;

/// Its tree has too many leaves.
const TOO_MANY_LEAVES: u32 = 14;

/// Too few switches have room for one of its partitions.
const NO_ROOM: u32 = 15;

/// It has a plan, but eight versions aren't retired yet.
pub const TOO_MANY_LIVE: u32 = 16;

/// It has a plan, but there are 64 versions already.
pub const TOO_MANY_VERSIONS: u32 = 17;

/// The change removes a row that the newest policy doesn't have.
pub const ABSENT: u32 = 24;

/// The change adds a row with the priority of one that stays.
pub const TAKEN: u32 = 25;

/// The change would leave too many rows.
pub const TOO_MANY_ROWS: u32 = 26;

/// The code of why a policy has no plan; `None` exactly if memory ran out.
pub fn code_of(error: PlanError) -> Option<u32>
    ensures { result ≡ world_plan_code_of error }
{
    match error {
        PlanError::TooManyWords { .. } => Some(TOO_MANY_WORDS),
        PlanError::TooManyLeaves => Some(TOO_MANY_LEAVES),
        PlanError::NoRoom { .. } => Some(NO_ROOM),
        PlanError::NoMemory => None,
    }
}
