ghost use Rattle.std.specs.Prelude.{◌≡◌};
ghost use Rattle.controller.specs.declared.plan_error.PlanError.TheVariants.{NoMemory};
ghost use Rattle.controller.specs.Causes.{controller_rules_plan_cause, controller_tree_plan_cause, controller_placement_plan_cause};

use base::Failure;
use cut_tree::TooManyLeaves;
use placement::NoRoom;
use policy_rules::TooManyWords;
use std::alloc::{AllocError, AllocFailed};
use thiserror::Error;

/// Why a policy has no plan on a network.
#[derive(Clone, Copy, Debug, PartialEq, Eq, Error)]
pub enum PlanError {
    /// Its rows have this many words, which are more than 4,096.
    #[error("the rows have {words} words")]
    TooManyWords { words: u64 },
    #[error("the tree has too many leaves")]
    TooManyLeaves,
    /// Too few switches have room for this partition, counted from 0: the first such one, by
    /// falling size and then by number.
    #[error("too few switches have room for partition {partition}")]
    NoRoom { partition: u32 },
    #[error("no memory")]
    NoMemory,
}

impl From<Failure<TooManyWords>> for PlanError {
    ghost from_gives = { λ error e. e ≡ controller_rules_plan_cause error };

    fn from(error: Failure<TooManyWords>) -> Self {
        match error {
            Failure::Refused(TooManyWords { words }) => PlanError::TooManyWords { words },
            Failure::NoMemory => PlanError::NoMemory,
        }
    }
}

impl From<Failure<TooManyLeaves>> for PlanError {
    ghost from_gives = { λ error e. e ≡ controller_tree_plan_cause error };

    fn from(error: Failure<TooManyLeaves>) -> Self {
        match error {
            Failure::Refused(TooManyLeaves) => PlanError::TooManyLeaves,
            Failure::NoMemory => PlanError::NoMemory,
        }
    }
}

impl From<Failure<NoRoom>> for PlanError {
    ghost from_gives = { λ error e. e ≡ controller_placement_plan_cause error };

    fn from(error: Failure<NoRoom>) -> Self {
        match error {
            Failure::Refused(NoRoom { partition }) => PlanError::NoRoom { partition },
            Failure::NoMemory => PlanError::NoMemory,
        }
    }
}

impl From<AllocError> for PlanError {
    ghost from_gives = { λ _ e. e ≡ NoMemory };

    fn from(_: AllocError) -> Self {
        PlanError::NoMemory
    }
}

impl<T: Drop> From<AllocFailed<T>> for PlanError {
    ghost from_gives = { λ _ e. e ≡ NoMemory };

    fn from(_: AllocFailed<T>) -> Self {
        PlanError::NoMemory
    }
}
