ghost use Rattle.std.specs.Prelude.{◌≡◌};
ghost use Rattle.replay.specs.Playing.{replay_error_of};
ghost use Rattle.replay.specs.declared.error.ReplayError.TheVariants.{NoMemory};

use std::alloc::AllocError;
use thiserror::Error;
use world::PlanError;

/// Why nothing is played.
#[derive(Clone, Copy, Debug, PartialEq, Eq, Error)]
pub enum ReplayError {
    /// The first policy has no plan on the network.
    #[error("{0}")]
    Plan(PlanError),
    #[error("no memory")]
    NoMemory,
}

impl From<PlanError> for ReplayError {
    ghost from_gives = { λ error e. e ≡ replay_error_of error };

    fn from(error: PlanError) -> Self {
        match error {
            PlanError::NoMemory => ReplayError::NoMemory,
            other => ReplayError::Plan(other),
        }
    }
}

impl From<AllocError> for ReplayError {
    ghost from_gives = { λ _ e. e ≡ NoMemory };

    fn from(_: AllocError) -> Self {
        ReplayError::NoMemory
    }
}
