ghost use Rattle.std.specs.Prelude.{◌≡◌};
ghost use Rattle.base.specs.declared.error.Failure.TheVariants.{NoMemory};

use std::alloc::{AllocError, AllocFailed};
use std::fmt::Display;
use thiserror::Error;

/// Why a call returns no value: what it refuses, or that memory ran out.
#[derive(Clone, Copy, Debug, PartialEq, Eq, Error)]
#[error_bound(R: Display)]
pub enum Failure<R> {
    /// The call refuses its input, for this reason.
    #[error("{0}")]
    Refused(R),
    #[error("no memory")]
    NoMemory,
}

impl<R> From<AllocError> for Failure<R> {
    ghost from_gives = { λ _ e. e ≡ NoMemory };

    fn from(_: AllocError) -> Self {
        Failure::NoMemory
    }
}

impl<R, T: Drop> From<AllocFailed<T>> for Failure<R> {
    ghost from_gives = { λ _ e. e ≡ NoMemory };

    fn from(_: AllocFailed<T>) -> Self {
        Failure::NoMemory
    }
}
