use base::Failure;
use thiserror::Error;

/// The journal is full: so many messages were sent that no step begins.
#[derive(Clone, Copy, Debug, PartialEq, Eq, Error)]
#[error("so many messages were sent that no step begins")]
pub struct Full;

/// Why a step isn't taken, or, if memory ran out, only a part of it.
pub type StepError = Failure<Full>;
