use base::Failure;
use thiserror::Error;

/// The bytes are the encoding of no message.
#[derive(Clone, Copy, Debug, PartialEq, Eq, Error)]
#[error("the bytes encode no message")]
pub struct Malformed;

/// Why bytes aren't decoded to a message: they are malformed, or memory ran out.
pub type WireError = Failure<Malformed>;
