use std::fmt::Display;
use thiserror::Error;

/// Why a text is refused, and in which row.
#[derive(Clone, Copy, Debug, PartialEq, Eq, Error)]
#[error("row {row}: {refusal}")]
#[error_bound(R: Display)]
pub struct InRow<R> {
    /// Why it is refused.
    pub refusal: R,
    /// The row, as the reader counts them; 0 if the refusal belongs to no row.
    pub row: u32,
}
