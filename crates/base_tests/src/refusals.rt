//! Tables of what a reader refuses.
use std::alloc::{AllocError, Global};

/// The first of these cases that isn't refused with its code at this row, if each is put between
/// these two texts; `None` if all are.
pub fn first_other<'a, F: Fn(Global, &[u8]) -> Option<(u32, u32)>>(
    alloc: Global,
    around: (&str, &str),
    row: u32,
    cases: &[(&'a str, u32)],
    refused: F,
) -> Result<Option<&'a str>, AllocError>
    requires { F.IsAlwaysCallable refused }
{
    let (before, behind) = around;
    for (case, code) in cases {
        let text = format!(in alloc; "{before}{case}{behind}")?;
        if refused(alloc, text.as_bytes()) != Some((*code, row)) {
            return Ok(Some(*case));
        }
    }
    Ok(None)
}
