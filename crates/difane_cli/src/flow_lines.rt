//! The text of flow records.
ghost use Rattle.std.specs.Prelude.{◌≡◌, IfOk, map};
ghost use Rattle.difane_cli.specs.FlowLines.{program_flow_text};

use flow_export::push_flows;
use meters::{Flows, Meter};
use std::alloc::{AllocError, Global};

/// The text with a line for each record of the meters that left, and then of those that stayed.
///
/// # Errors
/// Only out of memory.
pub fn program_flow_text<M: Meter>(
    alloc: Global,
    gone: &Flows,
    meters: &[M],
) -> Result<Vec<u8>, AllocError>
    ensures { IfOk result (λ text. text.items ≡ program_flow_text gone.now (map M.seen meters.now)) }
{
    let mut text = String::new(alloc);
    push_flows(&mut text, gone.items())?;
    for meter in meters {
        let flows = meter.records()?;
        push_flows(&mut text, flows.items())?;
    }
    Ok(text.into_bytes())
}
