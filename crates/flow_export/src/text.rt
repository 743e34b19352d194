//! The text of flow records.
ghost use Rattle.std.specs.Prelude.{◌≡◌, ◌++◌, OnOk};
ghost use Rattle.std.specs.String.{string_bytes};
ghost use Rattle.flow_export.specs.Lines.{exported_flow_line, exported_flow_lines};

use meters::FlowRecord;
use std::alloc::AllocError;
use std::fmt::Write;

/// Adds a line for each record: its port, its header's fields and its packets.
///
/// # Errors
/// Only out of memory.
pub fn push_flows(text: &mut String, records: &[FlowRecord]) -> Result<(), AllocError>
    ensures { OnOk result (string_bytes text.new
        ≡ string_bytes text.old ++ exported_flow_lines records.now) }
{
    for record in records {
        push_flow(text, record)?;
    }
    Ok(())
}

// Adds the line of a record.
fn push_flow(text: &mut String, record: &FlowRecord) -> Result<(), AllocError>
    ensures { OnOk result (string_bytes text.new ≡ string_bytes text.old ++ exported_flow_line record.now) }
{
    let FlowRecord {
        port,
        header,
        packets,
    } = *record;
    let fields = header.fields();
    writeln!(text, "flow port {port} {fields} packets {packets}")?;
    Ok(())
}
