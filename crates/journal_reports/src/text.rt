ghost use Rattle.std.specs.Prelude.{◌≡◌, ◌++◌, IfOk, OnOk};
ghost use Rattle.std.specs.String.{string_bytes};
ghost use Rattle.journal_reports.specs.Summary.{summary_count_line, summary_text};

use crate::summary::Summary;
use std::alloc::{AllocError, Global};
use std::fmt::Write;

/// The lines of a summary: each a title, a blank and a number.
///
/// # Errors
/// Only out of memory.
pub fn summary_text(alloc: Global, summary: &Summary) -> Result<Vec<u8>, AllocError>
    ensures { IfOk result (λ bytes. bytes.items ≡ summary_text summary.now) }
{
    let mut text = String::new(alloc);
    push_summary_line(&mut text, "packets", summary.packets)?;
    push_summary_line(&mut text, "closed", summary.closed)?;
    push_summary_line(&mut text, "delivered", summary.delivered)?;
    push_summary_line(&mut text, "dropped", summary.dropped)?;
    push_summary_line(&mut text, "lost", summary.lost)?;
    push_summary_line(&mut text, "stuck", summary.stuck)?;
    push_summary_line(&mut text, "travelling", summary.travelling)?;
    push_summary_line(&mut text, "cached", summary.cached)?;
    push_summary_line(&mut text, "messages", summary.messages)?;
    push_summary_line(&mut text, "current", summary.current as usize)?;
    push_summary_line(&mut text, "retired", summary.retired as usize)?;
    Ok(text.into_bytes())
}

// Appends a line with a title and a count.
fn push_summary_line(text: &mut String, title: &str, count: usize) -> Result<(), AllocError>
    ensures { OnOk result (string_bytes text.new
        ≡ string_bytes text.old ++ summary_count_line title.now count) }
{
    writeln!(text, "{title} {count}")?;
    Ok(())
}
