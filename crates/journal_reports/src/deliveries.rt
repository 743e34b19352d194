//! Which messages were delivered, as marks by their numbers: one past the end wasn't.
ghost use Rattle.std.specs.Prelude.{ℕ, ◌≡◌, ◌||◌, false, OnOk, slice_index_or};
ghost use Rattle.update_machine.specs.Messages.{is_machine_delivery_item};
ghost use Rattle.journal_reports.specs.Judging.{ReportMarksOneMore};

use journal::Item;
use std::alloc::AllocError;

/// Updates the marks by one more item.
///
/// # Errors
/// Only out of memory.
pub fn mark_delivery_for_report(marks: &mut Vec<bool>, item: &Item) -> Result<(), AllocError>
    ensures { OnOk result ((n : ℕ) → slice_index_or marks.new.items n false
        ≡ (is_machine_delivery_item n item.now || slice_index_or marks.old.items n false)) }
{
    match item {
        Item::Delivered { number } => mark(marks, *number as usize),
        _ => Ok(()),
    }
}

// Marks the message of this number as delivered.
fn mark(marks: &mut Vec<bool>, number: usize) -> Result<(), AllocError>
    ensures { OnOk result (ReportMarksOneMore number marks.old.items marks.new.items) }
{
    while marks.len() <= number {
        marks.push(false)?;
    }
    marks[number] = true;
    Ok(())
}

/// Whether the message of this number has the mark.
pub fn is_report_delivery_marked(marks: &[bool], number: u32) -> bool
    ensures { result ≡ slice_index_or marks.now number false }
{
    match marks.get(number as usize) {
        Some(mark) => *mark,
        None => false,
    }
}
