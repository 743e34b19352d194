//! What a change of a policy touches, as it is sent to switches.
ghost use Rattle.std.specs.Prelude.{◌≡◌, ◌==◌, [], IfOk, OnOk, All, filter_map, find};
ghost use Rattle.std.specs.List.{flat_map};
ghost use Rattle.std.specs.Option.{option_copied, option_map_or};
ghost use Rattle.policy_rules.specs.Exports.{IsSoundPolicyRow};
ghost use Rattle.policy_rules.specs.Words.{words_of_policy_row};
ghost use Rattle.switch_table.specs.Carried.{cache_few_touched};
ghost use Rattle.controller.specs.Exports.{ControllerListsMoreTouched, controller_touched_few};

use policy_rules::{Amendment, Policy, Row, push_policy_row_words};
use std::alloc::{AllocError, Global};
use switch_table::Touched;
use ternary::Word;

/// The most words that are sent to switches.
const MAX_TOLD: usize = 16;

/// What a change touches of the policy to which it is applied: the words of the rows that it
/// removes, in the order of the removals, and then those of the rows that it adds. If these are
/// more than 16, it is everything.
///
/// # Errors
/// Only out of memory.
pub fn touched(alloc: Global, policy: &Policy, change: &Amendment) -> Result<Touched, AllocError>
    ensures { IfOk result (λ touched. touched ≡ controller_touched_few policy.now change.now) }
{
    let mut words = Vec::new(alloc);
    controller_touch_removed_rows(&mut words, policy.rows(), change.removed())?;
    controller_touch_added_rows(&mut words, change.added())?;
    Ok(controller_touched_by_words(words))
}

// These words, or everything, if there are too many to send.
fn controller_touched_by_words(words: Vec<Word>) -> Touched
    ensures { result ≡ cache_few_touched words.items }
{
    match Touched::new(words) {
        Some(touched) => touched,
        None => Touched::all(),
    }
}

// Adds the words of the rows of these priorities, up to the most that may be sent.
fn controller_touch_removed_rows(
    words: &mut Vec<Word>,
    rows: &[Row],
    removed: &[u32],
) -> Result<(), AllocError>
    requires { All IsSoundPolicyRow rows.now }
    ensures { OnOk result (ControllerListsMoreTouched words.old.items words.new.items (flat_map words_of_policy_row
        (filter_map (λ priority. find (λ row. row.priority == priority) rows.now) removed.now))) }
{
    for priority in removed {
        controller_touch_row_of(words, rows, *priority)?;
    }
    Ok(())
}

// Adds the words of the rows, up to the most that may be sent.
fn controller_touch_added_rows(words: &mut Vec<Word>, rows: &[Row]) -> Result<(), AllocError>
    requires { All IsSoundPolicyRow rows.now }
    ensures { OnOk result (ControllerListsMoreTouched words.old.items words.new.items
        (flat_map words_of_policy_row rows.now)) }
{
    for row in rows {
        controller_touch_row(words, row)?;
    }
    Ok(())
}

// Adds the words of the row of this priority, unless there are already more than may be sent: then
// it doesn't search for the row.
fn controller_touch_row_of(
    words: &mut Vec<Word>,
    rows: &[Row],
    priority: u32,
) -> Result<(), AllocError>
    requires { All IsSoundPolicyRow rows.now }
    ensures { OnOk result (ControllerListsMoreTouched words.old.items words.new.items
        (option_map_or words_of_policy_row (find (λ row. row.priority == priority) rows.now) [])) }
{
    if words.len() > MAX_TOLD {
        return Ok(());
    }
    match controller_row_of_priority(rows, priority) {
        Some(row) => controller_touch_row(words, row),
        None => Ok(()),
    }
}

fn controller_row_of_priority(rows: &[Row], priority: u32) -> Option<&Row>
    ensures { option_copied result ≡ find (λ row. row.priority == priority) rows.now }
{
    rows.iter().find(|row| row.priority == priority)
}

// Adds the words of a row, unless there are already more than may be sent.
fn controller_touch_row(words: &mut Vec<Word>, row: &Row) -> Result<(), AllocError>
    requires { IsSoundPolicyRow row.now }
    ensures { OnOk result (ControllerListsMoreTouched words.old.items words.new.items (words_of_policy_row row.now)) }
{
    if words.len() > MAX_TOLD {
        return Ok(());
    }
    push_policy_row_words(words, row)
}
