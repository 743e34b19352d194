ghost use Rattle.std.specs.Prelude.{◌≡◌, ◌≤◌, ◌++◌, IfOk, OnOk, codes, decimal, length};
ghost use Rattle.std.specs.List.{flat_map, enumerate_from};
ghost use Rattle.net_file.specs.Net.{IsNet, net_switch_name_of};
ghost use Rattle.switch_table.specs.Tables.{tables_of};
ghost use Rattle.show_text.specs.Text.{compile_text, shown_with_line_feed, shown_own_part_lines, shown_plan_part_text, shown_hosted_lines, shown_table_row_line, table_text, shown_plan_targets_text};

use crate::plan_lines::{show_part, show_region, show_rules, show_targets};
use controller::{Plan, tables_of};
use lines::{Line, push_name};
use net_file::{Net, switch_name_laws};
use policy_rules::{Partition, Targets, count_policy_match_words};
use std::alloc::{AllocError, Global};
use switch_table::{PartRow, Tables};

/// The version of the tables that a command prints.
const FIRST_VERSION: u32 = 1;

/// The text of a plan: how many words the policy has, how many partitions there are, and each of
/// them with its targets and its rules.
///
/// # Errors
/// Only out of memory.
pub fn compile_text(alloc: Global, plan: &Plan, net: &Net) -> Result<Vec<u8>, AllocError>
    requires { IsNet net.now }
    ensures { IfOk result (λ bytes.
        bytes.items ≡ compile_text plan.now.policy plan.now.hosted net.now) }
{
    let mut text = Vec::new(alloc);
    let mut entry = Line::new();
    let words = count_policy_match_words(plan.policy()) as u64;
    let hosted = plan.hosted();
    add_shown_count(&mut text, &mut entry, "words ", words)?;
    add_shown_count(&mut text, &mut entry, "partitions ", hosted.len() as u64)?;
    show_hosted(&mut text, &mut entry, net, hosted)?;
    Ok(text)
}

/// The text of the tables of a switch for version 1: its own partitions with their rules, and each
/// region with its targets.
///
/// # Errors
/// Only out of memory.
pub fn table_text(alloc: Global, plan: &Plan, net: &Net, s: u32) -> Result<Vec<u8>, AllocError>
    requires { IsNet net.now }
    ensures { IfOk result (λ bytes.
        bytes.items ≡ table_text s (tables_of plan.now.hosted 1 s) net.now) }
{
    let tables = tables_of(alloc, plan, FIRST_VERSION, s)?;
    text_of_tables(alloc, net, s, &tables)
}

#[tactic(auto, unfolding(crate::specs::Text::shown_own_parts_text, crate::specs::Text::shown_regions_text))]
fn text_of_tables(alloc: Global, net: &Net, s: u32, tables: &Tables) -> Result<Vec<u8>, AllocError>
    requires { IsNet net.now }
    ensures { IfOk result (λ bytes. bytes.items ≡ table_text s tables.now net.now) }
{
    let mut text = Vec::new(alloc);
    let mut entry = Line::new();
    show_switch_line(&mut entry, net, s, tables.version);
    text.extend_from_slice(entry.bytes())?;
    let own = tables.auth.items();
    add_shown_count(&mut text, &mut entry, "authority ", own.len() as u64)?;
    show_own_parts(&mut text, &mut entry, own)?;
    let rows = tables.parts.items();
    add_shown_count(&mut text, &mut entry, "partitions ", rows.len() as u64)?;
    show_table_rows(&mut text, &mut entry, net, rows)?;
    Ok(text)
}

// Sets the line to that of a switch and a version.
#[tactic(auto, using(lines::proofs::LinesCallerLemmas::pushed_append, lines::proofs::LinesCallerLemmas::pushed_whole, crate::proofs::PlanTextLengths::switch_fits))]
fn show_switch_line(entry: &mut Line, net: &Net, s: u32, version: u32)
    requires { IsNet net.now }
    ensures { entry.new
        ≡ shown_with_line_feed (codes "switch " ++ net_switch_name_of net.now s ++ codes " version " ++ decimal version) }
{
    switch_name_laws();
    entry.clear();
    entry.push("switch ");
    push_name(entry, net, s);
    entry.push(" version ");
    entry.push_number(u64::from(version));
    entry.push("\n");
}

// Sets the line to that of a number after its title.
#[tactic(auto, using(lines::proofs::LinesCallerLemmas::pushed_append, lines::proofs::LinesCallerLemmas::pushed_whole, crate::proofs::PlanTextLengths::count_fits))]
fn show_count_line(entry: &mut Line, title: &str, count: u64)
    requires { length title.now ≤ 100 }
    ensures { entry.new ≡ shown_with_line_feed (title.now ++ decimal count) }
{
    entry.clear();
    entry.push(title);
    entry.push_number(count);
    entry.push("\n");
}

fn add_shown_count(
    text: &mut Vec<u8>,
    entry: &mut Line,
    title: &str,
    count: u64,
) -> Result<(), AllocError>
    requires { length title.now ≤ 100 }
    ensures { OnOk result (text.new.items ≡ text.old.items ++ shown_with_line_feed (title.now ++ decimal count)) }
{
    show_count_line(entry, title, count);
    text.extend_from_slice(entry.bytes())
}

// Sets the line to that of a partition with its targets.
#[tactic(auto, using(lines::proofs::LinesCallerLemmas::pushed_append, lines::proofs::LinesCallerLemmas::pushed_whole, crate::proofs::PlanTextLengths::hosted_fits))]
fn show_hosted_line(entry: &mut Line, net: &Net, part: &Partition, targets: &Targets)
    requires { IsNet net.now }
    ensures { entry.new ≡ shown_with_line_feed (shown_plan_part_text part.now ++ shown_plan_targets_text net.now targets.now) }
{
    switch_name_laws();
    entry.clear();
    show_part(entry, part);
    show_targets(entry, net, targets);
    entry.push("\n");
}

fn show_hosted(
    text: &mut Vec<u8>,
    entry: &mut Line,
    net: &Net,
    hosted: &[(Partition, Targets)],
) -> Result<(), AllocError>
    requires { IsNet net.now }
    ensures { OnOk result (text.new.items
        ≡ text.old.items ++ flat_map (shown_hosted_lines net.now) hosted.now) }
{
    for (part, targets) in hosted {
        show_hosted_line(entry, net, part, targets);
        text.extend_from_slice(entry.bytes())?;
        show_rules(text, entry, part.rules.items())?;
    }
    Ok(())
}

// Sets the line to that of a partition.
#[tactic(auto, using(lines::proofs::LinesCallerLemmas::pushed_append, lines::proofs::LinesCallerLemmas::pushed_whole, crate::proofs::PlanTextLengths::part_fits))]
fn show_part_line(entry: &mut Line, part: &Partition)
    ensures { entry.new ≡ shown_with_line_feed (shown_plan_part_text part.now) }
{
    entry.clear();
    show_part(entry, part);
    entry.push("\n");
}

fn show_own_parts(
    text: &mut Vec<u8>,
    entry: &mut Line,
    parts: &[Partition],
) -> Result<(), AllocError>
    ensures { OnOk result (text.new.items ≡ text.old.items ++ flat_map shown_own_part_lines parts.now) }
{
    for part in parts {
        show_part_line(entry, part);
        text.extend_from_slice(entry.bytes())?;
        show_rules(text, entry, part.rules.items())?;
    }
    Ok(())
}

// Sets the line to that of the partition rule of a region.
#[tactic(auto, using(lines::proofs::LinesCallerLemmas::pushed_append, lines::proofs::LinesCallerLemmas::pushed_whole, crate::proofs::PlanTextLengths::row_fits))]
fn show_table_row_line(entry: &mut Line, net: &Net, number: u64, row: &PartRow)
    requires { IsNet net.now }
    ensures { entry.new ≡ shown_table_row_line net.now (number, row.now) }
{
    switch_name_laws();
    entry.clear();
    show_region(entry, number, &row.region);
    show_targets(entry, net, &row.targets);
    entry.push("\n");
}

fn show_table_rows(
    text: &mut Vec<u8>,
    entry: &mut Line,
    net: &Net,
    rows: &[PartRow],
) -> Result<(), AllocError>
    requires { IsNet net.now }
    ensures { OnOk result (text.new.items
        ≡ text.old.items ++ flat_map (shown_table_row_line net.now) (enumerate_from 0 rows.now)) }
{
    for (number, row) in rows.iter().enumerate() {
        show_table_row_line(entry, net, number as u64, row);
        text.extend_from_slice(entry.bytes())?;
    }
    Ok(())
}
