ghost use Rattle.std.specs.Prelude.{◌≡◌, ◌≤◌, ◌<◌, ◌^◌, ◌++◌, OnOk, length};
ghost use Rattle.show_text.specs.Text.{shown_with_line_feed, shown_plan_part_text, shown_plan_region_text, shown_rule_lines, shown_rule_text, shown_plan_targets_text};
ghost use Rattle.lines.specs.Pushes.{line_with};

use lines::{Line, push_line_action, push_line_word, push_names, push_rule};
use net_file::Net;
use policy_rules::{Partition, Rule, Targets};
use std::alloc::AllocError;
use ternary::Word;

/// Adds the start of a partition's line: its number and its region.
#[tactic(auto, using(lines::proofs::LinesCallerLemmas::pushed_append))]
pub fn show_region(entry: &mut Line, number: u64, region: &Word)
    ensures { entry.new ≡ line_with entry.old (shown_plan_region_text number region.now) }
{
    entry.push("part ");
    entry.push_number(number);
    entry.push(" region ");
    push_line_word(entry, region);
}

/// Adds a partition with the number of its rules.
#[tactic(auto, using(lines::proofs::LinesCallerLemmas::pushed_append))]
pub fn show_part(entry: &mut Line, part: &Partition)
    ensures text { entry.new ≡ line_with entry.old (shown_plan_part_text part.now) }
    ensures of_type { (part.now.number < 2 ^ 64) × (length part.now.rules < 2 ^ 64) }
{
    show_region(entry, u64::from(part.number), &part.region);
    entry.push(" rules ");
    entry.push_number(part.rules.items().len() as u64);
}

/// Adds the names of targets, each after a blank.
#[tactic(auto, using(lines::proofs::LinesCallerLemmas::pushed_append))]
pub fn show_targets(entry: &mut Line, net: &Net, targets: &Targets)
    ensures text { entry.new ≡ line_with entry.old (shown_plan_targets_text net.now targets.now) }
    ensures few { length targets.now ≤ 4 }
{
    entry.push(" targets");
    push_names(entry, net, targets.items());
}

// Sets the line to that of a rule.
fn show_rule_line(entry: &mut Line, rule: &Rule)
    ensures { entry.new ≡ shown_with_line_feed (shown_rule_text rule.now) }
{
    entry.clear();
    entry.push("  rank ");
    entry.push_number(u64::from(rule.rank));
    entry.push(" rule ");
    push_rule(entry, rule.rule);
    entry.push(" word ");
    push_line_word(entry, &rule.word);
    entry.push(" ");
    push_line_action(entry, rule.action);
    entry.push("\n");
}

/// Appends the lines of rules to the text; fails only out of memory.
pub fn show_rules(text: &mut Vec<u8>, entry: &mut Line, rules: &[Rule]) -> Result<(), AllocError>
    ensures { OnOk result (text.new.items ≡ text.old.items ++ shown_rule_lines rules.now) }
{
    for rule in rules {
        show_rule_line(entry, rule);
        text.extend_from_slice(entry.bytes())?;
    }
    Ok(())
}
