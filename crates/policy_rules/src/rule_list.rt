ghost use Rattle.std.specs.Prelude.{◌≡◌, ◌+◌, ◌<◌, ◌≤◌, ◌^◌, ◌∷◌, [], All, Err, IfOk, IfErr, OnOk, Some, option_map, length};
ghost use Rattle.base.specs.Refusals.{IfRefused};
ghost use Rattle.base.specs.declared.error.Failure.TheVariants.{Refused};
ghost use Rattle.five_tuple.specs.Exports.{IsHeader};
ghost use Rattle.five_tuple.specs.declared.header.Header.{Header};
ghost use Rattle.policy_rules.specs.Exports.{AppendsRankedPolicyRules, IsPolicy, IsPolicyRuleList, IsSoundPolicyRow, RefusesPolicyRuleList, policy_rows_by_falling_priority, policy_row_word_hits, first_policy_rule, policy_hit_of_rule, policy_rules_ranked_from, policy_rules_of, scan, policy_hits_with_default, policy_row_word_total};

use crate::laws::rule_list_laws;
use crate::policy::{Hit, Policy, Row};
use crate::rules::Rule;
use crate::words::push_policy_row_words;
use base::Failure;
use five_tuple::count_tuple_port_blocks;
use std::alloc::{AllocError, Global};
use std::cmp::Reverse;
use ternary::Word;
use thiserror::Error;

/// The most words that the rows of a policy may have.
const MAX_WORDS: u64 = 4096;

/// Why a policy has no list of rules: its rows have this many words, which are more than 4,096.
#[derive(Clone, Copy, Debug, PartialEq, Eq, Error)]
#[error("the rows have {words} words")]
pub struct TooManyWords {
    pub words: u64,
}

/// The rules of a policy: for each row, by falling priority, a rule for each pair of a block of its
/// source ports and one of its destination ports, the source block outermost. Last comes the
/// default, whose word holds each header.
///
/// # Errors
/// `TooManyWords` exactly if the rows have more than 4,096 words together; this is checked
/// before anything is allocated. Otherwise only out of memory.
pub fn to_rules(alloc: Global, policy: &Policy) -> Result<Vec<Rule>, Failure<TooManyWords>>
    ensures rules { IfOk result (λ rules. rules.items ≡ policy_rules_of policy.now) }
    ensures first_match { IfOk result (λ rules. (header : Header) → IsHeader header →
        option_map policy_hit_of_rule (first_policy_rule rules.items header) ≡ Some (scan policy.now header)) }
    ensures list { IfOk result (λ rules. IsPolicyRuleList rules.items) }
    ensures count { IfOk result (λ rules. length rules.items ≡ policy_row_word_total policy.now + 1) }
    ensures few { OnOk result (policy_row_word_total policy.now ≤ 4096) }
    ensures policy { OnOk result (IsPolicy policy.now) }
    ensures refused { IfErr result (IfRefused (RefusesPolicyRuleList policy.now)) }
    ensures many { 4096 < policy_row_word_total policy.now
        → result ≡ Err (Refused (record { words = policy_row_word_total policy.now })) }
{
    rule_list_laws();
    let words = count_policy_match_words(policy);
    if words > MAX_WORDS {
        return Err(Failure::Refused(TooManyWords { words }));
    }
    let sorted = by_falling_priority(alloc, policy.rows())?;
    let rules = list_rules(alloc, &sorted, words as usize + 1)?;
    Ok(rules)
}

/// How many words the rows of the policy have together: as many as it has rules before the default.
pub fn count_policy_match_words(policy: &Policy) -> u64
    ensures { result ≡ policy_row_word_total policy.now }
{
    let mut words = 0;
    for row in policy.rows() {
        words += u64::from(
            count_tuple_port_blocks(&row.sport) * count_tuple_port_blocks(&row.dport),
        );
    }
    words
}

fn by_falling_priority(alloc: Global, rows: &[Row]) -> Result<Vec<Row>, AllocError>
    requires { IsPolicy rows.now }
    ensures { IfOk result (λ v. v.items ≡ policy_rows_by_falling_priority rows.now) }
{
    let mut sorted = Vec::from_slice(alloc, rows)?;
    // A stable sort is fast if only a few rows are out of order.
    sorted.sort_by_key(|row| Reverse(row.priority))?;
    Ok(sorted)
}

// The rules of rows that are given by falling priority, in a list with room for this many.
fn list_rules(alloc: Global, rows: &[Row], room: usize) -> Result<Vec<Rule>, AllocError>
    requires few { policy_row_word_total rows.now ≤ 4096 }
    requires sound { All IsSoundPolicyRow rows.now }
    ensures { IfOk result (λ rules. rules.items ≡ policy_rules_ranked_from 0 (policy_hits_with_default rows.now)) }
{
    let mut rules = Vec::with_capacity(alloc, room)?;
    let mut words = Vec::new(alloc);
    for row in rows {
        push_policy_row_rules(&mut rules, &mut words, row)?;
    }
    push_policy_rule(&mut rules, Word::any(), Hit::DEFAULT)?;
    Ok(rules)
}

// Adds the rules of the row's words. `words` is a buffer: what was in it is replaced.
fn push_policy_row_rules(
    rules: &mut Vec<Rule>,
    words: &mut Vec<Word>,
    row: &Row,
) -> Result<(), AllocError>
    requires few { length rules.old.items ≤ 4096 }
    requires row { IsSoundPolicyRow row.now }
    ensures { OnOk result (AppendsRankedPolicyRules rules.old.items rules.new.items (policy_row_word_hits row.now)) }
{
    words.clear();
    push_policy_row_words(words, row)?;
    for word in words.as_slice() {
        push_policy_rule(rules, *word, Hit::of(row))?;
    }
    Ok(())
}

fn push_policy_rule(rules: &mut Vec<Rule>, word: Word, hit: Hit) -> Result<(), AllocError>
    requires { length rules.old.items < 2 ^ 32 }
    ensures { OnOk result (AppendsRankedPolicyRules rules.old.items rules.new.items ((word, hit) ∷ [])) }
{
    let rank = rules.len() as u32;
    rules.push(Rule {
        word,
        rank,
        rule: hit.rule,
        action: hit.action,
    })?;
    Ok(())
}
