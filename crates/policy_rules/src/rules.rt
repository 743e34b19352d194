ghost use Rattle.std.specs.Prelude.{◌≡◌, ◌<◌, length, position, slice_get, IfSome};
ghost use Rattle.std.specs.Option.{option_and_then};
ghost use Rattle.five_tuple.specs.Header.{IsHeader, header_number_of};
ghost use Rattle.policy_rules.specs.Rules.{is_held_by_policy_rule, first_policy_rule};

use crate::policy::Action;
use base::SharedList;
use five_tuple::Header;
use ternary::Word;

/// A rule as a switch has it: a row of a policy, or its default, for the headers of one word.
///
/// Of the rules that hold a header, the one of the least rank decides.
#[derive(Clone, Copy, Debug, PartialEq, Eq)]
pub struct Rule {
    pub word: Word,
    /// The place in the list of all rules of the policy, from 0.
    pub rank: u32,
    /// The priority of the row, or `None` for the default.
    pub rule: Option<u32>,
    pub action: Action,
}

/// A list of rules that its clones share.
pub type Rules = SharedList<Rule>;

/// A part of the header space, and the rules that decide its headers. A clone shares the rules.
#[derive(Clone, Debug, Drop)]
pub struct Partition {
    /// The place in the list of all partitions of the policy, from 0.
    pub number: u32,
    /// The headers of this part.
    pub region: Word,
    pub rules: Rules,
}

/// The place of the first rule whose word holds the header; `None` if no word does.
pub fn first_hit(rules: &[Rule], header: &Header) -> Option<usize>
    ensures place { result ≡ position (is_held_by_policy_rule (header_number_of header.now)) rules.now }
    ensures bound { IfSome result (λ place. place < length rules.now) }
    ensures rule { option_and_then (slice_get rules.now) result ≡ first_policy_rule rules.now header.now }
    ensures header { IsHeader header.now }
{
    policy_rule_place(rules, header.number())
}

fn policy_rule_place(rules: &[Rule], number: u128) -> Option<usize>
    ensures { result ≡ position (is_held_by_policy_rule number) rules.now }
{
    rules.iter().position(|rule| rule.word.holds(number))
}
