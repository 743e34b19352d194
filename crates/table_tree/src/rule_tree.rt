ghost use Rattle.std.specs.Prelude.{◌≡◌, ◌<◌, ◌^◌, IfOk, IfSome, IsTrue, find, length, position};
ghost use Rattle.std.specs.Option.{option_copied};
ghost use Rattle.five_tuple.specs.Header.{header_number_of};
ghost use Rattle.ternary.specs.Word.{holds};
ghost use Rattle.policy_rules.specs.Rules.{is_held_by_policy_rule};
ghost use Rattle.cut_tree.specs.Nodes.{AreCutRuleWords};
ghost use Rattle.table_tree.specs.Ruling.{is_held_by_lookup_rule, table_tree_ranked_rules, table_tree_rule_shape, table_rule_tree};

use crate::bit_tree::BitTree;
use crate::rule_node::grow;
use cut_tree::Node;
use five_tuple::Header;
use policy_rules::Rule;
use std::alloc::{AllocError, Global};
use ternary::Word;

/// The most cuts on a path from the root.
const MAX_CUTS: u32 = 12;

/// A tree over the rules of a region: it leads each header to the places of the few rules that may
/// be the first to hold it.
#[derive(Debug, Drop)]
pub struct RuleTree {
    pub region: Word,
    pub root: BitTree<Vec<u32>>,
}

impl RuleTree {
    /// The tree of these rules in this region.
    ///
    /// A node is cut at its free bit that costs least if it has more than 16 rules and fewer than
    /// 12 cuts above it. Its larger side must have fewer rules, and both sides together at most
    /// five quarters of its rules.
    ///
    /// # Errors
    /// Only out of memory.
    #[tactic(auto, unfolding(crate::specs::Ruling::table_rule_tree))]
    pub fn build(alloc: Global, rules: &[Rule], region: &Word) -> Result<RuleTree, AllocError>
        requires { length rules.now < 2 ^ 32 }
        ensures region { IfOk result (λ tree. tree.region ≡ region.now) }
        ensures tree { IfOk result (λ tree.
            table_tree_rule_shape tree.root ≡ table_rule_tree rules.now region.now) }
    {
        let ranked = ranked_table_tree_rules(alloc, rules)?;
        let node = Node::new(alloc, &ranked, region)?;
        let root = grow(alloc, node, MAX_CUTS)?;
        Ok(RuleTree {
            region: *region,
            root,
        })
    }

    /// The place of the first of the rules that holds the header, as `first_hit` returns it; the
    /// rules are those that the tree was built of. It allocates nothing.
    pub fn first(&self, rules: &[Rule], header: &Header) -> Option<usize>
        requires built { table_tree_rule_shape self.now.root ≡ table_rule_tree rules.now self.now.region }
        requires header { IsTrue (holds self.now.region (header_number_of header.now)) }
        ensures place { result ≡ position (is_held_by_policy_rule (header_number_of header.now)) rules.now }
        ensures small { IfSome result (λ place. place < 2 ^ 32) }
    {
        let number = header.number();
        match first_table_tree_place(self.root.end_of(number), rules, number) {
            Some(place) => Some(*place as usize),
            None => None,
        }
    }
}

// The first of the places whose rule holds the number.
fn first_table_tree_place<'a>(places: &'a [u32], rules: &[Rule], number: u128) -> Option<&'a u32>
    ensures { option_copied result ≡ find (is_held_by_lookup_rule rules.now number) places.now }
{
    places
        .iter()
        .find(|place| rule_holds_at(rules, **place, number))
}

// Whether there is a rule at the place that holds the number.
fn rule_holds_at(rules: &[Rule], place: u32, number: u128) -> bool
    ensures { result ≡ is_held_by_lookup_rule rules.now number place }
{
    match rules.get(place as usize) {
        Some(rule) => rule.word.holds(number),
        None => false,
    }
}

// The rules, each with its place as its rank.
fn ranked_table_tree_rules(alloc: Global, rules: &[Rule]) -> Result<Vec<Rule>, AllocError>
    requires { length rules.now < 2 ^ 32 }
    ensures rules { IfOk result (λ ranked. ranked.items ≡ table_tree_ranked_rules 0 rules.now) }
    ensures words { IfOk result (λ ranked. AreCutRuleWords ranked.items) }
{
    let mut ranked = Vec::with_capacity(alloc, rules.len())?;
    for rule in rules {
        let rank = ranked.len() as u32;
        // For the proof: reading the mask yields the invariant `IsWord`.
        let _ = rule.word.mask();
        ranked.push(Rule { rank, ..*rule })?;
    }
    Ok(ranked)
}
