ghost use Rattle.std.specs.Prelude.{◌≡◌, ◌<◌, ◌^◌, IfOk, Some, length};
ghost use Rattle.ternary.specs.Meets.{word_fix_of};
ghost use Rattle.cut_tree.specs.Cuts.{IsCuttableBit, least_cut_cost_below, side_of_cut};
ghost use Rattle.cut_tree.specs.Narrow.{narrow};
ghost use Rattle.cut_tree.specs.Nodes.{AreCutNodeRules, AreCutRuleWords};

use crate::choice::{Cost, least_cut};
use crate::narrowing::{narrow, narrow_half};
use policy_rules::Rule;
use std::alloc::{AllocError, Global};
use ternary::Word;

/// A region, and the rules that decide its headers.
#[derive(Drop)]
pub struct Node {
    pub rules: Vec<Rule>,
    pub region: Word,
    ghost sound: { AreCutNodeRules rules.items region },
    ghost few: { length rules.items < 2 ^ 32 },
}

impl Node {
    /// The node of this region, with the rules that decide its headers.
    ///
    /// # Errors
    /// Only out of memory.
    pub fn new(alloc: Global, rules: &[Rule], region: &Word) -> Result<Node, AllocError>
        requires few { length rules.now < 2 ^ 32 }
        requires words { AreCutRuleWords rules.now }
        ensures rules { IfOk result (λ node. node.rules.items ≡ narrow rules.now region.now) }
        ensures region { IfOk result (λ node. node.region ≡ region.now) }
    {
        // For the proof: reading the mask yields the invariant `IsWord`.
        let _ = region.mask();
        let rules = narrow(alloc, rules, region)?;
        Ok(Node {
            rules,
            region: *region,
        })
    }

    /// The least cut. There is one, because a region with more than one rule has a free bit.
    pub fn least_cut(&self) -> Cost
        requires { 1 < length self.now.rules.items }
        ensures least { least_cut_cost_below 104 self.now.rules.items self.now.region ≡ Some result }
        ensures free { IsCuttableBit self.now.region result.bit }
    {
        match least_cut(&self.rules, &self.region) {
            Some(cost) => cost,
            None => unreachable!(),
        }
    }

    /// The half of this node in which the bit is 1 if `one` is true, otherwise 0.
    ///
    /// # Errors
    /// Only out of memory.
    pub fn half(&self, alloc: Global, bit: u32, one: bool) -> Result<Node, AllocError>
        requires { IsCuttableBit self.now.region bit }
        ensures rules { IfOk result (λ half.
            half.rules.items ≡ side_of_cut self.now.rules.items self.now.region bit one) }
        ensures region { IfOk result (λ half. half.region ≡ word_fix_of self.now.region bit one) }
    {
        let rules = narrow_half(alloc, &self.rules, &self.region, bit, one)?;
        Ok(Node {
            rules,
            region: self.region.fix(bit, one),
        })
    }
}
