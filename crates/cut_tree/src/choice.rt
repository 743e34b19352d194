ghost use Rattle.std.specs.Prelude.{ℕ, ◌≡◌, ◌≢◌, ◌+◌, ◌*◌, ◌<◌, ◌≤◌, ◌^◌, ◌↔◌, Bool, true, false, List, ◌∷◌, length, All, IsFalse, IsTrue};
ghost use Rattle.std.specs.Int.{bit_at, from_bool, trailing_zeros, w128};
ghost use Rattle.ternary.specs.Word.{WordValue};
ghost use Rattle.ternary.specs.Meets.{word_admits, word_covers_of, word_fix_of};
ghost use Rattle.policy_rules.specs.declared.rules.Rule.{Rule};
ghost use Rattle.cut_tree.specs.Counts.{IsCutPlaneHeight, cut_count_on_side, counted_cut_cost, expected_cut_side_count, AreNarrowInCutRegion, HaveCutSidesCounted, IsCutSideCounting, IsNarrowInCutRegion};
ghost use Rattle.cut_tree.specs.Cuts.{CutCostsAtMost, IsCuttableBit, cut_cost_from, least_cut_cost_below, side_of_cut};
ghost use Rattle.cut_tree.specs.Nodes.{LiesInCutRegion};

use crate::counters::CutCounters;
use policy_rules::Rule;
use ternary::{ALL_BITS, Word};

/// What it costs to cut a region at a bit.
#[derive(Clone, Copy)]
pub struct Cost {
    /// How many rules the larger side has.
    pub larger: u32,
    /// How many rules both sides have together.
    pub sum: u64,
    pub bit: u32,
}

impl Cost {
    fn new(bit: u32, low: u32, high: u32) -> Cost
        ensures { result ≡ cut_cost_from bit low high }
    {
        Cost {
            larger: low.max(high),
            sum: u64::from(low) + u64::from(high),
            bit,
        }
    }
}

/// The cost of the least cut of the region; `None` if no bit is free.
pub fn least_cut(rules: &[Rule], region: &Word) -> Option<Cost>
    requires few { length rules.now < 2 ^ 32 }
    requires within { All (LiesInCutRegion region.now) rules.now }
    ensures { result ≡ least_cut_cost_below 104 rules.now region.now }
{
    let free = free_bits_to_cut(region);
    if free == 0 {
        return None;
    }
    let (low, high) = count_cut_sides(rules, region);
    let height = low.counts.height(&high.counts);
    let bit = cut_tree_cheapest_bit(&low.counts, &high.counts, free, height);
    Some(Cost::new(
        bit,
        low.counts.count(bit, height),
        high.counts.count(bit, height),
    ))
}

/// The bits that the region leaves free, of the 104 of a header number.
pub fn free_bits_to_cut(region: &Word) -> u128
    ensures { (bit : ℕ) → (bit_at result bit ≡ 1) ↔ IsCuttableBit region.now bit }
{
    ALL_BITS & !region.mask()
}

// The first bit of the set whose cut costs least; the first `height` planes have all counts.
fn cut_tree_cheapest_bit(low: &CutCounters, high: &CutCounters, bits: u128, height: usize) -> u32
    requires some { bits ≢ 0 }
    requires low { IsCutPlaneHeight low.now.planes height }
    requires high { IsCutPlaneHeight high.now.planes height }
    ensures member { bit_at bits result ≡ 1 }
    ensures least { (other : ℕ) → bit_at bits other ≡ 1 →
        CutCostsAtMost (counted_cut_cost low.now.planes high.now.planes result)
        (counted_cut_cost low.now.planes high.now.planes other) }
{
    let above = high.more_than(low, height);
    let fewest = low.least(high, above, bits, height);
    let least = high.least(low, above, fewest, height);
    least.trailing_zeros()
}

// The rules of both halves at each bit, counted in one pass.
fn count_cut_sides(rules: &[Rule], region: &Word) -> (CutSide, CutSide)
    requires few { length rules.now < 2 ^ 32 }
    requires within { All (LiesInCutRegion region.now) rules.now }
    ensures low { HaveCutSidesCounted result.0 false rules.now region.now }
    ensures high { HaveCutSidesCounted result.1 true rules.now region.now }
{
    let mut low = CutSide::new(false);
    let mut high = CutSide::new(true);
    let mut place = 0;
    while place < rules.len() {
        place = count_next_rules(&mut low, &mut high, rules, place, region);
    }
    (low, high)
}

// Counts the next four rules, or only the next one if one of the four may cover a half or fewer
// are left. Returns the place of the rule after these.
fn count_next_rules(
    low: &mut CutSide,
    high: &mut CutSide,
    rules: &[Rule],
    place: usize,
    region: &Word,
) -> usize
    requires few { length rules.now < 2 ^ 32 }
    requires within { All (LiesInCutRegion region.now) rules.now }
    requires place { place < length rules.now }
    requires low { IsCutSideCounting low.old false rules.now region.now place }
    requires high { IsCutSideCounting high.old true rules.now region.now place }
    ensures low { IsCutSideCounting low.new false rules.now region.now result }
    ensures high { IsCutSideCounting high.new true rules.now region.now result }
    ensures later { place < result }
    ensures bound { result ≤ length rules.now }
{
    if rules.len() - place >= 4 {
        let a = &rules[place];
        let b = &rules[place + 1];
        let c = &rules[place + 2];
        let d = &rules[place + 3];
        let fit = are_narrow_in_cut(a, b, region) && are_narrow_in_cut(c, d, region);
        if fit {
            low.count_four(a, b, c, d, false);
            high.count_four(a, b, c, d, true);
            return place + 4;
        }
    }
    let rule = &rules[place];
    low.count(rule, region);
    high.count(rule, region);
    place + 1
}

// Whether both rules fix two bits or more that the region doesn't, so that neither covers a half.
fn are_narrow_in_cut(one: &Rule, other: &Rule, region: &Word) -> bool
    requires one { LiesInCutRegion region.now one.now }
    requires other { LiesInCutRegion region.now other.now }
    ensures one { IsTrue result → IsNarrowInCutRegion region.now one.now }
    ensures other { IsTrue result → IsNarrowInCutRegion region.now other.now }
{
    !fixes_few_cuttable_bits(&one.word, region) && !fixes_few_cuttable_bits(&other.word, region)
}

/// For each bit, how many rules one half of a region keeps: that in which the bit is 1 if `one` is
/// true, otherwise 0.
#[derive(Clone, Copy)]
pub struct CutSide {
    pub one: bool,
    pub counts: CutCounters,
    /// The bits whose half no rule has covered yet.
    pub open: u128,
}

impl CutSide {
    fn new(one: bool) -> CutSide
        ensures one { result.one ≡ one }
        ensures none { (bit : ℕ) → cut_count_on_side result bit ≡ 0 }
        ensures expected { (region : WordValue) (bit : ℕ) (rules : List Rule) → bit < 104 →
            expected_cut_side_count result region bit rules ≡ length (side_of_cut rules region bit one) }
    {
        CutSide {
            one,
            counts: CutCounters::new(),
            open: u128::MAX,
        }
    }

    // Counts the next rule in each half that keeps it.
    fn count(&mut self, rule: &Rule, region: &Word)
        requires room { (bit : ℕ) → cut_count_on_side self.old bit + 1 < 2 ^ 32 }
        requires within { LiesInCutRegion region.now rule.now }
        ensures one { self.new.one ≡ self.old.one }
        ensures few { (bit : ℕ) → cut_count_on_side self.new bit ≤ cut_count_on_side self.old bit + 1 }
        ensures expected { (bit : ℕ) (rules : List Rule) → IsCuttableBit region.now bit →
            expected_cut_side_count self.new region.now bit rules
            ≡ expected_cut_side_count self.old region.now bit (rule.now ∷ rules) }
    {
        let kept = pass(&mut self.open, self.one, rule, region);
        self.counts.add(kept);
    }

    // Counts the next four rules, which cover no half, in each half that they meet.
    #[inline(always)]
    fn count_four(&mut self, a: &Rule, b: &Rule, c: &Rule, d: &Rule, one: bool)
        requires one { self.old.one ≡ one }
        requires room { (bit : ℕ) → cut_count_on_side self.old bit + 4 < 2 ^ 32 }
        ensures one { self.new.one ≡ self.old.one }
        ensures few { (bit : ℕ) → cut_count_on_side self.new bit ≤ cut_count_on_side self.old bit + 4 }
        ensures expected { (region : WordValue) (bit : ℕ) (rules : List Rule) →
            AreNarrowInCutRegion region a.now b.now c.now d.now → IsCuttableBit region bit →
            expected_cut_side_count self.new region bit rules
            ≡ expected_cut_side_count self.old region bit (a.now ∷ b.now ∷ c.now ∷ d.now ∷ rules) }
    {
        let left = self.open;
        let first = cut_halves_met(&a.word, one);
        let second = cut_halves_met(&b.word, one);
        let third = cut_halves_met(&c.word, one);
        let fourth = cut_halves_met(&d.word, one);
        self.counts
            .add_four(left & first, left & second, left & third, left & fourth);
    }
}

// Of the bits that are left, those whose half keeps the next rule. Then only those bits are left
// whose half the rule doesn't cover.
fn pass(left: &mut u128, one: bool, rule: &Rule, region: &Word) -> u128
    requires { LiesInCutRegion region.now rule.now }
    ensures { (bit : ℕ) (rules : List Rule) → IsCuttableBit region.now bit →
        bit_at result bit + bit_at left.new bit * length (side_of_cut rules region.now bit one)
        ≡ bit_at left.old bit * length (side_of_cut (rule.now ∷ rules) region.now bit one) }
{
    let was = *left;
    let met = cut_halves_met(&rule.word, one);
    let may_cover = fixes_few_cuttable_bits(&rule.word, region);
    if !may_cover {
        return was & met;
    }
    let covered = cut_halves_covered(&rule.word, region, one);
    *left = was & !covered;
    was & met
}

// Whether the word fixes at most one bit more than the region; if not, it covers no half of it.
fn fixes_few_cuttable_bits(word: &Word, region: &Word) -> bool
    requires { IsTrue (word_covers_of region.now word.now) }
    ensures { IsFalse result → (bit : ℕ) (one : Bool) → IsCuttableBit region.now bit →
        IsFalse (word_covers_of word.now (word_fix_of region.now bit one)) }
{
    let fixed = word.mask() ^ region.mask();
    if fixed == 0 {
        true
    } else {
        is_one_cut_bit(fixed)
    }
}

// Whether a set of bits that isn't empty has only one bit.
#[inline(always)]
fn is_one_cut_bit(bits: u128) -> bool
    requires { bits ≢ 0 }
    ensures { IsTrue result ↔ (bits ≡ 2 ^ trailing_zeros w128 bits) }
{
    bits == 1 << bits.trailing_zeros()
}

// The bits whose half the word meets, if it meets the region.
fn cut_halves_met(word: &Word, one: bool) -> u128
    ensures { (bit : ℕ) → bit < 104 → bit_at result bit ≡ from_bool (word_admits word.now bit one) }
{
    let value = word.value();
    if one { value | !word.mask() } else { !value }
}

// The bits whose half the word covers.
fn cut_halves_covered(word: &Word, region: &Word, one: bool) -> u128
    requires { IsTrue (word_covers_of region.now word.now) }
    ensures { (bit : ℕ) → IsCuttableBit region.now bit →
        bit_at result bit ≡ from_bool (word_covers_of word.now (word_fix_of region.now bit one)) }
{
    let met = cut_halves_met(word, one);
    let fixed = word.mask() ^ region.mask();
    if fixed == 0 {
        met
    } else if is_one_cut_bit(fixed) {
        fixed & met
    } else {
        0
    }
}
