ghost use Rattle.std.specs.Prelude.{◌≡◌, ◌<◌, All, IfOk, IsTrue};
ghost use Rattle.ternary.specs.Word.{WordValue};
ghost use Rattle.ternary.specs.WordBits.{IsWord};
ghost use Rattle.ternary.specs.Meets.{word_covers_of, word_fix_of, word_meet_of};
ghost use Rattle.cut_tree.specs.Cuts.{IsCuttableBit, side_of_cut};
ghost use Rattle.cut_tree.specs.Narrow.{narrow};
ghost use Rattle.cut_tree.specs.Nodes.{LiesInCutRegion};

use policy_rules::Rule;
use std::alloc::{AllocError, Global};
use ternary::{Word, holds_laws};

/// The rules that decide the headers of the region: in order those that meet it, up to and
/// including the first that covers it, each cut down to the region.
///
/// # Errors
/// Only out of memory.
#[tactic(auto, using(crate::proofs::CutNarrowing::narrow_past))]
pub fn narrow(alloc: Global, rules: &[Rule], region: &Word) -> Result<Vec<Rule>, AllocError>
    ensures { IfOk result (λ kept. kept.items ≡ narrow rules.now region.now) }
{
    let mut kept = Vec::with_capacity(alloc, rules.len())?;
    for rule in rules {
        let Some(word) = rule.word.meet(region) else {
            continue;
        };
        let mut own = *rule;
        own.word = word;
        kept.push(own)?;
        // The rule covers the region if it fixes no bit that the region leaves free.
        let is_whole = word.mask() == region.mask();
        if is_whole {
            return Ok(kept);
        }
    }
    Ok(kept)
}

/// The same for a half of a region that contains the rules: in order those that meet the half, up
/// to and including the first that covers it, each cut down to the half.
///
/// # Errors
/// Only out of memory.
pub fn narrow_half(
    alloc: Global,
    rules: &[Rule],
    region: &Word,
    bit: u32,
    one: bool,
) -> Result<Vec<Rule>, AllocError>
    requires free { IsCuttableBit region.now bit }
    requires within { All (LiesInCutRegion region.now) rules.now }
    ensures { IfOk result (λ kept. kept.items ≡ side_of_cut rules.now region.now bit one) }
{
    // For the proof: reading the mask yields the invariant `IsWord`.
    let _ = region.mask();
    let whole = region.fix(bit, one).mask();
    let mut kept = Vec::with_capacity(alloc, rules.len())?;
    for rule in rules {
        let Some(word) = cut_word_with_bit(&rule.word, bit, one) else {
            continue;
        };
        let mut own = *rule;
        own.word = word;
        kept.push(own)?;
        let is_whole = word.mask() == whole;
        if is_whole {
            return Ok(kept);
        }
    }
    Ok(kept)
}

// The word of the headers of a word that have this bit: its meet with this half of a region that
// contains it; `None` if there are no such headers.
fn cut_word_with_bit(word: &Word, bit: u32, one: bool) -> Option<Word>
    requires { bit < 104 }
    ensures { (region : WordValue) → IsWord region → IsCuttableBit region bit →
        IsTrue (word_covers_of region word.now) → result ≡ word_meet_of word.now (word_fix_of region bit one) }
{
    holds_laws();
    // For the proof: reading the mask yields the invariant `IsWord`.
    let _ = word.mask();
    if !word.is_fixed(bit) {
        return Some(word.fix(bit, one));
    }
    let is_one = (word.value() >> bit) & 1 == 1;
    if is_one == one { Some(*word) } else { None }
}
