ghost use Rattle.std.specs.Prelude.{ℕ, ◌≡◌, ◌^◌, ◌/◌, ◌%◌, ◌<◌, ◌≤◌, ◌==◌, bit_and, bit_xor, length, slice_get, Some, All, IfSome, IsFalse, IsNone, IsSomeAnd, IsTrue, position, replicate};
ghost use Rattle.five_tuple.specs.Header.{header_number_of};
ghost use Rattle.ternary.specs.Word.{holds};
ghost use Rattle.ternary.specs.WordBits.{IsWord};
ghost use Rattle.ternary.specs.Meets.{is_word_bit_fixed, ternary_with_bit_freed};
ghost use Rattle.policy_rules.specs.Rules.{is_held_by_policy_rule};
ghost use Rattle.policy_rules.specs.declared.rules.Rule.{Rule};
ghost use Rattle.cache_maker.specs.Independent.{IsIndependentCacheWord, widen};
ghost use Rattle.cache_maker.specs.Differing.{AreFixedBitsWithoutReason, cache_widening_difference, meets_widened_word, rule_meets_widened_word};

use five_tuple::Header;
use policy_rules::Rule;
use ternary::{Word, covers_laws, free_laws, meet_laws, ternary_exact_laws};

/// The least number that has bits in its upper half.
const HALF: u128 = 1 << 64;

/// The word of a cache rule for a header. The rule at `index` is the first of the partition that
/// holds the header.
///
/// It begins with the word of only this header, and frees one bit after another, from the lowest,
/// if the region and the rule still cover the freed word and it overlaps no earlier rule. So a bit
/// stays fixed if the region or the rule fixes it. It also stays fixed if it is the highest bit in
/// which an earlier rule differs from the header, and no lower bit in which that rule differs stays
/// fixed. Then the bits in which that rule differs are the bit's reason. Few bits have a reason,
/// and the body looks only for these.
///
/// While the word of the fixed bits overlaps an earlier rule, the body also fixes the highest bit
/// in which that rule differs, and frees the bits whose reasons have that bit. Each time the fixed
/// bits come later in an order in which the lowest bit counts most, so the loop ends.
pub fn widen(h: &Header, region: &Word, rules: &[Rule], index: u32) -> Word
    requires region { IsTrue (holds region.now (header_number_of h.now)) }
    requires first_hit { position (is_held_by_policy_rule (header_number_of h.now)) rules.now ≡ Some index }
    ensures widened { result ≡ widen (header_number_of h.now) region.now rules.now index }
    ensures header { IsTrue (holds result (header_number_of h.now)) }
    ensures independent { IsIndependentCacheWord region.now rules.now index result }
    ensures widest { (bit : ℕ) → bit < 104 → IsTrue (is_word_bit_fixed result bit)
        → ¬ IsIndependentCacheWord region.now rules.now index (ternary_with_bit_freed result bit) }
    ensures word { IsWord result }
{
    cache_maker_words_are_sound(region, rules);
    covers_laws();
    meet_laws();
    ternary_exact_laws();
    free_laws();
    let number = h.number();
    let index = index as usize;
    let closed = region.mask() | rules[index].word.mask();
    let earlier = &rules[..index];
    let mut fixed = closed;
    let mut reasons = no_cache_word_reasons();
    let mut from = 0;
    while let Some(place) = next_cache_word_overlap(number, fixed, earlier, from) {
        let reason = differing(number, &earlier[place].word);
        let bit = reason.ilog2();
        fixed = closed | without(fixed ^ closed, &reasons, bit) | 1 << bit;
        reasons[bit as usize] = reason;
        from = place;
    }
    Word::new(number & fixed, fixed).unwrap()
}

fn no_cache_word_reasons() -> [u128; 104]
    ensures { result ≡ replicate 104 0 }
{
    [0; 104]
}

// The place of a rule that the word of these bits of the header meets; `None` if there is none. The
// search begins at the rule at `from`, and then at the first.
fn next_cache_word_overlap(h: u128, fixed: u128, rules: &[Rule], from: usize) -> Option<usize>
    requires { from ≤ length rules.now }
    ensures met { IfSome result (λ place. (place < length rules.now)
        × IsSomeAnd (slice_get rules.now place) (λ rule. IsTrue (rule_meets_widened_word h fixed rule))) }
    ensures none { IsNone result → All (λ rule. IsFalse (rule_meets_widened_word h fixed rule)) rules.now }
{
    let (before, after) = rules.split_at(from);
    match first_cache_word_overlap(h, fixed, after) {
        Some(place) => Some(from + place),
        None => first_cache_word_overlap(h, fixed, before),
    }
}

fn first_cache_word_overlap(h: u128, fixed: u128, rules: &[Rule]) -> Option<usize>
    ensures { result ≡ position (rule_meets_widened_word h fixed) rules.now }
{
    rules
        .iter()
        .position(|rule| meets_widened_word(h, fixed, &rule.word))
}

// Whether the word of these bits of the header meets another: mostly the upper halves decide.
fn meets_widened_word(h: u128, fixed: u128, word: &Word) -> bool
    ensures { result ≡ meets_widened_word h fixed word.now }
{
    let upper = (upper_cache_word_half(h) ^ upper_cache_word_half(word.value()))
        & upper_cache_word_half(word.mask());
    upper & upper_cache_word_half(fixed) == 0
        && cache_word_halves_meet(
            lower_cache_word_half(h),
            lower_cache_word_half(word.value()),
            lower_cache_word_half(word.mask()),
            lower_cache_word_half(fixed),
        )
}

// Whether h and the value are the same in the bits of the mask that are fixed. Not inlined, because
// the compiler would then compare both halves at once.
#[inline(never)]
fn cache_word_halves_meet(h: u64, value: u64, mask: u64, fixed: u64) -> bool
    ensures { result ≡ (bit_and (bit_and (bit_xor h value) mask) fixed == 0) }
{
    (h ^ value) & mask & fixed == 0
}

fn upper_cache_word_half(n: u128) -> u64
    ensures { result ≡ n / 2 ^ 64 }
{
    (n >> 64) as u64
}

fn lower_cache_word_half(n: u128) -> u64
    ensures { result ≡ n % 2 ^ 64 }
{
    (n % HALF) as u64
}

// The bits that the word fixes to a value that h doesn't have.
fn differing(h: u128, word: &Word) -> u128
    ensures { result ≡ cache_widening_difference h word.now }
{
    (h ^ word.value()) & word.mask()
}

// These bits without those whose reasons have this one.
fn without(fixed: u128, reasons: &[u128; 104], bit: u32) -> u128
    requires fixed { fixed < 2 ^ 104 }
    requires bit { bit < 104 }
    ensures { AreFixedBitsWithoutReason fixed reasons.now bit result }
{
    let mut stays = fixed;
    let mut left = fixed;
    while left != 0 {
        let place = left.trailing_zeros();
        if (reasons[place as usize] >> bit) % 2 != 0 {
            stays ^= 1 << place;
        }
        left ^= 1 << place;
    }
    stays
}

// For the proof: the region and the words of the rules satisfy `IsWord`.
fn cache_maker_words_are_sound(region: &Word, rules: &[Rule])
    ensures region { IsWord region.now }
    ensures rules { All (λ (rule : Rule). IsWord rule.word) rules.now }
{
    let _ = region.mask();
    for rule in rules {
        let _ = rule.word.mask();
    }
}
