ghost use Rattle.std.specs.Prelude.{◌≡◌, ◌≢◌, ◌^◌, ◌<◌, ◌≤◌, ◌&&◌, ◌||◌, ◌==◌, ◌⊎◌, ◌↔◌, ℕ, bit_and, false, true, Some, IsTrue, IsFalse, IsSome, IsNone, IfSome};
ghost use Rattle.std.specs.Int.{bit_at, from_bool};
ghost use Rattle.ternary.specs.Word.{WordValue, holds, ternary_word_text};
ghost use Rattle.ternary.specs.WordBits.{IsWord};
ghost use Rattle.ternary.specs.Meets.{AgreesOnWordMask, WordIncludes, AreDisjointWords, IsTernaryMeet, any_word, exact_word, word_meet_of, word_meets, word_covers_of, ternary_with_bit, is_word_bit_fixed, word_fix_of, ternary_with_bit_freed};

use std::fmt;
use std::marker::Model;

/// The mask of all 104 bits of a header number.
pub const ALL_BITS: u128 = (1 << 104) - 1;

/// A set of header numbers, given by the bits that it fixes: a header is in it if it agrees with
/// the value on each bit of the mask.
///
/// A bit of the mask is fixed, every other bit is free. Value and mask are below 2^104, and no bit
/// of the value is outside the mask, so equal sets are equal words.
#[derive(Clone, Copy, Debug, PartialEq, Eq, Hash)]
pub struct Word {
    value: u128,
    mask: u128,
}

impl Model for Word {
    ghost use Rattle.ternary.specs.Word.{WordValue};
    ghost use Rattle.ternary.specs.WordBits.{IsWord};

    ghost Value = { WordValue };

    ghost view = { λ w. record { value = w.value; mask = w.mask } };

    ghost invariant = { λ w. IsWord (record { value = w.value; mask = w.mask }) };

    ghost inverse = { λ w. record { value = w.value; mask = w.mask } };
}

impl Word {
    /// The word of this pair; `None` if the value has a bit outside the mask, or the mask has a bit
    /// above bit 103.
    pub fn new(value: u128, mask: u128) -> Option<Word>
        ensures pair { IfSome result (λ w. (w ≡ record { value = value; mask = mask }) × IsWord w) }
        ensures taken { let pair : WordValue = record { value = value; mask = mask } in
            IsSome result ↔ IsWord pair }
        ensures none { IsNone result ↔ ((bit_and value mask ≢ value) ⊎ (2 ^ 104 ≤ mask)) }
    {
        if value & mask == value && mask <= ALL_BITS {
            Some(Word { value, mask })
        } else {
            None
        }
    }

    /// The word of every header.
    pub fn any() -> Word
        ensures pair { result ≡ any_word }
        ensures all { (h : ℕ) → IsTrue (holds result h) }
        ensures word { IsWord result }
    {
        Word { value: 0, mask: 0 }
    }

    /// The word of this one header number.
    pub fn exact(h: u128) -> Word
        requires { h < 2 ^ 104 }
        ensures pair { result ≡ exact_word h }
        ensures alone { (x : ℕ) → x < 2 ^ 104 → (IsTrue (holds result x) ↔ (x ≡ h)) }
        ensures word { IsWord result }
    {
        Word {
            value: h,
            mask: ALL_BITS,
        }
    }

    /// The fixed bits that are 1.
    pub fn value(&self) -> u128
        ensures value { result ≡ self.now.value }
        ensures bound { result < 2 ^ 104 }
        ensures word { IsWord self.now }
    {
        self.value
    }

    /// The fixed bits.
    pub fn mask(&self) -> u128
        ensures mask { result ≡ self.now.mask }
        ensures bound { result < 2 ^ 104 }
        ensures word { IsWord self.now }
    {
        self.mask
    }

    /// Whether the word holds this header number.
    pub fn holds(&self, h: u128) -> bool
        ensures test { result ≡ holds self.now h }
        ensures agrees { IsTrue result ↔ AgreesOnWordMask self.now h }
        ensures word { IsWord self.now }
    {
        h & self.mask == self.value
    }

    /// The word of the headers that both words hold; `None` if there are none.
    pub fn meet(&self, other: &Word) -> Option<Word>
        ensures pair { result ≡ word_meet_of self.now other.now }
        ensures both { IfSome result (λ m. IsTernaryMeet self.now other.now m × IsWord m) }
        ensures none { IsNone result ↔ AreDisjointWords self.now other.now }
        ensures words { IsWord self.now × IsWord other.now }
    {
        let common = self.mask & other.mask;
        if self.value & common == other.value & common {
            Some(Word {
                value: self.value | other.value,
                mask: self.mask | other.mask,
            })
        } else {
            None
        }
    }

    /// Whether this word holds each header that `other` holds.
    #[tactic(auto, unfolding(crate::specs::Meets::word_covers_of))]
    pub fn covers(&self, other: &Word) -> bool
        ensures test { result ≡ word_covers_of self.now other.now }
        ensures inclusion { IsTrue result ↔ WordIncludes self.now other.now }
        ensures words { IsWord self.now × IsWord other.now }
    {
        self.mask & other.mask == self.mask && other.value & self.mask == self.value
    }

    /// Whether both words hold some header.
    #[tactic(auto, using(crate::proofs::TernaryCallerLemmas::meet_is_some))]
    pub fn meets(&self, other: &Word) -> bool
        ensures { result ≡ word_meets self.now other.now }
    {
        self.meet(other).is_some()
    }

    /// Whether this bit, counted from the lowest, is fixed.
    pub fn is_fixed(&self, bit: u32) -> bool
        requires { bit < 104 }
        ensures { result ≡ is_word_bit_fixed self.now bit }
    {
        (self.mask >> bit) & 1 == 1
    }

    /// The half of this word whose free bit `bit` is 1 if `one` is true, otherwise 0.
    pub fn fix(&self, bit: u32, one: bool) -> Word
        requires bound { bit < 104 }
        requires free { IsFalse (is_word_bit_fixed self.now bit) }
        ensures pair { result ≡ word_fix_of self.now bit one }
        ensures half { (h : ℕ) →
            holds result h ≡ (holds self.now h && (bit_at h bit == from_bool one)) }
        ensures word { IsWord result }
    {
        Word {
            value: self.value | (u128::from(one) << bit),
            mask: self.mask | (1 << bit),
        }
    }

    /// This word with the bit `bit` free: it holds the headers that this word holds with the bit
    /// set to 0 or to 1.
    pub fn free(&self, bit: u32) -> Word
        requires { bit < 104 }
        ensures pair { result ≡ ternary_with_bit_freed self.now bit }
        ensures either { (h : ℕ) → holds result h ≡
            (holds self.now (ternary_with_bit h bit false) || holds self.now (ternary_with_bit h bit true)) }
        ensures word { IsWord result }
    {
        let others = !(1u128 << bit);
        Word {
            value: self.value & others,
            mask: self.mask & others,
        }
    }
}

/// Printed as value and mask with a slash between them, each in 26 lower-case hexadecimal digits.
#[tactic(auto, unfolding(crate::specs::Word::ternary_word_text))]
impl fmt::Display for Word {
    ghost output = { λ w. Some (ternary_word_text w) };

    fn fmt<W: fmt::Write>(&self, f: &mut fmt::Formatter<W>) -> fmt::Result {
        let value = Hex { number: self.value };
        let mask = Hex { number: self.mask };
        write!(f, "{value}/{mask}")
    }
}

// A number below 2^104, printed in 26 hexadecimal digits: 10 digits, and 16 for the low 64 bits,
// because the contract of `{:x}` covers at most 64 bits.
#[derive(Drop)]
struct Hex {
    number: u128,
    ghost bound: { number < 2 ^ 104 },
}

impl fmt::Display for Hex {
    ghost use Rattle.std.specs.Prelude.{Some};
    ghost use Rattle.ternary.specs.Word.{word_hex_digits};

    ghost output = { λ hex. Some (word_hex_digits 26 hex.number) };

    fn fmt<W: fmt::Write>(&self, f: &mut fmt::Formatter<W>) -> fmt::Result {
        let high = (self.number >> 64) as u64;
        let low = (self.number & u128::from(u64::MAX)) as u64;
        write!(f, "{high:010x}{low:016x}")
    }
}
