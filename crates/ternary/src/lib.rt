//! Words with free bits over header numbers of 104 bits, as a ternary content-addressable memory
//! matches them.
//!
//! A word fixes some bits and leaves the others free. Each operation is exact about the headers
//! that a word holds, and allocates nothing. The laws, functions with an empty body, ensure what is
//! true of all words, for proofs in which no call runs. `word_eq` compares words as keys of a map.
//!
//! A caller, which imports `IfSome` and `IsNone` from std, `AreDisjointWords` and `IsTernaryMeet`
//! from `specs/Meets.antt`:
//!
//! ```rust
//! /// The part of a rule that lies in a region.
//! pub fn part_in(rule: &Word, region: &Word) -> Option<Word>
//!     ensures part { IfSome result (λ part. IsTernaryMeet rule.now region.now part) }
//!     ensures none { IsNone result ↔ AreDisjointWords rule.now region.now }
//! {
//!     rule.meet(region)
//! }
//! ```
#![tactic(auto)]

mod laws;
mod word;

pub use laws::{
    any_laws, covers_laws, free_bits_laws, free_laws, holds_laws, meet_laws, ternary_exact_laws,
    word_fix_laws,
};
pub use word::{ALL_BITS, Word};
