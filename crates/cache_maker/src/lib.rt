//! The word of the cache rule that an authority switch sends after a decision: as wide as can be,
//! with every header that it holds decided as before.
//!
//! An authority switch that decided a header sends the ingress a rule for all headers of a word.
//! The same rule of the partition is the first hit of each of them, so the word overlaps no earlier
//! rule; and none of its fixed bits can be freed. These are the independent rules of Yu, Rexford,
//! Freedman and Wang, "Scalable Flow-Based Networking with DIFANE". Nothing here allocates.
//!
//!     let place = first_hit(&rules, &header)?;
//!     let word = widen(&header, &region, &rules, place as u32);
#![tactic(auto)]

mod cache_word;
mod laws;

pub use cache_word::widen;
pub use laws::{independent_cache_word_laws, widen_laws};
