//! What a switch keeps of its rules: the tables of a version, the cache of learnt rules with its
//! slots and masks, and the lookup of a header.
//!
//! Contracts see a `Cache` as a list: each call is an operation on the list of its entries, and
//! running out of memory changes nothing. `learnt_cache_laws` says of lists only that no call makes
//! two entries of one version and word. `learnt_cache_carry_laws` says that a change of the policy
//! removes no rule that it doesn't touch, unless the cache has one of the same word under the new
//! version. `lookup` returns the first cached rule of the tables' version, otherwise the first
//! authority rule, otherwise the redirect; it allocates nothing. `tables_laws` says of the tables
//! that a plan gives a switch that they are sound and say what the plan says. They lead each header
//! to the policy's first match, by the switch's own rules or by those of any target.
#![tactic(auto)]

mod cache;
mod items;
mod key;
mod live;
mod masks;
mod search;
mod slots;
mod tables;
mod touched;

pub use cache::{Cache, CacheEntry, learnt_cache_carry_laws, learnt_cache_laws};
pub use items::CacheItems;
pub use search::{Found, lookup, tables_laws};
pub use tables::{PartRow, PartRows, Partitions, Tables};
pub use touched::Touched;
