//! Why a call returns no value; lists and shared values for the other crates; sets of small
//! numbers; and the limits of a network.
//!
//! A `Failure` is out of memory, or a refusal: each call has its own type of refusals, with their
//! messages. `?` turns an `AllocError` into a `Failure`. A reader of a text returns its refusals as
//! `InRow`. `Items` own their items; the clones of a `SharedList` share its items, and those of a
//! `Shared` its value. Contracts see only the items and the value. A mask is a set of numbers below
//! 64, such as switches or ports, kept as the bits of a number.
//!
//! ```text
//! pub fn build(alloc: Global, rules: &[Rule], cap: u32) -> Result<Tree, Failure<TooManyLeaves>>
//!
//! let route = Shared::new(alloc, route)?;
//! let same = route.clone()?; // copies no route
//!
//! let ends = with(only_if(true, 3), 5); // 0b101000
//! has(ends, 5) // true
//! ```
#![tactic(auto)]

mod error;
mod items;
mod limits;
mod masks;
mod row;
mod shared;
mod shared_list;

pub use error::Failure;
pub use items::Items;
pub use limits::{MAX_SWITCHES, MAX_VERSIONS};
pub use masks::{has, only_if, small_number_mask_laws, with};
pub use row::InRow;
pub use shared::Shared;
pub use shared_list::SharedList;
