//! Access-control policies: prioritised rows of five-tuple fields, the first match of a header
//! among them, the list of a policy's rules over ternary words, and changes of policies.
//!
//! `Policy::scan` returns the first match: of all rows that match a header, the one that no
//! matching row exceeds in priority, and a drop if no row matches. `to_rules` returns the defined
//! list, in which the first rule that holds a header has the rule and the action of that first
//! match. `apply` returns the policy with a change applied to it: the rows that stay, in order, and
//! then the added ones. `policy_laws`, `row_words_laws`, `rule_list_laws` and `amendment_laws` are
//! about the definitions only.
//!
//! ```text
//! fn first_rule(alloc: Global, rows: Vec<Row>, header: &Header) -> anyhow::Result<Option<Rule>> {
//!     let policy = Policy::new(alloc, rows)?;  // SamePriority, if two rows share a priority
//!     let rules = to_rules(alloc, &policy)?;   // TooManyWords, if there are more than 4,096
//!     let place = first_hit(&rules, header);   // always some: the last rule holds each header
//!     Ok(place.map(|place| rules[place]))      // decides as policy.scan(header) does
//! }
//!
//! fn replace(alloc: Global, policy: &Policy, row: Row) -> anyhow::Result<Policy> {
//!     let removed = Vec::from_slice(alloc, &[row.priority])?;
//!     let change = Amendment::new(alloc, removed, Vec::from_slice(alloc, &[row])?)?;
//!     Ok(apply(alloc, policy, &change)?)       // Absent, if no row has the priority
//! }
//! ```
#![tactic(auto)]

mod amendment;
mod applying;
mod file;
mod laws;
mod packet;
mod policy;
mod print;
mod read;
mod rule_list;
mod rules;
mod targets;
mod words;

pub use amendment::{Amendment, Edit, Repeated};
pub use applying::{ApplyError, Inapplicable, MAX_ROWS, apply};
pub use file::PolicyFile;
pub use five_tuple::{Fields, Header, PortRange, Prefix, Proto};
pub use laws::{amendment_laws, policy_laws, row_words_laws, rule_list_laws};
pub use packet::{Cause, How, Leaving, Leg};
pub use policy::{Action, Hit, Policy, Row, SamePriority};
pub use print::RuleName;
pub use read::{printed_rule_actions_read_back, read_policy_rule_action};
pub use rule_list::{TooManyWords, count_policy_match_words, to_rules};
pub use rules::{Partition, Rule, Rules, first_hit};
pub use targets::Targets;
pub use words::push_policy_row_words;
