//! Link-state adverts, and the routes that a switch finds over the links that both ends name.
//!
//! `Database` holds the newest advert of each origin. `Database::route` returns the path to the
//! first target that a path of known links reaches: one with the fewest links, and of those the
//! least as a list; `None` exactly if no path reaches any target. Nothing here allocates.
//!
//! ```text
//! let mut base = Database::begin(&near, 4);
//! base.hear(&advert);
//! let route = base.route(0, &targets, near[0], &DownSet::empty())?;
//! let next = route.items().get(1);
//! ```
#![tactic(auto)]

mod advert;
mod database;
mod down_set;
mod laws;
mod links;
mod path;
mod search;

pub use advert::Advert;
pub use database::Database;
pub use down_set::DownSet;
pub use laws::{advert_laws, link_laws, link_set_laws, route_laws};
pub use path::Route;
