//! Networks as TOML text: switches with their ports and rooms, links, and three settings.
//!
//! `read_net` returns the network that a text states, or the text's first refusal and its row.
//! `Net` looks up which switch has a name or a port, and which switches links join, without
//! allocating.
//!
//! ```text
//! let net = read_net(alloc, b"switch = [{ name = \"a\", ports = [1] }]")?;
//! let switch = net.ports().owner(1); // Some(0), the number of `a`
//! ```
#![tactic(auto)]

mod error;
mod keys;
mod laws;
mod links;
mod names;
mod net;
mod ports;
mod read;
mod switches;

pub use error::{NetError, NetRefusal};
pub use laws::{net_file_link_laws, net_laws, net_port_laws, switch_name_laws};
pub use net::{LinkRow, Links, Name, Net, SwitchRow, Switches, solo};
pub use ports::Ports;
pub use read::read_net;
pub use switches::is_name;
