//! Headers of IPv4 five-tuples, the fields that match them, and the texts of both.
//!
//! A header is also one number of 104 bits that packs source, destination, ports and protocol; each
//! such number belongs to one header. Prefixes match as RFC 4632 says, ranges of ports include both
//! ends, and a protocol matches by its number. Each text is read exactly if its grammar has it, and
//! each printed form is read back. At most 30 blocks cover a range: they have exactly its ports,
//! each in one block. Laws, functions with an empty body, ensure the same if no call runs.
//!
//! A caller, which imports `option_map` from std, `address_prefix_matches` from `specs/Header.antt`
//! and `address_prefix_of` from `specs/Texts.antt`:
//!
//! ```rust
//! /// Whether a packet goes to the block of addresses that the text names, if it names one.
//! pub fn goes_to(packet: &Fields, block: &[u8]) -> Option<bool>
//!     ensures { result ≡ option_map (λ p. address_prefix_matches p packet.now.dst)
//!         (address_prefix_of block.now) }
//! {
//!     let block = read_prefix(block)?;
//!     Some(block.matches(packet.dst))
//! }
//! ```
#![tactic(auto)]

mod header;
mod matching;
mod port_blocks;
mod read;
mod write;

pub use header::{Fields, Header, header_laws};
pub use matching::{PortRange, Prefix, Proto};
pub use port_blocks::{Blocks, PortBlock, count_tuple_port_blocks, cover, tuple_port_cover_laws};
pub use read::{
    read_address, read_number, read_port, read_prefix, read_proto, read_proto_number, read_range,
    read_tuple_fields,
};
pub use write::{
    Address, Protocol, tuple_fields_print_plain, tuple_fields_read_back, write_address,
    write_prefix, write_proto, write_range,
};
