//! Messages as bytes: a canonical encoding, field by field, and frames of it that may come in any
//! order.
//!
//! `encode` returns the one encoding of a message, and `append` writes it; `decode` returns the
//! message of an encoding, and `Malformed` exactly if bytes are the encoding of no message. No two
//! messages have the same encoding. `split` returns the frames of a message. An `Assembler` keeps
//! frames by their places; it returns the message exactly when it has all of its frames, and
//! refuses a frame exactly for a stated cause. An error leaves an `Assembler` unchanged.
//!
//! ```text
//! let frames = split(alloc, &message)?;
//! let mut assembler = Assembler::new(alloc);
//! while let Some(frame) = next_frame(&frames) {
//!     if let Some(message) = assembler.feed(frame)? {
//!         return Ok(message);
//!     }
//! }
//! ```
#![tactic(auto)]

mod assembler;
mod assembly;
mod codec;
mod error;
mod fields;
mod frame;
mod frames;
mod front;
mod list;
mod parts;
mod reader;
mod writer;

pub use assembler::Assembler;
pub use codec::{append, decode, encode};
pub use error::{Malformed, WireError};
pub use frame::HEADER_LEN;
pub use frames::{Frames, set_wire_receiver, split};
pub use front::{append_install_front, decode_front};
