//! A header that several tests use.
use five_tuple::{Fields, Header};

/// The header of a packet of TCP between these addresses, from port 5000 to port 80.
pub fn web_header(src: u32, dst: u32) -> Header {
    Header::pack(&Fields {
        src,
        dst,
        sport: 5000,
        dport: 80,
        proto: 6,
    })
}
