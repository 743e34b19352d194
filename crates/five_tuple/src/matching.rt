ghost use Rattle.std.specs.Prelude.{◌≡◌, ◌≤◌};
ghost use Rattle.five_tuple.specs.Exports.{IsAddressBlock, address_block_round, address_prefix_matches, proto_matches, port_range_matches};

use std::marker::Model;

/// The addresses that agree with `address` in the first `len` bits (RFC 4632, section 3.1).
///
/// `len` is at most 32, and the bits of `address` beyond the first `len` are 0.
#[derive(Clone, Copy, Debug, PartialEq, Eq)]
pub struct Prefix {
    pub address: u32,
    pub len: u32,
}

impl Model for Prefix {
    ghost use Rattle.five_tuple.specs.Header.{AddressBlock};
    ghost use Rattle.five_tuple.specs.SoundFields.{IsAddressBlock};

    ghost Value = { AddressBlock };

    ghost view = { λ p. record { address = p.address; len = p.len } };

    ghost invariant = { λ p. IsAddressBlock (record { address = p.address; len = p.len }) };

    ghost inverse = { λ v. record { address = v.address; len = v.len } };
}

impl Prefix {
    /// The block of this length that has the address: the bits beyond the first `len` are cleared.
    pub fn new(address: u32, len: u32) -> Prefix
        requires { len ≤ 32 }
        ensures block { result ≡ address_block_round address len }
        ensures sound { IsAddressBlock result }
    {
        if len == 0 {
            return Prefix { address: 0, len: 0 };
        }
        let free = 32 - len;
        Prefix {
            address: (address >> free) << free,
            len,
        }
    }

    /// Whether the address lies in this block.
    pub fn matches(&self, address: u32) -> bool
        ensures { result ≡ address_prefix_matches self.now address }
    {
        self.len == 0 || (address ^ self.address) >> (32 - self.len) == 0
    }
}

/// The ports from `low` to `high`, both included; `low` is at most `high`.
#[derive(Clone, Copy, Debug, PartialEq, Eq)]
pub struct PortRange {
    pub low: u16,
    pub high: u16,
}

impl Model for PortRange {
    ghost use Rattle.five_tuple.specs.Header.{PortRangeValue};
    ghost use Rattle.five_tuple.specs.SoundFields.{IsPortRange};

    ghost Value = { PortRangeValue };

    ghost view = { λ r. record { low = r.low; high = r.high } };

    ghost invariant = { λ r. IsPortRange (record { low = r.low; high = r.high }) };

    ghost inverse = { λ v. record { low = v.low; high = v.high } };
}

impl PortRange {
    /// Whether the port lies in this range.
    pub fn matches(&self, port: u16) -> bool
        ensures { result ≡ port_range_matches self.now port }
    {
        self.low <= port && port <= self.high
    }
}

/// Any protocol, or one by its assigned number.
#[derive(Clone, Copy, Debug, PartialEq, Eq)]
pub enum Proto {
    Any,
    Is(u8),
}

impl Proto {
    /// Whether this is any protocol, or the one with this number.
    pub fn matches(&self, number: u8) -> bool
        ensures { result ≡ proto_matches self.now number }
    {
        match self {
            Proto::Any => true,
            Proto::Is(this) => *this == number,
        }
    }
}
