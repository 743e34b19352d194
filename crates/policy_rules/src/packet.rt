use five_tuple::Header;

/// A packet as it leaves the network: what a meter at its port may record.
#[derive(Clone, Copy, Debug, PartialEq, Eq)]
pub struct Leaving {
    /// The packet's number, from 1 in the order of the packet rows.
    pub packet: u32,
    pub header: Header,
    /// The policy version that decided it, from 1.
    pub version: u32,
    /// The priority of the row that decided it, or `None` for the default.
    pub rule: Option<u32>,
}

/// Where a switch found the rule that decided a packet.
#[derive(Clone, Copy, Debug, PartialEq, Eq)]
pub enum How {
    /// In its cache, put there by the message of this number.
    Cached { message: u32 },
    /// Among its authority rules for a partition of the header space.
    Authority { switch: u32, partition: u32 },
}

/// Where a packet on its way is bound for.
#[derive(Clone, Copy, Debug, PartialEq, Eq)]
pub enum Leg {
    /// An authority switch of this partition of this policy version.
    Seek { version: u32, partition: u32 },
    /// The switch of this port.
    Exit { port: u32 },
}

/// Why a packet is stuck.
#[derive(Clone, Copy, Debug, PartialEq, Eq)]
pub enum Cause {
    /// It seeks an authority, and no known link ends at any authority switch of its partition.
    NoAuthority,
    /// In any other case: no path of known links leads to a target.
    NoRoute,
}
