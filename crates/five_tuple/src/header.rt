ghost use Rattle.std.specs.Prelude.{◌≡◌, ◌^◌, ◌<◌};
ghost use Rattle.five_tuple.specs.Exports.{HeaderLaws, IsHeader, header_fields_of, header_numbered, header_of, header_number_of};

/// The five fields of a packet: IPv4 addresses (RFC 791), ports (RFC 768, RFC 793) and protocol.
///
/// In this project every header has two ports, whatever its protocol.
#[derive(Clone, Copy, Debug, PartialEq, Eq, Hash)]
pub struct Fields {
    /// The source address.
    pub src: u32,
    /// The destination address.
    pub dst: u32,
    /// The source port.
    pub sport: u16,
    /// The destination port.
    pub dport: u16,
    /// The assigned protocol number: 1 is ICMP, 6 TCP, 17 UDP.
    pub proto: u8,
}

/// A packet's header: its five fields, which are also one number below 2^104.
///
/// In the number the protocol has the bits 0 to 7, the destination port 8 to 23, the source port 24
/// to 39, the destination 40 to 71 and the source 72 to 103.
#[derive(Clone, Copy, Debug, PartialEq, Eq, Hash)]
pub struct Header {
    fields: Fields,
}

impl Header {
    /// The one header that has these fields.
    pub fn pack(fields: &Fields) -> Header
        ensures { result ≡ header_of fields.now }
    {
        Header { fields: *fields }
    }

    /// The fields of this header; `pack` makes the same header of them.
    pub fn fields(&self) -> Fields
        ensures { result ≡ header_fields_of self.now }
    {
        self.fields
    }

    /// The number that packs the fields. Each number below 2^104 belongs to exactly one header.
    pub fn number(&self) -> u128
        ensures number { result ≡ header_number_of self.now }
        ensures bound { result < 2 ^ 104 }
        ensures back { header_numbered result ≡ self.now }
        ensures header { IsHeader self.now }
    {
        let Fields {
            src,
            dst,
            sport,
            dport,
            proto,
        } = self.fields;
        (u128::from(src) << 72)
            | (u128::from(dst) << 40)
            | (u128::from(sport) << 24)
            | (u128::from(dport) << 8)
            | u128::from(proto)
    }
}

/// Each number below 2^104 belongs to exactly one header.
pub fn header_laws()
    ensures { HeaderLaws }
{}
