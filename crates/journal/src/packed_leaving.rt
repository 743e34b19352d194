//! Leavings in few bytes.
ghost use Rattle.std.specs.Prelude.{◌≡◌};

use five_tuple::{Fields, Header};
use policy_rules::Leaving;
use std::marker::Model;

/// A leaving in 28 bytes. Contracts see the leaving.
#[derive(Drop)]
pub struct PackedLeaving {
    packet: u32,
    version: u32,
    src: u32,
    dst: u32,
    sport: u16,
    dport: u16,
    // The rule's priority, if it has one.
    priority: u32,
    proto: u8,
    has_rule: bool,
}

const _: () = prove!(size_of::<PackedLeaving>() <= 28);

impl Model for PackedLeaving {
    ghost use Rattle.std.specs.Prelude.{Some, None, if◌then◌else◌};
    ghost use Rattle.five_tuple.specs.Exports.{header_of};
    ghost use Rattle.policy_rules.specs.declared.packet.Leaving.{Leaving};

    ghost Value = { Leaving };

    ghost view = { λ l. record {
      packet = l.packet;
      header = header_of (record {
        src = l.src;
        dst = l.dst;
        sport = l.sport;
        dport = l.dport;
        proto = l.proto;
      });
      version = l.version;
      rule = if l.has_rule then Some l.priority else None;
    } };
}

impl PackedLeaving {
    /// Packs this leaving.
    pub fn new(leaving: &Leaving) -> PackedLeaving
        ensures { result ≡ leaving.now }
    {
        let fields = leaving.header.fields();
        PackedLeaving {
            packet: leaving.packet,
            version: leaving.version,
            src: fields.src,
            dst: fields.dst,
            sport: fields.sport,
            dport: fields.dport,
            priority: leaving.rule.unwrap_or(0),
            proto: fields.proto,
            has_rule: leaving.rule.is_some(),
        }
    }

    /// The leaving.
    pub fn leaving(&self) -> Leaving
        ensures { result ≡ self.now }
    {
        let fields = Fields {
            src: self.src,
            dst: self.dst,
            sport: self.sport,
            dport: self.dport,
            proto: self.proto,
        };
        Leaving {
            packet: self.packet,
            header: Header::pack(&fields),
            version: self.version,
            rule: if self.has_rule {
                Some(self.priority)
            } else {
                None
            },
        }
    }
}
