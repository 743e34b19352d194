ghost use Rattle.std.specs.Prelude.{◌≡◌, None, OnOk, Some, is_some, option_map};
ghost use Rattle.update_machine.specs.Machine.{MachinePacketMayEnd};
ghost use Rattle.trace_audit.specs.Seen.{trace_action_seen, trace_end_seen, audit_packet_seen, trace_packets_seen, trace_run_get, trace_packets_with_one};

use crate::told::End;
use five_tuple::{Fields, Header};
use policy_rules::{Action, Hit};
use std::alloc::{AllocError, Global};
use std::collections::BTreeMap;

/// Which rule decided a packet.
#[derive(Clone, Copy)]
pub(crate) enum DecidedBy {
    /// None yet.
    Undecided,
    Default,
    /// The row of the packet's `priority`.
    Row,
}

/// How a packet ended.
#[derive(Clone, Copy)]
pub(crate) enum PacketEnd {
    /// Not yet.
    Going,
    /// As its decision says.
    AsDecided,
    Lost,
    Stuck,
}

/// What the machine knows of a packet, in few bytes: a trace may have millions of them.
#[derive(Clone, Copy)]
pub(crate) struct TracePacket {
    src: u32,
    dst: u32,
    // The mark when it entered.
    entry_mark: u32,
    // The priority of the row that decided it.
    priority: u32,
    // The port by which it leaves, if `is_out`.
    port: u32,
    sport: u16,
    dport: u16,
    proto: u8,
    rule: DecidedBy,
    is_out: bool,
    ending: PacketEnd,
}

const _: () = prove!(size_of::<TracePacket>() <= 28);

impl TracePacket {
    /// A packet that entered with this header under this mark.
    pub fn new(header: Header, mark: u32) -> TracePacket
        ensures { audit_packet_seen result ≡
            record { header = header; entry_mark = mark; decision = None; end = None } }
    {
        let fields = header.fields();
        TracePacket {
            src: fields.src,
            dst: fields.dst,
            entry_mark: mark,
            priority: 0,
            port: 0,
            sport: fields.sport,
            dport: fields.dport,
            proto: fields.proto,
            rule: DecidedBy::Undecided,
            is_out: false,
            ending: PacketEnd::Going,
        }
    }

    /// Its header.
    pub fn header(&self) -> Header
        ensures { result ≡ (audit_packet_seen self.now).header }
    {
        Header::pack(&Fields {
            src: self.src,
            dst: self.dst,
            sport: self.sport,
            dport: self.dport,
            proto: self.proto,
        })
    }

    /// The mark when it entered.
    pub fn entry_mark(&self) -> u32
        ensures { result ≡ (audit_packet_seen self.now).entry_mark }
    {
        self.entry_mark
    }

    // The action of its decision, if it has one.
    fn decided_action(&self) -> Action
        ensures { result ≡ trace_action_seen self.now }
    {
        if self.is_out {
            Action::Out(self.port)
        } else {
            Action::Drop
        }
    }

    /// The action of its decision, if it has one.
    pub fn action(&self) -> Option<Action>
        ensures { result ≡ option_map (λ hit. hit.action) (audit_packet_seen self.now).decision }
    {
        match self.rule {
            DecidedBy::Undecided => None,
            DecidedBy::Default | DecidedBy::Row => Some(self.decided_action()),
        }
    }

    /// Whether it has ended.
    pub fn has_ended(&self) -> bool
        ensures { result ≡ is_some (audit_packet_seen self.now).end }
    {
        match self.ending {
            PacketEnd::Going => false,
            PacketEnd::AsDecided | PacketEnd::Lost | PacketEnd::Stuck => true,
        }
    }

    /// The packet with this decision.
    pub fn decided(self, hit: Hit) -> TracePacket
        requires { (audit_packet_seen self).end ≡ None }
        ensures { audit_packet_seen result ≡ record (audit_packet_seen self) { decision = Some hit } }
    {
        let (rule, priority) = match hit.rule {
            Some(priority) => (DecidedBy::Row, priority),
            None => (DecidedBy::Default, 0),
        };
        let (is_out, port) = match hit.action {
            Action::Out(port) => (true, port),
            Action::Drop => (false, 0),
        };
        TracePacket {
            rule,
            priority,
            is_out,
            port,
            ..self
        }
    }

    /// The packet with this end.
    pub fn ended(self, end: End) -> TracePacket
        requires { MachinePacketMayEnd (audit_packet_seen self) (trace_end_seen end) }
        ensures { audit_packet_seen result ≡ record (audit_packet_seen self) { end = Some (trace_end_seen end) } }
    {
        let ending = match end {
            End::Dropped | End::LeftBy(_) => PacketEnd::AsDecided,
            End::Lost => PacketEnd::Lost,
            End::Stuck => PacketEnd::Stuck,
        };
        TracePacket { ending, ..self }
    }
}

/// The packets by their numbers.
#[derive(Drop)]
pub(crate) struct AuditedPackets {
    // The number of the first packet of the run.
    first: u32,
    // Packets whose numbers follow one another, as in the trace of a replay.
    run: Vec<TracePacket>,
    // A tree, not a hash map: a trace may choose numbers that all have the same hash.
    others: BTreeMap<u32, TracePacket>,
}

impl AuditedPackets {
    /// No packets.
    pub fn new(alloc: Global) -> AuditedPackets
        ensures { trace_packets_seen result ≡ (λ _. None) }
    {
        AuditedPackets {
            first: 0,
            run: Vec::new(alloc),
            others: BTreeMap::new(alloc),
        }
    }

    // The packet of the run that has this number, if one has it.
    fn in_run(&self, number: u32) -> Option<TracePacket>
        ensures { result ≡ trace_run_get self.now.first self.now.run.items number }
    {
        let place = number.checked_sub(self.first)?;
        self.run.get(place as usize).copied()
    }

    /// The packet of this number, if there is one.
    pub fn get(&self, number: u32) -> Option<TracePacket>
        ensures { option_map audit_packet_seen result ≡ trace_packets_seen self.now number }
    {
        match self.in_run(number) {
            Some(packet) => Some(packet),
            None => self.others.get(&number).copied(),
        }
    }

    /// Replaces what was known of its number by this packet.
    ///
    /// # Errors
    /// Only out of memory.
    pub fn put(&mut self, number: u32, packet: TracePacket) -> Result<(), AllocError>
        ensures { OnOk result (trace_packets_seen self.new ≡ trace_packets_with_one (trace_packets_seen self.old) number (audit_packet_seen packet)) }
    {
        if self.run.is_empty() {
            self.first = number;
            self.run.push(packet)?;
            return Ok(());
        }
        if number >= self.first {
            let place = (number - self.first) as usize;
            if place < self.run.len() {
                self.run[place] = packet;
                return Ok(());
            }
            if place == self.run.len() {
                self.run.push(packet)?;
                return Ok(());
            }
        }
        self.others.insert(number, packet)?;
        Ok(())
    }
}
