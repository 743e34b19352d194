ghost use Rattle.std.specs.Prelude.{◌≡◌, ◌+◌, ◌<◌, ◌≤◌, ◌^◌, [], ◌∷◌, ◌++◌, length, nat_le, OnErr, OnOk};
ghost use Rattle.five_tuple.specs.HeaderNumbers.{header_eq};
ghost use Rattle.flow_export.specs.Counts.{flow_count_of_header};
ghost use Rattle.flow_export.specs.Flows.{IsFlowMeter, flows, exported_flow_headers_of};
ghost use Rattle.indexmap.specs.IndexMap.{insert_entry};

use five_tuple::Header;
use indexmap::IndexMap;
use meters::{FlowRecord, Flows, Leaving, Meter, Stay};
use std::alloc::{AllocError, Global};
use std::marker::Model;

/// A meter whose records are the flows of its list, complete with its `most`-th different header.
#[derive(Drop)]
pub struct FlowMeter {
    port: u32,
    most: u32,
    held: Vec<Leaving>,
    /// How many packets had each header, in the order of the headers' first packets.
    counts: IndexMap<Header, u64>,
}

impl Model for FlowMeter {
    ghost use Rattle.std.specs.Prelude.{◌≡◌};
    ghost use Rattle.flow_export.specs.Flows.{FlowMeterValue};
    ghost use Rattle.flow_export.specs.Counts.{flow_packet_counts};

    ghost Value = { FlowMeterValue };

    ghost view = { λ m. record { port = m.port; held = m.held.items; most = m.most } };

    ghost invariant = { λ m. m.counts.entries ≡ flow_packet_counts m.held.items };
}

impl FlowMeter {
    /// An empty meter of this port that is complete with its `most`-th header. Allocates nothing.
    pub fn new(alloc: Global, port: u32, most: u32) -> Self
        requires some { 1 ≤ most }
        requires few { most ≤ 65536 }
        ensures value { result ≡ record { port = port; held = []; most = most } }
        ensures kind { IsFlowMeter port most (⟦<FlowMeter as Meter>⟧.seen result) }
    {
        FlowMeter {
            port,
            most,
            held: Vec::new(alloc),
            counts: IndexMap::new(alloc),
        }
    }

    // Appends a leaving, and counts it.
    fn append(&mut self, leaving: &Leaving) -> Result<(), AllocError>
        ensures ok { OnOk result
            (self.new ≡ record self.old { held = self.old.held ++ leaving.now ∷ [] }) }
        ensures err { OnErr result (self.new ≡ self.old) }
    {
        self.held.reserve(1)?;
        count(&mut self.counts, leaving.header)?;
        let _ = self.held.push(*leaving); // there is room
        Ok(())
    }

    // Whether its list is complete.
    fn is_ended(&self) -> bool
        ensures { result ≡ nat_le self.now.most (length (exported_flow_headers_of self.now.held)) }
    {
        self.most as usize <= self.counts.len()
    }
}

impl Meter for FlowMeter {
    ghost seen = { λ m. record {
      port = m.port;
      held = m.held;
      is_ended = λ held. nat_le m.most (length (exported_flow_headers_of held));
      recorded = flows m.port;
    } };

    fn port(&self) -> u32 {
        self.port
    }

    fn note(&mut self, leaving: &Leaving) -> Stay {
        match self.append(leaving) {
            Ok(()) if self.is_ended() => Stay::Leave,
            Ok(()) => Stay::Stay,
            Err(_) => Stay::NoMemory,
        }
    }

    fn notes(&self) -> u64 {
        self.held.len() as u64
    }

    fn records(&self) -> Result<Flows, AllocError> {
        let port = self.port;
        let records = self.counts.iter().map(|(header, packets)| FlowRecord {
            port,
            header: *header,
            packets: *packets,
        });
        Ok(Flows::new(records.collect(*self.held.allocator())?))
    }
}

/// Counts one more packet of this header.
fn count(counts: &mut IndexMap<Header, u64>, header: Header) -> Result<(), AllocError>
    requires { flow_count_of_header header counts.old.entries + 1 < 2 ^ 64 }
    ensures counted { OnOk result (counts.new.entries ≡ insert_entry header_eq counts.old.entries
        header (flow_count_of_header header counts.old.entries + 1)) }
    ensures unchanged { OnErr result (counts.new.entries ≡ counts.old.entries) }
{
    let packets = counts.get(&header).copied().unwrap_or(0);
    counts.insert(header, packets + 1)?;
    Ok(())
}
