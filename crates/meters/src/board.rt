//! The meters of a network's ports.
ghost use Rattle.std.specs.Prelude.{◌≡◌, ◌∷◌, ◌++◌, [], map, filter, OnOk};
ghost use Rattle.base.specs.Masks.{has};
ghost use Rattle.meters.specs.Meters.{meters_after, kept_meters, meter_flow_records_of};
ghost use Rattle.meters.specs.Gone.{MeterBoardGainsLeaving, meters_gone_after, seen_meter_board, meter_leaving_records};

use crate::flows::Flows;
use crate::meter::{Meter, Stay};
use policy_rules::Leaving;
use std::alloc::AllocError;
use std::marker::Model;

/// Meters at the ports of a network, in order, and the flow records of those that left.
#[derive(Drop)]
pub struct Board<M> {
    meters: Vec<M>,
    gone: Flows,
}

impl<M> Model for Board<M> {
    ghost use Rattle.meters.specs.Gone.{MeterBoardValue};

    ghost Value = { MeterBoardValue M };

    ghost view = { λ board. record { meters = board.meters.items; gone = board.gone } };
}

impl<M: Meter> Board<M> {
    /// Keeps the meters with a port in the mask, in order, and drops the others. Allocates nothing.
    pub fn new(mut meters: Vec<M>, ports: u64) -> Self
        ensures chosen { result.meters ≡ filter (λ m. has ports (M.seen m).port) meters.items }
        ensures kept { map M.seen result.meters
            ≡ kept_meters ports [] (map M.seen meters.items) }
        ensures gone { result.gone ≡ [] }
    {
        meters.retain(|meter| meter_mask_has_port(ports, meter.port()));
        let gone = Flows::new(Vec::new(*meters.allocator()));
        Board { meters, gone }
    }

    /// Lets each meter of this port record the leaving, in order. Each that is then complete
    /// leaves and is dropped; before that, its records are added after those of the meters that
    /// left earlier.
    ///
    /// # Errors
    /// Only out of memory; then nothing is known of the meters and the records.
    #[inline(never)]
    pub fn note(&mut self, port: u32, leaving: &Leaving) -> Result<(), AllocError>
        ensures noted { OnOk result (map M.seen self.new.meters
            ≡ meters_after ((port, leaving.now) ∷ []) (map M.seen self.old.meters)) }
        ensures told { OnOk result (self.new.gone
            ≡ self.old.gone ++ meters_gone_after ((port, leaving.now) ∷ []) (map M.seen self.old.meters)) }
        ensures goes_on { OnOk result
            (MeterBoardGainsLeaving (port, leaving.now) (seen_meter_board M.seen self.old) (seen_meter_board M.seen self.new)) }
    {
        let mut at = 0;
        while at < self.meters.len() {
            match offer_leaving(&mut self.meters[at], port, leaving) {
                Stay::Stay => at += 1,
                Stay::Leave => {
                    let meter = self.meters.remove(at);
                    self.gone.append(meter.records()?)?;
                }
                Stay::NoMemory => return Err(AllocError),
            }
        }
        Ok(())
    }

    /// The meters that stayed, in order. Allocates nothing.
    pub fn into_meters(self) -> Vec<M>
        ensures { result.items ≡ self.meters }
    {
        self.meters
    }

    /// The meters that stayed, in order, and the records of those that left. Allocates nothing.
    pub fn finish(self) -> (Vec<M>, Flows)
        ensures meters { result.0.items ≡ self.meters }
        ensures gone { result.1 ≡ self.gone }
    {
        (self.meters, self.gone)
    }
}

/// Whether the mask has this port.
fn meter_mask_has_port(ports: u64, port: u32) -> bool
    ensures { result ≡ has ports port }
{
    port < 64 && base::has(ports, port)
}

/// Lets a meter of this port record the leaving; a meter of another port stays unchanged.
fn offer_leaving<M: Meter>(meter: &mut M, port: u32, leaving: &Leaving) -> Stay
    ensures stay { result ≡ Stay.Stay
        → meters_after ((port, leaving.now) ∷ []) (M.seen meter.old ∷ []) ≡ M.seen meter.new ∷ [] }
    ensures leave { result ≡ Stay.Leave
        → meters_after ((port, leaving.now) ∷ []) (M.seen meter.old ∷ []) ≡ [] }
    ensures silent { result ≡ Stay.Stay
        → meter_leaving_records (port, leaving.now) (M.seen meter.old) ≡ [] }
    ensures told { result ≡ Stay.Leave
        → meter_leaving_records (port, leaving.now) (M.seen meter.old) ≡ meter_flow_records_of (M.seen meter.new) }
{
    if meter.port() == port {
        meter.note(leaving)
    } else {
        Stay::Stay
    }
}
