//! Meters of several kinds on one board, each in a box.
ghost use Rattle.std.specs.Prelude.{◌≡◌, ◌<◌, []};
ghost use Rattle.std.specs.List.{list_any};
ghost use Rattle.std.specs.Option.{is_none};

use crate::packets::web_header;
use five_tuple::Header;
use flow_export::FlowMeter;
use meters::{Board, FirstN, FlowRecord, Flows, Leaving, Meter, Recorder, Stay};
use std::alloc::{AllocError, Global};
use std::test::Fail;

fn has_default(held: &[Leaving]) -> bool
    ensures { result ≡ list_any (λ one. is_none one.rule) held.now }
{
    held.iter().any(|one| one.rule.is_none())
}

/// A caller's own kind: it is complete once it has recorded a packet that the default decided.
#[derive(Drop)]
struct UntilDefault {
    port: u32,
    held: Vec<Leaving>,
}

impl Meter for UntilDefault {
    ghost seen = { λ m. record {
      port = m.port;
      held = m.held.items;
      is_ended = list_any (λ one. is_none one.rule);
      recorded = λ _. [];
    } };

    fn port(&self) -> u32 {
        self.port
    }

    fn note(&mut self, leaving: &Leaving) -> Stay {
        match self.held.push(*leaving) {
            Ok(()) if has_default(&self.held) => Stay::Leave,
            Ok(()) => Stay::Stay,
            Err(_) => Stay::NoMemory,
        }
    }

    fn notes(&self) -> u64 {
        self.held.len() as u64
    }

    fn records(&self) -> Result<Flows, AllocError> {
        Ok(Flows::new(Vec::new(*self.held.allocator())))
    }
}

// The header from 10.1.1.X to 9.9.9.9.
fn header_from(x: u32) -> Header
    requires { x < 256 }
{
    web_header(0x0a01_0100 + x, 0x0909_0909)
}

// Packet 1, 2, .. as it leaves, decided by the row of this priority or by the default.
fn leaving(packet: u32, rule: Option<u32>) -> Leaving {
    Leaving {
        packet,
        header: header_from(1),
        version: 1,
        rule,
    }
}

// A packet from 10.1.1.X.
fn leaving_from(packet: u32, x: u32) -> Leaving
    requires { x < 256 }
{
    Leaving {
        packet,
        header: header_from(x),
        version: 1,
        rule: Some(100),
    }
}

// The flow record of this many packets from 10.1.1.X at port 3.
fn record_from(x: u32, packets: u64) -> FlowRecord
    requires { x < 256 }
{
    FlowRecord {
        port: 3,
        header: header_from(x),
        packets,
    }
}

// Lets the meters note these leavings by their ports.
fn note_all<M: Meter>(board: &mut Board<M>, leavings: &[(u32, Leaving)]) -> Result<(), AllocError> {
    for (port, leaving) in leavings {
        board.note(*port, leaving)?;
    }
    Ok(())
}

// The port of the meter at this place, and how many packets it recorded.
fn told(kept: &[Box<dyn Meter>], place: usize) -> Option<(u32, u64)> {
    let meter = kept.get(place)?;
    Some((meter.port(), meter.notes()))
}

// Whether only the recorders of ports 3 and 2 remain after four packets.
fn leave_in_time(mut board: Board<Box<dyn Meter>>) -> Result<bool, AllocError> {
    let leavings = [
        (3, leaving(1, Some(50))),
        (2, leaving(2, None)),
        (3, leaving(3, Some(50))),
        (3, leaving(4, None)),
    ];
    note_all(&mut board, &leavings)?;
    let kept = board.into_meters();
    let are_two = told(&kept, 0) == Some((3, 3)) && told(&kept, 1) == Some((2, 1));
    Ok(are_two && kept.len() == 2)
}

#[test]
fn each_kind_leaves_at_its_time(rt: HostRuntime) -> Result<(), Fail> {
    let alloc = rt.alloc();
    let until_default = UntilDefault {
        port: 3,
        held: Vec::new(alloc),
    };
    let mut meters: Vec<Box<dyn Meter>> = Vec::new(alloc);
    meters.push(Box::new(alloc, FirstN::new(alloc, 3, 2))?)?;
    meters.push(Box::new(alloc, Recorder::new(alloc, 3))?)?;
    meters.push(Box::new(alloc, Recorder::new(alloc, 5))?)?;
    meters.push(Box::new(alloc, until_default)?)?;
    meters.push(Box::new(alloc, Recorder::new(alloc, 2))?)?;
    assert!(rt; leave_in_time(Board::new(meters, 0b1100)) == Ok(true));
    Ok(())
}

// Whether the meter at this place has these records.
fn has_records(
    kept: &[Box<dyn Meter>],
    place: usize,
    records: &[FlowRecord],
) -> Result<bool, AllocError> {
    match kept.get(place) {
        Some(meter) => Ok(meter.records()?.items() == records),
        None => Ok(false),
    }
}

// Whether these are a meter without records and one of three packets, of two headers.
fn have_counted(kept: &[Box<dyn Meter>]) -> Result<bool, AllocError> {
    let each = [record_from(1, 2), record_from(2, 1)];
    let are_counted = has_records(kept, 0, &[])? && has_records(kept, 1, &each)?;
    Ok(are_counted && kept.len() == 2 && told(kept, 1) == Some((3, 3)))
}

// Whether the meters count two packets of one header and one of another.
fn count_by_header(mut board: Board<Box<dyn Meter>>) -> Result<bool, AllocError> {
    let leavings = [
        (3, leaving_from(1, 1)),
        (3, leaving_from(2, 1)),
        (3, leaving_from(3, 2)),
    ];
    note_all(&mut board, &leavings)?;
    let (kept, gone) = board.finish();
    Ok(have_counted(&kept)? && gone.items() == [record_from(1, 1)].as_slice())
}

/// Two packets of one header and one of another: a meter that stays has a record for each header;
/// one that leaves with the first header has recorded only the first packet.
#[test]
fn flows_are_counted_by_header(rt: HostRuntime) -> Result<(), Fail> {
    let alloc = rt.alloc();
    let mut meters: Vec<Box<dyn Meter>> = Vec::new(alloc);
    meters.push(Box::new(alloc, Recorder::new(alloc, 3))?)?;
    meters.push(Box::new(alloc, FlowMeter::new(alloc, 3, 1))?)?;
    meters.push(Box::new(alloc, FlowMeter::new(alloc, 3, 4096))?)?;
    assert!(rt; count_by_header(Board::new(meters, 0b1000)) == Ok(true));
    Ok(())
}

// Meters of port 3 that leave at the second header, the first and the second.
fn three_meters(alloc: Global) -> Result<Vec<FlowMeter>, AllocError> {
    let mut meters = Vec::new(alloc);
    meters.push(FlowMeter::new(alloc, 3, 2))?;
    meters.push(FlowMeter::new(alloc, 3, 1))?;
    meters.push(FlowMeter::new(alloc, 3, 2))?;
    Ok(meters)
}

// Whether the records of three meters are in order after all have left.
fn stay_in_order(meters: Vec<FlowMeter>) -> Result<bool, AllocError> {
    let mut board = Board::new(meters, 0b1000);
    note_all(
        &mut board,
        &[(3, leaving_from(1, 1)), (3, leaving_from(2, 2))],
    )?;
    let (kept, gone) = board.finish();
    let each = [
        record_from(1, 1),
        record_from(1, 1),
        record_from(2, 1),
        record_from(1, 1),
        record_from(2, 1),
    ];
    Ok(kept.is_empty() && gone.items() == each.as_slice())
}

/// The records of meters that left are in the order in which they left; if several left at the same
/// packet, in the order of the board.
#[test]
fn records_stay_in_order(rt: HostRuntime) -> Result<(), Fail> {
    let meters = three_meters(rt.alloc())?;
    assert!(rt; stay_in_order(meters) == Ok(true));
    Ok(())
}
