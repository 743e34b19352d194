//! Worked runs with meters at the ports, of each kind, that a caller made.
use crate::files::NO_ROW;
use crate::runs::{ended, metered, shelf_of, sink};
use difane_cli::FlowMeter;
use meters::{FirstN, Meter, Recorder};
use std::test::Fail;

const TWO_ROWS: &str = "priority,src,dst,sport,dport,proto,action\n\
    100,10.0.0.0/8,any,any,80,tcp,out:3\n50,any,any,any,any,any,drop\n";

const ONE_PACKET: &str = "event,arguments\npacket,s0,10.1.1.1,9.9.9.9,5000,80,tcp\n";

const TWO_PACKETS: &str = "event,arguments\npacket,s0,10.1.1.1,9.9.9.9,5000,80,tcp\n\
    packet,s0,10.1.1.1,9.9.9.9,5000,80,tcp\n";

const TWICE: &str = "row 1: packet s0 10.1.1.1 9.9.9.9 5000 80 tcp\n\
    \x20 entered 1 s0\n\
    \x20 decided 1 v1 rule 100 out:3 authority s0 part 0\n\
    \x20 out 1 port 3\n\
    row 2: packet s0 10.1.1.1 9.9.9.9 5000 80 tcp\n\
    \x20 entered 2 s0\n\
    \x20 decided 2 v1 rule 100 out:3 authority s0 part 0\n\
    \x20 out 2 port 3\n\
    meter port 3 notes 2\n";

/// Meters leave when they are complete, each of its own kind, and those that left have no line.
#[test]
fn meters_leave_at_their_time(rt: HostRuntime) -> Result<(), Fail> {
    let alloc = rt.alloc();
    let mut meters: Vec<Box<dyn Meter>> = Vec::new(alloc);
    meters.push(Box::new(alloc, FirstN::new(alloc, 3, 1))?)?;
    meters.push(Box::new(alloc, Recorder::new(alloc, 3))?)?;
    meters.push(Box::new(alloc, FirstN::new(alloc, 3, 2))?)?;
    meters.push(Box::new(alloc, FlowMeter::new(alloc, 3, 1))?)?;
    let args = ["replay", "s.csv", "p.csv"];
    let files = [("s.csv", TWO_PACKETS), ("p.csv", TWO_ROWS)];
    let shelf = shelf_of(alloc, &files)?;
    let (two, _, still) = metered(alloc, &args, shelf, sink(alloc), sink(alloc), meters)?;
    assert!(rt; still == 1 && ended(&two, 0, TWICE, ""));
    Ok(())
}

const TWO_HEADERS: &str = "event,arguments\npacket,s0,10.1.1.1,9.9.9.9,5000,80,tcp\n\
    packet,s0,10.1.1.1,9.9.9.9,5000,80,tcp\npacket,s0,10.1.1.2,9.9.9.9,5000,80,tcp\n";

const FIRST_FLOW: &str = "flow port 3 10.1.1.1 9.9.9.9 5000 80 tcp packets ";

const SECOND_FLOW: &str = "flow port 3 10.1.1.2 9.9.9.9 5000 80 tcp packets 1\n";

/// `flows` prints the records of a meter that left, as they were then, and after them those of the
/// meters that stayed. Here one meter is complete with its first header or its second, or none is.
#[test]
fn flows_are_told(rt: HostRuntime) -> Result<(), Fail> {
    let alloc = rt.alloc();
    let args = ["flows", "s.csv", "p.csv"];
    let files = [("s.csv", TWO_HEADERS), ("p.csv", TWO_ROWS)];
    let cases: [(&[u32], &[&str], usize); 4] = [
        (&[1], &[FIRST_FLOW, "1\n"], 0),
        (&[2], &[FIRST_FLOW, "2\n", SECOND_FLOW], 0),
        (&[3], &[FIRST_FLOW, "2\n", SECOND_FLOW], 1),
        (
            &[3, 1],
            &[FIRST_FLOW, "1\n", FIRST_FLOW, "2\n", SECOND_FLOW],
            1,
        ),
    ];
    for (mosts, pieces, left) in &cases {
        let mut meters: Vec<Box<dyn Meter>> = Vec::new(alloc);
        for most in *mosts {
            meters.push(Box::new(alloc, FlowMeter::new(alloc, 3, *most))?)?;
        }
        let mut text = String::new(alloc);
        for piece in *pieces {
            text.push_str(piece)?;
        }
        let shelf = shelf_of(alloc, &files)?;
        let (told, _, still) = metered(alloc, &args, shelf, sink(alloc), sink(alloc), meters)?;
        assert!(rt; still == *left && ended(&told, 0, text.as_str(), ""));
    }
    Ok(())
}

/// A meter at a port that the network doesn't have is given back if the grammar doesn't have the
/// arguments, and by `compile`; it is dropped by a play, and if a file of a play is refused.
#[test]
fn meters_come_back_where_nothing_is_played(rt: HostRuntime) -> Result<(), Fail> {
    let alloc = rt.alloc();
    let files = [("s.csv", ONE_PACKET), ("p.csv", NO_ROW)];
    let cases: [(&[&str], u8, usize); 4] = [
        (&["replay"], 2, 1),
        (&["compile", "p.csv"], 0, 1),
        (&["replay", "s.csv", "p.csv"], 0, 0),
        (&["replay", "no.csv", "p.csv"], 3, 0),
    ];
    for (args, status, left) in &cases {
        let mut meters: Vec<Box<dyn Meter>> = Vec::new(alloc);
        meters.push(Box::new(alloc, FirstN::new(alloc, 90, 1))?)?;
        let shelf = shelf_of(alloc, &files)?;
        let (ran, _, still) = metered(alloc, args, shelf, sink(alloc), sink(alloc), meters)?;
        assert!(rt; ran.0 == *status && still == *left);
    }
    Ok(())
}
