//! Schedules read from CSV text, and refused.
use crate::refusals::first_other;
use five_tuple::Fields;
use net_file::read_net;
use schedule::{Event, Header, Kind, ScheduleError, Step, read_schedule, read_schedule_kind};
use std::alloc::{AllocError, Global};

// Two switches and the link between them, and a third one without links.
const NETWORK: &[u8] = b"switch = [{ name = 'a', ports = [1] }, { name = 'b' }, { name = 'c' }]
link = [{ ends = ['b', 'a'] }]";

// The rows of a run on other switches: the sixth names one that the network doesn't have.
const DAY: &str = "packet,a,10.0.1.5,10.0.2.10,40000,443,tcp
drain
flush
packet,a,10.0.1.6,10.0.2.10,40001,443,tcp
drain
linkdown,b,d
flush
";

fn under_heading(alloc: Global, rows: &str) -> Result<Vec<u8>, AllocError> {
    let text = format!(in alloc; "event,arguments\n{rows}")?;
    Ok(text.into_bytes())
}

// The code and the row of a refusal.
fn refusal(outcome: Result<Vec<Event>, ScheduleError>) -> Option<(u32, u32)> {
    match outcome {
        Err(ScheduleError::Refused(why)) => Some((why.refusal.code(), why.row)),
        _ => None,
    }
}

// Each kind of event.
const EVENTS: &[u8] = b"\xef\xbb\xbf\"event\",arguments\r\n
packet,b,10.0.1.5,10.0.2.10,40000,443,tcp
\"hop\",1

lose,999999999\r
deliver,2
forget,0
expire,c,65536
flush
drain
update,1
linkdown,a,b
linkup,b,a
crash,a
restart,b
confirm,c
resend,a";

fn header() -> Header {
    Header::pack(&Fields {
        src: 0x0a00_0105,
        dst: 0x0a00_020a,
        sport: 40000,
        dport: 443,
        proto: 6,
    })
}

// Whether this is the event that is expected at this place.
fn is_event(place: usize, event: &Event) -> bool {
    let wanted = match place {
        0 => Event::One(Step::Packet {
            switch: 1,
            header: header(),
        }),
        1 => Event::One(Step::Hop { packet: 1 }),
        2 => Event::One(Step::Lose {
            packet: 999_999_999,
        }),
        3 => Event::One(Step::Deliver { message: 2 }),
        4 => Event::One(Step::Forget { message: 0 }),
        5 => Event::One(Step::Expire {
            switch: 2,
            place: 65536,
        }),
        6 => Event::Flush,
        7 => Event::Drain,
        8 => Event::One(Step::Update { file: 1 }),
        9 => Event::One(Step::LinkDown { one: 0, two: 1 }),
        10 => Event::One(Step::LinkUp { one: 1, two: 0 }),
        11 => Event::One(Step::Crash { switch: 0 }),
        12 => Event::One(Step::Restart { switch: 1 }),
        13 => Event::One(Step::Confirm { switch: 2 }),
        _ => Event::One(Step::Resend { switch: 0 }),
    };
    *event == wanted
}

// The events of the text, with one policy.
fn events(alloc: Global, text: &[u8]) -> Option<Vec<Event>> {
    let Ok(net) = read_net(alloc, NETWORK) else {
        return None;
    };
    read_schedule(alloc, text, &net, 1).ok()
}

// The place of the first event that isn't the expected one, or how many there are.
fn read_events(alloc: Global) -> Option<usize> {
    let events = events(alloc, EVENTS)?;
    for (place, event) in events.iter().enumerate() {
        if !is_event(place, event) {
            return Some(place);
        }
    }
    Some(events.len())
}

// How many events the text has.
fn event_count(alloc: Global, text: &[u8]) -> Option<usize> {
    Some(events(alloc, text)?.len())
}

#[test]
fn reads_events(rt: HostRuntime) {
    assert!(rt; read_events(rt.alloc()) == Some(15));
    assert!(rt; event_count(rt.alloc(), b"event,arguments\n") == Some(0));
}

#[test]
fn reads_kinds(rt: HostRuntime) {
    assert!(rt;
        read_schedule_kind(b"linkup") == Some(Kind::LinkUp) && read_schedule_kind(b"link").is_none()
    );
}

// The code and the row of the refusal of this text, with this many policies.
fn refused(alloc: Global, text: &[u8], files: u32) -> Option<(u32, u32)> {
    let Ok(net) = read_net(alloc, NETWORK) else {
        return None;
    };
    refusal(read_schedule(alloc, text, &net, files))
}

// The same for the text of these rows.
fn refused_rows(alloc: Global, rows: &str, files: u32) -> Result<Option<(u32, u32)>, AllocError> {
    let text = under_heading(alloc, rows)?;
    Ok(refused(alloc, &text, files))
}

#[test]
fn refuses_days_and_headings(rt: HostRuntime) {
    let (empty, wide) = (b"", b"event,arguments,\n");
    assert!(rt; refused_rows(rt.alloc(), DAY, 2) == Ok(Some((4, 6))));
    assert!(rt; refused(rt.alloc(), empty, 1) == Some((1, 0)));
    assert!(rt; refused(rt.alloc(), wide, 1) == Some((1, 0)));
}

// Texts of a second row, each with the code of its refusal.
const REFUSED: [(&str, u32); 19] = [
    ("drain,now", 2),
    ("packet,z,1.2.3.4,10.2.0.1,any,80", 2),
    ("skip,1,2,3", 3),
    ("packet,z,1.2.3,10.2.0.1,5000,80,tcp", 4),
    ("hop,1000000000", 5),
    ("lose,01", 5),
    ("deliver,1000000000", 5),
    ("forget,", 5),
    ("expire,a,-1", 5),
    ("expire,0,a", 4),
    ("expire,a", 2),
    ("flush,1", 2),
    ("packet,a,1.2.3.4,10.2.0.1,any,80,tcp", 6),
    ("packet,a,1.2.3.4/32,10.2.0.1,5000,80,tcp", 6),
    ("linkdown,a,z,a", 2),
    ("linkdown,c,z", 4),
    ("linkup,a,c", 9),
    ("crash,z", 4),
    ("update,2", 7),
];

#[test]
fn refuses_with_code_and_row(rt: HostRuntime) {
    let around = ("event,arguments\ndrain\n", "\nskip\n");
    let refused_alone = |alloc, text: &[u8]| refused(alloc, text, 1);
    let other = first_other(rt.alloc(), around, 2, &REFUSED, refused_alone);
    assert_eq!(rt; other, Ok(None));
}
