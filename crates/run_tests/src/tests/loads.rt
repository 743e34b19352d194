//! The load case of 1: what is generated, and the result of the play.
use crate::runs::{ended, metered, shelf_of, sink};
use journal::{How, Item};
use policy_file::write_policy;
use policy_rules::Policy;
use schedule::load_case;
use std::alloc::{AllocError, Global};
use std::test::Fail;
use steps::{Event, Step};

const FIRST: &[u8] = b"priority,src,dst,sport,dport,proto,action\n\
    1,10.2.126.0/24,10.1.0.0/16,any,107,tcp,out:3\n";

const SECOND: &[u8] = b"priority,src,dst,sport,dport,proto,action\n\
    1,10.2.251.0/24,10.0.0.0/16,any,1014,tcp,out:7\n";

const SUMMARY: &str = "packets 4\nclosed 0\ndelivered 0\ndropped 4\nlost 0\nstuck 0\n\
    travelling 0\ncached 0\nmessages 80\ncurrent 2\nretired 1\n";

/// The switches at which packets enter.
fn entries(alloc: Global, events: &[Event]) -> Result<Vec<u32>, AllocError> {
    let mut switches = Vec::new(alloc);
    for event in events {
        if let Event::One(Step::Packet { switch, .. }) = event {
            switches.push(*switch)?;
        }
    }
    Ok(switches)
}

/// Whether these are the two policies of the case.
fn are_two(alloc: Global, policies: &[Policy]) -> Result<bool, AllocError> {
    match policies {
        [first, second] => Ok(
            write_policy(alloc, first)?.as_slice() == FIRST
                && write_policy(alloc, second)?.as_slice() == SECOND,
        ),
        _ => Ok(false),
    }
}

#[test]
fn draws_the_case(rt: HostRuntime) -> Result<(), Fail> {
    let alloc = rt.alloc();
    let case = load_case(alloc, 1)?;
    assert!(rt; are_two(alloc, &case.policies)? && case.events.len() == 16);
    assert!(rt; entries(alloc, &case.events)?.as_slice() == [4, 2, 4, 0].as_slice());
    Ok(())
}

/// The packets that this authority decided by the default, because no row matched them.
fn unmatched_at(alloc: Global, items: &[Item], authority: u32) -> Result<Vec<u32>, AllocError> {
    let mut packets = Vec::new(alloc);
    for item in items {
        if let Item::Decided {
            packet,
            rule: None,
            how: How::Authority { switch, .. },
            ..
        } = item
        {
            if *switch == authority {
                packets.push(*packet)?;
            }
        }
    }
    Ok(packets)
}

/// The play is that of the case: the authority n1 decides, and no row matches any packet.
#[test]
fn plays_the_case(rt: HostRuntime) -> Result<(), Fail> {
    let alloc = rt.alloc();
    let shelf = shelf_of(alloc, &[])?;
    let (out, errs) = (sink(alloc), sink(alloc));
    let (ran, journal, _) = metered(alloc, &["load", "1"], shelf, out, errs, Vec::new(alloc))?;
    assert!(rt; unmatched_at(alloc, journal.items(), 1)?.as_slice() == [1, 2, 3, 4].as_slice());
    assert!(rt; ended(&ran, 0, SUMMARY, ""));
    Ok(())
}
