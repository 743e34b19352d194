//! A schedule that is read, and replayed by one call.
use crate::tests::pairs::pair;
use journal_text::text;
use meters::Recorder;
use policy_rules::{Policy, PolicyFile};
use replay::replay;
use schedule::read_schedule;
use std::test::Fail;

/// The packet is dropped, because the policy has no row.
const SCHEDULE: &str = "event,arguments\n\
    packet,a,1.2.3.4,10.2.0.1,5000,80,tcp\n\
    drain\n";

const JOURNAL: &[u8] = b"row 1: packet a 1.2.3.4 10.2.0.1 5000 80 tcp\n\
    \x20 entered 1 a\n\
    \x20 tunnelled 1 v1 part 0 via a b\n\
    row 2: hop 1\n\
    \x20 hopped 1 b\n\
    row 2: hop 1\n\
    \x20 decided 1 v1 rule default drop authority b part 0\n\
    \x20 sent 1 a cache version 1 word 00000000000000000000000000/00000000000000000000000000 \
    rule default drop\n\
    \x20 dropped 1\n";

#[test]
fn replays_a_schedule(rt: HostRuntime) -> Result<(), Fail> {
    let alloc = rt.alloc();
    let net = pair(alloc)?;
    let events = read_schedule(alloc, SCHEDULE.as_bytes(), &net, 1)?;
    let policy = Policy::new(alloc, Vec::new(alloc))?;
    let meters: Vec<Recorder> = Vec::new(alloc);
    let files = vec![in alloc; PolicyFile::Whole(policy)]?;
    let played = replay(alloc, &net, files, &events, meters)?;
    assert!(rt; played.full.is_none() && played.meters.is_empty());
    assert!(rt; text(alloc, &played.journal, &net)?.as_slice() == JOURNAL);
    Ok(())
}
