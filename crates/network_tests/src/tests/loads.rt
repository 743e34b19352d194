//! A better placement of partitions that were asked.
use base::Failure;
use placement::{NoRoom, place};
use policy_rules::Targets;
use rebalance::{bound, peak, spread};
use std::test::Fail;

// Whether each of the partitions is only on this switch.
fn are_at(placement: &[Targets], switches: &[u32]) -> bool {
    for (partition, switch) in switches.iter().enumerate() {
        match placement.get(partition) {
            Some(targets) if targets.items() == [*switch].as_slice() => (),
            _ => return false,
        }
    }
    true
}

#[test]
fn a_spread_lowers_the_peak(rt: HostRuntime) -> Result<(), Fail> {
    // Three partitions, asked once, never and twice, on a switch without room and two with.
    let alloc = rt.alloc();
    let old = place(alloc, &[1, 1, 1], &[0, 8, 8], 0)?;
    let new = spread(alloc, &[1, 1, 1], &[1, 0, 2], &[0, 8, 8], 0)?;
    assert!(rt; are_at(&old, &[1, 2, 1]) && are_at(&new, &[2, 2, 1]));
    assert!(rt; peak(&[1, 0, 2], &old) == 3 && peak(&[1, 0, 2], &new) == 2);
    assert!(rt; bound(&[1, 0, 2], &[0, 8, 8]) == 2 && bound(&[1, 0, 2], &[0]) == 0);
    let refused = spread(alloc, &[3], &[0], &[2], 0).err();
    assert!(rt; refused == Some(Failure::Refused(NoRoom { partition: 0 })));
    Ok(())
}
