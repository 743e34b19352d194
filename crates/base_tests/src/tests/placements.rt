//! Placements by room and load.
ghost use Rattle.std.specs.Prelude.{◌<◌, ◌≤◌, ◌^◌, length};

use base::Failure;
use placement::{NoRoom, place};
use std::alloc::Global;

// Whether one partition of 3 rules finds too few switches, if there is one with this room.
fn has_no_room(alloc: Global, room: u32, backups: u32) -> bool
    requires { backups ≤ 3 }
{
    place(alloc, &[3], &[room], backups).err() == Some(Failure::Refused(NoRoom { partition: 0 }))
}

// Whether partitions of these sizes go to these switches.
fn is_placed(alloc: Global, sizes: &[u32], rooms: &[u32], backups: u32, wanted: &[&[u32]]) -> bool
    requires partitions { length sizes.now < 2 ^ 32 }
    requires switches { length rooms.now ≤ 64 }
    requires backups { backups ≤ 3 }
{
    let Ok(placement) = place(alloc, sizes, rooms, backups) else {
        return false;
    };
    for (partition, switches) in wanted.iter().enumerate() {
        match placement.get(partition) {
            Some(targets) if targets.items() == *switches => (),
            _ => return false,
        }
    }
    placement.len() == wanted.len()
}

#[test]
fn rooms_too_small_and_large_enough(rt: HostRuntime) {
    let alloc = rt.alloc();
    assert!(rt; has_no_room(alloc, 2, 0) && has_no_room(alloc, 3, 1));
    assert!(rt; is_placed(alloc, &[3], &[3], 0, &[&[0]]));
}

#[test]
fn the_least_loaded_switch_with_room_comes_first(rt: HostRuntime) {
    // Partition 1 goes to switch 0 and 2 to 1; then 0 fits only at switch 0, and 3 goes to 1.
    let wanted: [&[u32]; 4] = [&[0], &[0], &[1], &[1]];
    assert!(rt; is_placed(rt.alloc(), &[2, 5, 5, 1], &[10, 6], 0, &wanted));
}

#[test]
fn backups_stand_by_load(rt: HostRuntime) {
    // Partition 1 takes the switches 0 and 1; then switch 2 is the lightest.
    let wanted: [&[u32]; 2] = [&[2, 0], &[0, 1]];
    assert!(rt; is_placed(rt.alloc(), &[1, 2], &[3, 3, 3], 1, &wanted));
}
