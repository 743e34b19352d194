//! Which links are up: all at the beginning, later those that didn't fail, or came back since.
ghost use Rattle.std.specs.Prelude.{ℕ, ◌≡◌, ◌^◌, ◌<◌, if◌then◌else◌, ◌==◌, slice_index};
ghost use Rattle.base.specs.Masks.{has};
ghost use Rattle.net_file.specs.Net.{IsNet};
ghost use Rattle.world_log.specs.Linking.{AreLogNearMasks, LogSetsLink};

use base::with;
use net_file::Net;

/// The neighbours of each switch, as masks.
pub fn link_masks(net: &Net) -> [u64; 64]
    requires { IsNet net.now }
    ensures { AreLogNearMasks net.now result }
{
    let mut near = [0; 64];
    for switch in 0..64 {
        near[switch] = net.links_of(switch as u32);
    }
    near
}

/// Sets the link of these two switches up or down in both of their masks.
pub fn set_world_log_link(links: &mut [u64; 64], one: u32, two: u32, up: bool)
    requires one { one < 64 }
    requires two { two < 64 }
    ensures set { LogSetsLink links.old one two up links.new }
    ensures fits { (s : ℕ) → slice_index links.new s < 2 ^ 64 }
{
    links[one as usize] = set_world_log_link_end(links[one as usize], two, up);
    links[two as usize] = set_world_log_link_end(links[two as usize], one, up);
}

// The mask with this switch, or without it.
fn set_world_log_link_end(mask: u64, other: u32, up: bool) -> u64
    requires { other < 64 }
    ensures { (k : ℕ) → k < 64 → has result k ≡ (if other == k then up else has mask k) }
{
    if up {
        with(mask, other)
    } else {
        mask & !(1 << other)
    }
}
