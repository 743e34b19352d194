ghost use Rattle.std.specs.Prelude.{◌≡◌, ◌<◌, ◌==◌, bit_and, slice_index, true};
ghost use Rattle.base.specs.Masks.{has};
ghost use Rattle.failover.specs.Links.{is_known_route_link, route_links_at};

use crate::down_set::DownSet;
use base::{MAX_SWITCHES, has, only_if};

/// The switches of the mask `within` to which this one has a link: each names the other, and the
/// link isn't down. Only the links to these switches are checked.
pub fn links_within(neighbours: &[u64; 64], down: &DownSet, one: u32, within: u64) -> u64
    requires { one < 64 }
    ensures { result ≡ bit_and (route_links_at neighbours.now down.now one) within }
{
    let mut mask = 0;
    let mut rest = neighbours[one as usize] & within;
    while rest != 0 {
        let other = rest.trailing_zeros();
        mask |= only_if(is_link_to(neighbours, down, one, other), other);
        rest ^= only_if(true, other);
    }
    mask
}

// Whether there is a link from `one` to `other`, which `one` names.
#[tactic(auto, unfolding(crate::specs::Links::is_known_route_link))]
fn is_link_to(neighbours: &[u64; 64], down: &DownSet, one: u32, other: u32) -> bool
    requires one { one < 64 }
    requires other { other < 64 }
    requires named { has (slice_index neighbours.now one) other ≡ true }
    ensures { result ≡ is_known_route_link neighbours.now down.now one other }
{
    one != other && has(neighbours[other as usize], one) && !down.has(one, other)
}

/// Whether no link ends at this switch.
pub fn is_linkless(neighbours: &[u64; 64], down: &DownSet, one: u32) -> bool
    ensures { result ≡ (route_links_at neighbours.now down.now one == 0) }
{
    one >= MAX_SWITCHES || links_within(neighbours, down, one, u64::MAX) == 0
}
