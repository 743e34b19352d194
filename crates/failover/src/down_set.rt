ghost use Rattle.std.specs.Prelude.{◌≡◌, ◌≢◌, ◌<◌, ◌||◌, ℕ, false};
ghost use Rattle.failover.specs.Exports.{link_set_has, is_failover_link_of, no_failover_links, with_failover_link};

use base::{MAX_SWITCHES, has, only_if};
use std::marker::Model;

/// A set of links between two different switches below 64: those that a packet found down.
///
/// Contracts see one mask for each switch, of the greater switches to which it has a link in the
/// set; so equal sets are equal values.
#[derive(Clone, Copy, Debug, PartialEq, Eq)]
pub struct DownSet {
    masks: [u64; 64],
}

const _: () = prove!(size_of::<DownSet>() <= 512);

impl Model for DownSet {
    ghost use Rattle.std.specs.Prelude.{List, ℕ};
    ghost use Rattle.failover.specs.DownSet.{IsFailoverDownLinkSet};

    ghost Value = { List ℕ };

    ghost view = { λ d. d.masks };

    ghost invariant = { λ d. IsFailoverDownLinkSet d.masks };

    ghost inverse = { λ masks. record { masks = masks } };
}

impl DownSet {
    ghost use Rattle.failover.specs.DownSet.{IsFailoverDownLinkSet};

    /// The empty set.
    pub fn empty() -> DownSet
        ensures value { result ≡ no_failover_links }
        ensures links { (x y : ℕ) → link_set_has result x y ≡ false }
    {
        DownSet { masks: [0; 64] }
    }

    /// Adds the link of these two switches.
    pub fn add(&mut self, one: u32, two: u32)
        requires different { one ≢ two }
        requires first { one < 64 }
        requires second { two < 64 }
        ensures value { self.new ≡ with_failover_link self.old one two }
        ensures links { (x y : ℕ) →
            link_set_has self.new x y ≡ (link_set_has self.old x y || is_failover_link_of one two x y) }
    {
        let low = one.min(two);
        let high = one.max(two);
        self.masks[low as usize] |= only_if(true, high);
    }

    /// Whether the link of these two switches, in either order, is in the set.
    pub fn has(&self, one: u32, two: u32) -> bool
        ensures link { result ≡ link_set_has self.now one two }
        ensures set { IsFailoverDownLinkSet self.now }
    {
        let masks = &self.masks;
        if one >= MAX_SWITCHES || two >= MAX_SWITCHES {
            return false;
        }
        // The mask of the greater switch never has the other; two lookups cost less than an order.
        has(masks[one as usize], two) || has(masks[two as usize], one)
    }
}
