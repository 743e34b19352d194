use failover::Route;
use five_tuple::Header;
use policy_rules::Leg;

/// A packet at the end of its route, as `Switch::receive` gets it: without its number and the links
/// that it found down, which don't change the result.
#[derive(Clone, Copy)]
pub struct Arriving<'a> {
    pub header: &'a Header,
    /// The switch where it entered.
    pub ingress: u32,
    pub leg: Leg,
    pub route: &'a Route,
    /// The place on the route, from 0.
    pub place: u32,
}

/// How a packet moves on from a switch of its route.
#[derive(Clone, Copy, Debug, PartialEq, Eq)]
pub enum Onward {
    /// It stays: it is at the end of its route.
    AtEnd,
    /// To this next switch of its route.
    Next(u32),
    /// It can't move on: the link to this next switch isn't usable.
    LinkDown(u32),
}
