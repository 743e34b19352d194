//! The calls for whole tunnels, for other programs: `enter` and `arrive` give the packet its route
//! at once, and `hop` takes a new one if a link is down. Each is thin: it calls `admit`, `receive`
//! or `pass`. This program makes only those calls, so that packets share their routes.
ghost use Rattle.std.specs.Prelude.{◌≡◌, ◌∷◌, [], IsTrue, None};
ghost use Rattle.policy_rules.specs.declared.packet.Leg.TheVariants.{Exit as ExitLeg};
ghost use Rattle.tunnel.specs.Moves.{next};
ghost use Rattle.switch_core.specs.Answers.{Answered};
ghost use Rattle.switch_core.specs.Exports.{SwitchAnswer, CanSwitchLookUp, MaySwitchEndLeg, IsSwitchLookupForwarding, IsSwitchAnswerUncached, SwitchStandsAtRoutePlace, switch_admitted, switch_arrival_by_forwarding, switch_site_around, switch_arrival_of, arrive_answer, switch_core_cache_rule, switch_call_counted, enter_answer, switch_entered_with, switch_exit_by_tunnel, switch_hop_answer, switch_incoming_packet, switch_found_link_down, switch_next_of, switch_packet_of, switch_rerouted_here, serves, switch_set_out, switch_site_of};

use crate::deciding::Decision;
use crate::forwarding::Forwarding;
use crate::packet::{Arriving, Onward};
use crate::site::SwitchSite;
use crate::switch::Switch;
use ctrl_msg::Body;
use failover::DownSet;
use five_tuple::Header;
use net_file::Ports;
use policy_rules::{Action, Cause, Leg, Targets};
use ternary::Word;
use tunnel::Tunnel;

/// A packet at a switch at the beginning of a leg.
#[derive(Drop)]
pub struct Packet {
    pub number: u32,
    pub header: Header,
    /// The switch where it entered.
    pub ingress: u32,
    /// The links that it found down.
    pub down: DownSet,
}

/// Where a decided packet moves.
#[derive(Drop)]
pub enum Next {
    Dropped,
    /// Out of the network, by this port of the switch itself.
    Out(u32),
    /// To the switch of its port.
    Exit(Tunnel),
    Stuck(Cause),
}

/// What a switch returns for a packet that comes into the network.
#[derive(Drop)]
pub enum Entered {
    /// The switch doesn't serve.
    Closed,
    Decided { decision: Decision, next: Next },
    /// To an authority switch of the packet's partition.
    Seek(Tunnel),
    /// There is no route for this leg, which the lookup returned.
    Stuck { cause: Cause, leg: Leg },
}

/// What a switch returns for a packet at the end of its route.
#[derive(Drop)]
pub enum Arrived {
    /// Out of the network, by this port of the switch.
    Out(u32),
    Decided {
        decision: Decision,
        /// A rule for the cache of the switch where the packet entered, unless that is this one.
        cache: Option<Body>,
        next: Next,
    },
    /// To an authority switch of the packet's partition.
    Seek(Tunnel),
    /// There is no route for this leg, which the lookup returned.
    Stuck {
        cause: Cause,
        leg: Leg,
    },
}

/// What becomes of a packet that is on its way.
#[derive(Clone, Copy, Debug, PartialEq, Eq)]
pub struct Hop {
    /// The switch to which the link was found down, if one was.
    pub found: Option<u32>,
    pub end: HopEnd,
}

/// Where a hop ends.
#[derive(Clone, Copy, Debug, PartialEq, Eq)]
pub enum HopEnd {
    /// At the end of the route, where the packet is.
    Arrive,
    /// At this next switch of the route.
    Move(u32),
    Stuck(Cause),
}

impl Switch {
    /// A packet of this number enters here: closed exactly if the switch doesn't serve. Otherwise
    /// the switch looks it up under its stamp: a cached or an authority rule decides it, or it is
    /// sent to its partition's targets. The switch sends no rule to a cache.
    /// `switch_core_enter_laws` and `switch_core_lookup_laws` say how.
    ///
    /// `near` has a bit for each switch to which there is a usable link.
    pub fn enter(&mut self, packet: u32, h: &Header, near: u64, ports: &Ports) -> Entered
        requires { CanSwitchLookUp self.old }
        ensures answer { result
            ≡ enter_answer self.old (switch_site_around near ports.now)
            (switch_incoming_packet self.old packet h.now) }
        ensures uncached { IsSwitchAnswerUncached
            (switch_admitted self.old (switch_site_around near ports.now) (switch_incoming_packet self.old packet h.now)) }
        ensures after { self.new ≡ switch_call_counted self.old }
    {
        let packet = Packet {
            number: packet,
            header: *h,
            ingress: self.number,
            down: DownSet::empty(),
        };
        match self.admit(h) {
            None => Entered::Closed,
            Some(forwarding) => self.answer_entry(SwitchSite { near, ports }, &packet, forwarding),
        }
    }

    /// A packet is here, at the end of its route. On its leg to a port it leaves by the port. On
    /// its leg to an authority switch the tables of its version decide it; if the switch doesn't
    /// have these, it looks the packet up under its stamp. `switch_core_arrive_laws` and
    /// `switch_core_lookup_laws` say how.
    ///
    /// `near` has a bit for each switch to which there is a usable link.
    #[tactic(auto, unfolding(crate::specs::Answering::switch_received))]
    pub fn arrive(&mut self, t: &Tunnel, near: u64, ports: &Ports) -> Arrived
        requires serving { IsTrue (serves self.old) }
        requires stamped { CanSwitchLookUp self.old }
        requires here { SwitchStandsAtRoutePlace self.old t.now.route t.now.place }
        requires last { next t.now ≡ None }
        requires authority { MaySwitchEndLeg self.old t.now.header t.now.leg }
        ensures answer { result ≡ arrive_answer self.old (switch_site_around near ports.now) t.now }
        ensures after { self.new ≡ switch_call_counted self.old }
    {
        let forwarding = self.receive(Arriving {
            header: &t.header,
            ingress: t.ingress,
            leg: t.leg,
            route: &t.route,
            place: t.place,
        });
        self.answer_arrival(SwitchSite { near, ports }, &carried(t), forwarding)
    }

    /// A packet that is here moves on. At the end of its route it arrives: it stays here. If the
    /// link to the next switch is usable, it moves there. Otherwise it finds that link down and
    /// takes a new route, on which it moves or arrives, or is stuck. `switch_core_hop_laws` says
    /// how.
    ///
    /// `near` has a bit for each switch to which there is a usable link.
    #[tactic(auto, unfolding(crate::specs::Moving::switch_hop_answer))]
    pub fn hop(&mut self, t: &mut Tunnel, near: u64) -> Hop
        requires serving { IsTrue (serves self.old) }
        requires here { SwitchStandsAtRoutePlace self.old t.old.route t.old.place }
        ensures found { result.found ≡ switch_found_link_down near (next t.old) }
        ensures end { result.end ≡ (switch_hop_answer self.old near t.old).end }
        ensures tunnel { t.new ≡ (switch_hop_answer self.old near t.old).tunnel }
        ensures after { self.new ≡ switch_call_counted self.old }
    {
        match self.pass(&t.route, t.place, near) {
            Onward::AtEnd => Hop {
                found: None,
                end: HopEnd::Arrive,
            },
            Onward::Next(next) => {
                t.advance();
                Hop {
                    found: None,
                    end: HopEnd::Move(next),
                }
            }
            Onward::LinkDown(other) => {
                t.mark_down(other);
                Hop {
                    found: Some(other),
                    end: self.reroute(near, t),
                }
            }
        }
    }

    // Where the hop ends along a new route, after a link was found down.
    #[tactic(auto, unfolding(crate::specs::Moving::switch_rerouted_here))]
    fn reroute(&self, near: u64, t: &mut Tunnel) -> HopEnd
        ensures end { result ≡ (switch_rerouted_here self.now near t.old).end }
        ensures tunnel { t.new ≡ (switch_rerouted_here self.now near t.old).tunnel }
    {
        if !t.reroute(self.database.database(), near) {
            return HopEnd::Stuck(self.cause(near, &t.down, &t.leg, &t.targets));
        }
        match t.next() {
            None => HopEnd::Arrive,
            Some(next) => {
                t.advance();
                HopEnd::Move(next)
            }
        }
    }

    /// The result for a packet that enters, with this forwarding.
    fn answer_entry(&self, site: SwitchSite, packet: &Packet, forwarding: Forwarding) -> Entered
        requires { IsSwitchLookupForwarding forwarding }
        ensures { (answer : SwitchAnswer)
            → switch_arrival_by_forwarding self.now (switch_site_of site.entry) packet.now forwarding ≡ Answered answer
            → result ≡ switch_entered_with answer }
    {
        match forwarding {
            Forwarding::Out(_) => unreachable!(),
            Forwarding::Decided { decision, .. } => Entered::Decided {
                decision,
                next: self.next(site, packet, decision.action),
            },
            Forwarding::Seek { leg, targets } => match self.set_out(
                site.near, packet, leg, &targets,
            ) {
                Ok(tunnel) => Entered::Seek(tunnel),
                Err(cause) => Entered::Stuck { cause, leg },
            },
        }
    }

    /// The result for a packet at the end of its route, with this forwarding.
    fn answer_arrival(&self, site: SwitchSite, packet: &Packet, forwarding: Forwarding) -> Arrived
        ensures { result
            ≡ switch_arrival_of (switch_arrival_by_forwarding self.now (switch_site_of site.entry) packet.now forwarding) }
    {
        match forwarding {
            Forwarding::Out(port) => Arrived::Out(port),
            Forwarding::Decided { decision, word } => Arrived::Decided {
                decision,
                cache: switch_core_cache_rule(&decision, word),
                next: self.next(site, packet, decision.action),
            },
            Forwarding::Seek { leg, targets } => match self.set_out(
                site.near, packet, leg, &targets,
            ) {
                Ok(tunnel) => Arrived::Seek(tunnel),
                Err(cause) => Arrived::Stuck { cause, leg },
            },
        }
    }

    // Where a packet moves that this action decides.
    #[tactic(auto, unfolding(crate::specs::Ends::switch_next_of, crate::specs::Ends::switch_leave_by_port))]
    fn next(&self, site: SwitchSite, packet: &Packet, action: Action) -> Next
        ensures { result ≡ switch_next_of self.now (switch_site_of site.entry) packet.now action }
    {
        match action {
            Action::Drop => Next::Dropped,
            Action::Out(port) => match site.ports.owner(port) {
                None => Next::Stuck(Cause::NoRoute),
                Some(owner) if owner == self.number => Next::Out(port),
                Some(owner) => self.exit(site.near, packet, port, owner),
            },
        }
    }

    // To the switch of its port.
    fn exit(&self, near: u64, packet: &Packet, port: u32, owner: u32) -> Next
        ensures { result ≡ switch_exit_by_tunnel (switch_set_out self.now near packet.now (ExitLeg port) (owner ∷ [])) }
    {
        let targets = Targets::new(&[owner]).unwrap();
        match self.set_out(near, packet, Leg::Exit { port }, &targets) {
            Ok(tunnel) => Next::Exit(tunnel),
            Err(cause) => Next::Stuck(cause),
        }
    }

    /// The packet at the beginning of its route to the first of these targets that it can reach.
    ///
    /// # Errors
    /// Why there is no route.
    #[tactic(auto, unfolding(crate::specs::Ends::switch_set_out))]
    fn set_out(
        &self,
        near: u64,
        packet: &Packet,
        leg: Leg,
        targets: &Targets,
    ) -> Result<Tunnel, Cause>
        ensures { result ≡ switch_set_out self.now near packet.now leg targets.now }
    {
        let database = self.database.database();
        match database.route(self.number, targets, near, &packet.down) {
            None => Err(self.cause(near, &packet.down, &leg, targets)),
            Some(route) => Ok(Tunnel::begin(
                packet.number,
                packet.header,
                packet.ingress,
                leg,
                *targets,
                route,
                packet.down,
            )),
        }
    }
}

// The packet of a tunnel.
fn carried(t: &Tunnel) -> Packet
    ensures { result ≡ switch_packet_of t.now }
{
    Packet {
        number: t.packet,
        header: t.header,
        ingress: t.ingress,
        down: t.down,
    }
}

// The rule for a cache, if there is a word.
fn switch_core_cache_rule(decision: &Decision, word: Option<Word>) -> Option<Body>
    ensures { result ≡ switch_core_cache_rule decision.now word }
{
    match word {
        None => None,
        Some(word) => Some(decision.cache_rule(word)),
    }
}
