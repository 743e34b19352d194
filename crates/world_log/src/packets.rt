ghost use Rattle.std.specs.Prelude.{◌≡◌, ◌≢◌, ◌+◌, ◌-◌, ◌^◌, ◌<◌, ◌++◌, [], ◌∷◌, None, Some, IsTrue, OnOk, OnErr, length, map, slice_get, slice_index};
ghost use Rattle.message_bag.specs.Posts.{new_bag_post};
ghost use Rattle.switch_core.specs.Exports.{CanSwitchLookUp, MaySwitchEndLeg, SwitchStandsAtRoutePlace, switch_arrival_by_forwarding, switch_core_cache_rule, switch_call_counted, switch_next_of, serves, switch_set_out, switch_site_of};
ghost use Rattle.switch_core.specs.State.{SwitchValue};
ghost use Rattle.travelling.specs.Travelling.{TravellingFlight, flight, traveller_standing_kept};
ghost use Rattle.tunnel.specs.Moves.{here, next};
ghost use Rattle.update_machine.specs.Exports.{machine_sent_items_from};
ghost use Rattle.world_log.specs.Packets.{LogHasHopped, Hops, LogMeetsDownLink, MayLoggedPacketGoOn, log_coming_in, log_ended_switch, entry, log_followed, log_followed_flight, log_followed_items, log_followed_posts};
ghost use Rattle.world_log.specs.Writing.{LogAfter, log_arrived_items, log_arrived_posts, log_arrived_flight, log_cache_message, log_decided_flight, log_end_item, log_entered_items, log_entered_posts, log_entered_flight, log_message_list, log_packet_standing, log_set_flight, log_set_item};

use crate::log::{Log, leaves, world_log_takes_route};
use base::Failure;
use five_tuple::Header;
use journal::{Item, Message, Place};
use net_file::Ports;
use policy_rules::{Action, Cause, Leg, Targets};
use std::alloc::{AllocError, Global};
use switch_core::{Arriving, Decision, Forwarding, Onward, Switch, SwitchSite};
use ternary::Word;
use travelling::{Standing, StoredFlight};

impl Log {
    /// A packet enters at the switch; writes and does what the switch returns for it.
    ///
    /// # Errors
    /// Only out of memory; then a part of the items is written.
    pub fn enter(
        &mut self,
        alloc: Global,
        packet: u32,
        header: &Header,
        switch: &mut Switch,
        site: SwitchSite,
    ) -> Result<(), AllocError>
        requires stamped { CanSwitchLookUp switch.old }
        requires few { length self.old.bag < 2 ^ 32 - 1 }
        ensures log { LogAfter result
            (log_entered_items (length self.old.bag + 1)
            (log_coming_in packet header.now switch.old.number)
            (entry switch.old site.entry.near site.entry.ports.now packet header.now))
            (log_entered_posts (log_coming_in packet header.now switch.old.number)
            (entry switch.old site.entry.near site.entry.ports.now packet header.now))
            packet (log_entered_flight
            (entry switch.old site.entry.near site.entry.ports.now packet header.now))
            self.old self.new }
        ensures counted { switch.new ≡ switch_call_counted switch.old }
    {
        let number = switch.number();
        match switch.admit(header) {
            None => self.end(
                packet,
                Item::Closed {
                    packet,
                    switch: number,
                },
            ),
            Some(forwarding) => {
                self.journal.push(Item::Entered {
                    packet,
                    switch: number,
                    header: *header,
                })?;
                let at = Standing {
                    packet,
                    header: *header,
                    ingress: number,
                    switch: number,
                    down: None,
                    version: 0,
                    rule: None,
                };
                self.settle(alloc, at, forwarding, switch, site)
            }
        }
    }

    /// The packet of this number, if it is on its way, moves on from the switch where it is, or is
    /// at the end of its route; otherwise only `Nothing` is written. If the link to the next switch
    /// is found down, it takes another route on its leg, or is stuck. `near` has for each switch
    /// the mask of those to which it has a usable link.
    ///
    /// A move over a usable link allocates only the journal's memory.
    ///
    /// # Errors
    /// Only out of memory; then a part of the items is written.
    pub fn hop(
        &mut self,
        alloc: Global,
        packet: u32,
        switches: &mut [Switch],
        near: &[u64; 64],
        ports: &Ports,
    ) -> Result<(), AllocError>
        requires there { (t : TravellingFlight) → flight self.old.travelling packet ≡ Some t
            → here t.tunnel < length switches.old }
        requires may { (t : TravellingFlight) (s : SwitchValue) → flight self.old.travelling packet ≡ Some t
            → slice_get switches.old (here t.tunnel) ≡ Some s
            → MayLoggedPacketGoOn packet s (slice_index near.now (here t.tunnel)) t }
        requires few { length self.old.bag < 2 ^ 32 - 1 }
        ensures { Hops result packet near.now ports.now self.old switches.old self.new switches.new
            (flight self.old.travelling packet) }
    {
        let kept = match self.travelling.look(packet) {
            None => return self.journal.push(Item::Nothing),
            Some(kept) => kept,
        };
        let here = kept.here() as usize;
        let switch = &mut switches[here];
        let near = near[here];
        let route = kept.route();
        let place = kept.place();
        let site = SwitchSite { near, ports };
        match switch.pass(route, place, near) {
            Onward::Next(next) => self.move_on(packet, place + 1, next),
            Onward::AtEnd => {
                let leg = kept.leg();
                let at = kept.standing(switch.number())?;
                let forwarding = switch.receive(Arriving {
                    header: &at.header,
                    ingress: at.ingress,
                    leg,
                    route,
                    place,
                });
                self.settle(alloc, at, forwarding, switch, site)
            }
            Onward::LinkDown(other) => {
                let leg = kept.leg();
                let targets = *kept.targets();
                let at = kept.standing(switch.number())?;
                self.go_around(alloc, at, leg, targets, other, switch, site)
            }
        }
    }

    // `hop` if the link to this switch is down: the packet takes another route on its leg to these
    // targets, or is stuck.
    #[cold]
    #[inline(never)]
    fn go_around(
        &mut self,
        alloc: Global,
        mut at: Standing,
        leg: Leg,
        targets: Targets,
        other: u32,
        switch: &mut Switch,
        site: SwitchSite,
    ) -> Result<(), AllocError>
        requires serving { IsTrue (serves switch.old) }
        requires stamped { CanSwitchLookUp switch.old }
        requires met { (before : SwitchValue) × ((t : TravellingFlight) × LogMeetsDownLink (traveller_standing_kept at) at.version
            at.rule leg targets other before switch.old site.near t) }
        requires here { at.switch < 64 }
        requires different { other ≢ at.switch }
        requires other { other < 64 }
        requires few { length self.old.bag < 2 ^ 32 - 1 }
        ensures { (before : SwitchValue) (t : TravellingFlight)
            → LogMeetsDownLink (traveller_standing_kept at) at.version at.rule leg targets other before switch.old
            site.entry.near t
            → LogHasHopped result at.packet before site.entry.near site.entry.ports.now self.old switch.new
            self.new t }
    {
        let packet = at.packet;
        self.journal.push(Item::FoundDown {
            packet,
            one: at.switch,
            two: other,
        })?;
        at.mark_down(alloc, other)?;
        match switch.shared_route(alloc, site.near, at.links(), leg, &targets) {
            Err(Failure::NoMemory) => Err(AllocError),
            Err(Failure::Refused(cause)) => self.stuck(alloc, at, cause, leg),
            Ok(route) => {
                self.journal.push(Item::Rerouted {
                    packet,
                    route: route.clone()?,
                })?;
                let kept = StoredFlight::begin(at, leg, targets, route);
                self.follow(alloc, kept, switch, site)
            }
        }
    }

    // The packet that took this route moves to the next switch of it, or is at its end.
    fn follow(
        &mut self,
        alloc: Global,
        mut kept: StoredFlight,
        switch: &mut Switch,
        site: SwitchSite,
    ) -> Result<(), AllocError>
        requires serving { IsTrue (serves switch.old) }
        requires stamped { CanSwitchLookUp switch.old }
        requires last { next kept.tunnel ≡ None
            → SwitchStandsAtRoutePlace switch.old kept.tunnel.route kept.tunnel.place
            × MaySwitchEndLeg switch.old kept.tunnel.header kept.tunnel.leg }
        requires ingress { kept.tunnel.ingress < 64 }
        requires few { length self.old.bag < 2 ^ 32 - 1 }
        ensures log { LogAfter result
            (log_followed_items (length self.old.bag + 1) switch.old site.entry.near site.entry.ports.now kept)
            (log_followed_posts switch.old site.entry.near site.entry.ports.now kept)
            kept.tunnel.packet
            (log_followed_flight switch.old site.entry.near site.entry.ports.now kept)
            self.old self.new }
        ensures asked { OnOk result (switch.new ≡ log_ended_switch switch.old (log_followed kept).end) }
    {
        let place = kept.place();
        match kept.next() {
            Some(next) => {
                let packet = kept.packet();
                kept.move_to(place + 1);
                self.travelling.put(packet, kept)?;
                self.journal.push(Item::Hopped {
                    packet,
                    switch: next,
                })
            }
            None => {
                let leg = kept.leg();
                let at = kept.standing(switch.number())?;
                let forwarding = switch.receive(Arriving {
                    header: &at.header,
                    ingress: at.ingress,
                    leg,
                    route: kept.route(),
                    place,
                });
                self.settle(alloc, at, forwarding, switch, site)
            }
        }
    }

    // Writes and does what the switch returned for the packet.
    fn settle(
        &mut self,
        alloc: Global,
        at: Standing,
        forwarding: Forwarding,
        switch: &mut Switch,
        site: SwitchSite,
    ) -> Result<(), AllocError>
        requires ingress { at.ingress < 64 }
        requires few { length self.old.bag < 2 ^ 32 - 1 }
        ensures log { LogAfter result
            (log_arrived_items (length self.old.bag + 1) (traveller_standing_kept at) at.version at.rule
            (switch_arrival_by_forwarding switch.old (switch_site_of site.entry) (log_packet_standing (traveller_standing_kept at)) forwarding))
            (log_arrived_posts (traveller_standing_kept at)
            (switch_arrival_by_forwarding switch.old (switch_site_of site.entry) (log_packet_standing (traveller_standing_kept at)) forwarding))
            at.packet (log_arrived_flight at.version at.rule
            (switch_arrival_by_forwarding switch.old (switch_site_of site.entry) (log_packet_standing (traveller_standing_kept at)) forwarding))
            self.old self.new }
        ensures same { switch.new ≡ switch.old }
    {
        match forwarding {
            Forwarding::Out(port) => self.end(at.packet, leaves(&at, port)),
            Forwarding::Decided { decision, word } => {
                self.journal.push(Item::Decided {
                    packet: at.packet,
                    version: decision.version,
                    rule: decision.rule,
                    action: decision.action,
                    how: decision.how,
                })?;
                self.send_rule(alloc, at.ingress, &decision, word)?;
                self.leave(alloc, at, decision, switch, site)
            }
            Forwarding::Seek { leg, targets } => {
                self.set_out(alloc, at, leg, targets, switch, site.near)
            }
        }
    }

    // The packet begins the leg on the route that its switch finds, which the item and the table
    // share, or is stuck there.
    fn set_out(
        &mut self,
        alloc: Global,
        at: Standing,
        leg: Leg,
        targets: Targets,
        switch: &mut Switch,
        near: u64,
    ) -> Result<(), AllocError>
        ensures log { LogAfter result
            (log_set_item (traveller_standing_kept at) leg
            (switch_set_out switch.old near (log_packet_standing (traveller_standing_kept at)) leg targets) ∷ [])
            [] at.packet (log_set_flight at.version at.rule
            (switch_set_out switch.old near (log_packet_standing (traveller_standing_kept at)) leg targets))
            self.old self.new }
        ensures same { switch.new ≡ switch.old }
    {
        match switch.shared_route(alloc, near, at.links(), leg, &targets) {
            Err(Failure::NoMemory) => Err(AllocError),
            Err(Failure::Refused(cause)) => self.stuck(alloc, at, cause, leg),
            Ok(route) => {
                let packet = at.packet;
                let item = world_log_takes_route(packet, leg, route.clone()?);
                let kept = StoredFlight::begin(at, leg, targets, route);
                self.travelling.put(packet, kept)?;
                self.journal.push(item)
            }
        }
    }

    // Sends the decision's rule with this word, if there is one, to the packet's ingress.
    fn send_rule(
        &mut self,
        alloc: Global,
        ingress: u32,
        decision: &Decision,
        word: Option<Word>,
    ) -> Result<(), AllocError>
        requires ingress { ingress < 64 }
        requires few { length self.old.bag < 2 ^ 32 - 1 }
        ensures written { OnOk result (self.new.journal ≡ self.old.journal
            ++ machine_sent_items_from (length self.old.bag + 1)
            (log_message_list (log_cache_message ingress (switch_core_cache_rule decision.now word)))) }
        ensures posted { OnOk result (self.new.bag ≡ self.old.bag
            ++ map new_bag_post (log_message_list (log_cache_message ingress (switch_core_cache_rule decision.now word)))) }
        ensures unwritten { OnErr result (self.new.journal ≡ self.old.journal) }
        ensures travelling { self.new.travelling ≡ self.old.travelling }
    {
        match word {
            None => Ok(()),
            Some(word) => {
                let to = Place::Switch(ingress);
                let body = decision.cache_rule(word);
                self.send(alloc, Message { to, body })
            }
        }
    }

    // The packet continues as its decision says: it is dropped, leaves here by its port, or is
    // sent to the switch that has the port.
    fn leave(
        &mut self,
        alloc: Global,
        mut at: Standing,
        decision: Decision,
        switch: &mut Switch,
        site: SwitchSite,
    ) -> Result<(), AllocError>
        ensures log { LogAfter result
            (log_end_item (traveller_standing_kept at) decision (switch_next_of switch.old (switch_site_of site.entry)
            (log_packet_standing (traveller_standing_kept at)) decision.action) ∷ [])
            [] at.packet (log_decided_flight decision (switch_next_of switch.old (switch_site_of site.entry)
            (log_packet_standing (traveller_standing_kept at)) decision.action))
            self.old self.new }
        ensures same { switch.new ≡ switch.old }
    {
        let packet = at.packet;
        at.version = decision.version;
        at.rule = decision.rule;
        match decision.action {
            Action::Drop => self.end(packet, Item::Dropped { packet }),
            Action::Out(port) => match site.ports.owner(port) {
                None => self.stuck(alloc, at, Cause::NoRoute, Leg::Exit { port }),
                Some(owner) => {
                    if owner == switch.number() {
                        return self.end(packet, leaves(&at, port));
                    }
                    let leg = Leg::Exit { port };
                    let targets = Targets::new(&[owner]).unwrap();
                    self.set_out(alloc, at, leg, targets, switch, site.near)
                }
            },
        }
    }
}
