ghost use Rattle.std.specs.Prelude.{◌≡◌, ◌+◌, ℕ, List, None, IsSomeAnd, IsTrue, option_map, slice_get};
ghost use Rattle.policy_rules.specs.Hosted.{is_in_policy_partition};
ghost use Rattle.policy_rules.specs.declared.packet.Leg.TheVariants.{Seek as SeekLeg};
ghost use Rattle.switch_core.specs.Answers.{Answered};
ghost use Rattle.switch_core.specs.Exports.{CanSwitchLookUp, MaySwitchEndLeg, IsSwitchFirstHit, IsSwitchFindingFirstHit, IsSwitchAnswerUncached, SwitchSite as SiteValue, SwitchStandsAtRoutePlace, switch_admitted, switch_admitted_as, switch_answer_by_found, switch_arrival_by_forwarding, switch_arrival_on_leg, switch_call_counted, switch_answer_by_rule, switch_answer_in_partition, holds_version, switch_incoming_packet, switch_looked_up, switch_own_partition, switch_packet_to_look_up, serves};

use crate::deciding::{Decision, switch_core_cache_word, switch_core_rule_in, switch_own_part};
use crate::forwarding::Forwarding;
use crate::kept::SwitchKeptTables;
use crate::packet::Arriving;
use crate::switch::Switch;
use five_tuple::Header;
use policy_rules::{Leg, Partition};
use switch_table::{Found, Tables};

impl Switch {
    /// What becomes of a packet that enters here, whatever its number: `None` exactly if the switch
    /// doesn't serve. Otherwise the switch looks it up under its stamp, and sends no rule to a
    /// cache. `switch_core_lookup_laws` says how. This copies no route and no set of links.
    pub fn admit(&mut self, h: &Header) -> Option<Forwarding>
        requires { CanSwitchLookUp self.old }
        ensures answer { (site : SiteValue) (number : ℕ) →
            switch_admitted_as self.new site (switch_incoming_packet self.old number h.now) result
            ≡ option_map Answered (switch_admitted self.old site (switch_incoming_packet self.old number h.now)) }
        ensures uncached { (site : SiteValue) (number : ℕ) →
            IsSwitchAnswerUncached (switch_admitted self.old site (switch_incoming_packet self.old number h.now)) }
        ensures after { self.new ≡ switch_call_counted self.old }
    {
        if !self.serves() {
            self.count();
            return None;
        }
        let forwarding = self.look_up(h, self.number);
        self.count();
        Some(forwarding)
    }

    /// What becomes of a packet that is here, at the end of its route, whatever its number and the
    /// links that it found down. On its leg to a port it leaves by the port. On its leg to an
    /// authority switch the tables of its version decide it; if the switch doesn't have these, it
    /// looks the packet up under its stamp. This copies no route and no set of links.
    pub fn receive(&mut self, t: Arriving) -> Forwarding
        requires serving { IsTrue (serves self.old) }
        requires stamped { CanSwitchLookUp self.old }
        requires here { SwitchStandsAtRoutePlace self.old t.route.now t.place }
        requires last { slice_get t.route.now (t.place + 1) ≡ None }
        requires authority { MaySwitchEndLeg self.old t.header.now t.leg }
        ensures answer { (site : SiteValue) (number : ℕ) (down : List ℕ) →
            switch_arrival_by_forwarding self.new site
            (switch_packet_to_look_up number t.entry.header.now t.entry.ingress down) result
            ≡ switch_arrival_on_leg self.old site
            (switch_packet_to_look_up number t.entry.header.now t.entry.ingress down) t.entry.leg }
        ensures after { self.new ≡ switch_call_counted self.old }
    {
        match t.leg {
            Leg::Exit { port } => {
                self.count();
                Forwarding::Out(port)
            }
            Leg::Seek { version, partition } => {
                let forwarding = self.judge(t.header, t.ingress, version, partition);
                self.count();
                forwarding
            }
        }
    }

    // Decides by the tables of this version if the switch has them, otherwise by a lookup.
    fn judge(&self, h: &Header, ingress: u32, version: u32, partition: u32) -> Forwarding
        requires stamped { IsTrue (holds_version self.now self.now.stamp) }
        requires authority { MaySwitchEndLeg self.now h.now (SeekLeg version partition) }
        ensures { (site : SiteValue) (number : ℕ) (down : List ℕ) →
            switch_arrival_by_forwarding self.now site (switch_packet_to_look_up number h.now ingress down) result
            ≡ switch_arrival_on_leg self.now site
            (switch_packet_to_look_up number h.now ingress down) (SeekLeg version partition) }
    {
        match self.held_tables(version) {
            Some(tables) => self.decide_in(h, ingress, partition, tables),
            None => self.look_up(h, ingress),
        }
    }

    // Looks the header up under the switch's stamp.
    #[tactic(auto, unfolding(crate::specs::Answering::switch_looked_up))]
    fn look_up(&self, h: &Header, ingress: u32) -> Forwarding
        requires { IsTrue (holds_version self.now self.now.stamp) }
        ensures { (site : SiteValue) (number : ℕ) (down : List ℕ) →
            switch_arrival_by_forwarding self.now site (switch_packet_to_look_up number h.now ingress down) result
            ≡ Answered (switch_looked_up self.now site (switch_packet_to_look_up number h.now ingress down)) }
    {
        let finder = self.stamp_tables().finder();
        // For the proof: the contract of `number` says that the header is below its bound.
        let _ = h.number();
        let found = finder.lookup(&self.cache, h);
        self.by_found(h, ingress, finder.tables(), &found)
    }

    // The result for what a lookup found in these tables.
    #[tactic(auto, unfolding(crate::specs::Answering::switch_answer_by_found))]
    fn by_found(&self, h: &Header, ingress: u32, tables: &Tables, found: &Found) -> Forwarding
        requires { IsSwitchFindingFirstHit tables.now h.now found.now }
        ensures { (site : SiteValue) (number : ℕ) (down : List ℕ) →
            switch_arrival_by_forwarding self.now site (switch_packet_to_look_up number h.now ingress down) result
            ≡ Answered (switch_answer_by_found self.now site
            (switch_packet_to_look_up number h.now ingress down) tables.now found.now) }
    {
        match found {
            Found::Cached(entry) => Forwarding::Decided {
                decision: Decision::by_entry(entry),
                word: None,
            },
            Found::Authority { partition, rule } => {
                let part = switch_own_part(tables, *partition).unwrap();
                self.decide_at(h, ingress, tables.version, part, *rule)
            }
            Found::Redirect { partition, targets } => Forwarding::Seek {
                leg: Leg::Seek {
                    version: tables.version,
                    partition: *partition,
                },
                targets: *targets,
            },
        }
    }

    // Decides by the partition of this number in these tables.
    #[tactic(auto, unfolding(crate::specs::Answering::switch_answer_in_partition))]
    fn decide_in(
        &self,
        h: &Header,
        ingress: u32,
        partition: u32,
        tables: &SwitchKeptTables,
    ) -> Forwarding
        requires { IsSomeAnd (switch_own_partition tables.now partition)
            (λ part. IsTrue (is_in_policy_partition h.now part)) }
        ensures { (site : SiteValue) (number : ℕ) (down : List ℕ) →
            switch_arrival_by_forwarding self.now site (switch_packet_to_look_up number h.now ingress down) result
            ≡ Answered (switch_answer_in_partition self.now site
            (switch_packet_to_look_up number h.now ingress down) partition tables.now) }
    {
        let place = tables.first_place(partition, h);
        let tables = tables.finder().tables();
        let part = switch_own_part(tables, partition).unwrap();
        self.decide_at(h, ingress, tables.version, part, place)
    }

    // Decides by the rule at this place of the partition.
    #[inline(always)]
    #[tactic(auto, unfolding(crate::specs::Answering::switch_answer_by_rule))]
    fn decide_at(
        &self,
        h: &Header,
        ingress: u32,
        version: u32,
        part: &Partition,
        place: u32,
    ) -> Forwarding
        requires { IsSwitchFirstHit h.now part.now place }
        ensures { (site : SiteValue) (number : ℕ) (down : List ℕ) →
            switch_arrival_by_forwarding self.now site (switch_packet_to_look_up number h.now ingress down) result
            ≡ Answered (switch_answer_by_rule self.now site
            (switch_packet_to_look_up number h.now ingress down) version part.now place) }
    {
        let rule = switch_core_rule_in(part, place);
        Forwarding::Decided {
            decision: Decision::by_rule(self.number, version, part.number, rule),
            word: switch_core_cache_word(self.number, h, ingress, part, place),
        }
    }
}
