ghost use Rattle.std.specs.Prelude.{◌≡◌, ◌+◌, ◌-◌, ◌^◌, ◌<◌, [], ◌∷◌, ◌++◌, None, IsSomeAnd, OnOk, OnErr, length, option_map};
ghost use Rattle.message_bag.specs.Posts.{new_bag_post};
ghost use Rattle.message_bag.specs.Feeding.{HasShortBagSpelling};
ghost use Rattle.journal.specs.declared.item.Item.TheVariants.{Hopped as HoppedItem, Sent as SentItem, Stuck as StuckItem};
ghost use Rattle.travelling.specs.Travelling.{TravellingFlightHasPlace, travelling_flight_placed_at, traveller_standing_kept, flight};
ghost use Rattle.update_machine.specs.Exports.{machine_takes_route};
ghost use Rattle.world_log.specs.Writing.{LogAfter, log_left_item};

use journal::{Item, Journal, Leaving, Message, PackedLeaving, SharedRoute};
use message_bag::PostBag;
use policy_rules::{Cause, Leg};
use std::alloc::{AllocError, Global};
use travelling::{Standing, Travelling};

/// What happened so far, the packets that are on their way, and the messages that were sent.
#[derive(Drop)]
pub struct Log {
    pub journal: Journal,
    pub travelling: Travelling,
    pub bag: PostBag,
}

impl Log {
    /// Sends the message under the next number: posts it in the bag, and writes the item.
    ///
    /// # Errors
    /// Only out of memory; then nothing is written.
    pub fn send(&mut self, alloc: Global, message: Message) -> Result<(), AllocError>
        requires spelling { HasShortBagSpelling message }
        requires few { length self.old.bag < 2 ^ 32 - 1 }
        ensures written { OnOk result (self.new.journal
            ≡ self.old.journal ++ SentItem (length self.old.bag + 1) message ∷ []) }
        ensures posted { OnOk result (self.new.bag ≡ self.old.bag ++ new_bag_post message ∷ []) }
        ensures unwritten { OnErr result (self.new.journal ≡ self.old.journal) }
        ensures travelling { self.new.travelling ≡ self.old.travelling }
    {
        let (number, message) = self.bag.post_shared(alloc, message)?;
        self.journal.push(Item::Sent { number, message })
    }

    // Ends the packet, which is stuck on this leg.
    pub(crate) fn stuck(
        &mut self,
        alloc: Global,
        at: Standing,
        cause: Cause,
        leg: Leg,
    ) -> Result<(), AllocError>
        ensures { LogAfter result
            (StuckItem at.packet at.switch cause leg (traveller_standing_kept at).down ∷ []) []
            at.packet None self.old self.new }
    {
        let packet = at.packet;
        let switch = at.switch;
        let down = self.travelling.links_of(alloc, at)?;
        self.end(
            packet,
            Item::Stuck {
                packet,
                switch,
                cause,
                leg,
                down,
            },
        )
    }

    // Writes this item, with which the packet ends: it leaves the table.
    pub(crate) fn end(&mut self, packet: u32, item: Item) -> Result<(), AllocError>
        ensures { LogAfter result (item ∷ []) [] packet None self.old self.new }
    {
        let _ = self.travelling.remove(packet);
        self.journal.push(item)
    }

    // Moves the packet on to this place of its route, at this switch. Only the journal allocates.
    pub(crate) fn move_on(&mut self, packet: u32, place: u32, switch: u32) -> Result<(), AllocError>
        requires { IsSomeAnd (flight self.old.travelling packet) (TravellingFlightHasPlace place) }
        ensures { LogAfter result (HoppedItem packet switch ∷ []) [] packet
            (option_map (travelling_flight_placed_at place) (flight self.old.travelling packet))
            self.old self.new }
    {
        self.travelling.move_to(packet, place);
        self.journal.push(Item::Hopped { packet, switch })
    }
}

/// The item of a packet that leaves by the port, with the version and the rule of its decision.
pub fn leaves(at: &Standing, port: u32) -> Item
    ensures { result ≡ log_left_item (traveller_standing_kept at.now) at.now.version at.now.rule port }
{
    let leaving = Leaving {
        packet: at.packet,
        header: at.header,
        version: at.version,
        rule: at.rule,
    };
    Item::Left {
        packet: at.packet,
        port,
        leaving: PackedLeaving::new(&leaving),
    }
}

/// The item of a packet that takes the route on the leg.
pub fn world_log_takes_route(packet: u32, leg: Leg, route: SharedRoute) -> Item
    ensures { result ≡ machine_takes_route packet leg route }
{
    match leg {
        Leg::Seek { version, partition } => Item::Seeking {
            packet,
            version,
            partition,
            route,
        },
        Leg::Exit { .. } => Item::Exiting { packet, route },
    }
}
