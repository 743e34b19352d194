use crate::packed_leaving::PackedLeaving;
use crate::shared::{SharedLinks, SharedMessage, SharedRoute};
use base::Items;
use five_tuple::Header;
use policy_rules::{Action, Cause, How, Leg};
use steps::Step;

/// One record of a journal.
///
/// Packets and messages are numbered from 1 in the order in which they entered or were sent,
/// switches from 0, policy versions, files and boots from 1.
#[derive(Drop)]
pub enum Item {
    /// The schedule's row of this number, from 1, takes this step.
    Row {
        row: u32,
        step: Step,
    },
    /// The packet entered at the switch.
    Entered {
        packet: u32,
        switch: u32,
        header: Header,
    },
    /// The packet is closed: the switch to which it came did not serve.
    Closed {
        packet: u32,
        switch: u32,
    },
    /// The packet takes this route to an authority switch of its partition.
    Seeking {
        packet: u32,
        version: u32,
        partition: u32,
        route: SharedRoute,
    },
    /// The packet takes this route to the switch of its port.
    Exiting {
        packet: u32,
        route: SharedRoute,
    },
    /// The packet moved on to the switch.
    Hopped {
        packet: u32,
        switch: u32,
    },
    /// The packet is at `one`, and found its link to `two` down.
    FoundDown {
        packet: u32,
        one: u32,
        two: u32,
    },
    /// The packet takes this route to the same targets.
    Rerouted {
        packet: u32,
        route: SharedRoute,
    },
    /// The packet got this rule and action of this policy version: the row's priority, or `None`
    /// for the default.
    Decided {
        packet: u32,
        version: u32,
        rule: Option<u32>,
        action: Action,
        how: How,
    },
    /// The packet left the network by the port.
    Left {
        packet: u32,
        port: u32,
        leaving: PackedLeaving,
    },
    /// The packet ended by its action `Drop`.
    Dropped {
        packet: u32,
    },
    /// The packet was lost, by its own row or with the switch where it was.
    Lost {
        packet: u32,
    },
    /// The packet found no route from the switch to the targets of its leg without the links that
    /// it had found down.
    Stuck {
        packet: u32,
        switch: u32,
        cause: Cause,
        leg: Leg,
        down: SharedLinks,
    },
    /// The message of this number was sent.
    Sent {
        number: u32,
        message: SharedMessage,
    },
    /// The message reached its receiver.
    Delivered {
        number: u32,
    },
    /// The message never reaches its receiver again.
    Forgotten {
        number: u32,
    },
    /// The entry at this place of the switch's cache expired; this message had brought it.
    Expired {
        switch: u32,
        place: u32,
        message: u32,
    },
    /// The policy that the file has or makes became this version.
    Submitted {
        file: u32,
        version: u32,
    },
    /// The policy or the change of the file was refused with this code.
    Refused {
        file: u32,
        code: u32,
    },
    /// This version became current: members may stamp packets with it.
    Current {
        version: u32,
    },
    /// The versions up to this one are retired.
    Retired {
        version: u32,
    },
    /// The switch began this boot.
    Booted {
        switch: u32,
        boot: u32,
    },
    /// The switch serves from now on, and stamps packets with this version.
    Opened {
        switch: u32,
        version: u32,
    },
    /// The switch went down, and lost all that it had.
    Down {
        switch: u32,
    },
    /// The controller no longer waits for the switch.
    OverNow {
        switch: u32,
    },
    /// The link, whose lower switch is `one`, came back or failed.
    LinkIs {
        one: u32,
        two: u32,
        up: bool,
    },
    /// The step did nothing.
    Nothing,
}

/// What happened in a play, item by item in order.
pub type Journal = Items<Item>;

/// The most bytes of an item.
pub const ITEM_SIZE: usize = 40;

const _: () = prove!(size_of::<Item>() <= ITEM_SIZE);
