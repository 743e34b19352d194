use five_tuple::Header;

/// The most events of a schedule.
pub const MAX_EVENTS: usize = 100_000;

/// The greatest number by which a step names a packet, a message or a place of a cache.
pub const MAX_NUMBER: u32 = 999_999_999;

/// What one step does to the network.
#[derive(Clone, Copy, Debug, PartialEq, Eq)]
pub enum Step {
    /// A packet with this header enters at the switch.
    Packet { switch: u32, header: Header },
    /// The packet moves on over one link of its route, or arrives where the route ends.
    Hop { packet: u32 },
    /// The packet is lost on its way.
    Lose { packet: u32 },
    /// The message reaches its receiver, again if it did before.
    Deliver { message: u32 },
    /// The message never reaches its receiver again.
    Forget { message: u32 },
    /// The entry at this place of the switch's cache expires; the place of the oldest is 0.
    Expire { switch: u32, place: u32 },
    /// The policy that this file, from 1, has or makes becomes the newest version, or is refused.
    Update { file: u32 },
    /// The link between these two switches fails.
    LinkDown { one: u32, two: u32 },
    /// The link between these two switches works again.
    LinkUp { one: u32, two: u32 },
    /// The switch goes down, and loses all that it has.
    Crash { switch: u32 },
    /// The switch comes up again, in a new boot.
    Restart { switch: u32 },
    /// The controller learns that the switch is down.
    Confirm { switch: u32 },
    /// The switch and the controller send each other again what the other may lack.
    Resend { switch: u32 },
}

/// What one row of a schedule asks for.
#[derive(Clone, Copy, Debug, PartialEq, Eq)]
pub enum Event {
    /// This one step.
    One(Step),
    /// Each message that waits is delivered, by ascending number, and so is each sent meanwhile.
    Flush,
    /// Each packet that travels hops until it no longer travels, by ascending number.
    Drain,
}
