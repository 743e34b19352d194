ghost use Rattle.std.specs.Prelude.{◌≡◌};
ghost use Rattle.controller.specs.Sends.{controller_post_act};

use base::Items;
use ctrl_msg::{Body, Message, Place};

/// What a controller does at a call.
#[derive(Debug, Drop)]
pub enum Act {
    /// This version is current from now on.
    Current(u32),
    /// The versions up to this one are retired from now on.
    Retired(u32),
    /// A message is sent.
    Post(Message),
}

impl Act {
    pub(crate) fn post(s: u32, body: Body) -> Act
        ensures { result ≡ controller_post_act s body }
    {
        Act::Post(Message {
            to: Place::Switch(s),
            body,
        })
    }
}

/// What a controller does at a call, in order.
pub type Sends = Items<Act>;
