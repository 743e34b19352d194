ghost use Rattle.std.specs.Prelude.{◌≡◌};
ghost use Rattle.ctrl_msg.specs.declared.message.Body.TheVariants.{CacheRule};

use crate::deciding::Decision;
use ctrl_msg::Body;
use policy_rules::{Leg, Targets};
use ternary::Word;

/// What becomes of a packet at a switch, before a route is taken: small compared with a tunnel,
/// which has room for a route. `Switch::shared_route` finds the route.
#[derive(Drop)]
pub enum Forwarding {
    /// Out of the network, by this port of the switch: at the end of the packet's route to it.
    Out(u32),
    /// Decided, with the word of a rule for the cache of the switch where the packet entered,
    /// unless that is this one. It moves on as the decision's action says.
    Decided {
        decision: Decision,
        word: Option<Word>,
    },
    /// To one of these authority switches.
    Seek {
        leg: Leg,
        targets: Targets,
    },
}

impl Decision {
    /// The body of a message that brings a cache the decision's rule for this word.
    pub fn cache_rule(&self, word: Word) -> Body
        ensures { result ≡ CacheRule self.now.version word self.now.rule self.now.action }
    {
        Body::CacheRule {
            version: self.version,
            word,
            rule: self.rule,
            action: self.action,
        }
    }
}
