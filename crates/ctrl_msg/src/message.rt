ghost use Rattle.std.specs.Prelude.{◌≡◌};
ghost use Rattle.ctrl_msg.specs.Bodies.{body_boot};
ghost use Rattle.ctrl_msg.specs.Kinds.{body_version, is_body_for_controller};

use crate::shared::SharedTables;
use base::Shared;
use failover::Advert;
use policy_rules::Action;
use std::alloc::AllocError;
use switch_table::Touched;
use ternary::Word;

/// The receiver of a message.
#[derive(Clone, Copy, Debug, PartialEq, Eq)]
pub enum Place {
    /// The switch of this number.
    Switch(u32),
    Controller,
}

/// What a message says. The first six are for a switch, the others for the controller.
#[derive(Clone, Debug, Drop)]
pub enum Body {
    /// In this boot, keep these tables, and those of other versions too.
    Install {
        boot: u32,
        tables: SharedTables,
    },
    /// In this boot, serve, and stamp packets with at least this version.
    OpenAt {
        boot: u32,
        version: u32,
    },
    /// In this boot, stamp packets with this version from now on. The change that made it from the
    /// version before touches no more than these words.
    Stamp {
        boot: u32,
        version: u32,
        touched: Shared<Touched>,
    },
    /// In this boot, drop the tables of the versions up to this one.
    Collect {
        boot: u32,
        version: u32,
    },
    /// Under this version, this rule decides the headers of the word.
    CacheRule {
        version: u32,
        word: Word,
        /// The priority of the row, or `None` for the default.
        rule: Option<u32>,
        action: Action,
    },
    /// A switch says which of its links are usable.
    Advertise {
        advert: Advert,
    },
    /// The switch has begun this boot.
    Hello {
        switch: u32,
        boot: u32,
    },
    /// In this boot, the switch has this version's tables.
    Installed {
        switch: u32,
        boot: u32,
        version: u32,
    },
    /// In this boot, the switch stamps packets with this version, or a later one.
    Stamped {
        switch: u32,
        boot: u32,
        version: u32,
    },
}

/// A message on its way.
#[derive(Debug, Drop)]
pub struct Message {
    pub to: Place,
    pub body: Body,
}

impl Body {
    /// The boot that the message is for or from; `None` for an advert or a cache rule.
    pub fn boot(&self) -> Option<u32>
        ensures { result ≡ body_boot self.now }
    {
        match self {
            Body::Install { boot, .. }
            | Body::OpenAt { boot, .. }
            | Body::Stamp { boot, .. }
            | Body::Collect { boot, .. }
            | Body::Hello { boot, .. }
            | Body::Installed { boot, .. }
            | Body::Stamped { boot, .. } => Some(*boot),
            Body::CacheRule { .. } | Body::Advertise { .. } => None,
        }
    }

    /// The version that the message names, if it names one.
    pub fn version(&self) -> Option<u32>
        ensures { result ≡ body_version self.now }
    {
        match self {
            Body::Install { tables, .. } => Some(tables.tables().version),
            Body::OpenAt { version, .. }
            | Body::Stamp { version, .. }
            | Body::Collect { version, .. }
            | Body::CacheRule { version, .. }
            | Body::Installed { version, .. }
            | Body::Stamped { version, .. } => Some(*version),
            Body::Advertise { .. } | Body::Hello { .. } => None,
        }
    }

    /// Whether the message is for the controller.
    pub fn is_for_controller(&self) -> bool
        ensures { result ≡ is_body_for_controller self.now }
    {
        match self {
            Body::Hello { .. } | Body::Installed { .. } | Body::Stamped { .. } => true,
            _ => false,
        }
    }
}

impl Clone for Message {
    ghost is_clone = { λ message copy. copy ≡ message };

    fn clone(&self) -> Result<Message, AllocError> {
        let body = self.body.clone()?;
        Ok(Message { to: self.to, body })
    }
}
