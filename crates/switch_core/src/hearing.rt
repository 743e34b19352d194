ghost use Rattle.std.specs.Prelude.{◌≡◌, ◌<◌, [], ◌∷◌, OnErr, OnOk, IfOk};
ghost use Rattle.switch_table.specs.Tables.{AreSoundSwitchTables};
ghost use Rattle.ctrl_msg.specs.declared.message.Body.TheVariants.{Advertise};
ghost use Rattle.ctrl_msg.specs.Kinds.{message_to_controller};
ghost use Rattle.switch_core.specs.Hearing.{IsSoundSwitchBody, switch_collected_to, switch_flood, switch_with_message, switch_after_advert, switch_with_installed, is_news_to_switch, switch_with_learnt, switch_obeys, switch_opening_stamp, switch_opened_with, switch_opened_by, switch_stamp_raised_to, replies, switch_replies_to, switch_stamped_with};

use crate::kept::SwitchKeptTables;
use crate::switch::Switch;
use base::{Items, has};
use ctrl_msg::{Body, Message, Place, SharedTables};
use failover::Advert;
use std::alloc::{AllocError, Global};
use switch_table::{CacheEntry, Touched};

/// What a message causes at a switch.
#[derive(Drop)]
pub struct Heard {
    /// The messages to send, in order.
    pub replies: Replies,
    /// The switch's stamp, if the message opened it.
    pub opened: Option<u32>,
}

/// Messages to send, in order.
pub type Replies = Items<Message>;

impl Switch {
    /// Delivers the message of this number. Nothing changes if the switch is down, or the message
    /// is for another boot or for the controller.
    ///
    /// `near` has a bit for each switch to which there is a usable link.
    ///
    /// # Errors
    /// Only out of memory; then nothing changes, as if the message hadn't been delivered.
    #[tactic(auto, unfolding(crate::specs::Hearing::switch_with_message, crate::specs::Hearing::replies, crate::specs::Hearing::switch_opening_stamp))]
    pub fn hear(&mut self, number: u32, body: &Body, near: u64) -> Result<Heard, AllocError>
        requires { IsSoundSwitchBody body.now }
        ensures after { OnOk result (self.new ≡ switch_with_message self.old number body.now) }
        ensures replies { IfOk result (λ h. h.replies ≡ replies self.old near body.now) }
        ensures opened { IfOk result (λ h. h.opened ≡ switch_opening_stamp self.old body.now) }
        ensures err { OnErr result (self.new ≡ self.old) }
    {
        let alloc = *self.tables.allocator();
        if !self.obeys(body) {
            return Ok(Heard {
                replies: Replies::new(alloc),
                opened: None,
            });
        }
        let replies = self.replies_to(alloc, body, near)?;
        let opened = self.opened_by(body);
        match body {
            Body::Install { tables, .. } => self.install(alloc, tables)?,
            Body::OpenAt { version, .. } => self.open_with(*version),
            Body::Stamp {
                version,
                touched,
                ..
            } => self.stamp_with(*version, touched.get())?,
            Body::Collect { version, .. } => self.collect(*version),
            Body::CacheRule {
                version,
                word,
                rule,
                action,
            } => self.learn(CacheEntry {
                version: *version,
                word: *word,
                rule: *rule,
                action: *action,
                message: number,
            })?,
            Body::Advertise { advert } => self.inform(advert),
            _ => {}
        }
        Ok(Heard { replies, opened })
    }

    // Whether the switch is up, and the body is for a switch, of this boot if it carries one.
    #[tactic(auto, unfolding(crate::specs::Hearing::switch_obeys))]
    fn obeys(&self, body: &Body) -> bool
        ensures { result ≡ switch_obeys self.now body.now }
    {
        self.is_up
            && !body.is_for_controller()
            && match body.boot() {
                Some(boot) => boot == self.boot,
                None => true,
            }
    }

    // What the switch sends in reply to a body that it obeys.
    fn replies_to(&self, alloc: Global, body: &Body, near: u64) -> Result<Replies, AllocError>
        ensures { IfOk result (λ list. list ≡ switch_replies_to self.now near body.now) }
    {
        match body {
            Body::Install { tables, .. } => one_switch_reply(
                alloc,
                switch_message_to_controller(Body::Installed {
                    switch: self.number,
                    boot: self.boot,
                    version: tables.tables().version,
                }),
            ),
            Body::Stamp { version, .. } => one_switch_reply(
                alloc,
                switch_message_to_controller(Body::Stamped {
                    switch: self.number,
                    boot: self.boot,
                    version: *version,
                }),
            ),
            Body::Advertise { advert } if self.is_news(advert) => switch_flood(alloc, near, advert),
            _ => Ok(Replies::new(alloc)),
        }
    }

    // The stamp with which the body opens the switch; `None` if it doesn't open it.
    fn opened_by(&self, body: &Body) -> Option<u32>
        ensures { result ≡ switch_opened_by self.now body.now }
    {
        match body {
            Body::OpenAt { version, .. } if !self.is_open => Some(self.stamp.max(*version)),
            _ => None,
        }
    }

    // Keeps the tables, with trees for them, unless it has that version or has dropped it.
    #[tactic(auto, unfolding(crate::specs::Hearing::switch_with_installed))]
    fn install(&mut self, alloc: Global, tables: &SharedTables) -> Result<(), AllocError>
        requires { AreSoundSwitchTables tables.now }
        ensures after { OnOk result (self.new ≡ switch_with_installed self.old tables.now) }
        ensures err { OnErr result (self.new ≡ self.old) }
    {
        let version = tables.tables().version;
        if version <= self.collected || self.holds_version(version) {
            return Ok(());
        }
        self.tables.push(SwitchKeptTables::new(alloc, tables)?)?;
        Ok(())
    }

    // Serves from now on, with at least this version as its stamp.
    fn open_with(&mut self, version: u32)
        ensures { self.new ≡ switch_opened_with self.old version }
    {
        self.raise(version);
        self.is_open = true;
    }

    // Stamps with at least this version from now on; if the stamp rises, the cached rules are
    // carried to it, except those that the change touches.
    #[tactic(auto, unfolding(crate::specs::Hearing::switch_stamped_with))]
    fn stamp_with(&mut self, version: u32, touched: &Touched) -> Result<(), AllocError>
        ensures after { OnOk result (self.new ≡ switch_stamped_with self.old version touched.now) }
        ensures err { OnErr result (self.new ≡ self.old) }
    {
        if self.stamp < version {
            self.cache.carry(version, touched)?;
            self.stamp = version;
        }
        Ok(())
    }

    // Stamps with at least this version from now on, and raises the cache to it if the stamp rises.
    #[tactic(auto, unfolding(crate::specs::Hearing::switch_stamp_raised_to))]
    fn raise(&mut self, version: u32)
        ensures { self.new ≡ switch_stamp_raised_to self.old version }
    {
        if self.stamp < version {
            self.stamp = version;
            self.cache.raise(version);
        }
    }

    // Drops the tables up to this version.
    #[tactic(auto, unfolding(crate::specs::Hearing::switch_collected_to))]
    fn collect(&mut self, version: u32)
        ensures { self.new ≡ switch_collected_to self.old version }
    {
        self.collected = self.collected.max(version);
        let mark = self.collected;
        self.tables.retain(|kept| kept.version() > mark);
    }

    // Adds a rule to the cache.
    fn learn(&mut self, entry: CacheEntry) -> Result<(), AllocError>
        ensures after { OnOk result (self.new ≡ switch_with_learnt self.old entry) }
        ensures err { OnErr result (self.new ≡ self.old) }
    {
        self.cache.accept(self.stamp, entry)
    }

    // Keeps an advert of another switch, if it is news.
    #[tactic(auto, unfolding(crate::specs::Hearing::switch_after_advert))]
    fn inform(&mut self, advert: &Advert)
        ensures { self.new ≡ switch_after_advert self.old advert.now }
    {
        if self.is_news(advert) {
            self.database.hear(advert);
        }
    }

    // Whether the advert is of another switch, and news to the database.
    #[tactic(auto, unfolding(crate::specs::Hearing::is_news_to_switch))]
    fn is_news(&self, advert: &Advert) -> bool
        ensures { result ≡ is_news_to_switch self.now advert.now }
    {
        advert.origin != self.number && self.database.database().is_news(advert)
    }
}

// A message for the controller.
fn switch_message_to_controller(body: Body) -> Message
    ensures { result ≡ message_to_controller body }
{
    Message {
        to: Place::Controller,
        body,
    }
}

// Only this message.
fn one_switch_reply(alloc: Global, message: Message) -> Result<Replies, AllocError>
    ensures { IfOk result (λ replies. replies ≡ message ∷ []) }
{
    let mut replies = Replies::new(alloc);
    replies.push(message)?;
    Ok(replies)
}

// The advert for each neighbour, ascending.
#[tactic(auto, using(crate::proofs::SwitchNeighbourBodies::told_none, crate::proofs::SwitchNeighbourBodies::adverts_near, crate::proofs::SwitchNeighbourBodies::told_far))]
fn switch_flood(alloc: Global, near: u64, advert: &Advert) -> Result<Replies, AllocError>
    ensures { IfOk result (λ list. list ≡ switch_flood near (Advertise advert.now)) }
{
    let mut messages = Vec::with_capacity(alloc, near.count_ones() as usize)?;
    for other in near.trailing_zeros()..64 - near.leading_zeros() {
        if has(near, other) {
            messages.push(Message {
                to: Place::Switch(other),
                body: Body::Advertise { advert: *advert },
            })?;
        }
    }
    Ok(Replies::from_items(messages))
}
