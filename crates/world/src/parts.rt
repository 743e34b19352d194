ghost use Rattle.steps.specs.declared.step.Step.TheVariants.{Expire as ExpireStep, Forget as ForgetStep, Hop as HopStep, Lose as LoseStep, Packet as PacketStep};
ghost use Rattle.world.specs.Parts.{WorldStepGoes, WorldStepHasBegun, IsWorldReadyForStep, WorldPlaysStep};

use crate::files::Files;
use controller::Controller;
use five_tuple::Header;
use journal::Item;
use net_file::Ports;
use std::alloc::{AllocError, Global};
use steps::Step;
use switch_core::Switch;
use world_log::{Log, SwitchSite};

/// What a world is made of.
#[derive(Drop)]
pub struct WorldParts {
    pub files: Files,
    pub ports: Ports,
    /// For each switch the mask of those to which it has a link that is up.
    pub links: [u64; 64],
    /// For each switch the mask of those to which it has a usable link.
    pub near: [u64; 64],
    pub switches: Vec<Switch>,
    pub log: Log,
    /// How many packets entered or came to a switch that did not serve.
    pub packets: u32,
    pub controller: Controller,
}

// Each kind of step has its own method, which begins after the step's row.
impl WorldParts {
    /// Takes the step of this row, and writes what happens.
    ///
    /// # Errors
    /// Only out of memory; then a part of the items is written.
    pub fn play(&mut self, alloc: Global, row: u32, step: &Step) -> Result<(), AllocError>
        requires { IsWorldReadyForStep self.old.log.journal step.now self.old }
        ensures { WorldStepGoes result self.old.log.journal row step.now self.old self.new }
    {
        self.log.journal.push(Item::Row { row, step: *step })?;
        match step {
            Step::Packet { switch, header } => self.packet(alloc, *switch, header),
            Step::Hop { packet } => self.hop(alloc, *packet),
            Step::Lose { packet } => self.lose(*packet),
            Step::Deliver { message } => self.deliver(alloc, *message),
            Step::Forget { message } => self.forget(*message),
            Step::Expire { switch, place } => self.expire(*switch, *place),
            Step::Update { file } => self.update(alloc, *file),
            Step::LinkDown { one, two } => self.set_link(alloc, *one, *two, false),
            Step::LinkUp { one, two } => self.set_link(alloc, *one, *two, true),
            Step::Crash { switch } => self.crash(alloc, *switch),
            Step::Restart { switch } => self.restart(alloc, *switch),
            Step::Confirm { switch } => self.confirm(alloc, *switch),
            Step::Resend { switch } => self.resend(alloc, *switch),
        }
    }

    // A packet enters at a switch, or the switch does not serve.
    fn packet(&mut self, alloc: Global, switch: u32, header: &Header) -> Result<(), AllocError>
        requires { WorldStepHasBegun (PacketStep switch header.now) self.old }
        ensures { WorldPlaysStep (PacketStep switch header.now) result self.old self.new }
    {
        self.packets += 1;
        let site = SwitchSite {
            near: self.near[switch as usize],
            ports: &self.ports,
        };
        self.log.enter(
            alloc,
            self.packets,
            header,
            &mut self.switches[switch as usize],
            site,
        )
    }

    // A packet moves on, or is at the end of its route.
    fn hop(&mut self, alloc: Global, packet: u32) -> Result<(), AllocError>
        requires { WorldStepHasBegun (HopStep packet) self.old }
        ensures { WorldPlaysStep (HopStep packet) result self.old self.new }
    {
        self.log
            .hop(alloc, packet, &mut self.switches, &self.near, &self.ports)
    }

    // A packet is lost on its way.
    fn lose(&mut self, packet: u32) -> Result<(), AllocError>
        requires { WorldStepHasBegun (LoseStep packet) self.old }
        ensures { WorldPlaysStep (LoseStep packet) result self.old self.new }
    {
        if !self.log.travelling.has(packet) {
            return self.log.journal.push(Item::Nothing);
        }
        self.log.lose(packet)
    }

    // The message is forgotten: it is never delivered after that.
    fn forget(&mut self, number: u32) -> Result<(), AllocError>
        requires { WorldStepHasBegun (ForgetStep number) self.old }
        ensures { WorldPlaysStep (ForgetStep number) result self.old self.new }
    {
        if !self.log.bag.may_be_delivered(number) {
            return self.log.journal.push(Item::Nothing);
        }
        self.log.bag.forget(number);
        self.log.journal.push(Item::Forgotten { number })
    }

    // A cached rule expires.
    fn expire(&mut self, switch: u32, place: u32) -> Result<(), AllocError>
        requires { WorldStepHasBegun (ExpireStep switch place) self.old }
        ensures { WorldPlaysStep (ExpireStep switch place) result self.old self.new }
    {
        match self.switches[switch as usize].expire(place) {
            None => self.log.journal.push(Item::Nothing),
            Some(message) => self.log.journal.push(Item::Expired {
                switch,
                place,
                message,
            }),
        }
    }
}
