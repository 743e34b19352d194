ghost use Rattle.std.specs.Prelude.{◌≡◌, ◌+◌, ◌-◌, ◌++◌, ◌<◌, ◌≤◌, false, true, [], length, unwrap_or, All, OnOk, OnErr, IfOk, IfErr, IsErrOf, IsSome, is_some};
ghost use Rattle.message_bag.specs.Posts.{next_waiting_bag_post};
ghost use Rattle.controller.specs.Plan.{ControllerRefusesPlan};
ghost use Rattle.net_file.specs.Net.{IsNet};
ghost use Rattle.policy_rules.specs.Exports.{PolicyFileRowsAre, IsSoundPolicyFile};
ghost use Rattle.update_machine.specs.Exports.{MachineJournalHasRoom, IsMachineJournalFull, NamesMachineSettingPort, journal_next_packet, next_travelling, next_waiting, piece, machine_setting_of, travels_in_journal};
ghost use Rattle.update_machine.specs.Messages.{is_waiting};
ghost use Rattle.packet_laws.specs.Exports.{PacketLawsHoldSoFar, ArePacketsKeptBehind};
ghost use Rattle.steps.specs.Steps.{IsStep};
ghost use Rattle.base.specs.declared.error.Failure.TheVariants.{NoMemory};
ghost use Rattle.world.specs.Files.{world_first_file_policy};
ghost use Rattle.world.specs.Least.{IsLeastInWorldFrom};
ghost use Rattle.world.specs.NoStep.{no_world_step};
ghost use Rattle.world.specs.State.{IsWorldBegun, WorldRefinesJournal, world_packets_coming_in, world_setting_at};
ghost use Rattle.travelling.specs.Travelling.{IsNextTravellerFrom, flight};
ghost use Rattle.world_log.specs.Writing.{IsLogPart};

use crate::beginning::{first_journal, first_world_switches};
use crate::error::{Full, StepError};
use crate::files::{Files, world_first_policy};
use crate::parts::WorldParts;
use base::Failure;
use controller::{Controller, PlanError, compile};
use journal::Journal;
use message_bag::PostBag;
use net_file::Net;
use packet_laws::{packet_journals_hold_so_far, packet_steps_are_kept};
use policy_rules::PolicyFile;
use std::alloc::Global;
use std::marker::Model;
use steps::Step;
use switch_core::Switch;
use travelling::Travelling;
use update_machine::FULL_AT;
use world_log::{Log, link_masks};

/// A network of switches with its controller, the packets on their way in it, and the journal of
/// what happened.
///
/// Contracts see the network, the files, the journal, the switches, the usable links, the packets
/// on their way, the messages, how many packets there were, the controller, and whether memory ran
/// out within a step.
#[derive(Drop)]
pub struct World {
    parts: WorldParts,
    is_spent: bool,
}

impl Model for World {
    ghost use Rattle.world.specs.State.{WorldValue};
    ghost use Rattle.world.specs.Parts.{IsWorld, world_value};

    ghost Value = { WorldValue };

    ghost view = { λ w. world_value w.parts w.is_spent };

    ghost invariant = { λ w. IsWorld w.parts w.is_spent };
}

impl World {
    /// The network with the policy of the first file in force as version 1: every switch is up and
    /// serves, and no packet entered yet. The later files may be changes.
    ///
    /// # Errors
    /// Why the first policy has no plan on the network, or out of memory.
    pub fn begin(alloc: Global, net: &Net, files: Vec<PolicyFile>) -> Result<World, PlanError>
        requires net { IsNet net.now }
        requires first { IsSome (world_first_file_policy files.items) }
        requires sound { All IsSoundPolicyFile files.items }
        requires ports { All (PolicyFileRowsAre (λ row. NamesMachineSettingPort (machine_setting_of net.now files.items)
            row.action)) files.items }
        ensures begun { IfOk result (IsWorldBegun (machine_setting_of net.now files.items)) }
        ensures refused { IfErr result
            (ControllerRefusesPlan (unwrap_or (world_first_file_policy files.items) []) net.now) }
    {
        let plan = compile(alloc, world_first_policy(&files), net)?;
        let first = plan.clone()?;
        let files = Files::new(alloc, net.clone()?, files, first)?;
        let near = link_masks(net);
        let controller = Controller::begin(alloc, net, plan)?;
        let switches = first_world_switches(alloc, net, &controller, &near)?;
        let journal = first_journal(alloc)?;
        let parts = WorldParts {
            files,
            ports: net.ports(),
            links: near,
            near,
            switches,
            log: Log {
                journal,
                travelling: Travelling::new(alloc),
                bag: PostBag::new(alloc),
            },
            packets: 0,
            controller,
        };
        Ok(World {
            parts,
            is_spent: false,
        })
    }

    /// Takes the step of this row of a schedule, and writes what happens into the journal. If the
    /// journal has no room for a step, the step may name anything: a flush may call this with a
    /// number that is too great.
    ///
    /// # Errors
    /// `Full` exactly if so many messages were sent that no step begins, and memory did not run out
    /// before; then nothing changes. Otherwise only out of memory: then the journal has a part of
    /// the step's items, and each further step returns the same at once and changes nothing.
    pub fn step(&mut self, row: u32, step: &Step) -> Result<(), StepError>
        requires may { MachineJournalHasRoom self.old.journal
            → IsStep self.old.net (length self.old.files) step.now }
        requires few { journal_next_packet self.old.journal ≤ 4_000_000_000 }
        ensures setting { world_setting_at self.new ≡ world_setting_at self.old }
        ensures written { OnOk result (self.new.journal ≡ self.old.journal
            ++ piece (world_setting_at self.old) self.old.journal row step.now) }
        ensures counted { OnOk result (self.new.packets ≡ self.old.packets + world_packets_coming_in step.now) }
        ensures goes_on { OnOk result (self.new.is_spent ≡ false) }
        ensures part { OnErr result (IsLogPart self.old.journal
            (piece (world_setting_at self.old) self.old.journal row step.now) self.new.journal) }
        ensures room { OnOk result (MachineJournalHasRoom self.old.journal) }
        ensures full { IsErrOf result no_world_step → IsMachineJournalFull self.old.journal }
        ensures refused { self.old.is_spent ≡ false → IsMachineJournalFull self.old.journal
            → IsErrOf result no_world_step }
        ensures unchanged { IsErrOf result no_world_step → self.new ≡ self.old }
        ensures lost { IsErrOf result NoMemory → self.new.is_spent ≡ true }
        ensures spent { self.old.is_spent ≡ true
            → (IsErrOf result NoMemory) × (self.new ≡ self.old) }

        // However it ends, the journal is a run whose ends have causes, and the versions are whole.
        ensures so_far { self.old.is_spent ≡ false
            → PacketLawsHoldSoFar (world_setting_at self.old) self.new.journal }
    {
        let alloc = *self.parts.switches.allocator();
        packet_journals_hold_so_far();
        if self.is_spent {
            return Err(Failure::NoMemory);
        }
        if self.parts.log.bag.sent() >= FULL_AT {
            return Err(Failure::Refused(Full));
        }
        self.is_spent = true;
        self.parts.play(alloc, row, step)?;
        self.is_spent = false;
        Ok(())
    }

    /// The least number, `from` or above, of a packet that travels; `None` exactly if none does.
    pub fn next_travelling(&self, from: u32) -> Option<u32>
        ensures next { IsNextTravellerFrom self.now.travelling from result }
        ensures least { self.now.is_spent ≡ false
            → IsLeastInWorldFrom (travels_in_journal self.now.journal) from result }
        ensures first { self.now.is_spent ≡ false → from ≡ 1
            → result ≡ next_travelling self.now.journal }
    {
        self.parts.log.travelling.next(from)
    }

    /// The least number at or above `from` of a message that was never delivered and isn't
    /// forgotten; `None` exactly if there is none.
    pub fn next_waiting(&self, from: u32) -> Option<u32>
        ensures next { result ≡ next_waiting_bag_post self.now.bag from }
        ensures least { self.now.is_spent ≡ false
            → IsLeastInWorldFrom (is_waiting self.now.journal) from result }
        ensures first { self.now.is_spent ≡ false → from ≡ 1
            → result ≡ next_waiting self.now.journal }
    {
        self.parts.log.bag.next_waiting(from)
    }

    /// Whether the packet of this number travels.
    pub fn travels(&self, packet: u32) -> bool
        ensures { result ≡ is_some (flight self.now.travelling packet) }
    {
        self.parts.log.travelling.has(packet)
    }

    /// What happened so far.
    pub fn journal(&self) -> &Journal
        ensures { result.now ≡ self.now.journal }
    {
        &self.parts.log.journal
    }

    /// The journal; the rest of the world is dropped. Allocates nothing.
    pub fn into_journal(self) -> Journal
        ensures { result ≡ self.journal }
    {
        let parts = self.parts;
        let log = parts.log;
        log.journal
    }

    /// The switches, by their numbers.
    pub fn switches(&self) -> &[Switch]
        ensures { result.now ≡ self.now.switches }
    {
        &self.parts.switches
    }

    /// The controller.
    pub fn controller(&self) -> &Controller
        ensures { result.now ≡ self.now.controller }
    {
        &self.parts.controller
    }

    /// How many packets entered or came to a switch that did not serve.
    pub fn packets(&self) -> u32
        ensures { result ≡ self.now.packets }
    {
        self.parts.packets
    }

    /// Whether memory ran out within a step, so that no further one is taken.
    pub fn is_spent(&self) -> bool
        ensures { result ≡ self.now.is_spent }
    {
        self.is_spent
    }

    /// As long as memory didn't run out within a step, the switches, the packets on their way, the
    /// messages and the controller are as the journal says.
    pub fn refines(&self)
        ensures { self.now.is_spent ≡ false → WorldRefinesJournal self.now }
    {
        let _spent = self.is_spent;
    }

    /// As long as memory didn't run out within a step, the journal is a run of the machine whose
    /// ends have causes, and the versions are whole. After the last step packets are on their way,
    /// and the marks are settled.
    pub fn keeps_on_the_way(&self)
        ensures so_far { self.now.is_spent ≡ false
            → PacketLawsHoldSoFar (world_setting_at self.now) self.now.journal }
        ensures kept { self.now.is_spent ≡ false
            → ArePacketsKeptBehind (world_setting_at self.now) self.now.journal }
    {
        packet_journals_hold_so_far();
        packet_steps_are_kept();
        self.refines();
    }
}
