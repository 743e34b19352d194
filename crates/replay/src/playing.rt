ghost use Rattle.std.specs.Prelude.{◌≡◌, ◌≤◌, ◌+◌, All, IfErr, IfOk, IsOk, IsSome, OnOk, length, map, unwrap_or, []};
ghost use Rattle.meters.specs.Gone.{gone_meter_records};
ghost use Rattle.meters.specs.Meters.{kept_meters};
ghost use Rattle.net_file.specs.Exports.{IsNet, port_mask};
ghost use Rattle.packet_laws.specs.Exports.{PacketLawsHeldThroughout};
ghost use Rattle.partition.specs.Plan.{partition_plan_of};
ghost use Rattle.policy_rules.specs.Exports.{PolicyFileRowsAre, IsSoundPolicyFile};
ghost use Rattle.steps.specs.Steps.{IsEventOfSteps};
ghost use Rattle.steps.specs.Limits.{max_events};
ghost use Rattle.update_machine.specs.Exports.{IsMachinePlay, NamesMachineSettingPort, machine_setting_of};
ghost use Rattle.world.specs.Files.{world_first_file_policy};
ghost use Rattle.world.specs.State.{IsWorldBegun, world_setting_at};
ghost use Rattle.replay.specs.InForce.{IsReplayPlanInForce};
ghost use Rattle.replay.specs.Leavings.{replay_left_in};
ghost use Rattle.replay.specs.Playing.{IsReplayPlanRefusal};

use crate::error::ReplayError;
use crate::event_steps::take_event_steps;
use crate::in_force::replay_plan_in_force;
use base::Failure;
use controller::Plan;
use journal::Journal;
use meters::{Board, Flows, Meter};
use net_file::Net;
use packet_laws::packet_plays_held_on_way;
use policy_rules::PolicyFile;
use std::alloc::{AllocError, Global};
use steps::Event;
use world::{Full, World};

/// The result of a play.
#[derive(Drop)]
pub struct Played<M> {
    pub journal: Journal,
    /// The meters that stayed, in their order.
    pub meters: Vec<M>,
    /// The flow records of the meters that left, as they were when each left.
    pub gone: Flows,
    /// The plan of the version that is current after the journal.
    pub plan: Plan,
    /// The row of the step that would have begun with a full journal, if the play stopped full.
    pub full: Option<u32>,
}

/// Plays the events on the network, on which the policy of the first file is in force as version
/// 1; each later file has a policy too, or a change of the newest one. Event k, from 1, is row k
/// of the schedule. A drain is hops of the packet with the least number that travels, until none
/// does; a flush is deliveries of the message with the least number that waits, until none does.
/// If a step would begin with a full journal, the play ends before it. After each step the meters
/// record the packets that left; meters at no port of the network are dropped, and so are those
/// that leave.
///
/// # Errors
/// `Plan` exactly if the first policy has no plan on the network, unless memory runs out first.
pub fn replay<M: Meter>(
    alloc: Global,
    net: &Net,
    files: Vec<PolicyFile>,
    events: &[Event],
    meters: Vec<M>,
) -> Result<Played<M>, ReplayError>
    requires net { IsNet net.now }
    requires first { IsSome (world_first_file_policy files.items) }
    requires sound { All IsSoundPolicyFile files.items }
    requires ports { All (PolicyFileRowsAre (λ row. NamesMachineSettingPort (machine_setting_of net.now files.items)
        row.action)) files.items }
    requires events { All (IsEventOfSteps net.now (length files.items)) events.now }
    requires few { length events.now ≤ max_events }
    ensures play { IfOk result (λ played.
        IsMachinePlay (machine_setting_of net.now files.items) events.now played.journal played.full) }
    ensures held { IfOk result (λ played.
        PacketLawsHeldThroughout (machine_setting_of net.now files.items) played.journal) }
    ensures kept { IfOk result (λ played. map M.seen played.meters.items
        ≡ kept_meters (port_mask net.now.switches) (replay_left_in played.journal)
        (map M.seen meters.items)) }
    ensures gone { IfOk result (λ played. played.gone
        ≡ gone_meter_records (port_mask net.now.switches) (replay_left_in played.journal)
        (map M.seen meters.items)) }
    ensures plan { IfOk result (λ played.
        IsReplayPlanInForce (machine_setting_of net.now files.items) played.journal played.plan) }
    ensures planned { OnOk result
        (IsOk (partition_plan_of (unwrap_or (world_first_file_policy files.items) []) net.now)) }
    ensures refused { IfErr result
        (IsReplayPlanRefusal (partition_plan_of (unwrap_or (world_first_file_policy files.items) []) net.now)) }
{
    let world = World::begin(alloc, net, files)?;
    world.refines();
    let played = play(world, events, meters, net.port_mask())?;
    Ok(played)
}

/// Plays the events in a world in which nothing happened yet, as `replay` does, with the meters of
/// the ports in the mask.
///
/// # Errors
/// Only out of memory.
pub fn play<M: Meter>(
    world: World,
    events: &[Event],
    meters: Vec<M>,
    ports: u64,
) -> Result<Played<M>, AllocError>
    requires begun { IsWorldBegun (world_setting_at world) world }
    requires events { All (IsEventOfSteps world.net (length world.files)) events.now }
    requires few { length events.now ≤ max_events }
    ensures play { IfOk result (λ played.
        IsMachinePlay (world_setting_at world) events.now played.journal played.full) }
    ensures held { IfOk result (λ played. PacketLawsHeldThroughout (world_setting_at world) played.journal) }
    ensures kept { IfOk result (λ played. map M.seen played.meters.items
        ≡ kept_meters ports (replay_left_in played.journal) (map M.seen meters.items)) }
    ensures gone { IfOk result (λ played. played.gone
        ≡ gone_meter_records ports (replay_left_in played.journal) (map M.seen meters.items)) }
    ensures plan { IfOk result (λ played.
        IsReplayPlanInForce (world_setting_at world) played.journal played.plan) }
{
    world.refines();
    packet_plays_held_on_way();
    let mut world = world;
    let mut board = Board::new(meters, ports);
    let mut row = 0u32;
    for event in events {
        row += 1;
        match take_event_steps(&mut world, &mut board, row, event) {
            Ok(()) => {}
            Err(Failure::Refused(Full)) => {
                let plan = replay_plan_in_force(&world)?;
                return Ok(ended(world, board, plan, Some(row)));
            }
            Err(Failure::NoMemory) => return Err(AllocError),
        }
    }
    let plan = replay_plan_in_force(&world)?;
    Ok(ended(world, board, plan, None))
}

/// The result of a play that ended like this.
fn ended<M: Meter>(world: World, board: Board<M>, plan: Plan, full: Option<u32>) -> Played<M>
    ensures journal { result.journal ≡ world.journal }
    ensures meters { result.meters.items ≡ board.meters }
    ensures gone { result.gone ≡ board.gone }
    ensures plan { result.plan ≡ plan }
    ensures full { result.full ≡ full }
{
    let journal = world.into_journal();
    let (meters, gone) = board.finish();
    Played {
        journal,
        meters,
        gone,
        plan,
        full,
    }
}
