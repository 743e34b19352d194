ghost use Rattle.std.specs.Prelude.{◌≡◌, ◌+◌, ◌≤◌, false, length, IsErrOf, OnErr, OnOk, true};
ghost use Rattle.meters.specs.Gone.{seen_meter_board};
ghost use Rattle.steps.specs.Steps.{IsEventOfSteps};
ghost use Rattle.steps.specs.Limits.{max_events};
ghost use Rattle.world.specs.NoStep.{no_world_step};
ghost use Rattle.replay.specs.Leavings.{ReplayMetersKeepUp, ReplayMetersKeepUpWithin};
ghost use Rattle.replay.specs.Playing.{BeginsReplayEvent, ReplayEventHappens, ReplayEventStopsWithin, replay_event_brings_in, replay_next_step};
ghost use Rattle.world.specs.State.{world_setting_at};

use crate::noting::replay_note_left_packets;
use meters::{Board, Meter};
use packet_laws::{deliveries_rise, packet_drains_end};
use steps::{Event, Step};
use world::{StepError, World};

/// Takes all steps of an event of this row: the one that it names, or those of a drain or a flush.
/// A drain takes hops of the packet with the least number that travels, until none travels. A flush
/// takes deliveries of the message with the least number that waits, until none waits, including
/// those that are sent meanwhile. After each step the meters record the packets that left in it.
///
/// # Errors
/// `Full` if a step would begin with a full journal; then the journal has the steps before it, and
/// the world isn't spent. Otherwise only out of memory; then the journal has the first steps of
/// the event and perhaps a part of the next one.
pub fn take_event_steps<M: Meter>(
    world: &mut World,
    board: &mut Board<M>,
    row: u32,
    event: &Event,
) -> Result<(), StepError>
    requires able { world.old.is_spent ≡ false }
    requires few { world.old.packets ≤ max_events }
    requires may { IsEventOfSteps world.old.net (length world.old.files) event.now }
    ensures setting { world_setting_at world.new ≡ world_setting_at world.old }
    ensures able { OnOk result (world.new.is_spent ≡ false) }
    ensures able_full { IsErrOf result no_world_step → world.new.is_spent ≡ false }
    ensures packets { OnOk result (world.new.packets
        ≡ world.old.packets + replay_event_brings_in event.now) }
    ensures packets_full { IsErrOf result no_world_step → world.new.packets ≡ world.old.packets }
    ensures happens { OnOk result (ReplayEventHappens (world_setting_at world.old) row event.now world.old.journal
        world.new.journal) }
    ensures stops { IsErrOf result no_world_step → ReplayEventStopsWithin (world_setting_at world.old) row event.now
        world.old.journal world.new.journal }
    ensures part { OnErr result (BeginsReplayEvent (world_setting_at world.old) row event.now world.old.journal
        world.new.journal) }
    ensures kept { OnOk result (ReplayMetersKeepUp world.old.journal world.new.journal
        (seen_meter_board M.seen board.old) (seen_meter_board M.seen board.new)) }
    ensures kept_full { IsErrOf result no_world_step → ReplayMetersKeepUp world.old.journal world.new.journal
        (seen_meter_board M.seen board.old) (seen_meter_board M.seen board.new) }
    ensures kept_part { OnErr result (world.new.is_spent ≡ true → ReplayMetersKeepUpWithin world.old.journal
        world.new.journal (seen_meter_board M.seen board.old) (seen_meter_board M.seen board.new)) }
{
    let mut is_begun = false;
    while let Some(next) = next_replay_step(world, event, is_begun) {
        packet_drains_end();
        deliveries_rise();
        world.refines();
        let before = world.journal().items().len();
        world.step(row, &next)?;
        replay_note_left_packets(board, &world.journal().items()[before..])?;
        is_begun = true;
    }
    Ok(())
}

// The next step of the event; `None` if it has taken all its steps.
fn next_replay_step(world: &World, event: &Event, is_begun: bool) -> Option<Step>
    requires { world.now.is_spent ≡ false }
    ensures { result ≡ replay_next_step event.now is_begun world.now.journal }
{
    match event {
        Event::One(_) if is_begun => None,
        Event::One(step) => Some(*step),
        Event::Drain => {
            let packet = world.next_travelling(1)?;
            Some(Step::Hop { packet })
        }
        Event::Flush => {
            let message = world.next_waiting(1)?;
            Some(Step::Deliver { message })
        }
    }
}
