//! Packets that left are recorded by the meters of their ports.
ghost use Rattle.std.specs.Prelude.{OnOk};
ghost use Rattle.meters.specs.Gone.{seen_meter_board};
ghost use Rattle.replay.specs.Leavings.{ReplayMetersStayOn, replay_left_in};

use journal::Item;
use meters::{Board, Meter};
use std::alloc::AllocError;

/// Lets the meters record each packet that left in these items, in their order.
///
/// # Errors
/// Only out of memory, in the board or in a meter.
pub fn replay_note_left_packets<M: Meter>(
    board: &mut Board<M>,
    items: &[Item],
) -> Result<(), AllocError>
    ensures { OnOk result
        (ReplayMetersStayOn (replay_left_in items.now) (seen_meter_board M.seen board.old) (seen_meter_board M.seen board.new)) }
{
    for item in items {
        if let Item::Left { port, leaving, .. } = item {
            board.note(*port, &leaving.leaving())?;
        }
    }
    Ok(())
}
