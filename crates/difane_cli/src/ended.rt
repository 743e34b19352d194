//! How a call of the program ended, and what it gives back; and the writing of an output that is
//! one text.
ghost use Rattle.std.specs.Prelude.{◌≡◌};
ghost use Rattle.command_inputs.specs.Exports.{CommandOutputWritesLine, command_status_line};
ghost use Rattle.command_inputs.specs.declared.status.Status.TheVariants.{Ok as DoneStatus};
ghost use Rattle.difane_cli.specs.Prints.{IsAfterProgramOutput};

use command_inputs::{Status, write_status};
use journal::Journal;
use meters::Meter;
use shelf::{Sink, write_whole};

/// How a command ended, the journal of its play, and the meters that stayed. The journal is empty
/// if nothing was played, or if memory ran out before the play was done.
#[derive(Drop)]
pub struct Ended<M> {
    pub status: Status,
    pub journal: Journal,
    pub meters: Vec<M>,
}

/// The same with boxed meters, which may be of several kinds.
pub type Finished = Ended<Box<dyn Meter>>;

/// Ends a command with this status: writes its line.
pub fn end<M: Meter, E: Sink>(
    status: Status,
    journal: Journal,
    meters: Vec<M>,
    errs: &mut E,
) -> Ended<M>
    ensures status { result.status ≡ status }
    ensures journal { result.journal ≡ journal }
    ensures meters { result.meters ≡ meters }
    ensures line { CommandOutputWritesLine (command_status_line status) E.takes_memory
        (E.state errs.old) (E.state errs.new) }
    ensures silent { status ≡ DoneStatus → errs.new ≡ errs.old }
{
    write_status(&status, errs);
    Ended {
        status,
        journal,
        meters,
    }
}

/// Writes this text, which is all that a command writes, and returns the command's status.
pub fn write_output<K: Sink>(text: &[u8], out: &mut K) -> Status
    ensures { IsAfterProgramOutput text.now K.takes_memory (K.state out.old) (K.state out.new)
        result }
{
    match write_whole(out, text) {
        Ok(()) => Status::Ok,
        Err(error) => Status::from(error),
    }
}
