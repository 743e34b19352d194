//! The placement that is proposed after a play: one of a lower peak if it is found.
ghost use Rattle.std.specs.Prelude.{◌≡◌, ◌⊎◌, IsTrue, Ok, Option, Some};
ghost use Rattle.std.specs.Option.{ForSome};
ghost use Rattle.net_file.specs.Net.{IsNet};
ghost use Rattle.partition.specs.Plan.{IsPartitionPlan};
ghost use Rattle.shelf.specs.Shelf.{ShelfFiles};
ghost use Rattle.command_line.specs.Commands as grammar;
ghost use Rattle.command_line.specs.Commands.{ReplayArguments};
ghost use Rattle.command_inputs.specs.Exports.{AreCommandInputsReady, AreCommandPlayInputs, Play, task_inputs_stated, known_command_input_task};
ghost use Rattle.difane_cli.specs.Exports.{ProgramStatusEndsWork, IsAfterProgramProposing, IsProgramAnswer, ProgramProposalOutcome};
ghost use Rattle.command_inputs.specs.declared.status.Status.TheVariants as status;

use crate::ended::Ended;
use crate::playing::program_answer_laws;
use command_inputs::{PlayInputs, Status};
use controller::Plan;
use journal::Journal;
use meters::Meter;
use net_file::Net;
use rebalance::rebalance_proposal_text;
use shelf::{Sink, SinkError, write_whole};
use std::alloc::Global;

/// Plays the inputs, to their end or until the journal is full, and writes the placement that is
/// proposed, unless it stopped full. No meter records anything, and all are given back. The
/// outcome is stated for whatever is known of the files.
pub fn run_program_proposal<M: Meter, K: Sink>(
    alloc: Global,
    inputs: PlayInputs,
    meters: Vec<M>,
    out: &mut K,
) -> Ended<M>
    requires { AreCommandInputsReady inputs }
    ensures outcome { (command : ReplayArguments) (files : Option ShelfFiles)
        → AreCommandPlayInputs (grammar.Replay command) (task_inputs_stated inputs)
        → ForSome (known_command_input_task files (Some (grammar.Replay command)))
        (λ read. read ≡ Ok (Play (task_inputs_stated inputs)))
        → ProgramProposalOutcome (IsProgramAnswer (grammar.Replay command) files) K.takes_memory result.status
        result.journal (K.state out.old) (K.state out.new) }
    ensures meters { result.meters ≡ meters }
    ensures no_memory { result.status ≡ status.NoMemory
        → IsTrue K.takes_memory ⊎ (K.state out.new ≡ K.state out.old) }
    ensures ended { ProgramStatusEndsWork result.status (K.state out.old) (K.state out.new) }
{
    program_answer_laws();
    let none: Vec<M> = Vec::new(alloc);
    match replay::play(inputs.world, &inputs.events, none, inputs.net.port_mask()) {
        Err(_) => Ended {
            status: Status::NoMemory,
            journal: Journal::new(alloc),
            meters,
        },
        Ok(played) => {
            let status = match write_program_proposal(
                alloc,
                played.full,
                &played.journal,
                &played.plan,
                &inputs.net,
                out,
            ) {
                Ok(()) => Status::written(played.full),
                Err(error) => Status::from(error),
            };
            Ended {
                status,
                journal: played.journal,
                meters,
            }
        }
    }
}

/// Writes the proposal for the plan that a play left, by the weights of its partitions in the
/// journal, unless the play stopped full.
fn write_program_proposal<K: Sink>(
    alloc: Global,
    full: Option<u32>,
    journal: &Journal,
    plan: &Plan,
    net: &Net,
    out: &mut K,
) -> Result<(), SinkError>
    requires net { IsNet net.now }
    requires plan { IsPartitionPlan plan.now.policy net.now plan.now.hosted }
    ensures { IsAfterProgramProposing full plan.now.policy plan.now.hosted net.now journal.now
        K.takes_memory (K.state out.old) (K.state out.new) result }
{
    match full {
        Some(_) => Ok(()),
        None => match rebalance_proposal_text(alloc, journal, plan, net) {
            Ok(text) => write_whole(out, &text),
            Err(_) => Err(SinkError::NoMemory),
        },
    }
}
