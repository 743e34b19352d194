//! The top call of the program.
ghost use Rattle.std.specs.Prelude.{◌≡◌, ◌≢◌, ◌≤◌, ◌⊎◌, ◌↔◌, ℕ, None, map};
ghost use Rattle.std.specs.Option.{ForSome};
ghost use Rattle.shelf.specs.Sink.{SinkFaultsRose};
ghost use Rattle.shelf.specs.Shelf.{IsShelfAfterReads};
ghost use Rattle.command_inputs.specs.Exports.{CommandInputReadsNothing, IsCommandInputTaskAccepted, CommandMayFollowFault, CommandStatusNamesOneOf, CommandNeedsReadFault, CommandOutputWritesLine, CommandStatusAccounts, known_command_input_task, command_input_most_reads, command_input_names, command_status_line};
ghost use Rattle.command_inputs.specs.declared.status.Status.TheVariants as status;
ghost use Rattle.difane_cli.specs.Exports.{ProgramGivesBackMeters, ProgramMemoryRanOut, ProgramOutcome};
ghost use Rattle.command_line.specs.Grammar.{command_of_arguments};
ghost use Rattle.command_line.specs.Commands.{argument_texts};

use crate::ended::{Finished, end};
use crate::work::{program_unplayed_meters, work};
use command_inputs::{Status, read_command_task};
use command_line::read_command;
use journal::Journal;
use meters::Meter;
use shelf::{Shelf, Sink};
use std::alloc::{AllocError, Global};

/// Does what the arguments ask:
///
/// - `replay SCHEDULE POLICY ..` plays the schedule, whose updates name the policies by their
///   places. It writes the journal to `out`, and with `--quiet` also whether the network is quiet.
/// - `flows SCHEDULE POLICY ..` plays the same. It writes the flow records of the meters that left,
///   and then of those that stayed.
/// - `rebalance SCHEDULE POLICY ..` plays it with no meters. It writes the placement that is
///   proposed for the partitions of the current version.
/// - `compile POLICY` writes the plan of the policy, and `show POLICY SWITCH` the tables that it
///   gives to the switch.
/// - `load N` plays the load case of N, and writes the eleven counts of its journal.
/// - `audit TRACE POLICY ..` checks a printed trace, and writes `yes` if each of its lines is good.
///
/// The first five commands have the network of `--net NET`, or one switch without it.
///
/// A status other than `Ok` writes its line to `errs`. The words are the arguments of the command
/// line, without the program's name. The first refusal ends the call. The order of work is: the
/// words, the network and the switch on it, the schedule, the policies in the order of the words,
/// the plan of the first policy, the play, the writing. Each file is read and checked before the
/// next one is read. A load case reads none.
pub fn run<F: Shelf, K: Sink, E: Sink>(
    alloc: Global,
    words: &Vec<String>,
    shelf: &mut F,
    out: &mut K,
    errs: &mut E,
    meters: Vec<Box<dyn Meter>>,
) -> Finished
    // For each status: what was played, which is what the known files state; which meters stayed;
    // and what the output gained. And that the journal answers what was played, and is a run of the
    // abstract machine whose ends and items have their causes.
    ensures outcome { ProgramOutcome (command_of_arguments (argument_texts words.now)) (F.state shelf.old).files
        K.takes_memory result.status result.journal
        (map ⟦<Box<dyn Meter> as Meter>⟧.seen meters.items)
        (map ⟦<Box<dyn Meter> as Meter>⟧.seen result.meters.items)
        (K.state out.old) (K.state out.new) }

    // A command that plays nothing, or proposes a placement, gives the meters back unchanged.
    ensures meters { ProgramGivesBackMeters (command_of_arguments (argument_texts words.now)) → result.meters ≡ meters }

    // Each status has its cause.
    ensures words { (result.status ≡ status.Words)
        ↔ (command_of_arguments (argument_texts words.now) ≡ None) }
    ensures accounts { ForSome
        (known_command_input_task (F.state shelf.old).files (command_of_arguments (argument_texts words.now)))
        (λ read. CommandStatusAccounts read result.status) }
    ensures read_fault { CommandNeedsReadFault (F.state shelf.old).files result.status
        → SinkFaultsRose (F.state shelf.old).faults (F.state shelf.new).faults }
    ensures write_fault { result.status ≡ status.WriteFault
        → SinkFaultsRose (K.state out.old).faults (K.state out.new).faults }

    // Whether or not files are known, a refusal names what the arguments name.
    ensures names { CommandStatusNamesOneOf (command_input_names (command_of_arguments (argument_texts words.now))) result.status }

    // A fault of reading is counted only with status 4 or, if the files aren't known, with 7, or
    // with 3 by the codes 0 and 20: no read that failed is repeated with success.
    ensures no_read_fault { ¬ CommandMayFollowFault (F.state shelf.old).files result.status
        → (F.state shelf.new).faults ≡ (F.state shelf.old).faults }
    ensures no_write_fault { result.status ≢ status.WriteFault
        → (K.state out.new).faults ≡ (K.state out.old).faults }

    // If memory runs out, nothing was written, unless the output's own writes allocate. And the
    // journal is empty, unless the command prints more than the lines of a play.
    ensures no_memory { result.status ≡ status.NoMemory
        → ProgramMemoryRanOut (command_of_arguments (argument_texts words.now)) K.takes_memory result.journal
        (K.state out.old) (K.state out.new) }

    // If the inputs are accepted and nothing fails, the work is done, to its end or as far as
    // there was room, or memory ran out.
    ensures complete { IsCommandInputTaskAccepted
        (known_command_input_task (F.state shelf.old).files (command_of_arguments (argument_texts words.now)))
        → SinkFaultsRose (F.state shelf.old).faults (F.state shelf.new).faults
        ⊎ SinkFaultsRose (K.state out.old).faults (K.state out.new).faults
        ⊎ (result.status ≡ status.Ok) ⊎ ((row : ℕ) × (result.status ≡ status.Full row))
        ⊎ ((line : ℕ) × (result.status ≡ status.No line))
        ⊎ (result.status ≡ status.NoMemory) }

    // The line of the status is written, whole unless the sink of errors fails or its writes
    // allocate; for work that was done nothing is.
    ensures line { CommandOutputWritesLine (command_status_line result.status) E.takes_memory
        (E.state errs.old) (E.state errs.new) }
    ensures silent { result.status ≡ status.Ok → errs.new ≡ errs.old }

    // Files are read in order, none after the first that is refused, and stay unchanged.
    ensures shelf { IsShelfAfterReads
        (command_input_most_reads (F.state shelf.old).files (command_of_arguments (argument_texts words.now)))
        (F.state shelf.old) (F.state shelf.new) }
    // If no file is read, as for a load case, the shelf is unchanged, whatever the status.
    ensures unread { CommandInputReadsNothing (command_of_arguments (argument_texts words.now))
        → F.state shelf.new ≡ F.state shelf.old }
    ensures faults { (K.state out.old).faults ≤ (K.state out.new).faults }
{
    match read_command(alloc, words) {
        Err(AllocError) => end(Status::NoMemory, Journal::new(alloc), meters, errs),
        Ok(None) => end(Status::Words, Journal::new(alloc), meters, errs),
        Ok(Some(command)) => match read_command_task(alloc, shelf, &command) {
            Err(stop) => {
                let meters = program_unplayed_meters(alloc, &command, meters);
                end(Status::from(stop), Journal::new(alloc), meters, errs)
            }
            Ok(task) => {
                let ended = work(alloc, task, meters, out);
                end(ended.status, ended.journal, ended.meters, errs)
            }
        },
    }
}
