//! The top call, with a new meter at each port.
ghost use Rattle.std.specs.Prelude.{◌≡◌, ◌≢◌, ◌⊎◌, ◌↔◌, ℕ, IfOk, IsTrue, None, Ok, OnErr};
ghost use Rattle.std.specs.List.{AllZip, range_with_len};
ghost use Rattle.std.specs.Option.{ForSome};
ghost use Rattle.shelf.specs.Sink.{SinkFaultsRose};
ghost use Rattle.shelf.specs.Shelf.{IsShelfAfterReads};
ghost use Rattle.command_line.specs.Grammar.{command_of_arguments};
ghost use Rattle.command_line.specs.Commands.{argument_texts};
ghost use Rattle.command_inputs.specs.Exports.{CommandStatusAccounts, IsCommandInputTaskAccepted, CommandMayFollowFault, CommandStatusNamesOneOf, CommandNeedsReadFault, CommandInputReadsNothing, CommandOutputWritesLine, known_command_input_task, command_input_most_reads, command_input_names, command_status_line};
ghost use Rattle.difane_cli.specs.Exports.{ProgramMemoryRanOut};
ghost use Rattle.command_inputs.specs.declared.status.Status.TheVariants as status;
ghost use Rattle.difane_cli.specs.Metered.{MeteredProgramOutcome, ProgramTellsFlows};
ghost use Rattle.difane_cli.specs.NewMeters.{program_call_asks_flows, new_program_meter};

use crate::top_call::run;
use command_inputs::Status;
use flow_export::FlowMeter;
use journal::Journal;
use meters::{Meter, Recorder};
use shelf::{Shelf, Sink};
use std::alloc::{AllocError, Global};

/// How a call ended, and the journal of its play.
#[derive(Drop)]
pub struct CommandEnd {
    pub status: Status,
    pub journal: Journal,
}

/// With this many different headers a meter of `flows` is complete.
const MAX_HEADERS: u32 = 4096;

/// Whether the first argument asks for records of flows.
fn program_call_asks_flows(words: &Vec<String>) -> bool
    ensures { result ≡ program_call_asks_flows (argument_texts words.now) }
{
    match words.first() {
        Some(word) => word.as_str() == "flows",
        None => false,
    }
}

/// What `make` returns for each port from 0 to 63, in order.
fn program_meters_by_port<M: Drop, F: Fn(u32) -> Result<M, AllocError>>(
    alloc: Global,
    make: F,
) -> Result<Vec<M>, AllocError>
    requires { F.IsAlwaysCallable make }
    ensures { IfOk result (λ all.
        AllZip (λ port one. F.post make port (Ok one)) (range_with_len 0 64) all.items) }
{
    let mut all = Vec::new(alloc);
    for port in 0..64 {
        all.push(make(port)?)?;
    }
    Ok(all)
}

/// Does what the arguments ask, as `run` does, with a new meter at each port from 0 to 63: one
/// that counts flows if the first argument is `flows`, and otherwise a recorder.
///
/// # Errors
/// Out of memory for the meters; then nothing is read or written.
pub fn run_metered<F: Shelf, K: Sink, E: Sink>(
    alloc: Global,
    words: &Vec<String>,
    shelf: &mut F,
    out: &mut K,
    errs: &mut E,
) -> Result<CommandEnd, AllocError>
    // If `flows` succeeds, it wrote the records of the packets that left in the journal, and the
    // counts of each meter that stayed are right (if no meter left, all are: `flow_laws`).
    ensures flows { IfOk result (λ ending. IsTrue (program_call_asks_flows (argument_texts words.now))
        → ending.status ≡ status.Ok
        → ProgramTellsFlows (argument_texts words.now) (F.state shelf.old).files ending.journal
        (K.state out.old) (K.state out.new)) }

    // Everything else is as `run` says for these meters.
    ensures outcome { IfOk result (λ ending.
        MeteredProgramOutcome (argument_texts words.now) (F.state shelf.old).files K.takes_memory
        ending.status ending.journal (K.state out.old) (K.state out.new)) }
    ensures words { IfOk result (λ ending. (ending.status ≡ status.Words)
        ↔ (command_of_arguments (argument_texts words.now) ≡ None)) }
    ensures accounts { IfOk result (λ ending. ForSome
        (known_command_input_task (F.state shelf.old).files (command_of_arguments (argument_texts words.now)))
        (λ read. CommandStatusAccounts read ending.status)) }
    ensures names { IfOk result (λ ending.
        CommandStatusNamesOneOf (command_input_names (command_of_arguments (argument_texts words.now))) ending.status) }
    ensures read_fault { IfOk result (λ ending.
        CommandNeedsReadFault (F.state shelf.old).files ending.status
        → SinkFaultsRose (F.state shelf.old).faults (F.state shelf.new).faults) }
    ensures write_fault { IfOk result (λ ending. ending.status ≡ status.WriteFault
        → SinkFaultsRose (K.state out.old).faults (K.state out.new).faults) }
    ensures no_read_fault { IfOk result (λ ending.
        ¬ CommandMayFollowFault (F.state shelf.old).files ending.status
        → (F.state shelf.new).faults ≡ (F.state shelf.old).faults) }
    ensures no_write_fault { IfOk result (λ ending. ending.status ≢ status.WriteFault
        → (K.state out.new).faults ≡ (K.state out.old).faults) }
    ensures no_memory { IfOk result (λ ending. ending.status ≡ status.NoMemory
        → ProgramMemoryRanOut (command_of_arguments (argument_texts words.now)) K.takes_memory ending.journal
        (K.state out.old) (K.state out.new)) }
    ensures complete { IfOk result (λ ending. IsCommandInputTaskAccepted
        (known_command_input_task (F.state shelf.old).files (command_of_arguments (argument_texts words.now)))
        → SinkFaultsRose (F.state shelf.old).faults (F.state shelf.new).faults
        ⊎ SinkFaultsRose (K.state out.old).faults (K.state out.new).faults
        ⊎ (ending.status ≡ status.Ok) ⊎ ((row : ℕ) × (ending.status ≡ status.Full row))
        ⊎ ((line : ℕ) × (ending.status ≡ status.No line))
        ⊎ (ending.status ≡ status.NoMemory)) }
    ensures line { IfOk result (λ ending. CommandOutputWritesLine (command_status_line ending.status) E.takes_memory
        (E.state errs.old) (E.state errs.new)) }
    ensures silent { IfOk result (λ ending. ending.status ≡ status.Ok → errs.new ≡ errs.old) }
    ensures shelf { IfOk result (λ ending. IsShelfAfterReads
        (command_input_most_reads (F.state shelf.old).files (command_of_arguments (argument_texts words.now)))
        (F.state shelf.old) (F.state shelf.new)) }
    ensures unread { IfOk result (λ ending. CommandInputReadsNothing (command_of_arguments (argument_texts words.now))
        → F.state shelf.new ≡ F.state shelf.old) }
    ensures untouched { OnErr result
        ((shelf.new ≡ shelf.old) × (out.new ≡ out.old) × (errs.new ≡ errs.old)) }
{
    let counts_flows = program_call_asks_flows(words);
    let meters: Vec<Box<dyn Meter>> = program_meters_by_port(
        alloc,
        |port: u32| -> Result<Box<dyn Meter>, AllocError>
            ensures { IfOk result (λ one. seen one ≡ new_program_meter counts_flows port) }
        {
            if counts_flows {
                Ok(Box::new(alloc, FlowMeter::new(alloc, port, MAX_HEADERS))?)
            } else {
                Ok(Box::new(alloc, Recorder::new(alloc, port))?)
            }
        },
    )?;
    let finished = run(alloc, words, shelf, out, errs, meters);
    Ok(CommandEnd {
        status: finished.status,
        journal: finished.journal,
    })
}
