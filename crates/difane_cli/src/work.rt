//! The work of a command, once its files are read.
ghost use Rattle.std.specs.Prelude.{◌≡◌, Ok, Option, Some, Result, [], map};
ghost use Rattle.std.specs.Option.{ForSome};
ghost use Rattle.shelf.specs.Shelf.{ShelfFiles};
ghost use Rattle.command_inputs.specs.Exports.{IsTaskInputReady, IsCommandInputTask, CommandStatusAccounts, CommandInputTask as Stated, known_command_input_task, command_input_task_stated};
ghost use Rattle.command_inputs.specs.declared.status.Refusal.{Refusal};
ghost use Rattle.command_inputs.specs.declared.status.Status.TheVariants as status;
ghost use Rattle.difane_cli.specs.Exports.{ProgramGivesBackMeters, ProgramMemoryRanOut, ProgramOutcome, ProgramStatusEndsWork};
ghost use Rattle.command_line.specs.Named.{argument_command_seen};
ghost use Rattle.command_line.specs.Commands as grammar;

use crate::auditing::program_check_trace;
use crate::ended::Ended;
use crate::playing::play;
use crate::printing::print;
use crate::proposing::run_program_proposal;
use command_inputs::Task;
use command_line::{Command, Report};
use journal::Journal;
use meters::Meter;
use shelf::Sink;
use std::alloc::Global;

/// Does the task and writes its result. The outcome is stated for whatever is known of the files.
pub fn work<M: Meter, K: Sink>(alloc: Global, task: Task, meters: Vec<M>, out: &mut K) -> Ended<M>
    requires { IsTaskInputReady task }
    ensures outcome { (command : grammar.Command) (files : Option ShelfFiles)
        → IsCommandInputTask command (command_input_task_stated task)
        → ForSome (known_command_input_task files (Some command)) (λ read. read ≡ Ok (command_input_task_stated task))
        → ProgramOutcome (Some command) files K.takes_memory result.status result.journal
        (map M.seen meters.items) (map M.seen result.meters.items)
        (K.state out.old) (K.state out.new) }
    ensures meters { (command : grammar.Command) → IsCommandInputTask command (command_input_task_stated task)
        → ProgramGivesBackMeters (Some command) → result.meters ≡ meters }
    ensures accounts { (read : Result Stated Refusal) → read ≡ Ok (command_input_task_stated task)
        → CommandStatusAccounts read result.status }
    ensures no_memory { (command : grammar.Command) → IsCommandInputTask command (command_input_task_stated task)
        → result.status ≡ status.NoMemory
        → ProgramMemoryRanOut (Some command) K.takes_memory result.journal
        (K.state out.old) (K.state out.new) }
    ensures ended { ProgramStatusEndsWork result.status (K.state out.old) (K.state out.new) }
{
    match task {
        Task::Play(inputs) => match inputs.report {
            Report::Placement => run_program_proposal(alloc, inputs, meters, out),
            _ => play(alloc, inputs, meters, out),
        },
        Task::Print(inputs) => Ended {
            status: print(alloc, &inputs, out),
            journal: Journal::new(alloc),
            meters,
        },
        Task::Audit(inputs) => Ended {
            status: program_check_trace(alloc, &inputs, out),
            journal: Journal::new(alloc),
            meters,
        },
    }
}

/// The meters that remain if nothing was played: all of them if the command gives them back,
/// otherwise none.
pub fn program_unplayed_meters<M: Meter>(
    alloc: Global,
    command: &Command<'_>,
    meters: Vec<M>,
) -> Vec<M>
    ensures none { ¬ ProgramGivesBackMeters (Some (argument_command_seen command.now)) → result.items ≡ [] }
    ensures all { ProgramGivesBackMeters (Some (argument_command_seen command.now)) → result ≡ meters }
{
    match command {
        Command::Replay(args) => match args.report {
            Report::Placement => meters,
            _ => Vec::new(alloc),
        },
        Command::Load(_) => Vec::new(alloc),
        Command::Print(_) | Command::Audit(_) => meters,
    }
}
