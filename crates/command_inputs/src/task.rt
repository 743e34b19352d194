//! The task of a command: its files are read and checked, or its load case is made.
ghost use Rattle.std.specs.Prelude.{◌≡◌, Some, IfOk};
ghost use Rattle.command_inputs.specs.Exports.{CommandInputReadEnds, CommandInputReadsFor, CommandInputReadsNothing, IsTaskInputReady, IsCommandInputTask, known_command_input_task, command_input_task_stated};
ghost use Rattle.command_line.specs.Named.{ArgumentsNamePolicies, argument_command_seen};

use crate::auditing::{AuditInputs, read_audit_inputs};
use crate::inputs::{PlayInputs, read_inputs};
use crate::load::draw_inputs;
use crate::printing::{PrintInputs, read_printing_inputs};
use crate::status::Stop;
use command_line::Command;
use shelf::Shelf;
use std::alloc::Global;

/// What a command does once its files are read.
#[derive(Drop)]
pub enum Task {
    Play(PlayInputs),
    Print(PrintInputs),
    Audit(AuditInputs),
}

/// Reads the task of a command: reads and checks one file after another, or makes its load case.
pub fn read_command_task<F: Shelf>(
    alloc: Global,
    shelf: &mut F,
    command: &Command<'_>,
) -> Result<Task, Stop>
    requires { ArgumentsNamePolicies command.now }
    ensures read { CommandInputReadEnds
        (known_command_input_task (F.state shelf.old).files (Some (argument_command_seen command.now))) (λ read. read)
        command_input_task_stated (F.state shelf.old) (F.state shelf.new) result }
    ensures shelf { CommandInputReadsFor (argument_command_seen command.now)
        (F.state shelf.old) (F.state shelf.new) result }
    ensures unread { CommandInputReadsNothing (Some (argument_command_seen command.now))
        → F.state shelf.new ≡ F.state shelf.old }
    ensures ready { IfOk result IsTaskInputReady }
    ensures asked { IfOk result (λ task.
        IsCommandInputTask (argument_command_seen command.now) (command_input_task_stated task)) }
{
    match command {
        Command::Replay(args) => {
            let inputs = read_inputs(alloc, shelf, args)?;
            Ok(Task::Play(inputs))
        }
        Command::Print(args) => {
            let inputs = read_printing_inputs(alloc, shelf, args)?;
            Ok(Task::Print(inputs))
        }
        Command::Load(n) => {
            let inputs = draw_inputs(alloc, *n)?;
            Ok(Task::Play(inputs))
        }
        Command::Audit(args) => {
            let inputs = read_audit_inputs(alloc, shelf, args)?;
            Ok(Task::Audit(inputs))
        }
    }
}
