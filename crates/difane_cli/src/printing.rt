//! Writes the text of a plan or of a switch's tables.
ghost use Rattle.std.specs.Prelude.{◌≡◌, ◌⊎◌, [], Ok, Option, Some, IfOk, IsTrue};
ghost use Rattle.std.specs.Option.{ForSome};
ghost use Rattle.net_file.specs.Net.{IsNet};
ghost use Rattle.shelf.specs.Shelf.{ShelfFiles};
ghost use Rattle.command_inputs.specs.Exports.{IsPrintInputOf, Print, known_command_input_task, print_inputs_stated};
ghost use Rattle.command_inputs.specs.declared.status.Status.TheVariants as status;
ghost use Rattle.difane_cli.specs.Exports.{ProgramStatusEndsWork, ProgramPrintOutcome, program_printing_text};
ghost use Rattle.command_line.specs.Commands as grammar;
ghost use Rattle.command_line.specs.Commands.{PrintArguments};

use crate::ended::write_output;
use command_inputs::{PrintInputs, Status};
use shelf::Sink;
use show_text::{compile_text, table_text};
use std::alloc::{AllocError, Global};

/// The text of the plan, or of the tables that it gives to the switch.
fn program_print_text(alloc: Global, inputs: &PrintInputs) -> Result<Vec<u8>, AllocError>
    requires { IsNet inputs.now.net }
    ensures { IfOk result (λ text. text.items ≡ program_printing_text (print_inputs_stated inputs.now)) }
{
    match inputs.switch {
        None => compile_text(alloc, &inputs.plan, &inputs.net),
        Some(s) => table_text(alloc, &inputs.plan, &inputs.net, s),
    }
}

/// Writes the plan or the tables. The outcome is stated for whatever is known of the files.
pub fn print<K: Sink>(alloc: Global, inputs: &PrintInputs, out: &mut K) -> Status
    requires { IsNet inputs.now.net }
    ensures outcome { (command : PrintArguments) (files : Option ShelfFiles)
        → IsPrintInputOf command (print_inputs_stated inputs.now)
        → ForSome (known_command_input_task files (Some (grammar.Print command)))
        (λ read. read ≡ Ok (Print (print_inputs_stated inputs.now)))
        → ProgramPrintOutcome command files result [] (K.state out.old) (K.state out.new) }
    ensures no_memory { result ≡ status.NoMemory
        → IsTrue K.takes_memory ⊎ (K.state out.new ≡ K.state out.old) }
    ensures ended { ProgramStatusEndsWork result (K.state out.old) (K.state out.new) }
    ensures statuses { (result ≡ status.Ok) ⊎ (result ≡ status.WriteFault)
        ⊎ (result ≡ status.NoMemory) }
{
    match program_print_text(alloc, inputs) {
        Ok(text) => write_output(&text, out),
        Err(_) => Status::NoMemory,
    }
}
