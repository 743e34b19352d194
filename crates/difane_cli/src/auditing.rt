//! Checks a trace, and writes its verdict.
ghost use Rattle.std.specs.Prelude.{◌≡◌, ◌⊎◌, [], Ok, Option, Some, IsTrue};
ghost use Rattle.std.specs.Option.{ForSome};
ghost use Rattle.shelf.specs.Shelf.{ShelfFiles};
ghost use Rattle.command_inputs.specs.Exports.{Audit, IsAuditInputOf, command_input_audit_stated, known_command_input_task};
ghost use Rattle.difane_cli.specs.Exports.{ProgramAuditOutcome, ProgramStatusEndsWork};
ghost use Rattle.command_inputs.specs.declared.status.Status.TheVariants as status;
ghost use Rattle.command_line.specs.Commands as grammar;
ghost use Rattle.command_line.specs.Commands.{AuditArguments};

use crate::ended::write_output;
use command_inputs::{AuditInputs, Status};
use shelf::Sink;
use std::alloc::{AllocError, Global};
use trace_audit::{Verdict, audit};

/// Checks the trace, and writes `yes` if each of its lines is good. The outcome is stated for
/// whatever is known of the files.
#[inline(never)]
pub fn program_check_trace<K: Sink>(alloc: Global, inputs: &AuditInputs, out: &mut K) -> Status
    ensures outcome { (command : AuditArguments) (files : Option ShelfFiles)
        → IsAuditInputOf command (command_input_audit_stated inputs.now)
        → ForSome (known_command_input_task files (Some (grammar.Audit command)))
        (λ read. read ≡ Ok (Audit (command_input_audit_stated inputs.now)))
        → ProgramAuditOutcome command files result [] (K.state out.old) (K.state out.new) }
    ensures no_memory { result ≡ status.NoMemory
        → IsTrue K.takes_memory ⊎ (K.state out.new ≡ K.state out.old) }
    ensures ended { ProgramStatusEndsWork result (K.state out.old) (K.state out.new) }
{
    match audit(alloc, &inputs.trace, &inputs.files) {
        Err(AllocError) => Status::NoMemory,
        Ok(Verdict::No { line }) => Status::No { line },
        Ok(Verdict::Yes) => write_output(b"yes\n", out),
    }
}
