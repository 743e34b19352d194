//! Reads the trace of an audit, and its policies and changes.
ghost use Rattle.std.specs.Prelude.{Ok, IfOk, length};
ghost use Rattle.command_inputs.specs.Exports.{Audit, CommandInputReadEnds, IsAuditInputOf, CommandInputReadsFor, command_audit_inputs, command_input_audit_stated};
ghost use Rattle.command_line.specs.Named.{MayBePolicyArguments, audit_arguments_named};
ghost use Rattle.command_line.specs.Commands as grammar;

use crate::inputs::{read_file_within, read_files};
use crate::status::Stop;
use command_line::AuditArgs;
use policy_rules::PolicyFile;
use shelf::Shelf;
use std::alloc::Global;

/// The most bytes of a trace.
pub const MAX_TRACE_BYTES: u64 = 268_435_456;

/// The ports of a network of one switch: all that are possible.
const SOLO_PORTS: u64 = u64::MAX;

/// A trace, and the files of the policies and changes of its versions.
#[derive(Drop)]
pub struct AuditInputs {
    pub trace: Vec<u8>,
    pub files: Vec<PolicyFile>,
}

/// Reads the trace, and then reads and checks the policies and changes in their order. These may
/// name the ports of a network of one switch; no plan is made.
pub fn read_audit_inputs<F: Shelf>(
    alloc: Global,
    shelf: &mut F,
    args: &AuditArgs<'_>,
) -> Result<AuditInputs, Stop>
    requires { MayBePolicyArguments (length args.now.policies.items) }
    ensures read { CommandInputReadEnds (F.state shelf.old).files
        (λ files. command_audit_inputs files (audit_arguments_named args.now)) command_input_audit_stated
        (F.state shelf.old) (F.state shelf.new) result }
    ensures shelf { CommandInputReadsFor (grammar.Audit (audit_arguments_named args.now))
        (F.state shelf.old) (F.state shelf.new) result }
    ensures asked { IfOk result (λ inputs.
        IsAuditInputOf (audit_arguments_named args.now) (command_input_audit_stated inputs)) }
{
    let trace = read_file_within(alloc, shelf, args.trace, MAX_TRACE_BYTES)?;
    let names: &[&str] = &args.policies;
    let files = read_files(alloc, shelf, names, SOLO_PORTS)?;
    Ok(AuditInputs { trace, files })
}
