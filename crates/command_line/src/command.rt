ghost use Rattle.std.specs.Prelude.{◌≡◌, ◌≤◌, true, IfOk, IfErr, IfSome, Some, is_some, length, map, string_bytes, option_map};
ghost use Rattle.command_line.specs.Named.{HasPolicyArguments, MayBePolicyArguments, ArgumentsNamePolicies, audit_arguments_named, argument_command_seen, argument_command_kind_name, argument_line_seen, argument_names_seen, replay_arguments_named};
ghost use Rattle.command_line.specs.Commands as grammar;
ghost use Rattle.command_line.specs.Grammar.{audit_command_from_arguments, command_by_arguments, command_of_arguments, load_from_argument, play_from_arguments};
ghost use Rattle.five_tuple.specs.Texts.{tuple_number_up_to};

use crate::grammar::{CommandKind, grammar_command_kind};
use crate::read::{ArgumentLine, read_argument_line};
use crate::report::Report;
use five_tuple::read_number;
use std::alloc::{AllocError, Global};

/// The files of a play, and what it prints.
#[derive(Drop)]
pub struct ReplayArgs<'a> {
    /// The name of the schedule's file.
    pub schedule: &'a str,
    /// The names of the policies' files; an update names one of them by its place, from 1.
    pub policies: Vec<&'a str>,
    /// The name of the network's file; without it the network is that of one switch.
    pub net: Option<&'a str>,
    /// What it prints.
    pub report: Report,
}

/// What to print: the plan of a policy, or the tables that it gives to a switch.
#[derive(Clone, Copy)]
pub struct PrintArgs<'a> {
    /// The name of the policy's file.
    pub policy: &'a str,
    /// The name of the switch whose tables are printed; without it the plan is.
    pub switch: Option<&'a str>,
    /// The name of the network's file; without it the network is that of one switch.
    pub net: Option<&'a str>,
}

/// A trace to check, and the policies of its versions.
#[derive(Drop)]
pub struct AuditArgs<'a> {
    /// The name of the trace's file.
    pub trace: &'a str,
    /// The names of the policies' files.
    pub policies: Vec<&'a str>,
}

/// A replay names at most this many policies, and so does an audit.
pub const MAX_POLICIES: usize = 64;

/// The greatest number of a load case.
pub const MAX_LOAD: u32 = 1000;

/// The command of the arguments.
#[derive(Drop)]
pub enum Command<'a> {
    Replay(ReplayArgs<'a>),
    Print(PrintArgs<'a>),
    /// Plays the load case of this number, from 1 to 1,000.
    Load(u32),
    Audit(AuditArgs<'a>),
}

/// Reads the command of the arguments; `None` exactly if the grammar doesn't have them.
///
/// # Errors
/// Only out of memory, and only for arguments of the grammar.
pub fn read_command(alloc: Global, args: &[String]) -> Result<Option<Command<'_>>, AllocError>
    ensures value { IfOk result (λ found.
        option_map argument_command_seen found ≡ command_of_arguments (map string_bytes args.now)) }
    ensures named { IfOk result (λ found. IfSome found ArgumentsNamePolicies) }
    ensures needless { IfErr result (λ _.
        is_some (command_of_arguments (map string_bytes args.now)) ≡ true) }
{
    let Some(kind) = grammar_command_kind(args) else {
        return Ok(None);
    };
    let line = read_argument_line(alloc, kind, args)?;
    Ok(Some(command_from(kind, line)))
}

// The command of this kind with this line of arguments.
fn command_from<'a>(kind: CommandKind, line: ArgumentLine<'a>) -> Command<'a>
    requires { is_some (command_by_arguments (argument_command_kind_name kind) (argument_line_seen line)) ≡ true }
    ensures command { Some (argument_command_seen result)
        ≡ command_by_arguments (argument_command_kind_name kind) (argument_line_seen line.entry) }
    ensures named { ArgumentsNamePolicies result }
{
    match kind {
        CommandKind::Replay => {
            let quiet = line.quiet;
            Command::Replay(replay_command_from(Report::Lines { quiet }, line))
        }
        CommandKind::Flows => Command::Replay(replay_command_from(Report::Flows, line)),
        CommandKind::Rebalance => Command::Replay(replay_command_from(Report::Placement, line)),
        CommandKind::Compile | CommandKind::Show => Command::Print(PrintArgs {
            policy: line.names[0],
            switch: line.names.get(1).copied(),
            net: line.net,
        }),
        CommandKind::Load => Command::Load(load_from_argument(line.names[0])),
        CommandKind::Audit => Command::Audit(audit_from_arguments(line.names)),
    }
}

// The files that a line names, for a play that prints this report.
fn replay_command_from<'a>(report: Report, line: ArgumentLine<'a>) -> ReplayArgs<'a>
    requires { is_some (play_from_arguments report (argument_line_seen line) (argument_names_seen line.names.items)) ≡ true }
    ensures args { Some (grammar.Replay (replay_arguments_named result))
        ≡ play_from_arguments report (argument_line_seen line.entry) (argument_names_seen line.entry.names.items) }
    ensures few { HasPolicyArguments result }
{
    let mut names = line.names;
    let schedule = names.remove(0);
    ReplayArgs {
        schedule,
        policies: names,
        net: line.net,
        report,
    }
}

fn audit_from_arguments<'a>(names: Vec<&'a str>) -> AuditArgs<'a>
    requires { is_some (audit_command_from_arguments (argument_names_seen names.items)) ≡ true }
    ensures args { Some (grammar.Audit (audit_arguments_named result))
        ≡ audit_command_from_arguments (argument_names_seen names.entry.items) }
    ensures few { MayBePolicyArguments (length result.policies.items) }
{
    let mut names = names;
    let trace = names.remove(0);
    AuditArgs {
        trace,
        policies: names,
    }
}

// The number of a load case.
fn load_from_argument(number: &str) -> u32
    requires { is_some (load_from_argument (tuple_number_up_to 1000 number.now)) ≡ true }
    ensures number { Some (grammar.Load result) ≡ load_from_argument (tuple_number_up_to 1000 number.now) }
    ensures some { 1 ≤ result }
    ensures few { result ≤ 1000 }
{
    match read_number(number.as_bytes(), u64::from(MAX_LOAD)) {
        None => unreachable!(),
        Some(n) => n as u32,
    }
}
