//! Reads arguments of the grammar with the crate `clap`.
ghost use Rattle.std.specs.Prelude.{◌≡◌, Bool, true, false, IfOk, Some, codes, drop, is_some, map, option_map, string_bytes};
ghost use Rattle.clap.specs.Words.{app_of, first_value, found_of, matched_of, one_text, raw_values, rule_of};
ghost use Rattle.command_line.specs.Line.{IsArgumentFlagRead, IsNetArgumentRead, argument_app_with, argument_app_of_command, argument_names_rule, net_and, argument_net_rule, none, argument_options_of_kind, quiet_argument};
ghost use Rattle.command_line.specs.Named.{argument_command_of_kind, argument_line_seen, argument_names_seen, argument_name_seen};
ghost use Rattle.command_line.specs.Grammar.{argument_line_of};

use crate::grammar::CommandKind;
use clap::error::ErrorKind;
use clap::{Arg, ArgAction, ArgMatches, Command};
use std::alloc::{AllocError, Global};

/// The arguments after a command: names and options.
#[derive(Drop)]
pub(crate) struct ArgumentLine<'a> {
    pub(crate) names: Vec<&'a str>,
    pub(crate) net: Option<&'a str>,
    pub(crate) quiet: bool,
}

/// Reads the arguments after the first one, which names a command of this kind.
///
/// # Errors
/// Only out of memory.
pub(crate) fn read_argument_line<'a>(
    alloc: Global,
    kind: CommandKind,
    args: &'a [String],
) -> Result<ArgumentLine<'a>, AllocError>
    requires { is_some (argument_command_of_kind kind (drop 1 (map string_bytes args.now))) ≡ true }
    ensures { IfOk result (λ line.
        argument_line_of (drop 1 (map string_bytes args.now)) ≡ Some (argument_line_seen line)) }
{
    let command = line_command(alloc, kind)?;
    match command.try_get_matches_from(args) {
        Ok(matches) => clap_line_in(alloc, kind, &matches),
        Err(error) => {
            if error.kind() == ErrorKind::OutOfMemory {
                Err(AllocError)
            } else {
                unreachable!()
            }
        }
    }
}

// The `clap` command of this kind, which takes what this command may have, and nothing else.
fn line_command<'a>(alloc: Global, kind: CommandKind) -> Result<Command<'a>, AllocError>
    ensures { IfOk result (λ command. app_of command ≡ argument_app_of_command kind) }
{
    match kind {
        CommandKind::Replay => replay_clap_command(alloc),
        CommandKind::Flows => unflagged_command(alloc, "flows"),
        CommandKind::Rebalance => unflagged_command(alloc, "rebalance"),
        CommandKind::Compile => unflagged_command(alloc, "compile"),
        CommandKind::Show => unflagged_command(alloc, "show"),
        CommandKind::Load => bare_command(alloc, "load"),
        CommandKind::Audit => bare_command(alloc, "audit"),
    }
}

fn replay_clap_command<'a>(alloc: Global) -> Result<Command<'a>, AllocError>
    ensures { IfOk result (λ command. app_of command ≡ argument_app_with (codes "replay") (net_and true)) }
{
    let command = Command::new(alloc, "replay")
        .arg(names_arg(alloc))?
        .arg(net_arg(alloc))?
        .arg(quiet_argument(alloc))?;
    Ok(command.args_override_self(true))
}

// A command that takes a network's option and no flag.
fn unflagged_command<'a>(alloc: Global, name: &'a str) -> Result<Command<'a>, AllocError>
    ensures { IfOk result (λ command. app_of command ≡ argument_app_with name.entry.now (net_and false)) }
{
    let command = Command::new(alloc, name)
        .arg(names_arg(alloc))?
        .arg(net_arg(alloc))?;
    Ok(command.args_override_self(true))
}

fn bare_command<'a>(alloc: Global, name: &'a str) -> Result<Command<'a>, AllocError>
    ensures { IfOk result (λ command. app_of command ≡ argument_app_with name.entry.now none) }
{
    let command = Command::new(alloc, name).arg(names_arg(alloc))?;
    Ok(command.args_override_self(true))
}

fn names_arg<'a>(alloc: Global) -> Arg<'a>
    ensures rule { rule_of result ≡ argument_names_rule }
    ensures here { result.global ≡ false }
{
    Arg::new(alloc, "names")
        .action(ArgAction::Append)
        .num_args(1..)
}

fn net_arg<'a>(alloc: Global) -> Arg<'a>
    ensures rule { rule_of result ≡ argument_net_rule }
    ensures here { result.global ≡ false }
{
    Arg::new(alloc, "net").long("net").action(ArgAction::Set)
}

fn quiet_argument<'a>(alloc: Global) -> Arg<'a>
    ensures rule { rule_of result ≡ quiet_argument }
    ensures here { result.global ≡ false }
{
    Arg::new(alloc, "quiet")
        .long("quiet")
        .action(ArgAction::SetTrue)
}

// The names and options that `clap` matched.
fn clap_line_in<'a>(
    alloc: Global,
    kind: CommandKind,
    matches: &ArgMatches<'a>,
) -> Result<ArgumentLine<'a>, AllocError>
    requires names { is_some (matched_of (found_of matches.now) (codes "names")) ≡ true }
    requires quiet { (quiet : Bool) ×
        IsArgumentFlagRead (argument_options_of_kind kind) (one_text (found_of matches.now) (codes "quiet")) quiet }
    ensures names { IfOk result (λ line.
        option_map raw_values (matched_of (found_of matches.now) (codes "names"))
        ≡ Some (argument_names_seen line.names.items)) }
    ensures net { IfOk result (λ line. IsNetArgumentRead (argument_options_of_kind kind)
        (first_value (found_of matches.now) (codes "net")) (argument_name_seen line.net)) }
    ensures quiet { IfOk result (λ line. IsArgumentFlagRead (argument_options_of_kind kind)
        (one_text (found_of matches.now) (codes "quiet")) line.quiet) }
{
    let names = match matches.get_strs("names") {
        None => unreachable!(),
        Some(names) => Vec::from_slice(alloc, names)?,
    };
    Ok(ArgumentLine {
        names,
        net: clap_net_in(kind, matches),
        quiet: clap_flag_in(kind, matches),
    })
}

// The network, if the command takes one.
fn clap_net_in<'a>(kind: CommandKind, matches: &ArgMatches<'a>) -> Option<&'a str>
    ensures { IsNetArgumentRead (argument_options_of_kind kind)
        (first_value (found_of matches.now) (codes "net")) (argument_name_seen result) }
{
    match kind {
        CommandKind::Replay
        | CommandKind::Flows
        | CommandKind::Rebalance
        | CommandKind::Compile
        | CommandKind::Show => { matches.get_str("net") }
        CommandKind::Load | CommandKind::Audit => None,
    }
}

// Whether the flag is given, if the command takes it.
fn clap_flag_in(kind: CommandKind, matches: &ArgMatches<'_>) -> bool
    requires { (quiet : Bool) ×
        IsArgumentFlagRead (argument_options_of_kind kind) (one_text (found_of matches.now) (codes "quiet")) quiet }
    ensures { IsArgumentFlagRead (argument_options_of_kind kind) (one_text (found_of matches.now) (codes "quiet")) result }
{
    match kind {
        CommandKind::Replay => matches.get_flag("quiet"),
        CommandKind::Flows | CommandKind::Rebalance | CommandKind::Compile | CommandKind::Show =>
            false,
        CommandKind::Load | CommandKind::Audit => false,
    }
}
