//! The test of the grammar, which allocates nothing.
ghost use Rattle.std.specs.Prelude.{◌≡◌, ◌≤◌, ◌⊎◌, true, IfSome, IfNone, None, drop, is_some, length, map, option_map, string_bytes};
ghost use Rattle.std.specs.List.{prefix_len};
ghost use Rattle.command_line.specs.Named.{argument_command_of_kind, argument_option_cut_seen, argument_command_kind_name, argument_name_seen, argument_option_pair_seen, argument_parts_seen};
ghost use Rattle.command_line.specs.Grammar.{StatedArgumentLine as Stated, audit_by_argument_grammar, command_by_arguments, command_of_arguments, cut_net_option_argument, cut_argument_options, cut_argument_option_pair, cut_quiet_argument, argument_options_end_together, is_name_argument, joined_net_argument, argument_line_from, argument_line_of, load_of_arguments, net_argument_then_quiet, argument_grammar_print_of, play_from_arguments, quiet_argument_then_net};
ghost use Rattle.command_line.specs.declared.report.Report.{Report};

use crate::command::{MAX_LOAD, MAX_POLICIES};
use five_tuple::read_number;

/// Which command the arguments are.
#[derive(Clone, Copy)]
pub(crate) enum CommandKind {
    Replay,
    Flows,
    Rebalance,
    Compile,
    Show,
    Load,
    Audit,
}

// The options that begin some arguments, and the arguments after them.
#[derive(Clone, Copy)]
struct Cut<'a> {
    net: Option<&'a str>,
    quiet: bool,
    args: &'a [String],
}

// The arguments after a command: names, and options before or after them.
#[derive(Clone, Copy)]
struct ArgumentParts<'a> {
    names: &'a [String],
    net: Option<&'a str>,
    quiet: bool,
}

/// The kind of the command of the arguments; `None` exactly if the grammar doesn't have them.
pub(crate) fn grammar_command_kind(args: &[String]) -> Option<CommandKind>
    ensures some { IfSome result (λ kind.
        (argument_command_of_kind kind (drop 1 (map string_bytes args.now))
        ≡ command_of_arguments (map string_bytes args.now))
        × (is_some (command_of_arguments (map string_bytes args.now)) ≡ true)) }
    ensures none { IfNone result (command_of_arguments (map string_bytes args.now) ≡ None) }
{
    let [name, rest @ ..] = args else {
        return None;
    };
    let parts = argument_parts_of(rest)?;
    let kind = CommandKind::named(name.as_str())?;
    if kind.takes(&parts) { Some(kind) } else { None }
}

impl CommandKind {
    // The command that the argument names.
    fn named(arg: &str) -> Option<CommandKind>
        ensures some { IfSome result (λ kind. arg.now ≡ argument_command_kind_name kind) }
        ensures none { IfNone result ((line : Stated) → command_by_arguments arg.now line ≡ None) }
    {
        match arg {
            "replay" => Some(CommandKind::Replay),
            "flows" => Some(CommandKind::Flows),
            "rebalance" => Some(CommandKind::Rebalance),
            "compile" => Some(CommandKind::Compile),
            "show" => Some(CommandKind::Show),
            "load" => Some(CommandKind::Load),
            "audit" => Some(CommandKind::Audit),
            _ => None,
        }
    }

    // Whether these arguments may follow this command.
    fn takes(self, parts: &ArgumentParts<'_>) -> bool
        ensures { result ≡ is_some (command_by_arguments (argument_command_kind_name self) (argument_parts_seen parts.now)) }
    {
        match self {
            CommandKind::Replay => takes_replay(parts),
            CommandKind::Flows | CommandKind::Rebalance => !parts.quiet && takes_replay(parts),
            CommandKind::Compile => takes_print(1, parts),
            CommandKind::Show => takes_print(2, parts),
            CommandKind::Load => arguments_take_load(parts),
            CommandKind::Audit => takes_audit_arguments(parts),
        }
    }
}

// Whether the names are those of a play, whatever it prints.
fn takes_replay(parts: &ArgumentParts<'_>) -> bool
    ensures { (report : Report) → result ≡
        is_some (play_from_arguments report (argument_parts_seen parts.now) (map string_bytes parts.now.names.now)) }
{
    let [_schedule, policies @ ..] = parts.names else {
        return false;
    };
    !policies.is_empty() && policies.len() <= MAX_POLICIES
}

fn takes_audit_arguments(parts: &ArgumentParts<'_>) -> bool
    ensures { result ≡ is_some (audit_by_argument_grammar (argument_parts_seen parts.now)) }
{
    if parts.net.is_some() || parts.quiet {
        return false;
    }
    let [_trace, policies @ ..] = parts.names else {
        return false;
    };
    !policies.is_empty() && policies.len() <= MAX_POLICIES
}

fn takes_print(count: usize, parts: &ArgumentParts<'_>) -> bool
    requires { (count ≡ 1) ⊎ (count ≡ 2) }
    ensures { result ≡ is_some (argument_grammar_print_of count (argument_parts_seen parts.now)) }
{
    parts.names.len() == count && !parts.quiet
}

fn arguments_take_load(parts: &ArgumentParts<'_>) -> bool
    ensures { result ≡ is_some (load_of_arguments (argument_parts_seen parts.now)) }
{
    if parts.net.is_some() || parts.quiet {
        return false;
    }
    let [number] = parts.names else {
        return false;
    };
    match read_number(number.as_bytes(), u64::from(MAX_LOAD)) {
        None => false,
        Some(n) => n >= 1,
    }
}

// The names and the options of the arguments after a command.
fn argument_parts_of(args: &[String]) -> Option<ArgumentParts<'_>>
    ensures { option_map argument_parts_seen result ≡ argument_line_of (map string_bytes args.now) }
{
    let front = cut_argument_options(args);
    let (names, rest) = front.args.split_at(argument_name_count(front.args));
    joined_argument_parts(front, names, cut_argument_options(rest))
}

// The names with the options around them; `None` if one is given twice, or arguments are left.
fn joined_argument_parts<'a>(
    front: Cut<'a>,
    names: &'a [String],
    back: Cut<'a>,
) -> Option<ArgumentParts<'a>>
    ensures { option_map argument_parts_seen result ≡ argument_line_from
        (argument_option_cut_seen front.entry) (map string_bytes names.entry.now) (argument_option_cut_seen back.entry) }
{
    if !options_end_together(&front, &back) {
        return None;
    }
    Some(ArgumentParts {
        names,
        net: front.net.or(back.net),
        quiet: front.quiet || back.quiet,
    })
}

// Whether no option is given twice, and nothing follows the last ones.
fn options_end_together(front: &Cut<'_>, back: &Cut<'_>) -> bool
    ensures { result ≡ argument_options_end_together (argument_option_cut_seen front.now) (argument_option_cut_seen back.now) }
{
    !(front.net.is_some() && back.net.is_some())
        && !(front.quiet && back.quiet)
        && back.args.is_empty()
}

// How many of the first arguments may name a file, up to one that may not.
fn argument_name_count(args: &[String]) -> usize
    ensures value { result ≡ prefix_len is_name_argument (map string_bytes args.now) }
    ensures within { result ≤ length args.now }
{
    args.iter()
        .take_while(|arg| argument_may_be_name(arg))
        .count()
}

// The options that begin the arguments, and the arguments after them.
fn cut_argument_options(args: &[String]) -> Cut<'_>
    ensures { argument_option_cut_seen result ≡ cut_argument_options (map string_bytes args.now) }
{
    if let Some(rest) = cut_quiet_argument(args) {
        return quiet_argument_then_net(rest);
    }
    match cut_net_option_argument(args) {
        None => Cut {
            net: None,
            quiet: false,
            args,
        },
        Some((net, rest)) => net_argument_then_quiet(net, rest),
    }
}

// A network's option may follow the flag.
fn quiet_argument_then_net(args: &[String]) -> Cut<'_>
    ensures { argument_option_cut_seen result ≡ quiet_argument_then_net (map string_bytes args.now) }
{
    match cut_net_option_argument(args) {
        None => Cut {
            net: None,
            quiet: true,
            args,
        },
        Some((net, rest)) => Cut {
            net: Some(net),
            quiet: true,
            args: rest,
        },
    }
}

// A flag may follow the network's option.
fn net_argument_then_quiet<'a>(net: &'a str, args: &'a [String]) -> Cut<'a>
    ensures { argument_option_cut_seen result ≡ net_argument_then_quiet net.entry.now (map string_bytes args.now) }
{
    match cut_quiet_argument(args) {
        None => Cut {
            net: Some(net),
            quiet: false,
            args,
        },
        Some(rest) => Cut {
            net: Some(net),
            quiet: true,
            args: rest,
        },
    }
}

// The arguments after a flag, if they begin with one.
fn cut_quiet_argument(args: &[String]) -> Option<&[String]>
    ensures { option_map (λ rest. map string_bytes rest.now) result
        ≡ cut_quiet_argument (map string_bytes args.now) }
{
    let [option, rest @ ..] = args else {
        return None;
    };
    if option.as_str() == "--quiet" {
        Some(rest)
    } else {
        None
    }
}

// The network of an option that begins the arguments, and the arguments after it.
fn cut_net_option_argument(args: &[String]) -> Option<(&str, &[String])>
    ensures { option_map argument_option_pair_seen result ≡ cut_net_option_argument (map string_bytes args.now) }
{
    let [option, rest @ ..] = args else {
        return None;
    };
    match joined_net_argument(option.as_str()) {
        Some(net) => Some((net, rest)),
        None => cut_option_pair(option.as_str(), rest),
    }
}

// If this is `--net` and a name follows: that name, and the arguments after it.
fn cut_option_pair<'a>(option: &str, args: &'a [String]) -> Option<(&'a str, &'a [String])>
    ensures { option_map argument_option_pair_seen result ≡ cut_argument_option_pair option.now (map string_bytes args.entry.now) }
{
    let [net, rest @ ..] = args else {
        return None;
    };
    if option == "--net" && argument_may_be_name(net) {
        Some((net.as_str(), rest))
    } else {
        None
    }
}

// The network of an option `--net=NET`.
fn joined_net_argument(arg: &str) -> Option<&str>
    ensures { argument_name_seen result ≡ joined_net_argument arg.now }
{
    let net = arg.strip_prefix("--net=")?;
    if argument_may_be_name(net) {
        Some(net)
    } else {
        None
    }
}

// Whether an argument may name a file or a switch: it is not empty and does not begin with a dash.
fn argument_may_be_name(arg: &str) -> bool
    ensures { result ≡ is_name_argument arg.now }
{
    !arg.is_empty() && arg.as_bytes()[0] != b'-'
}
