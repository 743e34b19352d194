//! Whether the network of a play is quiet, and the line that says so.
ghost use Rattle.std.specs.Prelude.{◌≡◌, [], IfOk, IfErr, IsTrue, is_some};
ghost use Rattle.net_file.specs.Net.{IsNet};
ghost use Rattle.shelf.specs.SinkWrites.{IsSinkAfterWrite};
ghost use Rattle.update_machine.specs.Setting.{Setting};
ghost use Rattle.difane_cli.specs.Exports.{IsProgramVerdictOnQuiet, program_asks_quiet, is_program_verdict_asked, program_quiet_line};

use command_line::Report;
use meters::Meter;
use net_file::Net;
use replay::Played;
use shelf::{Sink, SinkError, write_whole};
use std::alloc::{AllocError, Global};

/// Whether a report says whether the network is quiet.
pub fn program_asks_quiet(report: Report) -> bool
    ensures { result ≡ program_asks_quiet report }
{
    match report {
        Report::Lines { quiet } => quiet,
        Report::Flows | Report::Placement | Report::Summary => false,
    }
}

/// Whether the network is quiet; `None` if this isn't asked for or the play stopped full.
///
/// # Errors
/// Only out of memory, and only if the result wouldn't be `None`.
pub fn judge_quiet_network<M: Meter>(
    alloc: Global,
    asked: bool,
    played: &Played<M>,
    net: &Net,
) -> Result<Option<bool>, AllocError>
    requires { IsNet net.now }
    ensures asked { IfOk result (λ answer. is_some answer ≡ is_program_verdict_asked asked played.now.full) }
    ensures wants { IfErr result (λ _. IsTrue (is_program_verdict_asked asked played.now.full)) }
    ensures decides { IfOk result (λ answer. (setting : Setting) → setting.net ≡ net.now
        → IsProgramVerdictOnQuiet setting played.now.journal answer) }
{
    if !asked || played.full.is_some() {
        return Ok(None);
    }
    let answer = journal_reports::quiet(alloc, &played.journal, net)?;
    Ok(Some(answer))
}

/// Writes the line of a verdict, if there is one. Allocates nothing itself.
pub fn write_network_verdict<K: Sink>(answer: Option<bool>, out: &mut K) -> Result<(), SinkError>
    ensures after { IsSinkAfterWrite (program_quiet_line answer) K.takes_memory
        (K.state out.old) (K.state out.new) result }
    ensures no_line { program_quiet_line answer ≡ [] → out.new ≡ out.old }
{
    match answer {
        None => Ok(()),
        Some(true) => write_whole(out, b"quiet yes\n"),
        Some(false) => write_whole(out, b"quiet no\n"),
    }
}
