//! Plays accepted inputs, and writes what the play prints.
ghost use Rattle.std.specs.Prelude.{◌≡◌, ◌≢◌, [], Ok, Option, Some, map};
ghost use Rattle.std.specs.Option.{ForSome};
ghost use Rattle.net_file.specs.Net.{IsNet};
ghost use Rattle.shelf.specs.Shelf.{ShelfFiles};
ghost use Rattle.shelf.specs.SinkWrites.{IsSinkAfterWrite};
ghost use Rattle.difane_cli.specs.Exports.{ProgramAnswerLaws, ProgramStatusEndsWork, IsAfterProgramText, ProgramPlayOutcome, ProgramMemoryRanOut, program_flow_text_unless_full, is_program_output_made, program_last_lines, program_play_text, program_replay_text};
ghost use Rattle.command_inputs.specs.Exports.{AreCommandInputsReady, AreCommandPlayInputs, Play, task_inputs_stated, known_command_input_task};
ghost use Rattle.command_line.specs.Commands.{Command};
ghost use Rattle.command_line.specs.declared.report.Report.TheVariants.{Flows, Placement, Summary};
ghost use Rattle.journal_reports.specs.Summary.{summary_counts_text};
ghost use Rattle.command_inputs.specs.declared.status.Status.TheVariants as status;

use crate::ended::Ended;
use crate::flow_lines::program_flow_text;
use crate::meter_lines::write_program_meters;
use crate::verdict::{judge_quiet_network, program_asks_quiet, write_network_verdict};
use command_inputs::{PlayInputs, Status};
use command_line::Report;
use flow_export::flow_laws;
use forwarding_laws::{plays_keep_working, quiet_forwarding_comes_to_rest};
use journal::Journal;
use journal_reports::{summarize, summary_text};
use journal_text::write_text;
use meters::Meter;
use net_file::Net;
use packet_laws::packet_rows_are_entered;
use replay::Played;
use shelf::{Sink, SinkError, write_whole};
use std::alloc::Global;
use trace_texts::texts_are_good;

/// Plays the inputs, to their end or until the journal is full, while the meters record the packets
/// that leave. Then writes what the report has: the lines of the journal, the meters and the
/// verdict, or flow records, or a summary; nothing is written before the verdict is known. The
/// outcome is stated for whatever is known of the files.
pub fn play<M: Meter, K: Sink>(
    alloc: Global,
    inputs: PlayInputs,
    meters: Vec<M>,
    out: &mut K,
) -> Ended<M>
    requires ready { AreCommandInputsReady inputs }
    requires tells { inputs.report ≢ Placement }
    ensures outcome { (command : Command) (files : Option ShelfFiles)
        → AreCommandPlayInputs command (task_inputs_stated inputs)
        → ForSome (known_command_input_task files (Some command))
        (λ read. read ≡ Ok (Play (task_inputs_stated inputs)))
        → ProgramPlayOutcome command files K.takes_memory result.status result.journal
        (map M.seen meters.items) (map M.seen result.meters.items)
        (K.state out.old) (K.state out.new) }
    ensures no_memory { (command : Command) → AreCommandPlayInputs command (task_inputs_stated inputs)
        → result.status ≡ status.NoMemory
        → ProgramMemoryRanOut (Some command) K.takes_memory result.journal
        (K.state out.old) (K.state out.new) }
    ensures ended { ProgramStatusEndsWork result.status (K.state out.old) (K.state out.new) }
{
    let PlayInputs {
        events,
        net,
        world,
        report,
    } = inputs;
    program_answer_laws();
    let Ok(played) = replay::play(world, &events, meters, net.port_mask()) else {
        return Ended {
            status: Status::NoMemory,
            journal: Journal::new(alloc),
            meters: Vec::new(alloc),
        };
    };
    let Ok(answer) = judge_quiet_network(alloc, program_asks_quiet(report), &played, &net) else {
        return Ended {
            status: Status::NoMemory,
            journal: played.journal,
            meters: played.meters,
        };
    };
    let status = match write_report(alloc, report, &played, answer, &net, out) {
        Ok(()) => Status::written(played.full),
        Err(error) => Status::from(error),
    };
    Ended {
        status,
        journal: played.journal,
        meters: played.meters,
    }
}

/// The laws of plays, and of the network after any steps, that the top call uses.
pub fn program_answer_laws()
    ensures { ProgramAnswerLaws }
{
    packet_rows_are_entered();
    quiet_forwarding_comes_to_rest();
    plays_keep_working();
    texts_are_good();
    flow_laws();
}

/// Writes the lines, the flow records or the counts of a play.
fn write_report<M: Meter, K: Sink>(
    alloc: Global,
    report: Report,
    played: &Played<M>,
    answer: Option<bool>,
    net: &Net,
    out: &mut K,
) -> Result<(), SinkError>
    requires net { IsNet net.now }
    requires tells { report ≢ Placement }
    ensures { IsAfterProgramText (program_play_text report net.now played.now.journal played.now.full
        played.now.gone (map M.seen played.now.meters.items) answer)
        (is_program_output_made report played.now.full) K.takes_memory
        (K.state out.old) (K.state out.new) result }
{
    match report {
        Report::Lines { .. } => write_played(played, answer, net, out),
        Report::Flows => write_program_flows(alloc, played, out),
        Report::Summary => write_program_summary(alloc, played, out),
        Report::Placement => unreachable!(),
    }
}

/// Writes the flow records of a play, unless it stopped full.
fn write_program_flows<M: Meter, K: Sink>(
    alloc: Global,
    played: &Played<M>,
    out: &mut K,
) -> Result<(), SinkError>
    ensures { IsAfterProgramText (program_flow_text_unless_full played.now.full played.now.gone
        (map M.seen played.now.meters.items)) (is_program_output_made Flows played.now.full) K.takes_memory
        (K.state out.old) (K.state out.new) result }
{
    match played.full {
        Some(_) => Ok(()),
        None => match program_flow_text(alloc, &played.gone, &played.meters) {
            Ok(text) => write_whole(out, &text),
            Err(_) => Err(SinkError::NoMemory),
        },
    }
}

/// Writes the eleven counts of a play, unless it stopped full.
fn write_program_summary<M: Meter, K: Sink>(
    alloc: Global,
    played: &Played<M>,
    out: &mut K,
) -> Result<(), SinkError>
    ensures { IsAfterProgramText (summary_counts_text played.now.journal played.now.full)
        (is_program_output_made Summary played.now.full) K.takes_memory
        (K.state out.old) (K.state out.new) result }
{
    match played.full {
        Some(_) => Ok(()),
        None => match summary_text(alloc, &summarize(&played.journal)) {
            Ok(text) => write_whole(out, &text),
            Err(_) => Err(SinkError::NoMemory),
        },
    }
}

/// Writes the lines of a play: those of its journal, and then, unless it stopped full, the last
/// ones. Allocates nothing itself.
fn write_played<M: Meter, K: Sink>(
    played: &Played<M>,
    answer: Option<bool>,
    net: &Net,
    out: &mut K,
) -> Result<(), SinkError>
    requires { IsNet net.now }
    ensures after { IsSinkAfterWrite (program_replay_text net.now played.now.journal played.now.full
        (map M.seen played.now.meters.items) answer) K.takes_memory
        (K.state out.old) (K.state out.new) result }
    ensures no_lines { program_replay_text net.now played.now.journal played.now.full
        (map M.seen played.now.meters.items) answer ≡ [] → out.new ≡ out.old }
{
    write_text(&played.journal, net, out)?;
    match played.full {
        None => write_program_last_lines(&played.meters, answer, out),
        Some(_) => Ok(()),
    }
}

/// Writes the lines of the meters, and then the line of the verdict.
fn write_program_last_lines<M: Meter, K: Sink>(
    meters: &[M],
    answer: Option<bool>,
    out: &mut K,
) -> Result<(), SinkError>
    ensures after { IsSinkAfterWrite (program_last_lines (map M.seen meters.now) answer) K.takes_memory
        (K.state out.old) (K.state out.new) result }
    ensures no_lines { program_last_lines (map M.seen meters.now) answer ≡ [] → out.new ≡ out.old }
{
    write_program_meters(meters, out)?;
    write_network_verdict(answer, out)
}
