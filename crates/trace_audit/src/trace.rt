ghost use Rattle.std.specs.Prelude.{◌≡◌, ◌↔◌, All, IfOk};
ghost use Rattle.policy_rules.specs.PolicyFiles.{IsSoundPolicyFile};
ghost use Rattle.trace_audit.specs.Decided.{AreTraceEndsJustified};
ghost use Rattle.trace_audit.specs.Reading.{AreGoodAuditLines, Whole, audit_lines_of};
ghost use Rattle.trace_audit.specs.Run.{AreAuditedTraceRun};
ghost use Rattle.trace_audit.specs.Seen.{IsTraceLineRead, trace_state_seen};
ghost use Rattle.trace_audit.specs.Verdicts.{IsTraceAuditVerdict};
ghost use Rattle.trace_audit.specs.declared.trace.Verdict.TheVariants.{Yes};

use crate::auditor::Auditor;
use crate::told::read_audit_line;
use crate::words::cut;
use policy_rules::PolicyFile;
use std::alloc::{AllocError, Global};

/// The verdict on a trace.
#[derive(Clone, Copy, Debug, PartialEq, Eq)]
pub enum Verdict {
    /// Every line is good.
    Yes,
    /// The line of this number, from 1, is the first bad one. A number above 4,294,967,295 is
    /// returned as 4,294,967,295.
    No { line: u32 },
}

/// Whether the trace is the printed run of an abstract machine that has these files of policies and
/// changes, and begins with the policy of the first one. It is exactly if each line has the form of
/// a line of a printed journal and, if it states a move, the machine may take it then. If the first
/// file is a change, the machine begins with no policy.
///
/// # Errors
/// Only out of memory.
pub fn audit(alloc: Global, trace: &[u8], files: &[PolicyFile]) -> Result<Verdict, AllocError>
    ensures verdict { IfOk result (IsTraceAuditVerdict files.now (audit_lines_of trace.now)) }
    ensures exactly { IfOk result
        (λ verdict. (verdict ≡ Yes) ↔ AreGoodAuditLines files.now (audit_lines_of trace.now)) }
    ensures run { IfOk result (λ verdict. verdict ≡ Yes → AreAuditedTraceRun files.now (audit_lines_of trace.now)) }
    ensures justified { IfOk result
        (λ verdict. verdict ≡ Yes → AreTraceEndsJustified files.now (audit_lines_of trace.now)) }
{
    trace_audit_files_sound(files);
    let mut auditor = Auditor::new(alloc, files)?;
    let mut rest = trace;
    let mut line: u32 = 0;
    while !rest.is_empty() {
        line = line.saturating_add(1);
        match cut(rest, b'\n') {
            None => return Ok(Verdict::No { line }),
            Some((text, next)) => {
                let good = take_trace_line(&mut auditor, alloc, files, text)?;
                if !good {
                    return Ok(Verdict::No { line });
                }
                rest = next;
            }
        }
    }
    Ok(Verdict::Yes)
}

// Each file is sound, by the invariant of its type.
fn trace_audit_files_sound(files: &[PolicyFile])
    ensures { All IsSoundPolicyFile files.now }
{
    for file in files {
        audit_file_is_sound(file);
    }
}

fn audit_file_is_sound(file: &PolicyFile)
    ensures { IsSoundPolicyFile file.now }
{
    match file {
        PolicyFile::Whole(policy) => {
            let _rows = policy.rows();
        }
        PolicyFile::Change(change) => {
            let _edits = change.edits();
        }
    }
}

// Reads a line, and returns whether it is good.
#[tactic(auto, using(crate::proofs::AuditTraceLines::line_read, crate::proofs::AuditTraceLines::line_unread))]
fn take_trace_line(
    auditor: &mut Auditor,
    alloc: Global,
    files: &[PolicyFile],
    line: &[u8],
) -> Result<bool, AllocError>
    ensures { IfOk result
        (IsTraceLineRead files.now (trace_state_seen auditor.old) (Whole line.now) (trace_state_seen auditor.new)) }
{
    match read_audit_line(line) {
        Some(told) => auditor.take(alloc, files, &told),
        None => Ok(false),
    }
}
