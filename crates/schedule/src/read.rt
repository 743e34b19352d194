ghost use Rattle.std.specs.Prelude.{◌≡◌, ◌≤◌, Ok, IfOk, IfErr, All, vec_len};
ghost use Rattle.net_file.specs.Net.{IsNet};
ghost use Rattle.steps.specs.Steps.{IsEventOfSteps};
ghost use Rattle.steps.specs.Limits.{max_events};
ghost use Rattle.schedule.specs.Reading.{schedule_of};
ghost use Rattle.base.specs.Refusals.{IsCallRefusal};

use crate::error::{ScheduleError, ScheduleRefusal};
use crate::laws::schedule_laws;
use crate::row::{is_schedule_heading, read_event};
use base::InRow;
use csv_records::{ByteRecord, Records};
use net_file::Net;
use std::alloc::Global;
use steps::{Event, MAX_EVENTS};

/// Reads the events that the text states for the network and this many policy files.
///
/// The text's records are those of the crate `csv` with its presets, of any width: the heading
/// `event,arguments`, and then one for each of at most 100,000 events. So a byte-order mark,
/// quotes, line ends and blank lines are as that crate reads them.
///
/// # Errors
/// The first refusal in the text, or out of memory. The rows are checked in order: first a row's
/// kind, then its width, then its fields from left to right.
#[tactic(auto, unfolding(crate::specs::Reading::schedule_of))]
pub fn read_schedule(
    alloc: Global,
    bytes: &[u8],
    net: &Net,
    files: u32,
) -> Result<Vec<Event>, ScheduleError>
    requires { IsNet net.now }
    ensures events { IfOk result (λ events.
        schedule_of net.now files bytes.now ≡ Ok events.items) }
    ensures steps { IfOk result (λ events. All (IsEventOfSteps net.now files) events.items) }
    ensures few { IfOk result (λ events. vec_len events ≤ max_events) }
    ensures refused { IfErr result (IsCallRefusal (schedule_of net.now files bytes.now)) }
{
    schedule_laws();
    let mut records = Records::new(alloc, bytes);
    let mut fields = ByteRecord::new(alloc);
    if !records.read_next(&mut fields)? || !is_schedule_heading(&fields) {
        let refusal = ScheduleRefusal::Header;
        return Err(ScheduleError::Refused(InRow { refusal, row: 0 }));
    }
    // Few rows have fewer than eight bytes.
    let likely = bytes.len() / 8;
    let mut events = Vec::with_capacity(alloc, likely.min(MAX_EVENTS))?;
    while records.read_next(&mut fields)? {
        let row = events.len() as u32 + 1;
        if events.len() == MAX_EVENTS {
            let refusal = ScheduleRefusal::TooManyRows;
            return Err(ScheduleError::Refused(InRow { refusal, row }));
        }
        match read_event(&fields, net, files) {
            Ok(event) => events.push(event)?,
            Err(refusal) => return Err(ScheduleError::Refused(InRow { refusal, row })),
        }
    }
    Ok(events)
}
