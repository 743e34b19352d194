//! Whether a network is quiet.
ghost use Rattle.std.specs.Prelude.{◌≡◌, ◌↔◌, IfOk, IsTrue};
ghost use Rattle.net_file.specs.Net.{IsNet};
ghost use Rattle.update_machine.specs.Exports.{IsQuietMachineJournal, Setting};

use crate::deliveries::mark_delivery_for_report;
use crate::traffic::{report_misses_no_switch, report_traffic_at_end, take_report_item};
use journal::Journal;
use net_file::Net;
use std::alloc::{AllocError, Global};

/// Whether the network is quiet after its journal: each switch is up, or the controller doesn't
/// wait for it, and each message that still matters was delivered, or one that replaces it. The
/// result is right for any journal. The journal is read backwards, so that what was sent and
/// delivered after a message is known when the message is met. For a journal of a play, the time is
/// proportional to the journal's length, plus the number of switches times that of crashes, boots
/// and rises of the current version. Other journals may fill buckets, which takes longer.
///
/// # Errors
/// Only out of memory.
pub fn quiet(alloc: Global, journal: &Journal, net: &Net) -> Result<bool, AllocError>
    requires { IsNet net.now }
    ensures { IfOk result (λ answer. (setting : Setting) → setting.net ≡ net.now
        → IsTrue answer ↔ IsQuietMachineJournal setting journal.now) }
{
    let items = journal.items();
    let count = net.switches.items().len() as u32;
    let mut rows = report_traffic_at_end(alloc, items, count)?;
    if !report_misses_no_switch(&rows) {
        return Ok(false);
    }
    let mut delivered = Vec::new(alloc);
    let mut place = items.len();
    while place > 0 {
        place -= 1;
        let item = &items[place];
        mark_delivery_for_report(&mut delivered, item)?;
        if !take_report_item(&mut rows, item, &delivered)? {
            return Ok(false);
        }
    }
    Ok(true)
}
