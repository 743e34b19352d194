//! What is read about each switch and its messages, from the end of a journal backwards.
ghost use Rattle.std.specs.Prelude.{ℕ, ◌≡◌, ◌<◌, ◌⊎◌, ◌↔◌, true, false, not, [], get_or, length, IfOk, IsFalse, IsTrue, OnOk};
ghost use Rattle.std.specs.List.{list_all};
ghost use Rattle.ctrl_msg.specs.declared.message.Message.{Message};
ghost use Rattle.journal_reports.specs.declared.traffic.Traffic.{Traffic};
ghost use Rattle.journal_reports.specs.Buckets.{IsKeptInReportBucket};
ghost use Rattle.journal_reports.specs.Judging.{report_concerned_switch, is_missed_in_report, is_named_in_report, matters_in_report_status, report_switch_of_message};
ghost use Rattle.journal_reports.specs.Traffic.{AreReportTrafficRows, ReportTrafficConcernsOne, IsReportTrafficAdded, IsReportTrafficAfter};

use crate::bucket::{Bucket, empty_report_buckets, keep, report_buckets_keep};
use crate::deliveries::is_report_delivery_marked;
use crate::replacing::{matters, speaks};
use crate::status::{SwitchStatus, status_items};
use journal::{Body, Item, Message, Place, SharedMessage};
use std::alloc::{AllocError, Global};

/// A switch's status at the end of a journal, and, of the items from some place on, whether they
/// begin no boot of it. Also the messages to it or from it that matter and that these items send
/// and later deliver. Of two messages that say as much, only one is kept.
#[derive(Drop)]
pub struct Traffic {
    pub status: SwitchStatus,
    pub is_in_boot: bool,
    pub buckets: Vec<Bucket>,
}

impl Traffic {
    // Takes the item before those that were read, which concerns the switch. Returns false if the
    // item sends a message that matters, which wasn't delivered and which none replaces.
    fn take_report_item(&mut self, item: &Item, delivered: &[bool]) -> Result<bool, AllocError>
        ensures { IfOk result (λ answer. IsReportTrafficAfter delivered.now item.now self.old self.new answer) }
    {
        match item {
            Item::Booted { switch, .. } => {
                if *switch == self.status.switch {
                    self.is_in_boot = false;
                }
                Ok(true)
            }
            Item::Sent { number, message } => {
                let is_delivered = is_report_delivery_marked(delivered, *number);
                self.take_message(message, is_delivered)
            }
            _ => Ok(true),
        }
    }

    // Takes the message of an item, with the result of `take_report_item` for it.
    fn take_message(
        &mut self,
        message: &SharedMessage,
        is_delivered: bool,
    ) -> Result<bool, AllocError>
        ensures status { OnOk result (self.new.status ≡ self.old.status) }
        ensures in_boot { OnOk result (self.new.is_in_boot ≡ self.old.is_in_boot) }
        ensures count { OnOk result
            (length self.new.buckets.items ≡ length self.old.buckets.items) }
        ensures kept { OnOk result (length self.old.buckets.items ≡ 64 → (other : Message) →
            IsKeptInReportBucket self.new.buckets.items other
            ↔ (IsKeptInReportBucket self.old.buckets.items other
            ⊎ IsReportTrafficAdded self.old is_delivered message.now other)) }
        ensures received { IfOk result (λ answer. IsTrue answer
            ↔ (IsTrue (matters_in_report_status self.old.status self.old.is_in_boot message.now)
            → IsTrue is_delivered ⊎ IsKeptInReportBucket self.old.buckets.items message.now)) }
    {
        if !matters(message.get(), &self.status, self.is_in_boot) {
            return Ok(true);
        }
        if report_buckets_keep(&self.buckets, message.get()) {
            return Ok(true);
        }
        if is_delivered {
            keep(&mut self.buckets, message)?;
        }
        Ok(is_delivered)
    }
}

/// Whether no switch is down while the controller waits for it.
pub fn report_misses_no_switch(rows: &[Traffic]) -> bool
    ensures { result ≡ list_all (λ row. not (is_missed_in_report row.status)) rows.now }
{
    rows.iter().all(|row| !row.status.is_missed())
}

/// This many switches at the end of the journal, before any item is read.
///
/// # Errors
/// Only out of memory.
pub fn report_traffic_at_end(
    alloc: Global,
    items: &[Item],
    count: u32,
) -> Result<Vec<Traffic>, AllocError>
    ensures count { IfOk result (λ rows. length rows.items ≡ count) }
    ensures each { IfOk result (λ rows. AreReportTrafficRows items.now [] rows.items) }
{
    let told = status_items(alloc, items)?;
    let mut rows = Vec::new(alloc);
    for switch in 0..count {
        let buckets = empty_report_buckets(alloc)?;
        rows.push(Traffic {
            status: SwitchStatus::of(&told, switch),
            is_in_boot: true,
            buckets,
        })?;
    }
    Ok(rows)
}

/// Gives the item before those that were read to the only switch that it concerns. Returns false if
/// it sends a message that matters, which wasn't delivered and which none replaces.
///
/// # Errors
/// Only out of memory.
pub fn take_report_item(
    rows: &mut Vec<Traffic>,
    item: &Item,
    delivered: &[bool],
) -> Result<bool, AllocError>
    ensures count { OnOk result (length rows.new.items ≡ length rows.old.items) }
    ensures concerned { IfOk result (λ answer. (s : ℕ) (d : Traffic) → s < length rows.old.items
        → is_named_in_report s (report_concerned_switch item.now) ≡ true
        → IsReportTrafficAfter delivered.now item.now (get_or rows.old.items s d) (get_or rows.new.items s d)
        answer) }
    ensures others { OnOk result ((s : ℕ) (d : Traffic) → is_named_in_report s (report_concerned_switch item.now)
        ≡ false
        → get_or rows.new.items s d ≡ get_or rows.old.items s d) }
    ensures some { IfOk result (λ answer. IsFalse answer → ReportTrafficConcernsOne rows.old.items item.now) }
{
    match journal_report_switch_concerned(item) {
        Some(s) if (s as usize) < rows.len() => rows[s as usize].take_report_item(item, delivered),
        _ => Ok(true),
    }
}

// The switch that the item concerns, if any: it begins its boot, or sends it or from it a message.
fn journal_report_switch_concerned(item: &Item) -> Option<u32>
    ensures { result ≡ report_concerned_switch item.now }
{
    match item {
        Item::Booted { switch, .. } => Some(*switch),
        Item::Sent { message, .. } => report_message_party(message.get()),
        _ => None,
    }
}

// The switch that a message is to, or from.
fn report_message_party(message: &Message) -> Option<u32>
    ensures { result ≡ report_switch_of_message message.now }
{
    match message.to {
        Place::Switch(to) => Some(to),
        Place::Controller => speaks(&message.body),
    }
}
