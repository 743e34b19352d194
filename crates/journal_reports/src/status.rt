//! What a journal says about a switch, at its end.
ghost use Rattle.std.specs.Prelude.{ℕ, ◌≡◌, ◌++◌, IfOk, OnOk};
ghost use Rattle.journal_reports.specs.Judging.{is_missed_in_report, report_switch_status_with, report_switch_status_in, report_status_item};

use journal::Item;
use std::alloc::{AllocError, Global};

/// What decides which messages of a switch matter: its status, and the current version.
#[derive(Clone, Copy, Debug)]
pub struct SwitchStatus {
    pub switch: u32,
    pub is_up: bool,
    pub boot: u32,
    /// It went down, and the controller still waits for it.
    pub is_waited_for: bool,
    pub current: u32,
}

impl SwitchStatus {
    /// The status of the switch, and the current version, at the end of the journal.
    pub fn of(items: &[Item], switch: u32) -> SwitchStatus
        ensures { result ≡ report_switch_status_in items.now switch }
    {
        let mut status = SwitchStatus {
            switch,
            is_up: true,
            boot: 1,
            is_waited_for: false,
            current: 1,
        };
        for item in items {
            status.go_on(item);
        }
        status
    }

    /// Whether the switch is down, and the controller waits for it.
    pub fn is_missed(self) -> bool
        ensures { result ≡ is_missed_in_report self }
    {
        !self.is_up && self.is_waited_for
    }

    // Updates the status by one more item.
    fn go_on(&mut self, item: &Item)
        ensures { self.new ≡ report_switch_status_with item.now self.old }
    {
        match item {
            Item::Down { switch } => {
                if *switch == self.switch {
                    self.is_up = false;
                    self.is_waited_for = true;
                }
            }
            Item::Booted { switch, boot } => {
                if *switch == self.switch {
                    self.is_up = true;
                    self.boot = *boot;
                }
            }
            Item::OverNow { switch } => {
                if *switch == self.switch {
                    self.is_waited_for = false;
                }
            }
            Item::Current { version } => self.current = *version,
            _ => {}
        }
    }
}

/// Only the items that concern statuses, which are few: what they say of each switch's status is
/// what the whole journal says.
///
/// # Errors
/// Only out of memory.
pub fn status_items(alloc: Global, items: &[Item]) -> Result<Vec<Item>, AllocError>
    ensures { IfOk result (λ told. (s : ℕ) → report_switch_status_in told.items s ≡ report_switch_status_in items.now s) }
{
    let mut told = Vec::new(alloc);
    for item in items {
        push_report_status_item(&mut told, item)?;
    }
    Ok(told)
}

// Adds the item, if it concerns statuses.
fn push_report_status_item(told: &mut Vec<Item>, item: &Item) -> Result<(), AllocError>
    ensures { OnOk result (told.new.items ≡ told.old.items ++ report_status_item item.now) }
{
    match item {
        Item::Down { switch } => told.push(Item::Down { switch: *switch })?,
        Item::Booted { switch, boot } => told.push(Item::Booted {
            switch: *switch,
            boot: *boot,
        })?,
        Item::OverNow { switch } => told.push(Item::OverNow { switch: *switch })?,
        Item::Current { version } => told.push(Item::Current { version: *version })?,
        _ => {}
    }
    Ok(())
}
