ghost use Rattle.std.specs.Prelude.{◌≡◌};
ghost use Rattle.journal_reports.specs.Summary.{SummaryCountsHaveRoom, summary_counts_after_item, summary_item_counts, summary_with_travelling, summary_of};

use journal::{How, Item, Journal};

/// What became of the packets of a play, what was sent in it, and the versions that it ended with.
#[derive(Clone, Copy)]
pub struct Summary {
    /// Packets that entered, or came to a switch that did not serve.
    pub packets: usize,
    /// Packets that came to a switch that did not serve.
    pub closed: usize,
    /// Packets that left the network by a port.
    pub delivered: usize,
    pub dropped: usize,
    pub lost: usize,
    pub stuck: usize,
    /// Packets that entered, minus the four counts above; 0 if these are more.
    pub travelling: usize,
    /// Decisions by cached rules.
    pub cached: usize,
    /// Messages that were sent.
    pub messages: usize,
    /// The current version at the end.
    pub current: u32,
    /// The version up to which all are retired at the end; 0 if none is.
    pub retired: u32,
}

/// The summary of a journal.
pub fn summarize(journal: &Journal) -> Summary
    ensures { result ≡ summary_of journal.now }
{
    count(journal.items()).with_travelling()
}

// Counts the items in one pass: `travelling` gets all that entered.
fn count(items: &[Item]) -> Summary
    ensures { result ≡ summary_item_counts items.now }
{
    let mut counts = Summary {
        packets: 0,
        closed: 0,
        delivered: 0,
        dropped: 0,
        lost: 0,
        stuck: 0,
        travelling: 0,
        cached: 0,
        messages: 0,
        current: 1,
        retired: 0,
    };
    for item in items {
        counts.note(item);
    }
    counts
}

impl Summary {
    // Counts one more item.
    fn note(&mut self, item: &Item)
        requires { SummaryCountsHaveRoom self.old }
        ensures { self.new ≡ summary_counts_after_item self.old item.now }
    {
        match item {
            Item::Entered { .. } => {
                self.packets += 1;
                self.travelling += 1;
            }
            Item::Closed { .. } => {
                self.packets += 1;
                self.closed += 1;
            }
            Item::Left { .. } => self.delivered += 1,
            Item::Dropped { .. } => self.dropped += 1,
            Item::Lost { .. } => self.lost += 1,
            Item::Stuck { .. } => self.stuck += 1,
            Item::Decided {
                how: How::Cached { .. },
                ..
            } => self.cached += 1,
            Item::Sent { .. } => self.messages += 1,
            Item::Current { version } => self.current = *version,
            Item::Retired { version } => self.retired = *version,
            _ => {}
        }
    }

    // The counts with the packets that still travel: those that entered minus those that ended.
    fn with_travelling(self) -> Summary
        ensures { result ≡ summary_with_travelling self }
    {
        let travelling = self
            .travelling
            .saturating_sub(self.delivered)
            .saturating_sub(self.dropped)
            .saturating_sub(self.lost)
            .saturating_sub(self.stuck);
        Summary { travelling, ..self }
    }
}
