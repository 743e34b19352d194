ghost use Rattle.std.specs.Prelude.{◌≡◌, []};
ghost use Rattle.net_file.specs.Net.{IsNet};
ghost use Rattle.journal_text.specs.Lines.{journal_text};
ghost use Rattle.shelf.specs.SinkWrites.{IsSinkAfterWrite};

use crate::advert_texts::AdvertTexts;
use crate::items::push_journal_line;
use journal::Journal;
use lines::Line;
use net_file::Net;
use shelf::{ShelfBlock, Sink, SinkError};

/// After this many bytes a line has room for that of an item.
const ROOMY_BYTES: usize = 800;

/// Writes the text of a journal, about 65,536 bytes of whole lines at once, and allocates nothing
/// itself. An empty text causes no write.
///
/// On an error the sink has the bytes of the writes before it. A write that accepts no byte is an
/// error like a failed one.
pub fn write_text<K: Sink>(journal: &Journal, net: &Net, sink: &mut K) -> Result<(), SinkError>
    requires { IsNet net.now }
    ensures after { IsSinkAfterWrite (journal_text net.now journal.now) K.takes_memory
        (K.state sink.old) (K.state sink.new) result }
    ensures no_text { journal_text net.now journal.now ≡ [] → sink.new ≡ sink.old }
{
    let mut line = Line::new();
    let mut texts = AdvertTexts::new();
    let mut block = ShelfBlock::new();
    let items = journal.items();
    if items.is_empty() {
        return block.finish(sink);
    }
    for item in items {
        if line.bytes().len() > ROOMY_BYTES {
            block.push(line.bytes(), sink)?;
            line.clear();
        }
        push_journal_line(&mut line, net, &mut texts, item);
    }
    block.push(line.bytes(), sink)?;
    block.finish(sink)
}
