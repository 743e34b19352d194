//! Adverts that were written before: if the same one is written again, its text is copied.
ghost use Rattle.std.specs.Prelude.{◌≡◌, ◌≤◌, [], IfSome, length, take};
ghost use Rattle.net_file.specs.declared.net.Net.{Net};
ghost use Rattle.journal_text.specs.Lines.{journal_advert_text};
ghost use Rattle.journal_text.specs.AdvertTexts.{AreJournalAdvertTexts, IsKeptJournalAdvertText};
ghost use Rattle.lines.specs.Sizes.{IsNumberInPrintedLine};
ghost use Rattle.lines.specs.Pushes.{line_with};

use crate::messages::push_journal_advert_text;
use failover::Advert;
use lines::Line;
use net_file::Net;

/// How many bytes the text of an advert that is kept has at most.
const KEPT_BYTES: usize = 512;

/// An advert and its text.
#[derive(Clone, Copy)]
pub(crate) struct JournalAdvertText {
    advert: Advert,
    bytes: [u8; 512],
    len: usize,
}

impl JournalAdvertText {
    fn new(advert: &Advert, text: &[u8]) -> JournalAdvertText
        requires { length text.now ≤ 512 }
        ensures advert { result.advert ≡ advert.now }
        ensures text { take result.len result.bytes ≡ text.now }
        ensures within { result.len ≤ 512 }
    {
        let mut bytes = [0; 512];
        bytes[..text.len()].copy_from_slice(text);
        JournalAdvertText {
            advert: *advert,
            bytes,
            len: text.len(),
        }
    }
}

/// For each switch the advert of it that was written last, with its text, if that is short.
#[derive(Drop)]
pub(crate) struct AdvertTexts {
    kept: [Option<JournalAdvertText>; 64],
    // The text that is written now.
    own: Line,
}

impl AdvertTexts {
    /// The empty table: no advert was written.
    pub fn new() -> AdvertTexts
        ensures { (net : Net) → AreJournalAdvertTexts net result }
    {
        AdvertTexts {
            kept: [None; 64],
            own: Line::new(),
        }
    }

    /// Adds the text of an advert.
    pub fn push(&mut self, line: &mut Line, net: &Net, advert: &Advert)
        requires { AreJournalAdvertTexts net.now self.old }
        ensures text { line.new ≡ line_with line.old (journal_advert_text net.now advert.now) }
        ensures of_type { IsNumberInPrintedLine advert.now.boot × IsNumberInPrintedLine advert.now.seq }
        ensures texts { AreJournalAdvertTexts net.now self.new }
    {
        match self.find(advert) {
            Some(kept) => line.push_bytes(&kept.bytes[..kept.len]),
            None => {
                self.write(net, advert);
                line.push_bytes(self.own.bytes());
            }
        }
    }

    // The advert with its text, if it is the last one of its switch that was written.
    fn find(&self, advert: &Advert) -> Option<&JournalAdvertText>
        ensures advert { IfSome result (λ kept. kept.now.advert ≡ advert.now) }
        ensures text { IfSome result (λ kept.
            (net : Net) → AreJournalAdvertTexts net self.now → IsKeptJournalAdvertText net kept.now) }
    {
        let kept = self.kept[(advert.origin % 64) as usize].as_ref()?;
        if kept.advert == *advert {
            Some(kept)
        } else {
            None
        }
    }

    // Writes the text of an advert, and keeps it if it is short.
    #[inline(never)]
    fn write(&mut self, net: &Net, advert: &Advert)
        requires { AreJournalAdvertTexts net.now self.old }
        ensures own { self.new.own ≡ line_with [] (journal_advert_text net.now advert.now) }
        ensures of_type { IsNumberInPrintedLine advert.now.boot × IsNumberInPrintedLine advert.now.seq }
        ensures texts { AreJournalAdvertTexts net.now self.new }
    {
        self.own.clear();
        push_journal_advert_text(&mut self.own, net, advert);
        let text = self.own.bytes();
        if text.len() <= KEPT_BYTES {
            let place = (advert.origin % 64) as usize;
            self.kept[place] = Some(JournalAdvertText::new(advert, text));
        }
    }
}
