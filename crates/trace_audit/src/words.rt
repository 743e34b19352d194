ghost use Rattle.std.specs.Prelude.{◌≡◌, ◌∷◌, ◌==◌, [], IfNone, IfSome, IsTrue, List, MatchBool, bytes_eq, false, position, ℕ};
ghost use Rattle.trace_audit.specs.Told.{IsTraceRestAfter, IsAuditTextCut, IsNoSingleAuditWord, IsTraceWordTaken, TakesAuditWord, audit_line_begins_with, trace_word_lacks_blank, audit_words_of};

use memchr::memchr;
use std::marker::Model;

// The place of the first such byte.
fn place_of(text: &[u8], byte: u8) -> Option<usize>
    ensures { result ≡ position (λ b. b == byte) text.now }
{
    memchr(byte, text)
}

// The place of the first such byte, which is likely to be near.
#[inline(always)]
fn near_place_in_trace(text: &[u8], byte: u8) -> Option<usize>
    ensures { result ≡ position (λ b. b == byte) text.now }
{
    text.iter().position(|b| *b == byte)
}

// The parts before and after this place, which is that of the first such byte; or `None`.
#[inline(always)]
fn cut_audit_text_at(text: &[u8], at: Option<usize>) -> Option<(&[u8], &[u8])>
    requires { (byte : ℕ) × (at ≡ position (λ b. b == byte) text.now) }
    ensures { (byte : ℕ) → at ≡ position (λ b. b == byte) text.now → IsAuditTextCut byte text.now result }
{
    match at {
        Some(place) => Some((&text[..place], &text[place + 1..])),
        None => None,
    }
}

/// The parts of the text before and after the first such byte; `None` if there is none.
pub(crate) fn cut(text: &[u8], byte: u8) -> Option<(&[u8], &[u8])>
    ensures { IsAuditTextCut byte text.now result }
{
    cut_audit_text_at(text, place_of(text, byte))
}

/// The same for a byte that is likely to be near.
#[inline(always)]
pub(crate) fn cut_audit_text_near(text: &[u8], byte: u8) -> Option<(&[u8], &[u8])>
    ensures { IsAuditTextCut byte text.now result }
{
    cut_audit_text_at(text, near_place_in_trace(text, byte))
}

// The text after the word and a blank, if it begins with them.
#[inline(always)]
fn after<'a>(text: &'a [u8], word: &[u8]) -> Option<&'a [u8]>
    requires { IsTrue (trace_word_lacks_blank word.now) }
    ensures { IsTraceRestAfter word.now text.now result }
{
    if text.len() <= word.len() {
        return None;
    }
    for (place, byte) in word.iter().enumerate() {
        if text[place] != *byte {
            return None;
        }
    }
    if text[word.len()] != b' ' {
        return None;
    }
    Some(&text[word.len() + 1..])
}

/// The words of a line that are still to be read. Contracts see them.
#[derive(Drop)]
pub(crate) struct Words<'a> {
    // The text after the words that were read; none if all were read.
    rest: Option<&'a [u8]>,
}

impl<'a> Model for Words<'a> {
    ghost use Rattle.std.specs.Prelude.{List, ℕ};
    ghost use Rattle.trace_audit.specs.Told.{trace_words_left};

    ghost Value = { List (List ℕ) };

    ghost view = { λ words. trace_words_left words.rest };
}

impl<'a> Words<'a> {
    /// All words of a line.
    #[inline(always)]
    pub fn of(line: &'a [u8]) -> Words<'a>
        ensures { result ≡ audit_words_of line.now }
    {
        Words { rest: Some(line) }
    }

    /// Whether there is a next word.
    #[inline(always)]
    pub fn has_more(&self) -> bool
        ensures { MatchBool result
            ((word : List ℕ) × (others : List (List ℕ)) × (self.now ≡ word ∷ others))
            (self.now ≡ []) }
    {
        self.rest.is_some()
    }

    /// Takes the next word; `None` if there is none.
    #[inline(always)]
    pub fn next(&mut self) -> Option<&'a [u8]>
        ensures some { IfSome result (λ word. self.old ≡ word.now ∷ self.new) }
        ensures none { IfNone result (self.old ≡ []) }
    {
        let rest = self.rest?;
        match cut_audit_text_near(rest, b' ') {
            Some((word, rest)) => {
                self.rest = Some(rest);
                Some(word)
            }
            None => {
                self.rest = None;
                Some(rest)
            }
        }
    }

    /// The next word, if it is the only one left.
    #[inline(always)]
    pub fn last(mut self) -> Option<&'a [u8]>
        ensures some { IfSome result (λ word. self.entry ≡ word.now ∷ []) }
        ensures none { IfNone result (IsNoSingleAuditWord self.entry) }
    {
        let word = self.next()?;
        if self.has_more() {
            return None;
        }
        Some(word)
    }

    /// Takes the next word if it is this one and more words follow it, and returns whether it did.
    #[tactic(auto, using(crate::proofs::AuditFirstWords::words_taken))]
    #[inline(always)]
    pub fn take(&mut self, word: &[u8]) -> bool
        requires { IsTrue (trace_word_lacks_blank word.now) }
        ensures { MatchBool result
            (IsTraceWordTaken word.now self.old self.new)
            ((audit_line_begins_with word.now self.old ≡ false) × (self.new ≡ self.old)) }
    {
        let Some(rest) = self.rest else {
            return false;
        };
        match after(rest, word) {
            Some(rest) => {
                self.rest = Some(rest);
                true
            }
            None => false,
        }
    }

    /// Takes the next word, and returns whether it is this one; `None` if there is none.
    #[inline(always)]
    pub fn next_is(&mut self, word: &[u8]) -> Option<bool>
        requires { IsTrue (trace_word_lacks_blank word.now) }
        ensures some { IfSome result (TakesAuditWord self.old (λ next. bytes_eq next word.now) self.new) }
        ensures none { IfNone result (self.old ≡ []) }
    {
        if self.take(word) {
            return Some(true);
        }
        let next = self.next()?;
        Some(next == word)
    }
}
