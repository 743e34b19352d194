ghost use Rattle.std.specs.List.{list_any};
ghost use Rattle.std.specs.Prelude.{◌≡◌, ◌==◌, Some, All, IfOk, IfSome, OnOk};
ghost use Rattle.switch_table.specs.Masks.{HasCacheMaskIn, HasCacheMaskOf};
ghost use Rattle.ternary.specs.Word.{WordValue};

use crate::items::CacheItems;
use std::alloc::{AllocError, Global};
use std::marker::Model;
use ternary::Word;

// The fewest new entries before the masks are collected again.
const LEAST_WAIT: usize = 1024;

// The most masks that count as few.
const MAX_FEW: usize = 256;

/// The masks of a cache's entries, if they are few compared with the entries: a word for each mask.
/// If they are too many, they are collected again after as many new entries as there are now.
///
/// Contracts see the words, or `None` if the masks aren't known. A mask may outlast its entries.
#[derive(Drop)]
pub struct CacheMasks {
    words: Vec<Word>,
    are_known: bool,
    wait: usize,
}

impl Model for CacheMasks {
    ghost use Rattle.std.specs.Prelude.{List, Option, Some, None, if◌then◌else◌};
    ghost use Rattle.ternary.specs.Word.{WordValue};

    ghost Value = { Option (List WordValue) };

    ghost view = { λ m. if m.are_known then Some m.words.items else None };
}

impl CacheMasks {
    /// Unknown masks, to be collected after some new entries.
    pub fn new(alloc: Global) -> CacheMasks {
        CacheMasks::unknown(alloc, 0)
    }

    // Unknown masks, to be collected after this many new entries, at least 1,024.
    fn unknown(alloc: Global, entries: usize) -> CacheMasks
        ensures { (word : WordValue) → HasCacheMaskOf result word }
    {
        CacheMasks {
            words: Vec::new(alloc),
            are_known: false,
            wait: entries.max(LEAST_WAIT),
        }
    }

    /// The masks of these entries, of which there are `count`; unknown if they are too many.
    ///
    /// # Errors
    /// Only out of memory.
    pub fn gather(
        alloc: Global,
        entries: CacheItems<'_>,
        count: usize,
    ) -> Result<CacheMasks, AllocError>
        ensures { IfOk result
            (λ masks. All (λ entry. HasCacheMaskOf masks entry.word) entries.entry) }
    {
        let mut words = Vec::new(alloc);
        for entry in entries {
            note(&mut words, &entry.word)?;
            if !are_learnt_masks_few(words.len(), count) {
                return Ok(CacheMasks::unknown(alloc, count));
            }
        }
        Ok(CacheMasks {
            words,
            are_known: true,
            wait: 0,
        })
    }

    /// Whether it is time to collect them.
    pub fn are_due(&self) -> bool {
        !self.are_known && self.wait == 0
    }

    /// Waits for at most as many new entries as are left, or 1,024 if that is more.
    pub fn wait_for(&mut self, count: usize)
        ensures { self.new ≡ self.old }
    {
        self.wait = self.wait.min(count.max(LEAST_WAIT));
    }

    /// Adds the mask of a new entry's word; `count` entries were there before.
    ///
    /// # Errors
    /// Only out of memory.
    pub fn add(&mut self, word: &Word, count: usize) -> Result<(), AllocError>
        ensures kept { (one : WordValue) → HasCacheMaskOf self.old one → HasCacheMaskOf self.new one }
        ensures added { OnOk result (HasCacheMaskOf self.new word.now) }
    {
        if !self.are_known {
            self.wait = self.wait.saturating_sub(1);
            return Ok(());
        }
        note(&mut self.words, word)?;
        if !are_learnt_masks_few(self.words.len(), count) {
            self.are_known = false;
            self.wait = count.max(LEAST_WAIT);
        }
        Ok(())
    }

    /// A word of each mask, if they are known and few compared with this many entries.
    pub fn few(&self, count: usize) -> Option<&[Word]>
        ensures { IfSome result (λ words. self.now ≡ Some words.now) }
    {
        if self.are_known && are_learnt_masks_few(self.words.len(), count) {
            Some(&self.words)
        } else {
            None
        }
    }
}

// Whether one lookup for each mask is less work than a test of each entry, if there are this many.
fn are_learnt_masks_few(masks: usize, entries: usize) -> bool {
    masks <= MAX_FEW.min(entries / 64)
}

// Adds the word, if none of the words has its mask.
fn note(words: &mut Vec<Word>, word: &Word) -> Result<(), AllocError>
    ensures kept { (one : WordValue) → HasCacheMaskIn words.old.items one → HasCacheMaskIn words.new.items one }
    ensures added { OnOk result (HasCacheMaskIn words.new.items word.now) }
{
    let mask = word.mask();
    if !has_switch_cache_mask(words, mask) {
        words.push(*word)?;
    }
    Ok(())
}

fn has_switch_cache_mask(words: &[Word], mask: u128) -> bool
    ensures { result ≡ list_any (λ word. word.mask == mask) words.now }
{
    words.iter().any(|word| word.mask() == mask)
}
