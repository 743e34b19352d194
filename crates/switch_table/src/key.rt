use policy_rules::Action;
use ternary::Word;

/// What identifies a cache entry: its word, and a number for its version.
///
/// The number is the version plus the cache's shift, which falls when entries are carried to a
/// later version. So an entry that is carried keeps its key.
#[derive(Clone, Copy, PartialEq, Eq, Hash)]
pub struct CacheKey {
    pub number: u64,
    pub word: Word,
}

/// What a cache entry says besides its key.
#[derive(Clone, Copy)]
pub struct LearntEntry {
    pub rule: Option<u32>,
    pub action: Action,
    pub message: u32,
}

/// A slot of a map of entries: what was learnt, and whether the entry is still in the cache.
#[derive(Clone, Copy)]
pub struct Slot {
    pub learnt: LearntEntry,
    pub is_live: bool,
}
