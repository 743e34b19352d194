ghost use Rattle.std.specs.Prelude.{◌≡◌, ◌≤◌, ◌<◌, ◌↔◌, length, vec_len, IfSome, IsNone};
ghost use Rattle.switch_table.specs.Carried.{cache_all_touched, cache_word_meets_touched};

use std::alloc::AllocError;
use std::marker::Model;
use ternary::Word;

/// The most words of a list.
const MAX_TOUCHED: usize = 16;

/// What a change of a policy touches: a list of at most 16 words, so that each header that the
/// change decides otherwise is in one of them. Contracts see the list.
#[derive(Debug, Drop)]
pub struct Touched {
    listed: Listed,
}

// The words, or the one word of every header, which allocates nothing.
#[derive(Debug, Drop)]
enum Listed {
    Words(Vec<Word>),
    All([Word; 1]),
}

impl Model for Touched {
    ghost use Rattle.std.specs.Prelude.{◌≤◌, List, length};
    ghost use Rattle.ternary.specs.Word.{WordValue};
    ghost use Rattle.switch_table.specs.Listed.{switch_table_touched_list_words};

    ghost Value = { List WordValue };

    ghost view = { λ t. switch_table_touched_list_words t.listed };

    ghost invariant = { λ t. length (switch_table_touched_list_words t.listed) ≤ 16 };
}

impl Touched {
    /// The list of these words; `None` if there are more than 16.
    pub fn new(words: Vec<Word>) -> Option<Touched>
        ensures list { IfSome result (λ touched. touched ≡ words.items) }
        ensures none { IsNone result ↔ (16 < vec_len words) }
    {
        if words.len() > MAX_TOUCHED {
            return None;
        }
        Some(Touched {
            listed: Listed::Words(words),
        })
    }

    /// Only the word of every header.
    pub fn all() -> Touched
        ensures { result ≡ cache_all_touched }
    {
        Touched {
            listed: Listed::All([Word::any()]),
        }
    }

    /// The words, in order.
    pub fn words(&self) -> &[Word]
        ensures words { result.now ≡ self.now }
        ensures few { length self.now ≤ 16 }
    {
        match &self.listed {
            Listed::Words(words) => words,
            Listed::All(any) => any,
        }
    }

    /// Whether the word meets one of these.
    pub fn meets(&self, word: &Word) -> bool
        ensures { result ≡ cache_word_meets_touched self.now word.now }
    {
        self.words().iter().any(|one| word.meets(one))
    }
}

impl Clone for Touched {
    ghost is_clone = { λ touched copy. copy ≡ touched };

    fn clone(&self) -> Result<Touched, AllocError> {
        let listed = match &self.listed {
            Listed::Words(words) => Listed::Words(Vec::from_slice(*words.allocator(), words)?),
            Listed::All(any) => Listed::All(*any),
        };
        Ok(Touched { listed })
    }
}
