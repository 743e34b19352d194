ghost use Rattle.cache_maker.specs.Laws.{IndependentCacheWordLaws, WidenLaws};

use ternary::{covers_laws, free_laws, meet_laws, ternary_exact_laws};

/// The rule at the place of an independent word decides each header that the word holds.
pub fn independent_cache_word_laws()
    ensures { IndependentCacheWordLaws }
{
    covers_laws();
    meet_laws();
}

/// The widened word of a header holds it, is independent, and has no fixed bit that can be freed.
pub fn widen_laws()
    ensures { WidenLaws }
{
    covers_laws();
    meet_laws();
    ternary_exact_laws();
    free_laws();
}
