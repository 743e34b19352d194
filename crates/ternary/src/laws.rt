ghost use Rattle.ternary.specs.Laws.{WordHoldsLaws, AnyWordLaws, TernaryExactLaws, WordCoversLaws, TernaryMeetLaws, WordFixLaws, TernaryFreeLaws, TernaryFreeBitsLaws};

/// A word holds the headers that agree with its value on each fixed bit, so it holds its value;
/// words that hold the same headers are equal.
pub fn holds_laws()
    ensures { WordHoldsLaws }
{}

/// The word that fixes no bit holds every header.
pub fn any_laws()
    ensures { AnyWordLaws }
{}

/// The word of one header fixes each bit, and holds only this header.
pub fn ternary_exact_laws()
    ensures { TernaryExactLaws }
{}

/// `covers` is a partial order. A word covers the word of one header exactly if it holds the
/// header, and it covers each word without a free bit that it meets.
pub fn covers_laws()
    ensures { WordCoversLaws }
{}

/// `meet` returns the greatest word that both cover. Narrowing a word to `a`, and then to a word
/// that `a` covers, is the same as narrowing it to the latter.
pub fn meet_laws()
    ensures { TernaryMeetLaws }
{}

/// A free bit divides a word into two halves: each header is in the one that has its bit.
pub fn word_fix_laws()
    ensures { WordFixLaws }
{}

/// Freeing a bit widens a word, and keeps the order of words. Two words meet exactly if they meet
/// with a bit freed and agree on that bit; the same is true of covering.
pub fn free_laws()
    ensures { TernaryFreeLaws }
{}

/// The free bits of a word as an ascending list: fixing one removes only it.
pub fn free_bits_laws()
    ensures { TernaryFreeBitsLaws }
{}
