ghost use Rattle.cut_tree.specs.Laws.{CutNarrowingLaws, CutTreeLaws};

/// Narrowing a list to a region, and then to one within it, is narrowing it to the latter.
/// Narrowing keeps the first rule of each header of the region.
pub fn cut_tree_narrowing_laws()
    ensures { CutNarrowingLaws }
{}

/// A list of rules has exactly one tree for each cap, and `cut_tree_of` returns it.
pub fn tree_laws()
    ensures { CutTreeLaws }
{}
