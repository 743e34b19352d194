ghost use Rattle.policy_rules.specs.Laws.{PolicyAmendmentLaws, PolicyLaws, PolicyRowWordsLaws, PolicyRuleListLaws};

/// `scan` returns the first match, and exactly one list of the rows is in falling order: laws about
/// the definitions only.
pub fn policy_laws()
    ensures { PolicyLaws }
{}

/// The words of a row hold exactly the headers that the row matches: laws about definitions only.
pub fn row_words_laws()
    ensures { PolicyRowWordsLaws }
{}

/// The rules of a policy's rows decide as the first match does: laws about the definitions only.
pub fn rule_list_laws()
    ensures { PolicyRuleListLaws }
{}

/// A policy with a change applied to it is a policy of at most 2,000 rows, each of which is a row
/// of the old one or an added one. A header that no removed and no added row matches is decided as
/// before, and any other by the rows that stay and the added ones: laws about the definitions only.
pub fn amendment_laws()
    ensures { PolicyAmendmentLaws }
{}
