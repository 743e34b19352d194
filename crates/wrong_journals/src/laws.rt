//! What the wrong and the right journals print, and which facts are true of them.
ghost use Rattle.std.specs.Prelude.{[], ◌∷◌, ◌++◌, codes};
ghost use Rattle.wrong_journals.specs.Judged.{WrongJournalIsNoRun, WrongJournalLacksRunAndCause, IsRightTriedJournal, WrongJournalLacksCause, WrongJournalLacksRow, TriedJournalPrintsAs};
ghost use Rattle.wrong_journals.specs.Office.{wrong_journal_printed_behind, wrong_journal_printed_in};
ghost use Rattle.wrong_journals.specs.Right.{right_journal_decided, right_journal_dropped, right_journal_left, right_journal_lost, right_journal_stuck, right_journal_updated};
ghost use Rattle.wrong_journals.specs.Wrong.{wrong_journal_another_row, wrong_journal_decided_twice, wrong_journal_dropped_undecided, wrong_journal_entered_unasked, wrong_journal_half_and_half, wrong_journal_lost_by_nothing, wrong_journal_other_port, wrong_journal_retired_version, wrong_journal_stuck_beside_route, wrong_journal_unknown_version};

/// Each wrong journal prints as these lines.
pub fn wrong_journals_print()
    ensures another_row { TriedJournalPrintsAs wrong_journal_another_row
        (codes "row 1: packet a 1.2.3.4 10.1.5.5 5000 80 tcp" ∷ codes "  entered 1 a"
        ∷ codes "  decided 1 v1 rule 100 out:2 authority a part 0" ∷ []) }
    ensures retired_version { TriedJournalPrintsAs wrong_journal_retired_version
        (codes "row 1: update 2" ∷ codes "  submitted file 2 version 2" ∷ codes "  retired 1"
        ∷ codes "row 2: packet a 1.2.3.4 10.2.0.1 5000 80 tcp" ∷ codes "  entered 1 a"
        ∷ codes "  decided 1 v1 rule 100 out:2 authority a part 0" ∷ []) }
    ensures unknown_version { TriedJournalPrintsAs wrong_journal_unknown_version
        (wrong_journal_printed_in ++ codes "  decided 1 v2 rule 100 drop authority a part 0" ∷ []) }
    ensures decided_twice { TriedJournalPrintsAs wrong_journal_decided_twice
        (wrong_journal_printed_behind ++ codes "  decided 1 v1 rule 100 out:2 authority a part 0"
        ∷ codes "  decided 1 v2 rule 100 drop authority a part 0" ∷ []) }
    ensures half_and_half { TriedJournalPrintsAs wrong_journal_half_and_half
        (wrong_journal_printed_behind
        ++ codes "  decided 1 v2 rule 100 out:2 authority a part 0" ∷ []) }
    ensures other_port { TriedJournalPrintsAs wrong_journal_other_port
        (wrong_journal_printed_in ++ codes "  decided 1 v1 rule 100 out:2 authority a part 0"
        ∷ codes "  out 1 port 1" ∷ []) }
    ensures dropped_undecided { TriedJournalPrintsAs wrong_journal_dropped_undecided
        (wrong_journal_printed_in ++ codes "  dropped 1" ∷ []) }
    ensures lost_by_nothing { TriedJournalPrintsAs wrong_journal_lost_by_nothing
        (wrong_journal_printed_in ++ codes "  lost 1" ∷ []) }
    ensures stuck_beside_a_route { TriedJournalPrintsAs wrong_journal_stuck_beside_route
        (wrong_journal_printed_in ++ codes "  decided 1 v1 rule 100 out:2 authority a part 0"
        ∷ codes "  stuck 1 a no-route" ∷ []) }
    ensures entered_unasked { TriedJournalPrintsAs wrong_journal_entered_unasked (codes "  entered 1 a" ∷ []) }
{}

/// A packet is decided at most once, by the first match and by no other row that matches it. It
/// isn't decided by a version that was retired when it entered, nor by one that was never
/// submitted. Nor is it decided by an old version and then by a new one, nor by the rule of the new
/// one with the old one's action. One that wasn't decided isn't dropped, and a packet leaves only
/// by the port of its decision. It is lost only by its row or by the crash of its switch, isn't
/// stuck if its switch knows a route to a target of its leg, and enters only by a row of the
/// schedule.
#[tactic(auto, using(crate::proofs::WrongJournalNoRuns::another_row_is_no_run, crate::proofs::WrongJournalNoRuns::retired_version_is_no_run, crate::proofs::WrongJournalNoRuns::unknown_version_is_no_run, crate::proofs::WrongJournalNoRuns::decided_twice_is_no_run, crate::proofs::WrongJournalNoRuns::half_and_half_is_no_run, crate::proofs::WrongJournalNoRuns::other_port_is_no_run, crate::proofs::WrongJournalNoRuns::dropped_undecided_is_no_run, crate::proofs::WrongJournalRuns::lost_by_nothing_is_run, crate::proofs::WrongJournalRuns::stuck_beside_a_way_is_run, crate::proofs::WrongJournalRuns::entered_unasked_is_run, crate::proofs::WrongJournalCauses::other_port_has_no_cause, crate::proofs::WrongJournalCauses::lost_by_nothing_has_no_cause, crate::proofs::WrongJournalCauses::stuck_beside_a_way_has_no_cause), unfolding(update_machine::specs::Causes::journal_present_step, update_machine::specs::Links::serves, update_machine::specs::Packets::journal_next_packet))]
pub fn wrong_journals_are_refused()
    ensures no_runs { WrongJournalIsNoRun wrong_journal_another_row × WrongJournalIsNoRun wrong_journal_retired_version × WrongJournalIsNoRun wrong_journal_unknown_version
        × WrongJournalIsNoRun wrong_journal_decided_twice × WrongJournalIsNoRun wrong_journal_half_and_half × WrongJournalIsNoRun wrong_journal_dropped_undecided }
    ensures no_run_nor_caused { WrongJournalLacksRunAndCause wrong_journal_other_port }
    ensures no_causes { WrongJournalLacksCause wrong_journal_lost_by_nothing × WrongJournalLacksCause wrong_journal_stuck_beside_route }
    ensures no_row { WrongJournalLacksRow wrong_journal_entered_unasked }
{}

/// With the right item instead each is right. The packet is dropped by the first match, or leaves
/// by its port. It is decided only by the new version, or by the old one while that isn't retired.
/// It is lost by its row; and it is stuck where the link is down.
#[tactic(auto, using(crate::proofs::WrongJournalRuns::dropped_rightly_is_run, crate::proofs::WrongJournalRuns::left_rightly_is_run, crate::proofs::WrongJournalRuns::updated_rightly_is_run, crate::proofs::WrongJournalRuns::decided_rightly_is_run, crate::proofs::WrongJournalRuns::lost_rightly_is_run, crate::proofs::WrongJournalRuns::stuck_rightly_is_run, crate::proofs::WrongJournalCauses::left_rightly_has_causes, crate::proofs::WrongJournalCauses::stuck_rightly_has_causes), unfolding(update_machine::specs::Causes::journal_present_step, update_machine::specs::Links::serves, update_machine::specs::Packets::journal_next_packet))]
pub fn right_journals_hold()
    ensures { IsRightTriedJournal right_journal_dropped × IsRightTriedJournal right_journal_left × IsRightTriedJournal right_journal_updated
        × IsRightTriedJournal right_journal_decided × IsRightTriedJournal right_journal_lost × IsRightTriedJournal right_journal_stuck }
{}
