//! Laws about journals: functions without a body, with contracts about the definitions only.
ghost use Rattle.std.specs.Prelude.{◌≡◌, ◌+◌, ◌++◌, ◌↔◌, ◌≤◌, ℕ, Bool, Option, Some, Ok, List, [], ◌∷◌, length, map, All, IsTrue};
ghost use Rattle.std.specs.Option.{option_or};
ghost use Rattle.policy_rules.specs.Policy.{IsPolicy};
ghost use Rattle.policy_rules.specs.declared.file.PolicyFile.TheVariants.{Whole};
ghost use Rattle.policy_rules.specs.declared.policy.Row.{Row};
ghost use Rattle.journal.specs.declared.item.Item.TheVariants.{Submitted};
ghost use Rattle.steps.specs.declared.step.Event.TheVariants.{One};
ghost use Rattle.update_machine.specs.Exports.{Answers, JournalAnswersSoFar, AreAnsweredByJournal, AreJournalNumbersWithoutGap, AreMachineStepsOf, JournalBeginsAnswer, JournalConcernLaws, Event, HasMachinePlay, HaveMachineSteps, IsMachineJournalFull, IsMachinePlay, IsMachineSetting, Item, JournalKnownLinkLaws, NamesMachineSettingPort, Setting, MachineStartLaws, Step, MachineStepOfRow, JournalStopsFull, JournalVersionsAreNumbered, journal_after_steps, machine_file_at, machine_journal_full_at, is_machine_sending_item, is_journal_version, machine_hosted_or_none, journal_next_policy, journal_plan_at, machine_policy_at, machine_policy_in, journal_version_count};
ghost use Rattle.update_machine.specs.Folds.{journal_all_given, machine_count_of, journal_folded_value, folded_journal_from, journal_last_given};
ghost use Rattle.update_machine.specs.Setting.{journal_first_given};
ghost use Rattle.update_machine.specs.declared.full.TheConstants.{FULL_AT};

/// What a journal says after more items: a law for each of the folds, whatever an item says.
#[tactic(auto, using(crate::proofs::JournalBlockNumbers::last_given_append, crate::proofs::JournalBlockNumbers::first_given_append, crate::proofs::JournalBlockNumbers::folded_append))]
pub fn machine_journals_grow<X>()
    ensures last { (tells : Item → Option X) (before items : List Item)
        → journal_last_given tells (before ++ items)
        ≡ option_or (journal_last_given tells items) (journal_last_given tells before) }
    ensures first { (tells : Item → Option X) (before items : List Item)
        → journal_first_given tells (before ++ items)
        ≡ option_or (journal_first_given tells before) (journal_first_given tells items) }
    ensures count { (test : Item → Bool) (before items : List Item)
        → machine_count_of test (before ++ items) ≡ machine_count_of test before + machine_count_of test items }
    ensures given { (gives : Item → List X) (before items : List Item)
        → journal_all_given gives (before ++ items) ≡ journal_all_given gives before ++ journal_all_given gives items }
    ensures fold { (changes : List Item → X → Item → X) (start : X) (before items : List Item)
        → journal_folded_value changes start (before ++ items)
        ≡ folded_journal_from changes before (journal_folded_value changes start before) items }
{}

/// A schedule has at most one answer, and for each number of steps at most one journal of its first
/// steps. An answer is such a journal, and each such journal is a beginning of an answer.
pub fn machine_answers_are_one()
    ensures one { (setting : Setting) (events : List Event) (one other : List Item)
        → Answers setting events one → Answers setting events other → one ≡ other }
    ensures so_far { (setting : Setting) (events : List Event) (one other : List Item)
        (first : JournalAnswersSoFar setting events one) (second : JournalAnswersSoFar setting events other)
        → length first.steps ≡ length second.steps → one ≡ other }
    ensures whole { (setting : Setting) (events : List Event) (journal : List Item)
        → Answers setting events journal → JournalAnswersSoFar setting events journal }
    ensures begins { (setting : Setting) (events : List Event) (journal : List Item)
        → JournalAnswersSoFar setting events journal → JournalBeginsAnswer setting events journal }
{}

/// A schedule has an answer exactly if each of its events has all its steps, so if its flushes and
/// drains end. One of single steps always has one. The steps of one more event continue an answer.
pub fn answers_exist()
    ensures exactly { (setting : Setting) (events : List Event)
        → AreAnsweredByJournal setting events ↔ HaveMachineSteps setting events }
    ensures single { (setting : Setting) (steps : List Step) → AreAnsweredByJournal setting (map One steps) }
    ensures goes_on { (setting : Setting) (events : List Event) (event : Event)
        (journal : List Item) (steps : List MachineStepOfRow) → Answers setting events journal
        → AreMachineStepsOf setting (length events + 1) event journal steps
        → Answers setting (events ++ event ∷ []) (journal_after_steps setting journal steps) }
{}

/// A schedule has at most one play, and one if it has an answer: if a play stops full, no other one
/// continues or stops elsewhere. The journal of a play that stops is that of its first steps, so it
/// is a beginning of an answer. A journal is full exactly if it has at least `FULL_AT` items of
/// sent messages.
pub fn plays_are_one()
    ensures one { (setting : Setting) (events : List Event) (one other : List Item)
        (stop halt : Option ℕ) → IsMachinePlay setting events one stop → IsMachinePlay setting events other halt
        → (one ≡ other) × (stop ≡ halt) }
    ensures some { (setting : Setting) (events : List Event)
        → AreAnsweredByJournal setting events → HasMachinePlay setting events }
    ensures so_far { (setting : Setting) (events : List Event) (journal : List Item) (row : ℕ)
        → JournalStopsFull setting events journal row → JournalAnswersSoFar setting events journal }
    ensures begins { (setting : Setting) (events : List Event) (journal : List Item) (row : ℕ)
        → JournalStopsFull setting events journal row → JournalBeginsAnswer setting events journal }
    ensures full { (journal : List Item) → IsMachineJournalFull journal ↔ machine_journal_full_at ≤ machine_count_of is_machine_sending_item journal }
    ensures constant { FULL_AT ≡ machine_journal_full_at }
{}

/// In an answer, and in each beginning of one, packets, messages and versions are numbered from 1
/// without a gap.
pub fn machine_answers_are_numbered()
    ensures { (setting : Setting) (events : List Event) (journal : List Item)
        → JournalBeginsAnswer setting events journal → AreJournalNumbersWithoutGap journal }
{}

/// A version that exists keeps its file whatever items follow, and it keeps its policy and its plan
/// if all versions before it exist; in an answer each version from 1 to their count exists
/// (`machine_answers_are_numbered`). The plan is that of the policy. The first version has the
/// policy of the first file, and the version that is submitted next has the next policy: what its
/// file makes of the policy of the newest version. If the setting satisfies `IsMachineSetting`,
/// each policy satisfies `IsPolicy` and names only ports of the network.
pub fn machine_versions_keep_policies()
    ensures there { (before items : List Item) (version : ℕ) → IsTrue (is_journal_version before version)
        → IsTrue (is_journal_version (before ++ items) version) }
    ensures policy { (setting : Setting) (before items : List Item) (version : ℕ)
        → JournalVersionsAreNumbered before → version ≤ journal_version_count before
        → machine_policy_at setting (before ++ items) version ≡ machine_policy_at setting before version }
    ensures plan { (setting : Setting) (before items : List Item) (version : ℕ)
        → JournalVersionsAreNumbered before → version ≤ journal_version_count before
        → journal_plan_at setting (before ++ items) version ≡ journal_plan_at setting before version }
    ensures of_policy { (setting : Setting) (journal : List Item) (version : ℕ) (rows : List Row)
        → machine_policy_in setting journal version ≡ Some rows
        → (machine_policy_at setting journal version ≡ rows)
        × (journal_plan_at setting journal version ≡ machine_hosted_or_none (setting.plan rows)) }
    ensures first { (setting : Setting) (journal : List Item) (rows : List Row)
        → machine_file_at setting 1 ≡ Some (Whole rows) → (machine_policy_at setting journal 1 ≡ rows)
        × (journal_plan_at setting journal 1 ≡ machine_hosted_or_none (setting.plan rows)) }
    ensures next { (setting : Setting) (before : List Item) (file version : ℕ) (rows : List Row)
        → JournalVersionsAreNumbered before → version ≡ journal_version_count before + 1
        → journal_next_policy setting before file ≡ Ok rows
        → (machine_policy_at setting (before ++ Submitted file version ∷ []) version ≡ rows)
        × (journal_plan_at setting (before ++ Submitted file version ∷ []) version
        ≡ machine_hosted_or_none (setting.plan rows)) }
    ensures own { (setting : Setting) (journal : List Item) (version : ℕ) → IsMachineSetting setting
        → IsPolicy (machine_policy_at setting journal version)
        × All (λ row. NamesMachineSettingPort setting row.action) (machine_policy_at setting journal version) }
{}

/// What a journal without items says.
pub fn journals_start()
    ensures { MachineStartLaws }
{}

/// Items that don't concern a switch, a packet, a message, the links, the policies or the
/// controller don't change what a journal says of it.
pub fn other_items_change_nothing()
    ensures { JournalConcernLaws }
{}

/// A switch knows the newest advert of each other switch, and routes by the least shortest path
/// over the links that it knows. A target is isolated exactly if it is another switch and no known
/// link ends at it. There is no route to a port that no switch has.
pub fn machine_switches_know_links()
    ensures { JournalKnownLinkLaws }
{}
