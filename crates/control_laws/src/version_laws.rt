//! Laws about boots, versions, tables and marks.
ghost use Rattle.std.specs.Prelude.{[], ℕ, ◌++◌, ◌≤◌, List, IsFalse};
ghost use Rattle.net_file.specs.Net.{IsNet};
ghost use Rattle.update_machine.specs.Exports.{AreMachineMarksSettled, JournalControllerKeeps, JournalItemsHaveCauses, Item, Setting, Step, JournalVersionsAreNumbered, journal_next_retired, piece, journal_retired_mark};
ghost use Rattle.control_laws.specs.Exports.{ControlAcksHold, ControlBodiesNameThere, ControlBootsArePast, HasControlItemCause, ControlLawHoldsAlways, ControlLawHoldsAtEnds, ControlLawHoldsReached, ControlInstallsArePlanned, IsControlAckedFirst, ControlMarksAreBounded, ControlMembersAcknowledged, ControlOpeningMessagesNameOneVersion, ControlMarkRiseHasCause, ControlServingHoldVersions, ControlServingIsKnown, ControlStampsSayTouched, ControlTablesArePlanned, ControlVersionsArePlanned, control_asks_controller};

/// Each item of switches and their controller has its cause in the journal before it.
pub fn control_items_have_causes()
    ensures { ControlLawHoldsAlways (λ setting journal. JournalItemsHaveCauses (HasControlItemCause setting) [] journal) }
{}

/// The versions that exist are those from 1 to their count.
pub fn versions_are_numbered()
    ensures { ControlLawHoldsAlways (λ setting journal. JournalVersionsAreNumbered journal) }
{}

/// The boot that the controller knows of a switch is at most its own. A message to the switch
/// carries at most the known boot, and one from it at most its own.
pub fn boots_are_known()
    ensures { ControlLawHoldsAlways (λ setting journal. ControlBootsArePast journal) }
{}

/// All messages that open a switch in one of its boots carry the same version.
pub fn switches_open_once()
    ensures { ControlLawHoldsAlways (λ setting journal. ControlOpeningMessagesNameOneVersion journal) }
{}

/// A switch that serves is up and a member, and the controller knows its boot; a switch that is up
/// and whose boot is known isn't over.
pub fn control_knows_serving_switches()
    ensures { ControlLawHoldsAlways (λ setting journal. ControlServingIsKnown journal) }
{}

/// While a switch is up, it heard in its boot all tables that it acknowledged in that boot, and
/// its stamp is at least each one that it acknowledged in that boot.
pub fn acknowledgements_hold()
    ensures { ControlLawHoldsAlways (λ setting journal. (s : ℕ) → ControlAcksHold journal s) }
{}

/// The tables that are sent to a switch are those that a version's plan gives it.
pub fn installs_are_planned()
    ensures { ControlLawHoldsAlways (λ setting journal. ControlInstallsArePlanned setting journal) }
{}

/// A switch is told to stamp with a version only after it acknowledged that version's tables in
/// its boot, and only if the version is at most the current one.
pub fn stamps_are_acked_first()
    ensures { ControlLawHoldsAlways (λ setting journal. JournalItemsHaveCauses (IsControlAckedFirst setting) [] journal) }
{}

/// A member acknowledged each version from the one at which it was opened to the current one, and
/// the stamp of a switch that serves is at least the one that the controller knows.
pub fn members_have_acknowledged()
    ensures { ControlLawHoldsAlways (λ setting journal. ControlMembersAcknowledged setting journal) }
{}

/// A switch that is told to stamp with a version also gets what that version's change touches: the
/// words of the rows that it removes and adds, as the journal has them.
pub fn control_stamps_say_touched()
    ensures { ControlLawHoldsAlways (λ setting journal. ControlStampsSayTouched setting journal) }
{}

/// The current version exists; retired versions are below it and below each member's acknowledged
/// stamp; a member is told to drop only versions below its own; no stamp is above current.
pub fn marks_are_bounded()
    ensures { ControlLawHoldsAlways (λ setting journal. ControlMarksAreBounded setting journal) }
{}

/// A switch that serves has the version with which it stamps, and each version up to the current
/// one that isn't below its stamp; its stamp is above all that is retired, and at most current.
pub fn control_serving_holds_versions()
    ensures { ControlLawHoldsAlways (λ setting journal. ControlServingHoldVersions setting journal) }
{}

/// At most 64 versions exist, at most eight of them not retired; each has a plan if version 1 has.
pub fn versions_are_planned()
    ensures { ControlLawHoldsAlways (λ setting journal. ControlVersionsArePlanned setting journal) }
{}

/// The tables that a switch was sent, and those that it heard, are those that their version's plan
/// gives it, however the journal continues; each version that it has exists.
pub fn control_tables_are_planned()
    ensures { ControlLawHoldsAlways (λ setting journal. ControlTablesArePlanned setting journal) }
{}

/// Each message that was sent goes to a switch of the network, or from one to the controller, and
/// its version exists; the same is true of what switches and the controller heard.
pub fn control_bodies_name_what_exists()
    ensures { ControlLawHoldsReached (λ setting journal.
        IsNet setting.net → ControlBodiesNameThere setting journal) }
{}

/// The current mark rises only to a version that exists, and only when each member has
/// acknowledged every version above the old mark up to it.
pub fn control_current_rises_rightly()
    ensures { ControlLawHoldsAlways (λ setting journal. JournalItemsHaveCauses (ControlMarkRiseHasCause setting) [] journal) }
{}

/// The retired mark is never above what the members' acknowledged stamps allow, not even in the
/// middle of a step.
pub fn control_retired_stays_behind()
    ensures { ControlLawHoldsAlways (λ setting journal.
        journal_retired_mark journal ≤ journal_next_retired setting journal) }
{}

/// What the controller knows changes in only three kinds of steps: a delivery to it, an update,
/// and the confirmation that a switch is over.
pub fn only_control_steps_change_controller()
    ensures { (setting : Setting) (journal : List Item) (row : ℕ) (step : Step)
        → IsFalse (control_asks_controller journal step)
        → JournalControllerKeeps journal (journal ++ piece setting journal row step) }
{}

/// At the end of each step the marks are settled: no version above the current one is acknowledged
/// by all members, no joining switch acknowledged the current one, and retired is as far as the
/// members' stamps allow.
pub fn marks_settle()
    ensures { ControlLawHoldsAtEnds (λ setting journal. AreMachineMarksSettled setting journal) }
{}
