//! Laws about the controller, about packets that enter or move on, and about messages.
ghost use Rattle.std.specs.Prelude.{List, ℕ, ◌≡◌, ◌≢◌, ◌+◌, ◌-◌, ◌<◌, ◌++◌, Some, [], ◌∷◌, length, map, IsFalse, IsTrue};
ghost use Rattle.version_update.specs.Marks.{MarksValue, version_marks_with_switch_changed};
ghost use Rattle.version_update.specs.Record.{mark_record_after_over};
ghost use Rattle.ctrl_msg.specs.Kinds.{message_to_controller};
ghost use Rattle.ctrl_msg.specs.declared.message.Body.{Body};
ghost use Rattle.ctrl_msg.specs.declared.message.Message.{Message};
ghost use Rattle.controller.specs.Exports.{ControllerValue, ControllerReplyNamesExist, ControllerPlanValue, ControllerSettlesWith, ControllerSubmitsPlan, controller_current_plan_touched, controller_at_start, controller_hear_acts, controller_marks_after, controller_newest_policy, controller_next_kept_plan, controller_resend_acts, controller_settling_acts, controller_submit_acts};
ghost use Rattle.controller.specs.declared.sends.Act.{Act};
ghost use Rattle.controller.specs.declared.sends.Act.TheVariants.{Post};
ghost use Rattle.ternary.specs.Word.{WordValue};
ghost use Rattle.steps.specs.declared.step.Step.TheVariants.{Confirm, Deliver, Resend, Update};
ghost use Rattle.journal.specs.declared.item.Item.TheVariants.{Row, Delivered, Nothing, OverNow, Refused, Submitted};
ghost use Rattle.update_machine.specs.Exports.{JournalItemsHaveCauses, IsJournalReached, IsMachineSetting, Item, NoMachineItemConcerns, Setting, Step, machine_item_concerns_controller, is_deliverable, is_up, journal_message_of, piece, machine_policy_in, journal_resent_by_controller, machine_send_items, journal_version_count};
ghost use Rattle.control_laws.specs.Exports.{ControlBodiesNameThere, HasControlItemCause, control_asks_controller};
ghost use Rattle.refinement.specs.Exports.{AreMarksRefined, AreRefinedMessagesSpelled, AreRefinedActsWritten, BagsRefine, EntriesRefine, HopsRefine, IsRefinedController, IsNextPlanRefined, refined_plan_to_keep, refined_resend_acts, refined_acts_written};

/// A new controller is as the empty journal says, if its plan is that of version 1.
pub fn refined_controllers_begin()
    ensures { (setting : Setting) (plan : ControllerPlanValue) → plan ≡ (refined_plan_to_keep setting [] 1).plan
        → IsRefinedController setting [] (controller_at_start (length setting.net.switches) plan) }
{}

/// The submission of the next version's plan writes what an update writes; if the marks refuse it,
/// that is the code of the refusal. The newest policy, to which a change is applied, is that of
/// the journal's newest version.
pub fn refined_controllers_submit()
    ensures taken { (setting : Setting) (before : List Item) (row file : ℕ)
        (old new : ControllerValue) (plan : ControllerPlanValue) (touched : List WordValue)
        → JournalItemsHaveCauses (HasControlItemCause setting) [] before → IsRefinedController setting before old
        → IsNextPlanRefined setting before file plan touched → old.marks.count - old.marks.retired ≢ 8
        → old.marks.count ≢ 64 → ControllerSubmitsPlan old (controller_next_kept_plan old plan touched) new
        → AreRefinedActsWritten setting before
        (Row row (Update file) ∷ Submitted file (old.marks.count + 1) ∷ [])
        (controller_submit_acts old.marks (controller_next_kept_plan old plan touched) new) new
        (piece setting before row (Update file)) }
    ensures live { (setting : Setting) (before : List Item) (row file : ℕ)
        (old : ControllerValue) (plan : ControllerPlanValue) (touched : List WordValue)
        → JournalItemsHaveCauses (HasControlItemCause setting) [] before → IsRefinedController setting before old
        → IsNextPlanRefined setting before file plan touched → old.marks.count - old.marks.retired ≡ 8
        → AreRefinedActsWritten setting before (Row row (Update file) ∷ Refused file 16 ∷ []) [] old
        (piece setting before row (Update file)) }
    ensures versions { (setting : Setting) (before : List Item) (row file : ℕ)
        (old : ControllerValue) (plan : ControllerPlanValue) (touched : List WordValue)
        → JournalItemsHaveCauses (HasControlItemCause setting) [] before → IsRefinedController setting before old
        → IsNextPlanRefined setting before file plan touched → old.marks.count - old.marks.retired ≢ 8
        → old.marks.count ≡ 64
        → AreRefinedActsWritten setting before (Row row (Update file) ∷ Refused file 17 ∷ []) [] old
        (piece setting before row (Update file)) }
    ensures newest { (setting : Setting) (before : List Item) (controller : ControllerValue)
        → IsMachineSetting setting → JournalItemsHaveCauses (HasControlItemCause setting) [] before
        → IsRefinedController setting before controller
        → controller_newest_policy controller ≡ machine_policy_in setting before (journal_version_count before) }
{}

/// What the controller does when it hears a message is what the delivery of that message writes.
/// If what messages name exists, what this one names is known to the controller's marks.
pub fn controller_hearing_refines()
    ensures items { (setting : Setting) (before : List Item) (row number : ℕ) (body : Body)
        (old new : ControllerValue)
        → JournalItemsHaveCauses (HasControlItemCause setting) [] before → IsRefinedController setting before old
        → IsTrue (is_deliverable before number)
        → journal_message_of before number ≡ Some (message_to_controller body) → ControllerReplyNamesExist body old.marks
        → ControllerSettlesWith (controller_marks_after body old.marks) old.plans new
        → AreRefinedActsWritten setting before (Row row (Deliver number) ∷ Delivered number ∷ [])
        (controller_hear_acts body old.marks new) new (piece setting before row (Deliver number)) }
    ensures there { (setting : Setting) (journal : List Item) (number : ℕ) (body : Body)
        (marks : MarksValue) → ControlBodiesNameThere setting journal
        → AreMarksRefined setting journal marks
        → journal_message_of journal number ≡ Some (message_to_controller body) → ControllerReplyNamesExist body marks }
{}

/// What the controller does when a switch is confirmed as down is what that step writes.
pub fn refined_controllers_confirm()
    ensures { (setting : Setting) (before : List Item) (row s : ℕ) (old new : ControllerValue)
        → JournalItemsHaveCauses (HasControlItemCause setting) [] before → IsRefinedController setting before old
        → IsFalse (is_up before s) → s < length old.marks.switches
        → ControllerSettlesWith (version_marks_with_switch_changed s mark_record_after_over old.marks) old.plans new
        → AreRefinedActsWritten setting before (Row row (Confirm s) ∷ OverNow s ∷ [])
        (controller_settling_acts (controller_current_plan_touched new) (version_marks_with_switch_changed s mark_record_after_over old.marks) new.marks) new
        (piece setting before row (Confirm s)) }
{}

/// What a controller sends again is what the journal says that it sends again. A resend writes
/// that after what the switch itself sends again, or `Nothing` if both send nothing.
pub fn refined_controllers_resend()
    ensures messages { (setting : Setting) (journal : List Item) (s : ℕ)
        (controller : ControllerValue) → JournalItemsHaveCauses (HasControlItemCause setting) [] journal
        → IsRefinedController setting journal controller → s < length controller.marks.switches
        → controller_resend_acts controller s ≡ map Post (journal_resent_by_controller setting journal s) }
    ensures nothing { (setting : Setting) (before : List Item) (row s : ℕ)
        (controller : ControllerValue) → JournalItemsHaveCauses (HasControlItemCause setting) [] before
        → IsRefinedController setting before controller → s < length controller.marks.switches
        → refined_resend_acts setting (before ++ Row row (Resend s) ∷ []) s controller ≡ []
        → AreRefinedActsWritten setting before (Row row (Resend s) ∷ Nothing ∷ []) [] controller
        (piece setting before row (Resend s)) }
    ensures some { (setting : Setting) (before : List Item) (row s : ℕ)
        (controller : ControllerValue) → JournalItemsHaveCauses (HasControlItemCause setting) [] before
        → IsRefinedController setting before controller → s < length controller.marks.switches
        → refined_resend_acts setting (before ++ Row row (Resend s) ∷ []) s controller ≢ []
        → AreRefinedActsWritten setting before (Row row (Resend s) ∷ [])
        (refined_resend_acts setting (before ++ Row row (Resend s) ∷ []) s controller) controller
        (piece setting before row (Resend s)) }
{}

/// Items that don't concern the controller change neither its marks nor its plans; nor do steps,
/// except for a delivery to it, an update and a confirmation.
pub fn others_leave_controllers()
    ensures items { (setting : Setting) (before items : List Item) (controller : ControllerValue)
        → JournalItemsHaveCauses (HasControlItemCause setting) [] before
        → NoMachineItemConcerns machine_item_concerns_controller before items
        → IsRefinedController setting before controller
        → IsRefinedController setting (before ++ items) controller }
    ensures steps { (setting : Setting) (before : List Item) (row : ℕ) (step : Step)
        (controller : ControllerValue) → JournalItemsHaveCauses (HasControlItemCause setting) [] before
        → IsFalse (control_asks_controller before step) → IsRefinedController setting before controller
        → IsRefinedController setting (before ++ piece setting before row step) controller }
{}

/// The acts of a list write their items in order, and messages as acts write that they are sent.
pub fn acts_write_in_turn()
    ensures parts { (journal : List Item) (first later : List Act)
        → refined_acts_written journal (first ++ later)
        ≡ refined_acts_written journal first ++ refined_acts_written (journal ++ refined_acts_written journal first)
        later }
    ensures messages { (messages : List Message) (journal : List Item)
        → refined_acts_written journal (map Post messages) ≡ machine_send_items journal messages }
{}

/// A packet enters at a switch that is as the journal says: the call may be made, and its result
/// is what the step writes. The packet is then where the result leaves it, and no other moves.
pub fn refined_packets_come_in()
    ensures { EntriesRefine }
{}

/// A packet on its way moves on from where it is, or is at the end of its route: the calls of its
/// switch may be made, and their results are what the step writes. The packet is then where they
/// leave it, and no other packet moves.
pub fn packet_hops_refine()
    ensures { HopsRefine }
{}

/// The posts of a bag are the messages of the journal, as messages are sent, delivered and
/// forgotten, and whatever else happens.
pub fn refined_messages_are_kept()
    ensures { BagsRefine }
{}

/// Each message that was sent in a network names switches below 64 and carries short lists, and
/// its receiver suits its body: so it has an encoding, which is short enough for frames.
pub fn refined_messages_have_spellings()
    ensures { (setting : Setting) (journal : List Item) → IsMachineSetting setting
        → IsJournalReached setting journal → AreRefinedMessagesSpelled journal }
{}
