//! Laws about packets on their way, cache rules, drains, flushes and plays.
ghost use Rattle.std.specs.Prelude.{[], All, ◌≡◌, ◌++◌, ◌*◌, ◌-◌, ◌<◌, ◌≤◌, Some, List, length, ℕ, Option};
ghost use Rattle.steps.specs.Steps.{IsEventOfSteps};
ghost use Rattle.steps.specs.declared.step.Step.TheVariants.{Deliver, Hop};
ghost use Rattle.update_machine.specs.Exports.{Answers, AreAllMachineEventSteps, AreFirstMachineEventSteps, Event, HasMachineCause, HasMachinePlay, JournalItemsHaveCauses, IsMachinePlay, IsJournalReached, IsMachineRun, IsMachineSetting, Item, Setting, MachineStepOfRow, journal_current_mark, most_journal_versions, journal_next_delivery, journal_next_hop, journal_next_packet, next_travelling, next_waiting, piece};
ghost use Rattle.control_laws.specs.Always.{ControlLawHoldsReached};
ghost use Rattle.packet_laws.specs.Exports.{AllPacketFactsKept, ArePacketRowsEntered, ArePacketsResting, ChangesLeaveOtherPackets, PacketLawGoesOrStops, PacketLawHoldsBetween, PacketLawsKeepVersionsWhole, PacketsArrive, PacketsTravel, PacketRulesAreRight, UntouchedPacketCacheRulesStay, PacketStrongCause, HasPacketItemCause, packet_detour_count, packet_drain_left, packet_exit_count, packet_finding_count, packet_route_hops, packet_hops_taken, most_packet_hops, most_packet_routes, most_packet_route_switches, packet_routes_taken, packet_law_rows_played, packet_search_count, packet_law_step_rows};

use control_laws::{
    acknowledgements_hold, boots_are_known, control_items_have_causes,
    control_knows_serving_switches, control_serving_holds_versions, control_stamps_say_touched,
    control_tables_are_planned, marks_are_bounded, members_have_acknowledged,
    stamps_are_acked_first, switches_open_once,
};
use policy_rules::amendment_laws;

/// Each item of packets, and each cache rule that is sent, has its cause earlier in the journal,
/// for steps of all kinds.
pub fn packet_items_have_causes()
    ensures { ControlLawHoldsReached (λ setting journal.
        IsMachineSetting setting → JournalItemsHaveCauses (HasPacketItemCause setting) [] journal) }
{}

/// Between steps each travelling packet is on its way, at a switch that serves: those that were at
/// a switch that crashed are lost with it.
pub fn packets_rest()
    ensures { PacketLawHoldsBetween (λ setting journal. IsMachineSetting setting → ArePacketsResting journal) }
{}

/// Each item keeps the invariants of each packet on its way, in whatever stage the packet is, and
/// keeps each cache rule right.
pub fn items_keep_packets()
    ensures { ControlLawHoldsReached (λ setting journal. IsMachineSetting setting → AllPacketFactsKept setting journal) }
{}

/// Between steps a travelling packet is at a serving switch, and its route leads to a target of its
/// leg, over no link that it found down. Its version wasn't retired when it entered, and is at most
/// the current one. Each switch that serves has that version or stamps with a greater one.
pub fn packets_travel()
    ensures { PacketLawHoldsBetween (λ setting journal. IsMachineSetting setting → PacketsTravel setting journal) }
{}

/// A packet at the end of its route, also of one that it took in the middle of a step, is where
/// its leg leads: at a target of its partition, or at the switch of its port.
pub fn packets_arrive()
    ensures { ControlLawHoldsReached (λ setting journal. IsMachineSetting setting → PacketsArrive setting journal) }
{}

/// Each cache rule that was sent, and each that a switch caches, is of a version that is at most
/// the current one, and decides each header of its word as this version's policy does.
pub fn cache_rules_are_right()
    ensures { ControlLawHoldsReached (λ setting journal. IsMachineSetting setting → PacketRulesAreRight setting journal) }
{}

/// When a `Stamp` message raises a switch to the version that an amendment made, the entries of the
/// version before stay in the cache if their word overlaps no touched word. Each stays under the
/// new version, of the same message and in its place in the order; only if an entry of that version
/// has its word already, that one stays instead. It then decides as that version's policy does.
pub fn packet_untouched_rules_stay()
    ensures { ControlLawHoldsReached (λ setting journal. IsMachineSetting setting → UntouchedPacketCacheRulesStay setting journal) }
{}

/// An amendment changes only what it touches: a header that no removed and no added row matches
/// has the same first match under both versions, and each packet with this header that either of
/// them decided got that match.
pub fn changes_leave_other_packets()
    ensures { ControlLawHoldsReached (λ setting journal.
        IsMachineSetting setting → ChangesLeaveOtherPackets setting journal) }
{
    amendment_laws();
}

/// The ends of packets, the links that they found down, the changes of switches and links, and the
/// versions that are submitted, have their causes.
pub fn ends_have_causes()
    ensures { ControlLawHoldsReached (λ setting journal.
        IsMachineSetting setting → JournalItemsHaveCauses (HasMachineCause setting) [] journal) }
{}

/// The journal is a run of the machine: each packet is decided at most once, by the first match of
/// one whole version that wasn't retired when it entered. It is dropped, or leaves, only as it was
/// decided.
pub fn answers_are_runs()
    ensures { ControlLawHoldsReached (λ setting journal. IsMachineSetting setting → IsMachineRun setting journal) }
{}

/// The items' causes are so strong that the headline is true of a run with them if its rows are the
/// schedule's. A packet that is stuck on its way to an authority is undecided, and its version
/// wasn't retired when it entered and is at most the current one; the same is true of the version
/// of each decision. Links found down are links of the network; packets enter, and are lost, by the
/// row of the step that is taken.
pub fn causes_are_strong()
    ensures { ControlLawHoldsReached (λ setting journal.
        IsMachineSetting setting → JournalItemsHaveCauses (PacketStrongCause setting) [] journal) }
{}

/// A packet takes few routes: at most as many to authority switches as there are versions, which
/// are at most 64; one to its port; and as many around links that it found down as the network has
/// links. So it takes at most 321 routes.
pub fn packets_take_few_routes()
    ensures raised { ControlLawHoldsReached (λ setting journal. IsMachineSetting setting
        → (i : ℕ) → packet_search_count journal i ≤ journal_current_mark journal) }
    ensures searched { ControlLawHoldsReached (λ setting journal. IsMachineSetting setting
        → (i : ℕ) → packet_search_count journal i ≤ most_journal_versions) }
    ensures exited { ControlLawHoldsReached (λ setting journal. IsMachineSetting setting
        → (i : ℕ) → packet_exit_count journal i ≤ 1) }
    ensures detoured { ControlLawHoldsReached (λ setting journal. IsMachineSetting setting
        → (i : ℕ) → packet_detour_count journal i ≤ length setting.net.links) }
    ensures found { ControlLawHoldsReached (λ setting journal. IsMachineSetting setting
        → (i : ℕ) → packet_finding_count journal i ≤ length setting.net.links) }
    ensures few { ControlLawHoldsReached (λ setting journal. IsMachineSetting setting
        → (i : ℕ) → packet_routes_taken journal i ≤ most_packet_routes) }
{}

/// While it travels a packet takes at most 64 hops on each route, and so at most 20,544 hops.
pub fn packets_take_few_hops()
    ensures on_each { ControlLawHoldsReached (λ setting journal. IsMachineSetting setting
        → (i : ℕ) → packet_route_hops journal i ≤ most_packet_route_switches) }
    ensures by_routes { ControlLawHoldsReached (λ setting journal. IsMachineSetting setting
        → (i : ℕ) → packet_hops_taken journal i ≤ most_packet_route_switches * packet_routes_taken journal i) }
    ensures few { ControlLawHoldsReached (λ setting journal. IsMachineSetting setting
        → (i : ℕ) → packet_hops_taken journal i ≤ most_packet_hops) }
{}

/// A drain ends, after any steps of the network: each hop of the travelling packet with the least
/// number leaves fewer hops to take. So the drain takes all its hops, at most 20,544 for each
/// packet that entered.
pub fn packet_drains_end()
    ensures fewer { (setting : Setting) (journal : List Item) (row i : ℕ)
        → IsMachineSetting setting → IsJournalReached setting journal → next_travelling journal ≡ Some i
        → packet_drain_left (journal ++ piece setting journal row (Hop i)) < packet_drain_left journal }
    ensures ends { (setting : Setting) (journal : List Item) (row : ℕ)
        → IsMachineSetting setting → IsJournalReached setting journal
        → (steps : List MachineStepOfRow) × AreAllMachineEventSteps setting journal_next_hop row journal steps }
    ensures short { (setting : Setting) (journal : List Item) (row : ℕ) (steps : List MachineStepOfRow)
        → IsMachineSetting setting → IsJournalReached setting journal
        → AreFirstMachineEventSteps setting journal_next_hop row journal steps
        → length steps ≤ most_packet_hops * (journal_next_packet journal - 1) }
{}

/// In a flush each message that is delivered has a greater number than the one before it, whatever
/// these deliveries send.
pub fn deliveries_rise()
    ensures { (setting : Setting) (journal : List Item) (row n m : ℕ)
        → next_waiting journal ≡ Some n
        → next_waiting (journal ++ piece setting journal row (Deliver n)) ≡ Some m → n < m }
{}

/// In a play a flush makes all its deliveries, or stops before one that would find a full journal.
pub fn flushes_end()
    ensures { (setting : Setting) (journal : List Item) (row : ℕ)
        → PacketLawGoesOrStops setting journal_next_delivery row journal }
{}

/// Each list of events of a network has a play: its answer, or the steps before the first one that
/// would begin with a full journal.
pub fn plays_exist()
    ensures { (setting : Setting) (events : List Event) → IsMachineSetting setting
        → All (IsEventOfSteps setting.net (length setting.files)) events → HasMachinePlay setting events }
{}

/// The rows of a play's journal are those of its events that were played, in order, except for hops
/// and deliveries, which drains and flushes cause too. Right after each packet row is what became
/// of the packet, under the next number. If that switch serves, it entered there with that header;
/// if not, it is closed. No other packet enters or is closed.
pub fn packet_rows_are_entered()
    ensures { (setting : Setting) (events : List Event) (journal : List Item)
        (full : Option ℕ) → IsMachinePlay setting events journal full
        → ArePacketRowsEntered (packet_law_rows_played full events) journal }
{}

/// The same is true of each journal that answers the events, however many messages were sent.
pub fn answered_rows_are_entered()
    ensures { (setting : Setting) (events : List Event) (journal : List Item)
        → Answers setting events journal → ArePacketRowsEntered (packet_law_step_rows 1 events) journal }
{}

/// At each moment, within a step too, what is known of boots, versions and marks is right; each
/// switch that serves has the version that it stamps with; each cache rule decides as its version
/// does. An amendment changes no decision of a header that it doesn't touch. When a `Stamp` raises
/// a switch to the very next version, its cache keeps the rules that the amendment doesn't touch,
/// unless an entry of that version already has the rule's word.
pub fn packets_keep_versions_whole()
    ensures { ControlLawHoldsReached (λ setting journal.
        IsMachineSetting setting → PacketLawsKeepVersionsWhole setting journal) }
{
    control_items_have_causes();
    boots_are_known();
    switches_open_once();
    control_knows_serving_switches();
    acknowledgements_hold();
    stamps_are_acked_first();
    members_have_acknowledged();
    control_tables_are_planned();
    marks_are_bounded();
    control_serving_holds_versions();
    control_stamps_say_touched();
    cache_rules_are_right();
    packet_untouched_rules_stay();
    changes_leave_other_packets();
}
