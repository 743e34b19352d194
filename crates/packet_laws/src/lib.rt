//! Packets on their way, and the cache rules that they bring: each journal is a run of the
//! machine, what ends packets has its cause, and the packets that entered are those of the
//! schedule's packet rows. A packet takes few routes and few hops, drains and flushes end, and
//! each list of events has a play. And what every item keeps during an update, all of it in one
//! law (Reitblatt, Foster, Rexford, Schlesinger and Walker, "Abstractions for Network Update"). So
//! no packet is decided by half of an old version and half of a new one, whatever fails.
//!
//! Laws over journals of steps of all kinds. No code: each function is the law that it ensures.
#![tactic(auto)]

mod laws;
mod packet_cause_laws;

pub use laws::{
    answered_rows_are_entered, answers_are_runs, cache_rules_are_right, causes_are_strong,
    changes_leave_other_packets, deliveries_rise, ends_have_causes, flushes_end,
    items_keep_packets, packet_drains_end, packet_items_have_causes, packet_rows_are_entered,
    packet_untouched_rules_stay, packets_arrive, packets_keep_versions_whole, packets_rest,
    packets_take_few_hops, packets_take_few_routes, packets_travel, plays_exist,
};
pub use packet_cause_laws::{
    packet_journals_hold_so_far, packet_plays_held_on_way, packet_steps_are_kept,
};
