//! What the controller and the switches send each other, whatever steps are taken: boots,
//! versions, marks and adverts.
//!
//! Which earlier item causes each item of switches and their controller, and what switches
//! acknowledged and keep. How the marks bound each other, and when they rise. What adverts say of
//! the network's links. How many messages steps send, and how far boots and the numbers of adverts
//! rise. And, over journals of steps of a network, what messages name.
//!
//! Laws over journals of any steps. No code: each function is the law that it ensures.
#![tactic(auto)]

mod advert_laws;
mod version_laws;

pub use advert_laws::{
    adverts_are_of_switches, adverts_name_links, control_numbers_are_few, control_numbers_fit,
    own_adverts_are_newest, steps_send_few_control_messages,
};
pub use version_laws::{
    acknowledgements_hold, boots_are_known, control_bodies_name_what_exists,
    control_current_rises_rightly, control_items_have_causes, control_knows_serving_switches,
    control_retired_stays_behind, control_serving_holds_versions, control_stamps_say_touched,
    control_tables_are_planned, installs_are_planned, marks_are_bounded, marks_settle,
    members_have_acknowledged, only_control_steps_change_controller, stamps_are_acked_first,
    switches_open_once, versions_are_numbered, versions_are_planned,
};
