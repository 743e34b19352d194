//! What ties the code to the definitions: what each kind of step does to all that a world has.
//!
//! Its switches, the packets on their way, the messages, the controller and the links are what the
//! journal says (`RefineJournal`), and they are again after the items of the step. The laws say
//! what each call of a switch adds to the journal, and that it may be made. They give the acts of
//! the controller as items one after another, and what a switch returns for a packet as the items
//! of its step. They also say that each message that is sent has a short encoding, and that there
//! is room for this many messages. No code: each function is the law that it ensures.
#![tactic(auto)]

mod switch_laws;
mod world_laws;

pub use switch_laws::{
    links_change_switches, refined_calls_are_counted, refined_calls_may_be_made,
    refined_messages_are_heard, switch_knowledge_refines, switch_lives_refine,
};
pub use world_laws::{
    acts_write_in_turn, controller_hearing_refines, others_leave_controllers, packet_hops_refine,
    refined_controllers_begin, refined_controllers_confirm, refined_controllers_resend,
    refined_controllers_submit, refined_messages_are_kept, refined_messages_have_spellings,
    refined_packets_come_in,
};
