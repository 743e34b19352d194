//! What is true in a quiet network, and if all neighbours agree: laws over journals of any steps.
//!
//! No code: each function is the law that it ensures.
#![tactic(auto)]

mod laws;

pub use laws::{
    agreeing_networks_have_converged, convergence_finished_networks_are_quiet,
    flushed_networks_have_converged, news_spreads, quiet_neighbours_agree,
    quiet_networks_are_updated, quiet_networks_have_converged, stuck_apart_when_neighbours_agree,
};
