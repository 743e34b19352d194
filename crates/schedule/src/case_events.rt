ghost use Rattle.std.specs.Prelude.{◌≡◌, ◌++◌, ◌<◌, ◌^◌, IfOk, OnOk};
ghost use Rattle.schedule.specs.Case.{load_case_address_at, load_case_draw_state_after, load_case_change_events, load_case_groups_from, load_case_header_drawn, load_case_packet_drawn};

use crate::draws::{CaseDraws, address};
use five_tuple::{Fields, Header};
use std::alloc::{AllocError, Global};
use steps::{Event, Step};

/// The events of a case: this many packets, an update and a link that fails, each with a flush, and
/// as many packets again.
///
/// # Errors
/// Only out of memory.
pub fn events(alloc: Global, draws: &mut CaseDraws, half: u32) -> Result<Vec<Event>, AllocError>
    ensures { IfOk result (λ events.
        let early = load_case_groups_from half draws.old.state in
        events.items ≡ early.0 ++ load_case_change_events ++ (load_case_groups_from half early.1).0) }
{
    let mut events = Vec::new(alloc);
    push_load_case_groups(&mut events, draws, half)?;
    events.push(Event::One(Step::Update { file: 2 }))?;
    events.push(Event::Flush)?;
    events.push(Event::One(Step::LinkDown { one: 0, two: 1 }))?;
    events.push(Event::Flush)?;
    push_load_case_groups(&mut events, draws, half)?;
    Ok(events)
}

// Adds this many packets, each drained and flushed before the next one enters.
#[tactic(auto, using(crate::proofs::LoadCaseDraws::groups_more))]
fn push_load_case_groups(
    events: &mut Vec<Event>,
    draws: &mut CaseDraws,
    count: u32,
) -> Result<(), AllocError>
    ensures { OnOk result (
        (events.new.items ≡ events.old.items ++ (load_case_groups_from count draws.old.state).0)
        × (draws.new.state ≡ (load_case_groups_from count draws.old.state).1)) }
{
    for _k in 0..count {
        let packet = draw_packet(draws);
        events.push(Event::One(packet))?;
        events.push(Event::Drain)?;
        events.push(Event::Flush)?;
    }
    Ok(())
}

fn draw_packet(draws: &mut CaseDraws) -> Step
    ensures packet { result ≡ load_case_packet_drawn draws.old.state }
    ensures state { draws.new.state ≡ load_case_draw_state_after 9 draws.old.state }
{
    let switch = draws.below(8);
    let header = draw_header(draws);
    Step::Packet { switch, header }
}

fn draw_header(draws: &mut CaseDraws) -> Header
    ensures header { result ≡ load_case_header_drawn draws.old.state }
    ensures state { draws.new.state ≡ load_case_draw_state_after 8 draws.old.state }
{
    let src = draw_address(draws);
    let dst = draw_address(draws);
    let sport = (1024 + draws.below(30_000)) as u16;
    let dport = draws.below(1024) as u16;
    Header::pack(&Fields {
        src,
        dst,
        sport,
        dport,
        proto: 6,
    })
}

fn draw_address(draws: &mut CaseDraws) -> u32
    ensures address { result ≡ load_case_address_at draws.old.state }
    ensures state { draws.new.state ≡ load_case_draw_state_after 3 draws.old.state }
    ensures fits { result < 2 ^ 32 }
{
    let b = draws.below(4);
    let c = draws.below(256);
    let d = draws.below(256);
    address(10, b, c, d)
}
