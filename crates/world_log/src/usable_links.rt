//! Which links switches can use, and what they send each other when that changes, as routers in
//! OSPF send what they learn about their links (RFC 2328, sections 12.4 and 13).
ghost use Rattle.std.specs.Prelude.{ℕ, ◌≡◌, ◌-◌, ◌^◌, ◌<◌, ◌≤◌, ◌++◌, All, IfOk, OnOk, length, map};
ghost use Rattle.base.specs.Masks.{has};
ghost use Rattle.update_machine.specs.Deliveries.{machine_advert_to};
ghost use Rattle.world_log.specs.Linking.{AreLogSwitchesRelinked, log_all_adverts_sent, log_held_adverts, logged_near_all, logged_near_mask_where, log_switch_relinked, logged_switch_serves_at, logged_adverts_on_change, log_advert_if_held, log_adverts_near, log_adverts_over};

use base::{has, only_if};
use ctrl_msg::{Body, Message, Place};
use failover::Advert;
use std::alloc::{AllocError, Global};
use switch_core::Switch;

/// For each switch the mask of those to which it has a usable link, if these links are up.
pub fn usable(links: &[u64; 64], switches: &[Switch]) -> [u64; 64]
    requires { length switches.now ≤ 64 }
    ensures { result ≡ logged_near_all links.now switches.now }
{
    let serving = serving(switches);
    let mut near = [0; 64];
    for s in 0..64 {
        near[s] = world_log_usable_mask(links[s], serving, s as u32);
    }
    near
}

// The switches that serve.
fn serving(switches: &[Switch]) -> u64
    requires { length switches.now ≤ 64 }
    ensures { (k : ℕ) → k < 64 → has result k ≡ logged_switch_serves_at switches.now k }
{
    let mut mask = 0;
    for (s, switch) in switches.iter().enumerate() {
        mask |= only_if(switch.serves(), s as u32);
    }
    mask
}

// The usable links of switch s, if these switches serve.
fn world_log_usable_mask(links: u64, serving: u64, s: u32) -> u64
    requires { s < 64 }
    ensures { result ≡ logged_near_mask_where links (has serving s) (has serving) }
{
    if has(serving, s) { links & serving } else { 0 }
}

/// Each switch that is up, and whose usable links changed, makes its next advert. Returns what
/// they send their neighbours, by ascending number of the sender.
///
/// # Errors
/// Only out of memory.
pub fn world_log_relink(
    alloc: Global,
    switches: &mut Vec<Switch>,
    had: &[u64; 64],
    now: &[u64; 64],
) -> Result<Vec<Message>, AllocError>
    requires few { length switches.old.items ≤ 64 }
    requires next { All (λ switch. switch.seq < 2 ^ 32 - 1) switches.old.items }
    ensures switches { OnOk result
        (AreLogSwitchesRelinked had.now now.now switches.old.items switches.new.items) }
    ensures told { IfOk result (λ messages. messages.items
        ≡ log_all_adverts_sent had.now now.now switches.old.items) }
{
    let mut messages = Vec::new(alloc);
    let count = switches.len() as u32;
    for s in 0..switches.len() {
        relink_world_log_switch(&mut messages, &mut switches[s], count, had[s], now[s])?;
    }
    Ok(messages)
}

// `world_log_relink` for one switch, which had these usable links before and has these now.
#[tactic(auto, using(crate::proofs::LogRelinking::near_steps))]
fn relink_world_log_switch(
    messages: &mut Vec<Message>,
    switch: &mut Switch,
    count: u32,
    had: u64,
    near: u64,
) -> Result<(), AllocError>
    requires few { count ≤ 64 }
    requires next { switch.old.seq < 2 ^ 32 - 1 }
    ensures switch { switch.new ≡ log_switch_relinked had near switch.old }
    ensures told { OnOk result (messages.new.items
        ≡ messages.old.items ++ logged_adverts_on_change count had near switch.old) }
{
    if !switch.is_up() || had == near {
        return Ok(());
    }
    let own = switch.near_changed(near);
    for other in 0..count {
        world_log_send_over_link(messages, switch, &own, had, near, other)?;
    }
    Ok(())
}

// What the switch sends the other one, if it has a usable link to it.
fn world_log_send_over_link(
    messages: &mut Vec<Message>,
    switch: &Switch,
    own: &Advert,
    had: u64,
    near: u64,
    other: u32,
) -> Result<(), AllocError>
    requires { other < 64 }
    ensures { OnOk result (messages.new.items
        ≡ messages.old.items ++ log_adverts_near switch.now own.now had near other) }
{
    if has(near, other) {
        send_world_log_adverts(messages, switch, own, has(had, other), other)?;
    }
    Ok(())
}

// Sends the switch's own advert over a link that it had, and all that it has over a new one.
fn send_world_log_adverts(
    messages: &mut Vec<Message>,
    switch: &Switch,
    own: &Advert,
    had: bool,
    other: u32,
) -> Result<(), AllocError>
    ensures { OnOk result (messages.new.items
        ≡ messages.old.items ++ log_adverts_over switch.now own.now had other) }
{
    if had {
        messages.push(world_log_advert_to(other, own))?;
        return Ok(());
    }
    send_world_log_held(messages, switch, other)
}

/// Adds messages with all adverts that the switch has, for the other switch.
///
/// # Errors
/// Only out of memory.
#[tactic(auto, using(crate::proofs::LogRelinking::held_steps))]
pub fn send_world_log_held(
    messages: &mut Vec<Message>,
    switch: &Switch,
    other: u32,
) -> Result<(), AllocError>
    ensures { OnOk result (messages.new.items
        ≡ messages.old.items ++ map (machine_advert_to other) (log_held_adverts switch.now)) }
{
    for origin in 0..64 {
        world_log_send_advert(messages, other, switch.known(origin))?;
    }
    Ok(())
}

// Adds a message with the advert, if there is one, for this switch.
fn world_log_send_advert(
    messages: &mut Vec<Message>,
    other: u32,
    advert: Option<Advert>,
) -> Result<(), AllocError>
    ensures { OnOk result (messages.new.items
        ≡ messages.old.items ++ log_advert_if_held other advert) }
{
    if let Some(advert) = advert {
        messages.push(world_log_advert_to(other, &advert))?;
    }
    Ok(())
}

// The message with the advert for this switch.
fn world_log_advert_to(switch: u32, advert: &Advert) -> Message
    ensures { result ≡ machine_advert_to switch advert.now }
{
    Message {
        to: Place::Switch(switch),
        body: Body::Advertise { advert: *advert },
    }
}
