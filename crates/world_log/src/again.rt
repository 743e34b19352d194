//! What a switch sends again because it may have been lost.
ghost use Rattle.std.specs.Prelude.{◌≡◌, ◌<◌, ◌≤◌, ◌++◌, IfOk, OnOk};
ghost use Rattle.ctrl_msg.specs.declared.message.Body.TheVariants.{Hello};
ghost use Rattle.ctrl_msg.specs.Kinds.{message_to_controller};
ghost use Rattle.world_log.specs.Linking.{world_log_adverts_again, logged_adverts_all_near};

use crate::usable_links::send_world_log_held;
use base::has;
use ctrl_msg::{Body, Message, Place};
use std::alloc::{AllocError, Global};
use switch_core::Switch;

/// What switch s sends again if it is up: to the controller its boot, and to each neighbour among
/// this many switches all adverts that it has.
///
/// # Errors
/// Only out of memory.
#[tactic(auto, using(crate::proofs::LogRelinking::near_steps))]
pub fn world_log_adverts_again(
    alloc: Global,
    switch: &Switch,
    s: u32,
    count: u32,
    near: u64,
) -> Result<Vec<Message>, AllocError>
    requires { count ≤ 64 }
    ensures { IfOk result (λ messages. messages.items ≡ world_log_adverts_again s count near switch.now) }
{
    let mut messages = Vec::new(alloc);
    if !switch.is_up() {
        return Ok(messages);
    }
    messages.push(hello(s, switch.boot()))?;
    for other in 0..count {
        world_log_resend_to_neighbour(&mut messages, switch, near, other)?;
    }
    Ok(messages)
}

// What the switch sends the other one again, if it has a usable link to it.
fn world_log_resend_to_neighbour(
    messages: &mut Vec<Message>,
    switch: &Switch,
    near: u64,
    other: u32,
) -> Result<(), AllocError>
    requires { other < 64 }
    ensures { OnOk result (messages.new.items
        ≡ messages.old.items ++ logged_adverts_all_near switch.now near other) }
{
    if has(near, other) {
        send_world_log_held(messages, switch, other)?;
    }
    Ok(())
}

/// The message by which a switch tells the controller that it is up, in this boot.
pub fn hello(switch: u32, boot: u32) -> Message
    ensures { result ≡ message_to_controller (Hello switch boot) }
{
    Message {
        to: Place::Controller,
        body: Body::Hello { switch, boot },
    }
}
