//! A world of two switches whose steps are taken one by one.
ghost use Rattle.std.specs.Prelude.{◌≡◌, ◌≤◌, length};
ghost use Rattle.steps.specs.Steps.{IsStep};
ghost use Rattle.world.specs.State.{world_setting_at};

use crate::tests::pairs::{header, pair};
use policy_rules::{Policy, PolicyFile};
use std::process::Abort;
use std::test::Fail;
use steps::Step;
use world::World;

// Takes the step of the row.
#[tactic(auto, using(crate::proofs::NetworkTestPackets::few_packets))]
fn take(rt: &impl Abort, world: &mut World, row: u32, step: &Step) -> Result<(), Fail>
    requires { IsStep world.old.net (length world.old.files) step.now }
    ensures { world_setting_at world.new ≡ world_setting_at world.old }
{
    world.refines();
    assert!(rt; !world.is_spent());
    assert!(rt; world.packets() < 1000);
    world.step(row, step)?;
    Ok(())
}

// A packet enters at a, and is lost.
fn play(rt: &impl Abort, world: &mut World) -> Result<(), Fail>
    requires { 1 ≤ length world.old.net.switches }
{
    let packet = Step::Packet {
        switch: 0,
        header: header(),
    };
    take(rt, world, 1, &packet)?;
    assert!(rt; world.next_travelling(1) == Some(1) && world.travels(1));
    take(rt, world, 2, &Step::Lose { packet: 1 })?;
    assert!(rt; world.packets() == 1 && world.next_waiting(1).is_none());
    Ok(())
}

#[test]
fn takes_steps_of_a_packet(rt: HostRuntime) -> Result<(), Fail> {
    let alloc = rt.alloc();
    let net = pair(alloc)?;
    let policy = Policy::new(alloc, Vec::new(alloc))?;
    let mut world = World::begin(alloc, &net, vec![in alloc; PolicyFile::Whole(policy)]?)?;
    play(&rt, &mut world)?;
    let switches = (world.switches().len(), world.controller().switches());
    assert!(rt; switches == (2, 2) && world.into_journal().items().len() == 5);
    Ok(())
}
