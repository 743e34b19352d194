//! The policies and changes of commands: read from bytes, and checked against the network.
ghost use Rattle.std.specs.Prelude.{◌≡◌, ◌≤◌, All, List, IfOk, IfErr, IsOk, IsSome, IsTrue, None, Ok, OnOk, [], ◌∷◌, length, map, true};
ghost use Rattle.policy_file.specs.Changes.{policy_file_length};
ghost use Rattle.policy_file.specs.Reading.{policy_file_refusal_code};
ghost use Rattle.policy_file.specs.Ports.{action_names_only_ports};
ghost use Rattle.policy_rules.specs.Exports.{PolicyFileRowsAre, IsPolicy, IsSoundPolicyFile};
ghost use Rattle.policy_rules.specs.declared.file.PolicyFile.TheVariants.{Whole};
ghost use Rattle.policy_rules.specs.declared.policy.Row.{Row};
ghost use Rattle.controller.specs.Leads.{ControllerPlanLeadsEveryHeader};
ghost use Rattle.controller.specs.Plan.{ControllerRefusesPlan};
ghost use Rattle.command_inputs.specs.Exports.{CommandNeedsReadFault, CommandInputStopNamesOneOf, CommandInputStopsCheck, CommandInputStopsText, command_status_of, input_first_plan, input_plan_on, input_policy_stated, input_stated_as};
ghost use Rattle.net_file.specs.Exports.{IsNet, port_mask};
ghost use Rattle.net_file.specs.declared.net.Net.{Net};
ghost use Rattle.partition.specs.Plan.{IsPartitionPlan, partition_plan_of};
ghost use Rattle.update_machine.specs.Setting.{machine_setting_of, IsMachineSetting};
ghost use Rattle.command_line.specs.Named.{argument_names_seen};
ghost use Rattle.world.specs.Files.{world_first_file_policy, world_file_own_policy};
ghost use Rattle.world.specs.State.{IsWorldBegun, world_setting_at};

use crate::inputs::refused;
use crate::status::Stop;
use controller::{Plan, PlanError, compile};
use net_file::{Net, net_port_laws};
use policy_file::{
    PolicyError, check_policy_file_ports, check_ports, is_change, read_file, read_policy,
};
use policy_rules::{Policy, PolicyFile};
use std::alloc::{AllocError, Global};
use world::World;
use world::codes::code_of;

/// The code of a row that names a port that the network doesn't have.
pub const NO_PORT: u32 = 13;

/// The code of a first file that is a change.
pub const FIRST_CHANGE: u32 = 23;

/// The code of a switch that the network doesn't have.
pub const NO_SWITCH: u32 = 21;

/// The stop at a file whose text is refused or for which memory runs out.
fn stop_at_refused_policy(alloc: Global, name: &str, error: PolicyError) -> Stop
    ensures text { CommandInputStopsText policy_file_refusal_code name.now error result }
    ensures no_fault { ¬ CommandNeedsReadFault None (command_status_of result) }
{
    match error {
        PolicyError::Refused(why) => refused(alloc, name, why.refusal.code(), why.row),
        PolicyError::NoMemory => Stop::NoMemory,
    }
}

/// The policy that the bytes of this file state, which names only ports of the mask.
pub fn check_input_policy(
    alloc: Global,
    name: &str,
    bytes: &[u8],
    ports: u64,
) -> Result<Policy, Stop>
    ensures value { IfOk result (λ policy. input_policy_stated ports name.now bytes.now ≡ Ok policy) }
    ensures stopped { IfErr result (CommandInputStopsCheck (input_policy_stated ports name.now bytes.now)) }
    ensures own_ports { IfOk result (All (λ row. IsTrue (action_names_only_ports ports row.action))) }
    ensures sound { IfOk result IsPolicy }
    ensures few { IfOk result (λ policy. length policy ≤ 2000) }
{
    let policy = read_policy(alloc, bytes).map_err(|error| stop_at_refused_policy(
        alloc, name, error,
    ))?;
    check_ports(&policy, ports).map_err(|lack| refused(alloc, name, NO_PORT, lack.row))?;
    Ok(policy)
}

/// The policy or the change that the bytes of this file state, whose rows name only ports of the
/// mask. A first file that is a change is refused before its rows are read.
pub fn check_input_policy_file(
    alloc: Global,
    name: &str,
    bytes: &[u8],
    ports: u64,
    is_first: bool,
) -> Result<PolicyFile, Stop>
    ensures value { IfOk result (λ file.
        input_stated_as is_first ports name.now bytes.now ≡ Ok file) }
    ensures stopped { IfErr result (CommandInputStopsCheck (input_stated_as is_first ports name.now bytes.now)) }
    ensures own_ports { IfOk result (PolicyFileRowsAre (λ row. IsTrue (action_names_only_ports ports row.action))) }
    ensures sound { IfOk result IsSoundPolicyFile }
    ensures few { IfOk result (λ file. policy_file_length file ≤ 2000) }
    ensures whole { is_first ≡ true → IfOk result (λ file. IsSome (world_file_own_policy file)) }
{
    if is_first && is_change(alloc, bytes)? {
        return Err(refused(alloc, name, FIRST_CHANGE, 0));
    }
    let file = read_file(alloc, bytes).map_err(|error| stop_at_refused_policy(alloc, name, error))?;
    check_policy_file_ports(&file, ports).map_err(|lack| refused(alloc, name, NO_PORT, lack.row))?;
    Ok(file)
}

/// Each of these policies as a policy file.
pub fn as_input_policy_files(
    alloc: Global,
    policies: Vec<Policy>,
) -> Result<Vec<PolicyFile>, AllocError>
    ensures { IfOk result (λ files. files.items ≡ map Whole policies.items) }
{
    let mut files = Vec::with_capacity(alloc, policies.len())?;
    for policy in policies {
        files.push(PolicyFile::Whole(policy))?;
    }
    Ok(files)
}

/// The stop at a policy of this file that has no plan.
fn stop_at_unplanned_input(alloc: Global, name: &str, error: PlanError) -> Stop
    ensures { (rows : List Row) (net : Net) → ControllerRefusesPlan rows net error
        → CommandInputStopsCheck (input_plan_on name.now net rows) result }
{
    let row = match error {
        PlanError::NoRoom { partition } => partition,
        _ => 0,
    };
    match code_of(error) {
        Some(code) => refused(alloc, name, code, row),
        None => Stop::NoMemory,
    }
}

/// The network with the policy of the first of these files in force as version 1, or why that has
/// no plan. The first of these names is that file's.
pub fn begin_world_of_inputs(
    alloc: Global,
    names: &[&str],
    files: Vec<PolicyFile>,
    net: &Net,
) -> Result<World, Stop>
    requires net { IsNet net.now }
    requires first { IsSome (world_first_file_policy files.items) }
    requires named { 1 ≤ length names.now }
    requires sound { All IsSoundPolicyFile files.items }
    requires ports { All (PolicyFileRowsAre (λ row.
        IsTrue (action_names_only_ports (port_mask net.now.switches) row.action))) files.items }
    ensures planned { OnOk result
        (IsOk (input_first_plan (argument_names_seen names.now) net.now files.items)) }
    ensures begun { IfOk result (IsWorldBegun (machine_setting_of net.now files.items)) }
    ensures sound { IfOk result (λ world. IsMachineSetting (world_setting_at world)) }
    ensures stopped { IfErr result
        (CommandInputStopsCheck (input_first_plan (argument_names_seen names.now) net.now files.items)) }
{
    net_port_laws();
    let name = names[0];
    let world = World::begin(alloc, net, files).map_err(|error| stop_at_unplanned_input(
        alloc, name, error,
    ))?;
    world.refines();
    Ok(world)
}

/// The plan of the policy of this file on the network, or why it has none.
pub fn plan_input_policy(
    alloc: Global,
    name: &str,
    policy: &Policy,
    net: &Net,
) -> Result<Plan, Stop>
    requires { IsNet net.now }
    ensures value { IfOk result (λ plan. input_plan_on name.now net.now policy.now ≡ Ok plan.hosted) }
    ensures planned { IfOk result (λ plan. partition_plan_of policy.now net.now ≡ Ok plan.hosted) }
    ensures parts { IfOk result (λ plan. IsPartitionPlan policy.now net.now plan.hosted) }
    ensures leads { IfOk result (λ plan. ControllerPlanLeadsEveryHeader policy.now plan.hosted) }
    ensures policy { IfOk result (λ plan. plan.policy ≡ policy.now) }
    ensures stopped { IfErr result (CommandInputStopsCheck (input_plan_on name.now net.now policy.now)) }
    ensures stops { CommandInputStopNamesOneOf (name.now ∷ []) result }
{
    compile(alloc, policy, net).map_err(|error| stop_at_unplanned_input(alloc, name, error))
}
