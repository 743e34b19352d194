//! Reads and checks the files of a command, one after another.
ghost use Rattle.std.specs.Prelude.{◌≡◌, ◌<◌, ◌≤◌, All, IsSome, IsTrue, IfOk, IfErr, Ok, [], ◌∷◌, length, true};
ghost use Rattle.net_file.specs.Net.{IsNet};
ghost use Rattle.policy_file.specs.Ports.{action_names_only_ports};
ghost use Rattle.policy_rules.specs.Exports.{PolicyFileRowsAre, IsPolicy, IsSoundPolicyFile};
ghost use Rattle.schedule.specs.Reading.{AreSoundScheduleEvents};
ghost use Rattle.policy_file.specs.Changes.{policy_file_length};
ghost use Rattle.world.specs.Files.{world_first_file_policy, world_file_own_policy};
ghost use Rattle.command_inputs.specs.Exports.{AreCommandInputsReady, CommandInputReadEnds, AreCommandInputsOfReplay, ReadsFiles, CommandInputReadsFor, RefusesInput, CommandInputStopsCheck, command_input_content, command_input_content_within, command_input_file_reads, command_replay_inputs, task_inputs_stated, read_file, command_input_files, read_policy, read_schedule, command_input_schedule_in};
ghost use Rattle.command_line.specs.Named.{HasPolicyArguments, argument_names_seen, replay_arguments_named};
ghost use Rattle.command_line.specs.Commands.{Replay};

use crate::networks::take_input_network;
use crate::policies::{begin_world_of_inputs, check_input_policy, check_input_policy_file};
use crate::status::{Refusal, RefusedFileName, Stop};
use command_line::{ReplayArgs, Report};
use net_file::Net;
use policy_rules::{Policy, PolicyFile};
use schedule::ScheduleError;
use shelf::{Shelf, ShelfError};
use std::alloc::Global;
use steps::Event;
use world::World;

/// The most bytes of a file that isn't a trace.
pub const MAX_BYTES: u64 = 16_777_216;

/// The code of a file that is absent.
pub const MISSING: u32 = 0;

/// The code of a file that has more bytes than it may have.
pub const TOO_LONG: u32 = 20;

/// The refusal of a file by this code in this row; out of memory if its name can't be copied.
pub fn refused(alloc: Global, name: &str, code: u32, row: u32) -> Stop
    ensures { RefusesInput (record { file = name.now; code = code; row = row }) result }
{
    match RefusedFileName::new(alloc, name) {
        Ok(file) => Stop::Refused(Refusal { file, code, row }),
        Err(_) => Stop::NoMemory,
    }
}

/// The content of the file of this name, of at most 16,777,216 bytes.
pub fn read_input_bytes<F: Shelf>(alloc: Global, shelf: &mut F, name: &str) -> Result<Vec<u8>, Stop>
    ensures read { CommandInputReadEnds (F.state shelf.old).files (λ files. command_input_content files name.now)
        (λ bytes. bytes.items) (F.state shelf.old) (F.state shelf.new) result }
    ensures shelf { ReadsFiles (name.now ∷ []) 1 (F.state shelf.old) (F.state shelf.new) result }
{
    read_file_within(alloc, shelf, name, MAX_BYTES)
}

/// The content of the file of this name, of at most this many bytes.
pub fn read_file_within<F: Shelf>(
    alloc: Global,
    shelf: &mut F,
    name: &str,
    most: u64,
) -> Result<Vec<u8>, Stop>
    ensures read { CommandInputReadEnds (F.state shelf.old).files
        (λ files. command_input_content_within most files name.now)
        (λ bytes. bytes.items) (F.state shelf.old) (F.state shelf.new) result }
    ensures shelf { ReadsFiles (name.now ∷ []) 1 (F.state shelf.old) (F.state shelf.new) result }
    ensures within { IfOk result (λ bytes. length bytes.items ≤ most) }
{
    match shelf.read(name, most) {
        Ok(bytes) => Ok(bytes),
        Err(ShelfError::Failed) => Err(Stop::ReadFault),
        Err(ShelfError::Missing) => Err(refused(alloc, name, MISSING, 0)),
        Err(ShelfError::TooLong) => Err(refused(alloc, name, TOO_LONG, 0)),
        Err(ShelfError::NoMemory) => Err(Stop::NoMemory),
    }
}

/// The events that the bytes of this file state for the network and this many policy files.
fn check_input_schedule(
    alloc: Global,
    name: &str,
    bytes: &[u8],
    net: &Net,
    policies: u32,
) -> Result<Vec<Event>, Stop>
    requires { IsNet net.now }
    ensures value { IfOk result (λ events.
        command_input_schedule_in net.now policies name.now bytes.now ≡ Ok events.items) }
    ensures stopped { IfErr result
        (CommandInputStopsCheck (command_input_schedule_in net.now policies name.now bytes.now)) }
    ensures sound { IfOk result (λ events. AreSoundScheduleEvents net.now policies events.items) }
{
    match schedule::read_schedule(alloc, bytes, net, policies) {
        Ok(events) => Ok(events),
        Err(ScheduleError::Refused(why)) => Err(refused(alloc, name, why.refusal.code(), why.row)),
        Err(ScheduleError::NoMemory) => Err(Stop::NoMemory),
    }
}

/// The events of the schedule of this name, on the network and with this many policy files.
fn read_schedule<F: Shelf>(
    alloc: Global,
    shelf: &mut F,
    name: &str,
    net: &Net,
    policies: u32,
) -> Result<Vec<Event>, Stop>
    requires { IsNet net.now }
    ensures read { CommandInputReadEnds (F.state shelf.old).files
        (λ files. read_schedule net.now policies files name.now) (λ events. events.items)
        (F.state shelf.old) (F.state shelf.new) result }
    ensures shelf { ReadsFiles (name.now ∷ []) 1 (F.state shelf.old) (F.state shelf.new) result }
    ensures sound { IfOk result (λ events. AreSoundScheduleEvents net.now policies events.items) }
{
    let bytes = read_input_bytes(alloc, shelf, name)?;
    check_input_schedule(alloc, name, &bytes, net, policies)
}

/// The policy of the file of this name, which names only ports of the mask.
pub fn read_policy<F: Shelf>(
    alloc: Global,
    shelf: &mut F,
    name: &str,
    ports: u64,
) -> Result<Policy, Stop>
    ensures read { CommandInputReadEnds (F.state shelf.old).files (λ files. read_policy ports files name.now)
        (λ policy. policy) (F.state shelf.old) (F.state shelf.new) result }
    ensures shelf { ReadsFiles (name.now ∷ []) 1 (F.state shelf.old) (F.state shelf.new) result }
    ensures own_ports { IfOk result (All (λ row. IsTrue (action_names_only_ports ports row.action))) }
    ensures sound { IfOk result IsPolicy }
    ensures few { IfOk result (λ policy. length policy ≤ 2000) }
{
    let bytes = read_input_bytes(alloc, shelf, name)?;
    check_input_policy(alloc, name, &bytes, ports)
}

/// The policy or the change of the file of this name, whose rows name only ports of the mask. The
/// first of a command's files must be a policy.
fn read_file<F: Shelf>(
    alloc: Global,
    shelf: &mut F,
    name: &str,
    ports: u64,
    is_first: bool,
) -> Result<PolicyFile, Stop>
    ensures read { CommandInputReadEnds (F.state shelf.old).files
        (λ files. read_file is_first ports files name.now) (λ file. file)
        (F.state shelf.old) (F.state shelf.new) result }
    ensures shelf { ReadsFiles (name.now ∷ []) 1 (F.state shelf.old) (F.state shelf.new) result }
    ensures own_ports { IfOk result (PolicyFileRowsAre (λ row. IsTrue (action_names_only_ports ports row.action))) }
    ensures sound { IfOk result IsSoundPolicyFile }
    ensures few { IfOk result (λ file. policy_file_length file ≤ 2000) }
    ensures whole { is_first ≡ true → IfOk result (λ file. IsSome (world_file_own_policy file)) }
{
    let bytes = read_input_bytes(alloc, shelf, name)?;
    check_input_policy_file(alloc, name, &bytes, ports, is_first)
}

/// The policies and changes of the files of these names, each read and checked before the next one
/// is read. The first must be a policy.
pub fn read_files<F: Shelf>(
    alloc: Global,
    shelf: &mut F,
    names: &[&str],
    ports: u64,
) -> Result<Vec<PolicyFile>, Stop>
    requires { 0 < length names.now }
    ensures read { CommandInputReadEnds (F.state shelf.old).files
        (λ files. command_input_files true ports files (argument_names_seen names.now)) (λ read. read.items)
        (F.state shelf.old) (F.state shelf.new) result }
    ensures shelf { ReadsFiles (argument_names_seen names.now)
        (command_input_file_reads true ports (F.state shelf.old).files (argument_names_seen names.now))
        (F.state shelf.old) (F.state shelf.new) result }
    ensures many { IfOk result (λ read. length read.items ≡ length names.now) }
    ensures first { IfOk result (λ read. IsSome (world_first_file_policy read.items)) }
    ensures own_ports { IfOk result (λ read.
        All (PolicyFileRowsAre (λ row. IsTrue (action_names_only_ports ports row.action))) read.items) }
    ensures sound { IfOk result (λ read. All IsSoundPolicyFile read.items) }
    ensures few { IfOk result (λ read. All (λ file. policy_file_length file ≤ 2000) read.items) }
{
    let mut read = Vec::new(alloc);
    for name in names {
        let file = read_file(alloc, shelf, name, ports, read.is_empty())?;
        read.push(file)?;
    }
    Ok(read)
}

/// What is played, and what the play prints.
#[derive(Drop)]
pub struct PlayInputs {
    pub events: Vec<Event>,
    pub net: Net,
    /// The network with the first policy in force, on which nothing has happened yet.
    pub world: World,
    pub report: Report,
}

/// The inputs of a replay: reads and checks the network, then the schedule, then the policies and
/// changes in their order, and last plans the first policy.
pub fn read_inputs<F: Shelf>(
    alloc: Global,
    shelf: &mut F,
    args: &ReplayArgs<'_>,
) -> Result<PlayInputs, Stop>
    requires { HasPolicyArguments args.now }
    ensures read { CommandInputReadEnds (F.state shelf.old).files
        (λ files. command_replay_inputs files (replay_arguments_named args.now)) task_inputs_stated
        (F.state shelf.old) (F.state shelf.new) result }
    ensures shelf { CommandInputReadsFor (Replay (replay_arguments_named args.now))
        (F.state shelf.old) (F.state shelf.new) result }
    ensures ready { IfOk result AreCommandInputsReady }
    ensures asked { IfOk result (λ inputs.
        AreCommandInputsOfReplay (replay_arguments_named args.now) (task_inputs_stated inputs)) }
{
    let net = take_input_network(alloc, shelf, args.net)?;
    let names: &[&str] = &args.policies;
    let count = names.len() as u32;
    let events = read_schedule(alloc, shelf, args.schedule, &net, count)?;
    let files = read_files(alloc, shelf, names, net.port_mask())?;
    let world = begin_world_of_inputs(alloc, names, files, &net)?;
    Ok(PlayInputs {
        events,
        net,
        world,
        report: args.report,
    })
}
