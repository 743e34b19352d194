//! The networks of commands, from a file or of one switch, and the switches on them.
ghost use Rattle.std.specs.Prelude.{◌≡◌, IfOk, IfErr, Ok, option_to_list};
ghost use Rattle.net_file.specs.Net.{IsNet};
ghost use Rattle.command_line.specs.Named.{argument_name_seen};
ghost use Rattle.command_inputs.specs.Exports.{CommandInputReadEnds, IsCommandInputNetOf, IsCommandInputSwitch, ReadsFiles, CommandInputStopNamesOneOf, CommandInputStopsCheck, command_input_net_reads, command_input_net_stated, read_net, command_input_switch_named};

use crate::inputs::{read_input_bytes, refused};
use crate::policies::NO_SWITCH;
use crate::status::Stop;
use net_file::{Net, NetError, read_net, solo};
use shelf::Shelf;
use std::alloc::Global;

/// The network that the bytes of this file state.
fn check_command_net_file(alloc: Global, name: &str, bytes: &[u8]) -> Result<Net, Stop>
    ensures value { IfOk result (λ net. command_input_net_stated name.now bytes.now ≡ Ok net) }
    ensures stopped { IfErr result (CommandInputStopsCheck (command_input_net_stated name.now bytes.now)) }
    ensures sound { IfOk result IsNet }
{
    match read_net(alloc, bytes) {
        Ok(net) => Ok(net),
        Err(NetError::Refused(why)) => Err(refused(alloc, name, why.refusal.code(), why.row)),
        Err(NetError::NoMemory) => Err(Stop::NoMemory),
    }
}

/// The network of one switch.
fn one_switch_input_net(alloc: Global) -> Result<Net, Stop>
    ensures value { IfOk result (IsCommandInputNetOf None) }
    ensures sound { IfOk result IsNet }
    ensures stopped { IfErr result (λ stop. stop ≡ Stop.NoMemory) }
{
    match solo(alloc) {
        Ok(net) => Ok(net),
        Err(_) => Err(Stop::NoMemory),
    }
}

/// The network of the file, or that of one switch if none is named.
pub fn take_input_network<F: Shelf>(
    alloc: Global,
    shelf: &mut F,
    name: Option<&str>,
) -> Result<Net, Stop>
    ensures read { CommandInputReadEnds (F.state shelf.old).files (λ files. read_net files (argument_name_seen name.entry))
        (λ net. net) (F.state shelf.old) (F.state shelf.new) result }
    ensures shelf { ReadsFiles (option_to_list (argument_name_seen name.entry))
        (command_input_net_reads (argument_name_seen name.entry)) (F.state shelf.old) (F.state shelf.new) result }
    ensures sound { IfOk result IsNet }
    ensures named { IfOk result (IsCommandInputNetOf (argument_name_seen name.entry)) }
{
    match name {
        Some(name) => {
            let bytes = read_input_bytes(alloc, shelf, name)?;
            check_command_net_file(alloc, name, &bytes)
        }
        None => one_switch_input_net(alloc),
    }
}

/// The number of the switch of this name, if one is named; refused if the network has none.
pub fn find_command_input_switch(
    alloc: Global,
    net: &Net,
    name: Option<&str>,
) -> Result<Option<u32>, Stop>
    requires { IsNet net.now }
    ensures value { IfOk result (λ switch. command_input_switch_named net.now (argument_name_seen name.entry) ≡ Ok switch) }
    ensures stopped { IfErr result (CommandInputStopsCheck (command_input_switch_named net.now (argument_name_seen name.entry))) }
    ensures stops { CommandInputStopNamesOneOf (option_to_list (argument_name_seen name.entry)) result }
    ensures named { IfOk result (IsCommandInputSwitch (argument_name_seen name.entry) net.now) }
{
    let Some(name) = name else {
        return Ok(None);
    };
    match net.number(name.as_bytes()) {
        Some(s) => Ok(Some(s)),
        None => Err(refused(alloc, name, NO_SWITCH, 0)),
    }
}
