//! Load cases as a command uses them.
ghost use Rattle.std.specs.Prelude.{◌≡◌, ◌≤◌, IfOk, IfErr, Ok, [], ◌∷◌};
ghost use Rattle.command_inputs.specs.Exports.{AreCommandInputsReady, CommandInputStopNamesOneOf, CommandInputStopsCheck, command_inputs_of_load, task_inputs_stated, load_inputs_or_refusal, command_load_input_name};
ghost use Rattle.schedule.specs.Case.{load_case};

use crate::inputs::PlayInputs;
use crate::policies::{as_input_policy_files, begin_world_of_inputs};
use crate::status::Stop;
use command_line::Report;
use net_file::net_port_laws;
use schedule::load_case;
use std::alloc::Global;

/// The file that a refusal of a load case names.
const LOAD_NAME: &str = "load";

/// The inputs of the load case of this number, with its first policy in force.
pub fn draw_inputs(alloc: Global, n: u32) -> Result<PlayInputs, Stop>
    requires { (1 ≤ n) × (n ≤ 1000) }
    ensures value { IfOk result (λ inputs. load_inputs_or_refusal n ≡ Ok (task_inputs_stated inputs)) }
    ensures stopped { IfErr result (CommandInputStopsCheck (load_inputs_or_refusal n)) }
    ensures stops { CommandInputStopNamesOneOf (command_load_input_name ∷ []) result }
    ensures ready { IfOk result AreCommandInputsReady }
    ensures drawn { IfOk result (λ inputs. task_inputs_stated inputs ≡ command_inputs_of_load (load_case n)) }
{
    net_port_laws();
    let Ok(case) = load_case(alloc, n) else {
        return Err(Stop::NoMemory);
    };
    let files = as_input_policy_files(alloc, case.policies)?;
    let world = begin_world_of_inputs(alloc, &[LOAD_NAME], files, &case.net)?;
    Ok(PlayInputs {
        events: case.events,
        net: case.net,
        world,
        report: Report::Summary,
    })
}
