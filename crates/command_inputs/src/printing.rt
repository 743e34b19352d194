//! Reads the files of a plan or of a switch's tables.
ghost use Rattle.std.specs.Prelude.{Ok, Option, IfOk};
ghost use Rattle.net_file.specs.Net.{IsNet};
ghost use Rattle.command_inputs.specs.Exports.{CommandInputReadEnds, IsPrintInputOf, Print, CommandInputReadsFor, command_print_inputs, print_inputs_stated};
ghost use Rattle.command_line.specs.Named.{print_arguments_named};
ghost use Rattle.command_line.specs.Commands as grammar;

use crate::inputs::read_policy;
use crate::networks::{find_command_input_switch, take_input_network};
use crate::policies::plan_input_policy;
use crate::status::Stop;
use command_line::PrintArgs;
use controller::Plan;
use net_file::Net;
use policy_rules::policy_laws;
use shelf::Shelf;
use std::alloc::Global;

/// A plan on its network, and the switch whose tables are printed; without it the plan is.
#[derive(Drop)]
pub struct PrintInputs {
    pub plan: Plan,
    pub net: Net,
    pub switch: Option<u32>,
}

/// Reads and checks the network, then finds the switch, then reads, checks and plans the policy.
pub fn read_printing_inputs<F: Shelf>(
    alloc: Global,
    shelf: &mut F,
    args: &PrintArgs<'_>,
) -> Result<PrintInputs, Stop>
    ensures read { CommandInputReadEnds (F.state shelf.old).files
        (λ files. command_print_inputs files (print_arguments_named args.now)) print_inputs_stated
        (F.state shelf.old) (F.state shelf.new) result }
    ensures shelf { CommandInputReadsFor (grammar.Print (print_arguments_named args.now))
        (F.state shelf.old) (F.state shelf.new) result }
    ensures sound { IfOk result (λ inputs. IsNet inputs.net) }
    ensures planned { IfOk result (λ inputs.
        IsPrintInputOf (print_arguments_named args.now) (print_inputs_stated inputs)) }
{
    policy_laws();
    let net = take_input_network(alloc, shelf, args.net)?;
    let switch = find_command_input_switch(alloc, &net, args.switch)?;
    let policy = read_policy(alloc, shelf, args.policy, net.port_mask())?;
    let plan = plan_input_policy(alloc, args.policy, &policy, &net)?;
    Ok(PrintInputs { plan, net, switch })
}
