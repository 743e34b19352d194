ghost use Rattle.std.specs.Prelude.{◌≡◌};
ghost use Rattle.net_file.specs.Net.{net_switch_name_of, net_switch_names_text};
ghost use Rattle.lines.specs.Pushes.{line_with};

use crate::line::Line;
use net_file::Net;

/// Adds the name of the switch of this number; nothing if the network doesn't have it.
pub fn push_name(line: &mut Line, net: &Net, s: u32)
    ensures { line.new ≡ line_with line.old (net_switch_name_of net.now s) }
{
    let name = match net.switches.items().get(s as usize) {
        Some(row) => row.name.bytes(),
        None => b"",
    };
    line.push_bytes(name);
}

/// Adds the names of switches, each after a blank.
#[tactic(auto, using(crate::proofs::LinesCallerLemmas::pushed_append, crate::proofs::LinesCallerLemmas::pushed_nothing))]
pub fn push_names(line: &mut Line, net: &Net, switches: &[u32])
    ensures { line.new ≡ line_with line.old (net_switch_names_text net.now switches.now) }
{
    let _within = line.bytes();
    for s in switches {
        line.push(" ");
        push_name(line, net, *s);
    }
}
