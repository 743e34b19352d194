ghost use Rattle.std.specs.Prelude.{◌≡◌, ◌<◌, ◌≤◌, ℕ, None, length};
ghost use Rattle.net_file.specs.Exports.{net_port_owner, owner_in_net_ports};

use crate::net::{SwitchRow, port_owner_in};

/// How many ports a network can have.
pub(crate) const PORTS: usize = 64;

/// Which switch has each port of a network. It is stored in place, and allocates nothing.
#[derive(Clone, Copy, Debug)]
pub struct Ports {
    owners: [Option<u8>; PORTS],
}

impl Ports {
    /// The number of the switch that has the port; `None` if no switch has it.
    pub fn owner(&self, port: u32) -> Option<u32>
        ensures { result ≡ owner_in_net_ports self.now port }
    {
        if port < PORTS as u32 {
            self.owners[port as usize].map(u32::from)
        } else {
            None
        }
    }
}

/// Which of the switches has each port.
pub(crate) fn net_port_owners(switches: &[SwitchRow]) -> Ports
    requires { length switches.now ≤ 64 }
    ensures owners { (port : ℕ) → port < 64 → owner_in_net_ports result port ≡ net_port_owner switches.now port }
    ensures past { (port : ℕ) → 64 ≤ port → owner_in_net_ports result port ≡ None }
{
    let mut owners = [None; PORTS];
    for port in 0..PORTS {
        owners[port] = port_owner_in(switches, port as u32).map(|owner| owner as u8);
    }
    Ports { owners }
}
