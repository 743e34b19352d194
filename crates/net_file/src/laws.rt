ghost use Rattle.std.specs.Prelude.{◌≡◌, ℕ, List, Ok};
ghost use Rattle.net_file.specs.Exports.{IsNet, NetNameLaws, NetLinkLaws, NetPortLaws, net_of, net_of_one_switch};
ghost use Rattle.net_file.specs.declared.net.Net.{Net};

/// Names and numbers of switches correspond one to one, and no byte of a name is a comma, a blank
/// or a line feed.
pub fn switch_name_laws()
    ensures { NetNameLaws }
{}

/// A port has at most one owner, and the mask of all ports has exactly those with an owner.
pub fn net_port_laws()
    ensures { NetPortLaws }
{}

/// Links go both ways, between two different switches of the network.
pub fn net_file_link_laws()
    ensures { NetLinkLaws }
{}

/// The network that a text states satisfies `IsNet`, and so does the network of one switch.
pub fn net_laws()
    ensures stated { (bytes : List ℕ) (net : Net) → net_of bytes ≡ Ok net → IsNet net }
    ensures solo { IsNet net_of_one_switch }
{}
