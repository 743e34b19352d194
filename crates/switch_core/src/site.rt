use net_file::Ports;

/// What a switch gets with a packet: its usable links, and the owners of the network's ports.
#[derive(Clone, Copy)]
pub struct SwitchSite<'a> {
    /// A bit for each switch to which there is a usable link.
    pub near: u64,
    /// Which switch has each port.
    pub ports: &'a Ports,
}
