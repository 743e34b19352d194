ghost use Rattle.std.specs.Prelude.{◌≡◌, ◌≤◌, ◌<◌, ◌==◌, ℕ, false, IfOk, IfNone, IfSome, length};
ghost use Rattle.net_file.specs.Exports.{AreNetPortOwners, IsNetLink, IsNet, net_link_joins, links_of, net_port_owner, port_mask, net_of_one_switch, net_switch_number_named};

use crate::ports::{Ports, net_port_owners};
use base::{Items, has, with};
use std::alloc::{AllocError, AllocFailed, Global};
use std::marker::Model;

/// A switch's name. Contracts see its bytes.
#[derive(Drop)]
pub struct Name {
    bytes: Vec<u8>,
}

impl Model for Name {
    ghost use Rattle.std.specs.Prelude.{List, ℕ};

    ghost Value = { List ℕ };

    ghost view = { λ n. n.bytes.items };
}

/// A switch of a network.
#[derive(Drop)]
pub struct SwitchRow {
    pub name: Name,
    /// The switch's ports: bit p is 1 exactly if it has the port p.
    pub ports: u64,
    /// How many rules the switch has room for as an authority: 0 if it is none.
    pub room: u32,
}

/// A link between two switches, which are named by their numbers.
#[derive(Clone, Copy, Debug, PartialEq, Eq)]
pub struct LinkRow {
    pub one: u32,
    pub two: u32,
}

/// The switches of a network in the order of its text: a switch's number is its place, from 0.
pub type Switches = Items<SwitchRow>;

/// The links of a network in the order of its text.
pub type Links = Items<LinkRow>;

/// A network, with the settings of its plans and its caches.
#[derive(Drop)]
pub struct Net {
    pub switches: Switches,
    pub links: Links,
    /// The most rules of a leaf of a cut tree.
    pub leaf_rules: u32,
    /// How many backups each partition has.
    pub backups: u32,
    /// The most entries of a switch's cache.
    pub cache: u32,
}

impl LinkRow {
    /// Whether the link joins these two switches, in either order.
    pub fn joins(&self, one: u32, two: u32) -> bool
        ensures { result ≡ net_link_joins one two self.now }
    {
        (self.one == one && self.two == two) || (self.one == two && self.two == one)
    }

    // The other end of the link; `None` if neither end is this switch.
    fn other_end(&self, switch: u32) -> Option<u32>
        requires { IsNetLink 64 self.now }
        ensures small { IfSome result (λ other. other < 64) }
        ensures other { IfSome result (λ other. (x : ℕ) → net_link_joins switch x self.now ≡ (x == other)) }
        ensures none { IfNone result ((x : ℕ) → net_link_joins switch x self.now ≡ false) }
    {
        if self.one == switch {
            Some(self.two)
        } else if self.two == switch {
            Some(self.one)
        } else {
            None
        }
    }
}

impl Name {
    /// A copy of these bytes as a name.
    ///
    /// # Errors
    /// Only out of memory.
    pub fn new(alloc: Global, bytes: &[u8]) -> Result<Name, AllocError>
        ensures { IfOk result (λ name. name ≡ bytes.now) }
    {
        let bytes = Vec::from_slice(alloc, bytes)?;
        Ok(Name { bytes })
    }

    /// The name's bytes.
    pub fn bytes(&self) -> &[u8]
        ensures { result.now ≡ self.now }
    {
        &self.bytes
    }
}

// The place of the switch with this name; `None` if no switch has it.
fn net_switch_place(switches: &[SwitchRow], name: &[u8]) -> Option<usize>
    ensures place { result ≡ net_switch_number_named switches.now name.now }
    ensures there { IfSome result (λ place. place < length switches.now) }
{
    switches.iter().position(|row| row.name.bytes() == name)
}

/// The number of the switch with this name; `None` if no switch has it.
pub(crate) fn net_switch_number(switches: &[SwitchRow], name: &[u8]) -> Option<u32>
    requires { length switches.now ≤ 64 }
    ensures { result ≡ net_switch_number_named switches.now name.now }
{
    match net_switch_place(switches, name) {
        Some(place) => Some(place as u32),
        None => None,
    }
}

// The place of the switch that has the port; `None` if no switch has it.
fn port_owner_place(switches: &[SwitchRow], port: u32) -> Option<usize>
    requires { port < 64 }
    ensures place { result ≡ net_port_owner switches.now port }
    ensures there { IfSome result (λ place. place < length switches.now) }
{
    switches.iter().position(|row| has(row.ports, port))
}

/// The number of the switch that has the port; `None` if no switch has it.
pub(crate) fn port_owner_in(switches: &[SwitchRow], port: u32) -> Option<u32>
    requires few { length switches.now ≤ 64 }
    requires port { port < 64 }
    ensures owner { result ≡ net_port_owner switches.now port }
    ensures small { IfSome result (λ owner. owner < 64) }
{
    match port_owner_place(switches, port) {
        Some(place) => Some(place as u32),
        None => None,
    }
}

/// The network of one switch `s0` with all ports, on which a policy's cut tree has one leaf.
///
/// # Errors
/// Only out of memory.
pub fn solo(alloc: Global) -> Result<Net, AllocError>
    ensures net { IfOk result (λ net. net ≡ net_of_one_switch) }
    ensures sound { IfOk result IsNet }
{
    let mut rows = Vec::new(alloc);
    rows.push(SwitchRow {
        name: Name::new(alloc, b"s0")?,
        ports: u64::MAX,
        room: 8192,
    })?;
    Ok(Net {
        switches: Switches::from_items(rows),
        links: Links::new(alloc),
        leaf_rules: 8192,
        backups: 0,
        cache: 256,
    })
}

impl Net {
    /// The number of the switch with this name, or `None` if no switch has it.
    pub fn number(&self, name: &[u8]) -> Option<u32>
        requires { IsNet self.now }
        ensures { result ≡ net_switch_number_named self.now.switches name.now }
    {
        net_switch_number(self.switches.items(), name)
    }

    /// The switches that a link joins to this one, as a mask of their numbers.
    pub fn links_of(&self, switch: u32) -> u64
        requires { IsNet self.now }
        ensures { result ≡ links_of self.now.links switch }
    {
        let mut mask = 0;
        for link in self.links.items() {
            if let Some(other) = link.other_end(switch) {
                mask = with(mask, other);
            }
        }
        mask
    }

    /// All ports of the network, as a mask.
    pub fn port_mask(&self) -> u64
        requires { IsNet self.now }
        ensures { result ≡ port_mask self.now.switches }
    {
        let mut mask = 0;
        for row in self.switches.items() {
            mask |= row.ports;
        }
        mask
    }

    /// Which switch has each port.
    pub fn ports(&self) -> Ports
        requires { IsNet self.now }
        ensures { AreNetPortOwners self.now.switches result }
    {
        net_port_owners(self.switches.items())
    }
}

impl Clone for Name {
    ghost is_clone = { λ name copy. copy ≡ name };

    fn clone(&self) -> Result<Self, AllocError> {
        Name::new(*self.bytes.allocator(), &self.bytes)
    }
}

impl Clone for SwitchRow {
    ghost is_clone = { λ row copy. copy ≡ row };

    fn clone(&self) -> Result<Self, AllocError> {
        Ok(SwitchRow {
            name: self.name.clone()?,
            ports: self.ports,
            room: self.room,
        })
    }
}

impl Clone for Net {
    ghost is_clone = { λ net copy. copy ≡ net };

    fn clone(&self) -> Result<Self, AllocError> {
        Ok(Net {
            switches: self.switches.clone()?,
            links: self.links.clone()?,
            leaf_rules: self.leaf_rules,
            backups: self.backups,
            cache: self.cache,
        })
    }
}
