ghost use Rattle.std.specs.Prelude.{◌≡◌, ◌++◌, OnOk, IsTrue};
ghost use Rattle.std.specs.String.{string_bytes};
ghost use Rattle.net_file.specs.Net.{IsNet, is_net_name, net_switch_name_of, net_switch_names_text};

use crate::net::Net;
use std::alloc::AllocError;
use std::fmt::Write;
use std::str;

impl Net {
    /// The name of the switch of this number, or an empty text if there is no such switch.
    pub fn name(&self, s: u32) -> &str
        requires { IsNet self.now }
        ensures { result.now ≡ net_switch_name_of self.now s }
    {
        match self.switches.items().get(s as usize) {
            Some(row) => net_name_text(row.name.bytes()),
            None => "",
        }
    }

    /// Adds the names of switches to a text, each after a blank.
    ///
    /// # Errors
    /// Only out of memory.
    pub fn push_names(&self, text: &mut String, switches: &[u32]) -> Result<(), AllocError>
        requires { IsNet self.now }
        ensures { OnOk result (string_bytes text.new
            ≡ string_bytes text.old ++ net_switch_names_text self.now switches.now) }
    {
        for s in switches {
            let name = self.name(*s);
            write!(text, " {name}")?;
        }
        Ok(())
    }
}

// A name as text.
#[tactic(auto, using(crate::proofs::NetFileNames::name_is_text))]
fn net_name_text(name: &[u8]) -> &str
    requires { IsTrue (is_net_name name.now) }
    ensures { result.now ≡ name.now }
{
    match str::from_utf8(name) {
        Ok(text) => text,
        Err(_) => unreachable!(),
    }
}
