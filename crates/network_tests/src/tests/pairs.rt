//! A pair of switches, and the header of a packet that enters at the first one.
ghost use Rattle.std.specs.Prelude.{IfOk};
ghost use Rattle.five_tuple.specs.Header.{IsHeader};
ghost use Rattle.net_file.specs.Net.{IsNet};

use five_tuple::{Fields, Header};
use net_file::{Net, read_net};
use std::alloc::Global;
use std::test::Fail;

/// Two switches and the link between them, of which b decides.
pub fn pair(alloc: Global) -> Result<Net, Fail>
    ensures { IfOk result IsNet }
{
    let text = "switch = [{ name = \"a\" }, { name = \"b\", authority = 100 }]\n\
        link = [{ ends = [\"a\", \"b\"] }]\n";
    Ok(read_net(alloc, text.as_bytes())?)
}

/// From 1.2.3.4 to port 80 of 10.2.0.1.
pub fn header() -> Header
    ensures { IsHeader result }
{
    Header::pack(&Fields {
        src: 0x0102_0304,
        dst: 0x0a02_0001,
        sport: 5000,
        dport: 80,
        proto: 6,
    })
}
