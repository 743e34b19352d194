ghost use Rattle.std.specs.Prelude.{◌≡◌, ◌<◌, IfOk};
ghost use Rattle.schedule.specs.Case.{load_case_links, load_case_net, load_case_switch_row};
ghost use Rattle.net_file.specs.Net.{IsNet};

use net_file::{LinkRow, Links, Name, Net, SwitchRow, Switches};
use std::alloc::{AllocError, Global};

/// The network of each case: a ring of eight switches with two more links.
///
/// # Errors
/// Only out of memory.
pub fn net(alloc: Global) -> Result<Net, AllocError>
    ensures net { IfOk result (λ net. net ≡ load_case_net) }
    ensures sound { IfOk result IsNet }
{
    let net = schedule_load_case_ring(alloc)?;
    Ok(net)
}

#[tactic(auto, using(crate::proofs::LoadCaseNetworks::switches_more))]
fn schedule_load_case_ring(alloc: Global) -> Result<Net, AllocError>
    ensures { IfOk result (λ net. net ≡ load_case_net) }
{
    let mut rows = Vec::new(alloc);
    for i in 0..8 {
        rows.push(switch(alloc, i)?)?;
    }
    Ok(Net {
        switches: Switches::from_items(rows),
        links: links(alloc)?,
        leaf_rules: 32,
        backups: 1,
        cache: 16,
    })
}

// The switch `ni`, which has the port i.
fn switch(alloc: Global, i: u32) -> Result<SwitchRow, AllocError>
    requires { i < 8 }
    ensures { IfOk result (λ row. row ≡ load_case_switch_row i) }
{
    let bytes = [b'n', b'0' + i as u8];
    let is_authority = i == 1 || i == 5;
    Ok(SwitchRow {
        name: Name::new(alloc, bytes.as_slice())?,
        ports: 1 << i,
        room: if is_authority { 8192 } else { 0 },
    })
}

fn links(alloc: Global) -> Result<Links, AllocError>
    ensures { IfOk result (λ links. links ≡ load_case_links) }
{
    let rows = [
        LinkRow { one: 0, two: 1 },
        LinkRow { one: 1, two: 2 },
        LinkRow { one: 2, two: 3 },
        LinkRow { one: 3, two: 4 },
        LinkRow { one: 4, two: 5 },
        LinkRow { one: 5, two: 6 },
        LinkRow { one: 6, two: 7 },
        LinkRow { one: 0, two: 7 },
        LinkRow { one: 0, two: 4 },
        LinkRow { one: 2, two: 6 },
    ];
    let rows = Vec::from_slice(alloc, rows.as_slice())?;
    Ok(Links::from_items(rows))
}
