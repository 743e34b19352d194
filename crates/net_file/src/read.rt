ghost use Rattle.std.specs.Prelude.{◌≡◌, Ok, Some, IfOk, IfErr, ok_or};
ghost use Rattle.toml.specs.View.{table_view};
ghost use Rattle.net_file.specs.Exports.{IsNet, toml_document_of, net_of, net_read};
ghost use Rattle.base.specs.Refusals.{IsCallRefusal, refusal_in_row};
ghost use Rattle.net_file.specs.declared.error.NetRefusal.TheVariants.{Toml};

use crate::error::{NetError, NetRefusal};
use crate::keys::setting_of;
use crate::links::{net_link_array, read_links};
use crate::net::{Links, Net, Switches};
use crate::switches::{net_switch_array, read_switches};
use std::alloc::Global;
use toml::Table;

// The network that a document states, or its first refusal.
fn read_net_document(alloc: Global, table: &Table) -> Result<Net, NetError>
    ensures net { IfOk result (λ net. net_read (table_view table.now) ≡ Ok net) }
    ensures refused { IfErr result (IsCallRefusal (net_read (table_view table.now))) }
{
    let leaf_rules = setting_of(table, "leaf_rules", 1, 8192, 64)?;
    let backups = setting_of(table, "backups", 0, 3, 0)?;
    let cache = setting_of(table, "cache", 0, 65536, 256)?;
    let switches = read_switches(alloc, net_switch_array(table)?)?;
    let links = read_links(alloc, &switches, net_link_array(table)?)?;
    Ok(Net {
        switches: Switches::from_items(switches),
        links: Links::from_items(links),
        leaf_rules,
        backups,
        cache,
    })
}

// The TOML document of the bytes; `Toml` in row 0 if they are none.
fn read_document(alloc: Global, bytes: &[u8]) -> Result<Table, NetError>
    ensures document { IfOk result (λ table. toml_document_of bytes.now ≡ Some (table_view table)) }
    ensures refused { IfErr result (IsCallRefusal (refusal_in_row 0 (ok_or (toml_document_of bytes.now) Toml))) }
{
    match toml::table_from_slice(alloc, bytes) {
        Ok(table) => Ok(table),
        Err(error) if error.is_memory() => Err(NetError::NoMemory),
        Err(_) => Err(NetRefusal::Toml.into()),
    }
}

/// The network that the text states.
///
/// # Errors
/// The first refusal of the text and its row, or out of memory.
#[tactic(auto, unfolding(crate::specs::Reading::net_of))]
pub fn read_net(alloc: Global, bytes: &[u8]) -> Result<Net, NetError>
    ensures net { IfOk result (λ net. net_of bytes.now ≡ Ok net) }
    ensures refused { IfErr result (IsCallRefusal (net_of bytes.now)) }
    ensures sound { IfOk result IsNet }
{
    read_net_document(alloc, &read_document(alloc, bytes)?)
}
