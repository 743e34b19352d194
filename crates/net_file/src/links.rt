ghost use Rattle.std.specs.Prelude.{◌≡◌, ◌≤◌, ◌<◌, Ok, [], IfOk, IfErr, length, map, Err};
ghost use Rattle.toml.specs.View.{table_view, view};
ghost use Rattle.net_file.specs.Exports.{are_linked_in_net, net_link_end_read, toml_ends_in, net_link_array, net_link_of, net_links_in};
ghost use Rattle.net_file.specs.Outcomes.{IsNetRowRead, toml_seen_values};
ghost use Rattle.base.specs.Refusals.{IsCallRefusal};

use crate::error::{NetError, NetRefusal};
use crate::keys::{toml_array_in, toml_table_in, toml_value_at};
use crate::net::{LinkRow, SwitchRow, net_switch_number};
use base::InRow;
use std::alloc::Global;
use toml::{Table, Value};

/// The row of the k-th link, counted from 1, is this plus k.
const LINK_ROWS: u32 = 100;

/// The most links of a network.
const MAX_LINKS: usize = 256;

/// The values of the array `link`; none without the key. `TooMany` if there are more than 256.
pub fn net_link_array(table: &Table) -> Result<&[Value], NetRefusal>
    ensures values { IsNetRowRead toml_seen_values (net_link_array (table_view table.now)) result }
    ensures few { IfOk result (λ values. length values.now ≤ 256) }
{
    let Some(value) = toml_value_at(table, "link") else {
        return Ok(&[]);
    };
    let values = toml_array_in(value)?;
    if values.len() > MAX_LINKS {
        return Err(NetRefusal::TooMany);
    }
    Ok(values)
}

// The two names that a value states; `WrongType` for any other value.
fn toml_ends_in(value: &Value) -> Result<(&str, &str), NetRefusal>
    ensures { IsNetRowRead (λ ends. (ends.0.now, ends.1.now)) (toml_ends_in (view value.now)) result }
{
    let [one, two] = toml_array_in(value)? else {
        return Err(NetRefusal::WrongType);
    };
    match (one.as_str(), two.as_str()) {
        (Some(one), Some(two)) => Ok((one, two)),
        _ => Err(NetRefusal::WrongType),
    }
}

// The number of the switch with this name; `UnknownName` if there is none.
fn net_file_link_end(switches: &[SwitchRow], name: &str) -> Result<u32, NetRefusal>
    requires { length switches.now ≤ 64 }
    ensures { result ≡ net_link_end_read switches.now name.now }
{
    net_switch_number(switches, name.as_bytes()).ok_or(NetRefusal::UnknownName)
}

// Whether one of the links joins these two switches.
fn are_linked_in_net(links: &[LinkRow], one: u32, two: u32) -> bool
    ensures { result ≡ are_linked_in_net links.now one two }
{
    links.iter().any(|link| link.joins(one, two))
}

// The link that a value states, or its first refusal; `earlier` are the links before it.
fn read_net_link(
    switches: &[SwitchRow],
    earlier: &[LinkRow],
    value: &Value,
) -> Result<LinkRow, NetRefusal>
    requires { length switches.now ≤ 64 }
    ensures { result ≡ net_link_of switches.now earlier.now (view value.now) }
{
    let Some(value) = toml_value_at(toml_table_in(value)?, "ends") else {
        return Err(NetRefusal::MissingKey);
    };
    let (one, two) = toml_ends_in(value)?;
    let one = net_file_link_end(switches, one)?;
    let two = net_file_link_end(switches, two)?;
    if one == two {
        return Err(NetRefusal::SelfLink);
    }
    if are_linked_in_net(earlier, one, two) {
        return Err(NetRefusal::DuplicateLink);
    }
    Ok(LinkRow { one, two })
}

/// The links that the values of the array `link` state.
///
/// # Errors
/// The first refusal, in the row of its link, or out of memory.
pub fn read_links(
    alloc: Global,
    switches: &[SwitchRow],
    values: &[Value],
) -> Result<Vec<LinkRow>, NetError>
    requires few_switches { length switches.now ≤ 64 }
    requires few_links { length values.now ≤ 256 }
    ensures links { IfOk result (λ rows.
        net_links_in switches.now (map view values.now) ≡ Ok rows.items) }
    ensures refused { IfErr result (IsCallRefusal (net_links_in switches.now (map view values.now))) }
{
    let mut rows = Vec::new(alloc);
    let mut row = LINK_ROWS;
    for value in values {
        row += 1;
        let link = match read_net_link(switches, &rows, value) {
            Ok(link) => link,
            Err(refusal) => return Err(NetError::Refused(InRow { refusal, row })),
        };
        rows.push(link)?;
    }
    Ok(rows)
}
