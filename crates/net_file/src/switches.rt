ghost use Rattle.std.specs.Prelude.{◌≡◌, ◌≤◌, ◌<◌, Ok, [], IfOk, IfErr, IfSome, length, map, is_some, vec_len};
ghost use Rattle.std.specs.List.{list_all};
ghost use Rattle.toml.specs.Data.{as_integer};
ghost use Rattle.toml.specs.View.{table_view, view};
ghost use Rattle.net_file.specs.Exports.{IsNetPortMask, are_net_name_bytes, are_new_net_ports, have_net_switch_name, net_switches_have_port, is_net_label, is_net_name, is_net_name_byte, net_switch_name_at, net_port_bits, toml_port_read, net_switch_ports_at, toml_ports_of, net_row_stated, net_switch_array, net_switch_read, net_switch_with, net_switches_read};
ghost use Rattle.net_file.specs.Outcomes.{IsNetRowRead, toml_seen_values};
ghost use Rattle.base.specs.Refusals.{IsCallRefusal, refusal_in_row};

use crate::error::{NetError, NetRefusal};
use crate::keys::{
    setting_of, toml_array_in, toml_integer_within, toml_table_in, toml_text_in, toml_value_at,
};
use crate::net::{Name, SwitchRow};
use base::{InRow, MAX_SWITCHES, has, with};
use std::alloc::Global;
use toml::{Table, Value};

/// The most rules that a switch has room for.
const MAX_ROOM: u32 = 8192;

/// The most bytes of a name after its first.
const MAX_MORE: usize = 15;

/// The values of the array `switch`. `MissingKey` without the key, `TooMany` if there are more than
/// 64, `Range` if there are none.
pub fn net_switch_array(table: &Table) -> Result<&[Value], NetRefusal>
    ensures values { IsNetRowRead toml_seen_values (net_switch_array (table_view table.now)) result }
    ensures few { IfOk result (λ values. length values.now ≤ 64) }
{
    let Some(value) = toml_value_at(table, "switch") else {
        return Err(NetRefusal::MissingKey);
    };
    let values = toml_array_in(value)?;
    if values.len() > MAX_SWITCHES as usize {
        return Err(NetRefusal::TooMany);
    }
    if values.is_empty() {
        return Err(NetRefusal::Range);
    }
    Ok(values)
}

// Whether the byte may occur in a name.
fn is_name_byte(byte: u8) -> bool
    ensures { result ≡ is_net_name_byte byte }
{
    byte.is_ascii_alphanumeric() || byte == b'_' || byte == b'-'
}

// Whether each byte may occur in a name.
fn are_name_bytes(bytes: &[u8]) -> bool
    ensures { result ≡ are_net_name_bytes bytes.now }
{
    bytes.iter().all(|byte| is_name_byte(*byte))
}

// Whether the bytes are a letter and then up to 15 letters, digits, `_` or `-`.
fn is_net_label(name: &[u8]) -> bool
    ensures { result ≡ is_net_label name.now }
{
    match name {
        [first, more @ ..] => {
            first.is_ascii_alphabetic() && are_name_bytes(more) && more.len() <= MAX_MORE
        }
        [] => false,
    }
}

/// Whether the bytes can be a switch's name: a letter and then up to 15 letters, digits, `_` or
/// `-`, but not `controller`, which is the controller's name in a journal.
pub fn is_name(name: &[u8]) -> bool
    ensures { result ≡ is_net_name name.now }
{
    is_net_label(name) && name != b"controller".as_slice()
}

// The name of a switch; `MissingKey` without the key, `Range` if it can't be a name.
fn read_name(keys: &Table) -> Result<&str, NetRefusal>
    ensures { IsNetRowRead (λ name. name.now) (net_switch_name_at (table_view keys.now)) result }
{
    let Some(value) = toml_value_at(keys, "name") else {
        return Err(NetRefusal::MissingKey);
    };
    let name = toml_text_in(value)?;
    if !is_name(name.as_bytes()) {
        return Err(NetRefusal::Range);
    }
    Ok(name)
}

// The port that a value is, if it is a number from 0 to 63.
fn toml_port_of(value: &Value) -> Option<u32>
    ensures port { result ≡ toml_port_read (view value.now) }
    ensures small { IfSome result (λ port. port < 64) }
{
    toml_integer_within(0, 63, value.as_integer()?)
}

// Whether each value is an integer.
fn are_integers(values: &[Value]) -> bool
    ensures { result ≡ list_all (λ value. is_some (as_integer (view value))) values.now }
{
    values.iter().all(|value| value.is_integer())
}

// Whether each value is a port.
fn are_ports(values: &[Value]) -> bool
    ensures { result ≡ list_all (λ value. is_some (toml_port_read (view value))) values.now }
{
    values.iter().all(|value| toml_port_of(value).is_some())
}

// The values of the array `ports`, each of which is a port; none without the key.
fn read_ports(keys: &Table) -> Result<&[Value], NetRefusal>
    ensures { IsNetRowRead (λ values. toml_ports_of (toml_seen_values values))
        (net_switch_ports_at (table_view keys.now)) result }
{
    let Some(value) = toml_value_at(keys, "ports") else {
        return Ok(&[]);
    };
    let values = toml_array_in(value)?;
    if !are_integers(values) {
        return Err(NetRefusal::WrongType);
    }
    if !are_ports(values) {
        return Err(NetRefusal::Range);
    }
    Ok(values)
}

// Whether one of the switches has the name.
fn have_net_switch_name(rows: &[SwitchRow], name: &[u8]) -> bool
    ensures { result ≡ have_net_switch_name rows.now name.now }
{
    rows.iter().any(|row| row.name.bytes() == name)
}

// The mask of the ports; `None` if one occurs twice or is in `taken`, the earlier ports.
fn new_net_ports(values: &[Value], earlier: &[SwitchRow], taken: u64) -> Option<u64>
    requires { IsNetPortMask taken (net_switches_have_port earlier.now) }
    ensures new { is_some result ≡ are_new_net_ports earlier.now (toml_ports_of (map view values.now)) }
    ensures mask { IfSome result (λ mask. mask ≡ net_port_bits (toml_ports_of (map view values.now))) }
{
    let mut seen = taken;
    let mut ports = 0;
    for value in values {
        if let Some(port) = toml_port_of(value) {
            if has(seen, port) {
                return None;
            }
            seen = with(seen, port);
            ports = with(ports, port);
        }
    }
    Some(ports)
}

// What the keys of a switch state.
struct Stated<'a> {
    name: &'a str,
    ports: u64,
    room: u32,
}

// Reads the keys of a switch. `taken` is the mask of the earlier switches' ports.
fn read_switch_keys<'a>(
    earlier: &[SwitchRow],
    taken: u64,
    keys: &'a Table,
) -> Result<Stated<'a>, NetRefusal>
    requires { IsNetPortMask taken (net_switches_have_port earlier.now) }
    ensures { IsNetRowRead net_row_stated (net_switch_with earlier.now (table_view keys.now)) result }
{
    let name = read_name(keys)?;
    let values = read_ports(keys)?;
    let room = setting_of(keys, "authority", 0, MAX_ROOM, 0)?;
    if have_net_switch_name(earlier, name.as_bytes()) {
        return Err(NetRefusal::DuplicateName);
    }
    let ports = new_net_ports(values, earlier, taken).ok_or(NetRefusal::DuplicatePort)?;
    Ok(Stated { name, ports, room })
}

// The switch that a value states. `taken` is the mask of the earlier switches' ports.
fn read_switch(
    alloc: Global,
    earlier: &[SwitchRow],
    taken: u64,
    value: &Value,
    row: u32,
) -> Result<SwitchRow, NetError>
    requires { IsNetPortMask taken (net_switches_have_port earlier.now) }
    ensures switch { IfOk result (λ switch. net_switch_read earlier.now (view value.now) ≡ Ok switch) }
    ensures refused { IfErr result (IsCallRefusal (refusal_in_row row (net_switch_read earlier.now
        (view value.now)))) }
{
    let keys = match toml_table_in(value) {
        Ok(keys) => keys,
        Err(refusal) => return Err(NetError::Refused(InRow { refusal, row })),
    };
    let Stated { name, ports, room } = match read_switch_keys(earlier, taken, keys) {
        Ok(stated) => stated,
        Err(refusal) => return Err(NetError::Refused(InRow { refusal, row })),
    };
    let name = Name::new(alloc, name.as_bytes())?;
    Ok(SwitchRow { name, ports, room })
}

/// The switches that the values of the array `switch` state.
///
/// # Errors
/// The first refusal, in the row of its switch, or out of memory.
pub fn read_switches(alloc: Global, values: &[Value]) -> Result<Vec<SwitchRow>, NetError>
    requires { length values.now ≤ 64 }
    ensures few { IfOk result (λ rows. vec_len rows ≤ 64) }
    ensures switches { IfOk result (λ rows. net_switches_read (map view values.now) ≡ Ok rows.items) }
    ensures refused { IfErr result (IsCallRefusal (net_switches_read (map view values.now))) }
{
    let mut rows = Vec::new(alloc);
    let mut taken = 0;
    let mut row = 0;
    for value in values {
        row += 1;
        let switch = read_switch(alloc, &rows, taken, value, row)?;
        taken |= switch.ports;
        rows.push(switch)?;
    }
    Ok(rows)
}
