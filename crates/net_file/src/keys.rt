ghost use Rattle.std.specs.Prelude.{◌≡◌, option_map};
ghost use Rattle.toml.specs.Data.{as_str, as_table, get_member};
ghost use Rattle.toml.specs.View.{table_view, view};
ghost use Rattle.net_file.specs.Exports.{toml_array_in, toml_integer_stated, net_value_of_type, net_number_or_default, toml_integer_within};
ghost use Rattle.net_file.specs.Outcomes.{IsNetRowRead, toml_seen_values};

use crate::error::NetRefusal;
use toml::{Table, Value};

/// The value at a key of a table, if there is one.
pub fn toml_value_at<'a>(table: &'a Table, key: &str) -> Option<&'a Value>
    ensures { option_map (λ v. view v.now) result ≡ get_member key.now (table_view table.now) }
{
    table.get(key)
}

/// The number, if it is from `low` to `high`; otherwise `None`.
pub fn toml_integer_within(low: u32, high: u32, number: i64) -> Option<u32>
    ensures { result ≡ toml_integer_within low high number }
{
    if number < low as i64 || (high as i64) < number {
        return None;
    }
    Some(number as u32)
}

/// The integer that a value is; `WrongType` for any other value, `Range` if it is out of range.
pub fn toml_integer_stated(low: u32, high: u32, value: &Value) -> Result<u32, NetRefusal>
    ensures { result ≡ toml_integer_stated low high (view value.now) }
{
    let number = value.as_integer().ok_or(NetRefusal::WrongType)?;
    toml_integer_within(low, high, number).ok_or(NetRefusal::Range)
}

/// The number at a key, as `toml_integer_stated` reads it, or the default if the key is absent.
pub fn setting_of(
    table: &Table,
    key: &str,
    low: u32,
    high: u32,
    default: u32,
) -> Result<u32, NetRefusal>
    ensures { result ≡ net_number_or_default (table_view table.now) key.now low high default }
{
    match toml_value_at(table, key) {
        Some(value) => toml_integer_stated(low, high, value),
        None => Ok(default),
    }
}

/// The values of an array; `WrongType` for any other value.
pub fn toml_array_in(value: &Value) -> Result<&[Value], NetRefusal>
    ensures { IsNetRowRead toml_seen_values (toml_array_in (view value.now)) result }
{
    match value.as_array() {
        Some(values) => Ok(values.as_slice()),
        None => Err(NetRefusal::WrongType),
    }
}

/// The keys of a table; `WrongType` for any other value.
pub fn toml_table_in(value: &Value) -> Result<&Table, NetRefusal>
    ensures { IsNetRowRead (λ keys. table_view keys.now) (net_value_of_type (as_table (view value.now))) result }
{
    match value.as_table() {
        Some(keys) => Ok(keys),
        None => Err(NetRefusal::WrongType),
    }
}

/// The text that a value is; `WrongType` for any other value.
pub fn toml_text_in(value: &Value) -> Result<&str, NetRefusal>
    ensures { IsNetRowRead (λ text. text.now) (net_value_of_type (as_str (view value.now))) result }
{
    match value.as_str() {
        Some(text) => Ok(text),
        None => Err(NetRefusal::WrongType),
    }
}
