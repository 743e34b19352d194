ghost use Rattle.std.specs.Prelude.{◌≡◌, ◌^◌, ◌<◌, length, find, position, count_by};
ghost use Rattle.std.specs.Option.{option_copied};
ghost use Rattle.ternary.specs.Word.{holds};
ghost use Rattle.switch_table.specs.Tables.{AreSoundSwitchTables, switch_table_part_row_has};
ghost use Rattle.switch_table.specs.Lookup.{SwitchTablesLaws, switch_table_authority_of, switch_table_redirect_of, switch_table_lookup_of};

use crate::cache::{Cache, CacheEntry};
use crate::tables::{PartRow, Tables};
use five_tuple::Header;
use policy_rules::{Partition, Targets, first_hit};

/// What a switch finds for a header.
#[derive(Clone, Copy, Debug, PartialEq, Eq)]
pub enum Found {
    /// A cached rule decides it.
    Cached(CacheEntry),
    /// An authority rule decides it: the number of its partition, and its place in that partition's
    /// rules, from 0.
    Authority { partition: u32, rule: u32 },
    /// The targets of the partition of this number decide it.
    Redirect { partition: u32, targets: Targets },
}

/// Looks a header up: the first cached rule of the tables' version that holds it, otherwise the
/// first authority rule that holds it, otherwise the partition rule that does.
pub fn lookup(cache: &Cache, tables: &Tables, header: &Header) -> Found
    requires { AreSoundSwitchTables tables.now }
    ensures { result ≡ switch_table_lookup_of cache.now.entries tables.now header.now }
{
    let number = header.number();
    if let Some(entry) = cache.first_entry(tables.version, number) {
        return Found::Cached(entry);
    }
    match own_part(tables.auth.items(), number) {
        Some(part) => authority(part, header),
        None => switch_table_redirect(tables.parts.items(), header),
    }
}

// The first partition whose region holds this header number; `None` if none does.
fn own_part(parts: &[Partition], number: u128) -> Option<&Partition>
    ensures { option_copied result ≡ find (λ part. holds part.region number) parts.now }
{
    parts.iter().find(|part| part.region.holds(number))
}

// Decides by the first rule of the partition that holds the header.
fn authority(part: &Partition, header: &Header) -> Found
    requires { length part.now.rules < 2 ^ 32 }
    ensures { result ≡ switch_table_authority_of header.now part.now }
{
    let place = first_hit(part.rules.items(), header).unwrap_or(0);
    Found::Authority {
        partition: part.number,
        rule: place as u32,
    }
}

// Redirects to the targets of the row whose region holds the header.
fn switch_table_redirect(rows: &[PartRow], header: &Header) -> Found
    requires one { count_by (switch_table_part_row_has header.now) rows.now ≡ 1 }
    requires few { length rows.now < 2 ^ 32 }
    ensures { result ≡ switch_table_redirect_of header.now rows.now }
{
    let place = switch_part_row_place(rows, header.number()).unwrap();
    Found::Redirect {
        partition: place as u32,
        targets: rows[place].targets,
    }
}

fn switch_part_row_place(rows: &[PartRow], number: u128) -> Option<usize>
    ensures { result ≡ position (λ row. holds row.region number) rows.now }
{
    rows.iter().position(|row| row.region.holds(number))
}

/// Tables of a plan of sound partitions, whose last rules cover their regions, are sound. They lead
/// each header to the policy's first match, by a switch's own authority rules or by those of any
/// target. They name the partition that holds it. A law about the definitions only.
pub fn tables_laws()
    ensures { SwitchTablesLaws }
{}
