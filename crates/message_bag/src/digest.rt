//! A hash by which tables of the same rows are found.
use switch_table::Tables;

/// An odd factor that spreads small numbers.
const FACTOR: usize = 2_654_435_769;

/// A hash that is the same for all tables of the same rows and partitions, whatever their version.
/// It is made of how many rows there are, and of each partition's number and count of rules.
pub fn bag_tables_digest_of(tables: &Tables) -> usize {
    let mut digest = tables.parts.items().len();
    for part in tables.auth.items() {
        digest = digest
            .wrapping_mul(FACTOR)
            .wrapping_add(part.number as usize)
            .wrapping_mul(FACTOR)
            .wrapping_add(part.rules.items().len());
    }
    digest
}
