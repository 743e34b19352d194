ghost use Rattle.std.specs.Prelude.{◌≡◌, ◌<◌, ◌^◌, ◌==◌, IfOk, IfSome, IsSomeAnd, IsTrue, find, position, slice_get};
ghost use Rattle.std.specs.Option.{option_and_then};
ghost use Rattle.five_tuple.specs.Header.{IsHeader, header_number_of};
ghost use Rattle.policy_rules.specs.Exports.{is_held_by_policy_rule, is_in_policy_partition};
ghost use Rattle.switch_table.specs.Lookup.{switch_table_lookup_of, switch_table_lookup};
ghost use Rattle.switch_table.specs.Tables.{AreSoundSwitchTables};
ghost use Rattle.table_tree.specs.Finding.{AreTableTreesOf, IsTableFinderTree, table_tree_candidate_shape};

use crate::bit_tree::BitTree;
use crate::trees::TableTrees;
use five_tuple::{Header, header_laws};
use policy_rules::Partition;
use std::alloc::{AllocError, Global};
use std::marker::Model;
use std::rc::Rc;
use switch_table::{Cache, Found, Tables};
use ternary::{holds_laws, meet_laws};

/// The tables of a switch for one version, with trees for them: both may be shared. Contracts see
/// the tables and the tree over their partition rules.
#[derive(Drop)]
pub struct Finder {
    tables: Rc<Tables>,
    trees: Rc<TableTrees>,
}

impl Model for Finder {
    ghost use Rattle.std.specs.Borrow.{u32};
    ghost use Rattle.std.specs.Coded.{codes};
    ghost use Rattle.table_tree.specs.Finding.{TableTreeFinderValue, IsTableTreeFinder};
    ghost use Rattle.table_tree.specs.contracts.bit_tree.BitTree.{the_row};

    ghost Value = { TableTreeFinderValue };

    ghost coded = { Prim.hlevel (codes, (the_row u32).coded) };

    ghost view = { λ f. record { tables = f.tables.value; tree = f.trees.value.tree } };

    ghost invariant = { λ f.
        IsTableTreeFinder (record { tables = f.tables.value; tree = f.trees.value.tree })
        f.trees.value.rule_trees.items };
}

impl Finder {
    /// A finder for these tables. Each cut of its tree separates the regions that are left at the
    /// least bit that each of them fixes or, if there is none, the least that some region fixes.
    ///
    /// # Errors
    /// Only out of memory.
    pub fn build(alloc: Global, tables: Rc<Tables>) -> Result<Finder, AllocError>
        requires { AreSoundSwitchTables tables.value }
        ensures tables { IfOk result (λ finder. finder.tables ≡ tables.value) }
        ensures tree { IfOk result (λ finder. IsTableFinderTree tables.value.parts
            (table_tree_candidate_shape finder.tree)) }
    {
        let trees = TableTrees::grow(alloc, tables.parts.items(), tables.auth.items())?;
        let trees = Rc::new(alloc, trees)?;
        Ok(Finder::of(tables, trees))
    }

    /// The finder of these tables, with trees that were built for the same rows and partitions.
    pub fn of(tables: Rc<Tables>, trees: Rc<TableTrees>) -> Finder
        requires sound { AreSoundSwitchTables tables.value }
        requires trees { AreTableTreesOf tables.value.parts tables.value.auth trees.value }
        ensures tables { result.tables ≡ tables.value }
        ensures tree { IsTableFinderTree tables.value.parts (table_tree_candidate_shape result.tree) }
    {
        header_laws();
        holds_laws();
        meet_laws();
        Finder { tables, trees }
    }

    /// Looks a header up, as `switch_table::lookup` does: the first cached rule of the tables'
    /// version that holds it, otherwise the first authority rule that holds it, otherwise the
    /// partition rule that does. It allocates nothing.
    pub fn lookup(&self, cache: &Cache, header: &Header) -> Found
        ensures { result ≡ switch_table_lookup_of cache.now.entries self.now.tables header.now }
    {
        match cache.first_entry(self.tables().version, header.number()) {
            Some(entry) => Found::Cached(entry),
            None => self.table_lookup(header),
        }
    }

    /// The tables that it was built from.
    pub fn tables(&self) -> &Tables
        ensures { result.now ≡ self.now.tables }
    {
        &self.tables
    }

    /// The tree over the partition rules.
    pub fn tree(&self) -> &BitTree<u32>
        ensures { result.now ≡ self.now.tree }
    {
        &self.trees.tree
    }

    /// The place of the first rule that holds the header, in the authority partition of this
    /// number; `None` if no rule holds it. It allocates nothing.
    pub fn first(&self, partition: u32, header: &Header) -> Option<usize>
        requires { IsSomeAnd (find (λ part. part.number == partition) self.now.tables.auth)
            (λ part. IsTrue (is_in_policy_partition header.now part)) }
        ensures place { result ≡ option_and_then
            (λ part. position (is_held_by_policy_rule (header_number_of header.now)) part.rules)
            (find (λ part. part.number == partition) self.now.tables.auth) }
        ensures small { IfSome result (λ place. place < 2 ^ 32) }
        ensures sound { AreSoundSwitchTables self.now.tables }
        ensures header { IsHeader header.now }
    {
        // For the proof: the contract of `number` says that it is a header.
        let _ = header.number();
        match table_tree_part_place(self.tables.auth.items(), partition) {
            Some(own) => self.first_at(own, header),
            None => None,
        }
    }

    // The same, in the authority partition at this place of the list.
    fn first_at(&self, own: usize, header: &Header) -> Option<usize>
        requires { IsSomeAnd (slice_get self.now.tables.auth own)
            (λ part. IsTrue (is_in_policy_partition header.now part)) }
        ensures place { result ≡ option_and_then
            (λ part. position (is_held_by_policy_rule (header_number_of header.now)) part.rules)
            (slice_get self.now.tables.auth own) }
        ensures small { IfSome result (λ place. place < 2 ^ 32) }
    {
        let part = &self.tables.auth.items()[own];
        self.trees.rule_trees[own].first(part.rules.items(), header)
    }

    // What the tables say about the header.
    fn table_lookup(&self, header: &Header) -> Found
        ensures { result ≡ switch_table_lookup self.now.tables header.now }
    {
        let place = *self.trees.tree.end_of(header.number());
        match table_tree_part_place(self.tables.auth.items(), place) {
            Some(own) => Found::Authority {
                partition: place,
                rule: self.first_at(own, header).unwrap_or(0) as u32,
            },
            None => Found::Redirect {
                partition: place,
                targets: self.tables.parts.items()[place as usize].targets,
            },
        }
    }
}

// The place of the partition of this number; `None` if there is none.
fn table_tree_part_place(parts: &[Partition], number: u32) -> Option<usize>
    ensures { result ≡ position (λ part. part.number == number) parts.now }
{
    parts.iter().position(|part| part.number == number)
}
