ghost use Rattle.std.specs.Prelude.{◌≡◌, ◌<◌, ◌^◌, All, IfOk, IsTrue, length};
ghost use Rattle.switch_table.specs.Tables.{AreSoundSwitchTables};

use std::alloc::{AllocError, Global};
use std::marker::Model;
use std::rc::Rc;
use switch_table::Tables;
use table_tree::{Finder, TableTrees};

/// No trees are built for a list of this many entries or more.
const MANY: usize = 1 << 32;

/// The tables of a switch for one version, which clones share, and trees for them, which tables of
/// other versions may share. Contracts see the tables.
#[derive(Debug, Drop)]
pub struct SharedTables {
    shared: Rc<Tables>,
    trees: Option<Rc<TableTrees>>,
}

impl Model for SharedTables {
    ghost use Rattle.std.specs.Prelude.{IfSome};
    ghost use Rattle.switch_table.specs.declared.tables.Tables.{Tables};
    ghost use Rattle.table_tree.specs.Finding.{AreTableTreesOf};

    ghost Value = { Tables };

    ghost view = { λ t. t.shared.value };

    ghost invariant = { λ t. IfSome t.trees (λ trees.
        AreTableTreesOf t.shared.value.parts t.shared.value.auth trees.value) };
}

impl SharedTables {
    /// Shares these tables, without trees.
    ///
    /// # Errors
    /// Only out of memory.
    pub fn new(alloc: Global, tables: Tables) -> Result<SharedTables, AllocError>
        ensures { IfOk result (λ shared. shared ≡ tables) }
    {
        let shared = Rc::new(alloc, tables)?;
        Ok(SharedTables {
            shared,
            trees: None,
        })
    }

    /// The same tables with trees: those that they have, or new ones; none if one of their lists
    /// has 2^32 entries or more. Regions that overlap, which sound tables don't have, may get a
    /// tree far larger than their list.
    ///
    /// # Errors
    /// Only out of memory.
    pub fn with_trees(self, alloc: Global) -> Result<SharedTables, AllocError>
        ensures { IfOk result (λ tables. tables ≡ self) }
    {
        if self.trees.is_some() || !can_message_tables_grow_trees(&self.shared) {
            return Ok(self);
        }
        let trees = TableTrees::grow(alloc, self.shared.parts.items(), self.shared.auth.items())?;
        let trees = Rc::new(alloc, trees)?;
        Ok(SharedTables {
            shared: self.shared,
            trees: Some(trees),
        })
    }

    /// The same tables under another version. Partition rules, partitions and trees are shared.
    ///
    /// # Errors
    /// Only out of memory.
    pub fn with_version(&self, alloc: Global, version: u32) -> Result<SharedTables, AllocError>
        ensures { IfOk result (λ tables. tables ≡ record self.now { version = version }) }
    {
        let tables = Tables {
            version,
            parts: self.shared.parts.clone()?,
            auth: self.shared.auth.clone()?,
        };
        let shared = Rc::new(alloc, tables)?;
        let trees = self.trees.as_ref().cloned()?;
        Ok(SharedTables { shared, trees })
    }

    /// The tables.
    pub fn tables(&self) -> &Tables
        ensures { result.now ≡ self.now }
    {
        &self.shared
    }

    /// A finder for the tables. It shares their trees; if there are none, it builds some.
    ///
    /// # Errors
    /// Only out of memory.
    pub fn finder(&self, alloc: Global) -> Result<Finder, AllocError>
        requires { AreSoundSwitchTables self.now }
        ensures { IfOk result (λ finder. finder.tables ≡ self.now) }
    {
        let tables = self.shared.clone()?;
        match &self.trees {
            Some(trees) => Ok(Finder::of(tables, trees.clone()?)),
            None => Finder::build(alloc, tables),
        }
    }
}

impl Clone for SharedTables {
    ghost is_clone = { λ tables copy. copy ≡ tables };

    fn clone(&self) -> Result<SharedTables, AllocError> {
        let shared = self.shared.clone()?;
        let trees = self.trees.as_ref().cloned()?;
        Ok(SharedTables { shared, trees })
    }
}

// Whether trees can be built for the tables: no list has too many entries.
fn can_message_tables_grow_trees(tables: &Tables) -> bool
    ensures parts { IsTrue result → length tables.now.parts < 2 ^ 32 }
    ensures auth { IsTrue result → All (λ part. length part.rules < 2 ^ 32) tables.now.auth }
{
    tables.parts.items().len() < MANY
        && tables
            .auth
            .items()
            .iter()
            .all(|part| part.rules.items().len() < MANY)
}
