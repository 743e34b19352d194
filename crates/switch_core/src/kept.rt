ghost use Rattle.std.specs.Prelude.{◌≡◌, IfOk, IsSomeAnd, IsTrue};
ghost use Rattle.policy_rules.specs.Hosted.{is_in_policy_partition};
ghost use Rattle.switch_table.specs.Tables.{AreSoundSwitchTables};
ghost use Rattle.switch_core.specs.Deciding.{IsSwitchFirstHit, switch_own_rule_place, switch_own_partition, switch_core_partition_numbered};

use ctrl_msg::SharedTables;
use five_tuple::Header;
use std::alloc::{AllocError, Global};
use std::marker::Model;
use table_tree::Finder;

/// The tables of one version, with the trees that lead to a header's rules in them. Contracts see
/// the tables.
#[derive(Drop)]
pub struct SwitchKeptTables {
    finder: Finder,
}

impl Model for SwitchKeptTables {
    ghost use Rattle.switch_table.specs.declared.tables.Tables.{Tables};

    ghost Value = { Tables };

    ghost view = { λ k. k.finder.tables };
}

impl SwitchKeptTables {
    /// These tables, with their trees, or with new ones if they have none.
    ///
    /// # Errors
    /// Only out of memory.
    pub fn new(alloc: Global, tables: &SharedTables) -> Result<SwitchKeptTables, AllocError>
        requires { AreSoundSwitchTables tables.now }
        ensures { IfOk result (λ kept. kept ≡ tables.now) }
    {
        let finder = tables.finder(alloc)?;
        Ok(SwitchKeptTables { finder })
    }

    /// The finder, which looks headers up in the tables by their trees.
    pub fn finder(&self) -> &Finder
        ensures { result.now.tables ≡ self.now }
    {
        &self.finder
    }

    /// The version of the tables.
    pub fn version(&self) -> u32
        ensures { result ≡ self.now.version }
    {
        self.finder.tables().version
    }

    /// The place of the first rule that holds the header, in the own partition of this number.
    pub fn first_place(&self, partition: u32, header: &Header) -> u32
        requires { IsSomeAnd (switch_own_partition self.now partition) (λ part. IsTrue (is_in_policy_partition header.now part)) }
        ensures place { result ≡ switch_own_rule_place header.now (switch_core_partition_numbered self.now partition) }
        ensures first { IsSwitchFirstHit header.now (switch_core_partition_numbered self.now partition) result }
    {
        let place = self.finder.first(partition, header).unwrap();
        place as u32
    }
}
