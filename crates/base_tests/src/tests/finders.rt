//! A finder for the regions of a tree that is cut at bit 71, and on its low side at bit 103.
ghost use Rattle.std.specs.Prelude.{◌≡◌, [], ◌∷◌, false, true, IfOk};
ghost use Rattle.ternary.specs.Meets.{any_word, word_fix_of};
ghost use Rattle.switch_table.specs.Tables.{AreSoundSwitchTables};

use crate::packets::web_header;
use policy_rules::Targets;
use std::alloc::Global;
use std::rc::Rc;
use std::test::Fail;
use switch_table::{Cache, Found, PartRow, PartRows, Partitions, Tables, lookup};
use table_tree::{BitTree, Finder, HeaderBit};
use ternary::{Word, any_laws, word_fix_laws};

// Tables of three regions, of a switch that is no authority.
fn tables(alloc: Global) -> Result<Tables, Fail>
    ensures parts { IfOk result (λ t. t.parts
        ≡ record { region = word_fix_of (word_fix_of any_word 71 false) 103 false; targets = 1 ∷ [] }
        ∷ record { region = word_fix_of (word_fix_of any_word 71 false) 103 true; targets = 1 ∷ [] }
        ∷ record { region = word_fix_of any_word 71 true; targets = 1 ∷ [] } ∷ []) }
    ensures auth { IfOk result (λ t. t.auth ≡ []) }
{
    any_laws();
    word_fix_laws();
    let low = Word::any().fix(71, false);
    let targets = Targets::new(&[1]).ok_or("targets")?;
    let mut rows = Vec::new(alloc);
    rows.push(PartRow {
        region: low.fix(103, false),
        targets,
    })?;
    rows.push(PartRow {
        region: low.fix(103, true),
        targets,
    })?;
    rows.push(PartRow {
        region: Word::any().fix(71, true),
        targets,
    })?;
    Ok(Tables {
        version: 1,
        parts: PartRows::new(rows)?,
        auth: Partitions::new(Vec::new(alloc))?,
    })
}

#[tactic(auto, using(crate::proofs::BaseTestTables::sound_thirds))]
fn shared(alloc: Global) -> Result<Rc<Tables>, Fail>
    ensures { IfOk result (λ t. AreSoundSwitchTables t.value) }
{
    let tables = tables(alloc)?;
    Ok(Rc::new(alloc, tables)?)
}

// The bit of the tree's first cut, and of the first one on its low side.
fn first_cuts(tree: &BitTree<u32>) -> Option<(HeaderBit, HeaderBit)> {
    match tree {
        BitTree::End(_) => None,
        BitTree::Cut { bit, low, .. } => match low.as_ref() {
            BitTree::End(_) => None,
            BitTree::Cut { bit: next, .. } => Some((*bit, *next)),
        },
    }
}

#[test]
fn regions_are_found_by_two_bits(rt: HostRuntime) -> Result<(), Fail> {
    let alloc = rt.alloc();
    let tables = shared(alloc)?;
    let finder = Finder::build(alloc, tables.clone()?)?;
    assert!(rt; first_cuts(finder.tree()) == Some((HeaderBit::new(71), HeaderBit::new(103))));
    let cache = Cache::new(alloc, 4);
    for (header, place) in [
        (web_header(1, 2), 0),
        (web_header(0x80000001, 2), 1),
        (web_header(1, 0x80000002), 2),
    ] {
        let by_tree = part_of(&finder.lookup(&cache, &header));
        let by_scan = part_of(&lookup(&cache, &tables, &header));
        assert!(rt; by_tree == Some(place) && by_scan == Some(place));
    }
    Ok(())
}

fn part_of(found: &Found) -> Option<u32> {
    match found {
        Found::Redirect { partition, .. } => Some(*partition),
        _ => None,
    }
}
