ghost use Rattle.std.specs.Prelude.{◌≡◌, ◌<◌, ◌+◌, List, IfOk, IfSome, OnOk, length, position};
ghost use Rattle.policy_rules.specs.Exports.{IsFirstPolicyMatch, IsPolicy};
ghost use Rattle.policy_rules.specs.declared.policy.Hit.{Hit};
ghost use Rattle.policy_rules.specs.declared.policy.Row.{Row};
ghost use Rattle.trace_audit.specs.Index.{AreAuditShapesOf, HasAuditShape, IsBestAuditHit, IsBetterAuditHit, IsAuditIndexOf, IsAuditIndexUpTo, AuditIndexNotes, audit_better_index_hit, is_audit_index_shape, audit_shape_of_row, audit_index_slot_of, audit_slot_of_row};

use five_tuple::{Fields, Header, Prefix};
use policy_rules::{Hit, Policy, Row, policy_laws};
use std::alloc::{AllocError, Global};
use std::marker::Model;

/// The lengths of a row's blocks of source and destination addresses.
#[derive(Clone, Copy)]
pub(crate) struct Shape {
    pub src: u32,
    pub dst: u32,
}

/// How many slots an index has.
const SLOTS: usize = 4096;

/// An index is made only if there are at least this many rows for each shape.
const ROWS_A_SHAPE: usize = 16;

/// The rows of a policy by their blocks of addresses, so that few are compared with a header:
/// tuple space search (Srinivasan, Suri, Varghese, "Packet Classification using Tuple Space
/// Search"). Each shape has its own share of the slots, and a header is looked up in one slot of
/// each share. So it is compared with no row twice, whatever the rows are.
#[derive(Drop)]
pub(crate) struct AuditIndex {
    // The shapes of the rows, each once.
    shapes: Vec<Shape>,
    // For each slot its last row, by its place in the policy.
    last: Vec<Option<u32>>,
    // For each row the last one before it in its slot.
    earlier: Vec<Option<u32>>,
}

/// A submitted policy, with an index of its rows if they have few shapes. Contracts see the rows.
#[derive(Drop)]
pub(crate) struct IndexedAuditPolicy {
    policy: Policy,
    index: Option<AuditIndex>,
}

impl Model for IndexedAuditPolicy {
    ghost use Rattle.std.specs.Prelude.{List, IfSome};
    ghost use Rattle.policy_rules.specs.declared.policy.Row.{Row};
    ghost use Rattle.trace_audit.specs.Index.{IsAuditIndexOf};

    ghost Value = { List Row };

    ghost view = { λ version. version.policy };

    ghost invariant = { λ version. IfSome version.index (IsAuditIndexOf version.policy) };
}

// The slot of blocks that begin with these addresses, of the shape at this place.
fn audit_index_slot(shapes: &[Shape], place: usize, src: u32, dst: u32) -> usize
    requires { place < length shapes.now }
    ensures slot { result ≡ audit_index_slot_of (length shapes.now) place src dst }
    ensures bound { result < 4096 }
{
    let mixed = src
        .wrapping_mul(2_654_435_769)
        .wrapping_add(dst.wrapping_mul(2_246_822_519));
    let share = SLOTS / shapes.len();
    place * share + ((u64::from(mixed) * share as u64) >> 32) as usize
}

// The place of the shape among the others, if it is one of them.
fn place_of(shapes: &[Shape], shape: Shape) -> Option<usize>
    ensures { result ≡ position (is_audit_index_shape shape) shapes.now }
{
    shapes
        .iter()
        .position(|other| other.src == shape.src && other.dst == shape.dst)
}

fn audit_slot_of_row(shapes: &[Shape], row: &Row) -> usize
    requires { HasAuditShape shapes.now row.now }
    ensures slot { result ≡ audit_slot_of_row shapes.now row.now }
    ensures bound { result < 4096 }
{
    let place = place_of(shapes, Shape::of(row)).unwrap();
    audit_index_slot(shapes, place, row.src.address, row.dst.address)
}

// The better of the row, if it matches, and the hit.
fn better(row: &Row, fields: &Fields, hit: Hit) -> Hit
    ensures { result ≡ audit_better_index_hit row.now fields.now hit }
{
    let exceeds = match hit.rule {
        None => true,
        Some(priority) => priority < row.priority,
    };
    if exceeds && row.matches(fields) {
        Hit::of(row)
    } else {
        hit
    }
}

impl Shape {
    fn of(row: &Row) -> Shape
        ensures { result ≡ audit_shape_of_row row.now }
    {
        Shape {
            src: row.src.len,
            dst: row.dst.len,
        }
    }
}

// Adds the shape unless it is among these.
fn note(shapes: &mut Vec<Shape>, shape: Shape) -> Result<(), AllocError>
    ensures { OnOk result (AuditIndexNotes shapes.old.items shape shapes.new.items) }
{
    if place_of(shapes, shape).is_none() {
        shapes.push(shape)?;
    }
    Ok(())
}

// The shapes of the rows; `None` if there are too many of them for an index.
fn audit_row_shapes_of(alloc: Global, rows: &[Row]) -> Result<Option<Vec<Shape>>, AllocError>
    requires { IsPolicy rows.now }
    ensures { IfOk result (λ some. IfSome some (λ shapes. AreAuditShapesOf rows.now shapes.items)) }
{
    let most = rows.len() / ROWS_A_SHAPE;
    let mut shapes = Vec::new(alloc);
    for row in rows {
        note(&mut shapes, Shape::of(row))?;
        if shapes.len() > most {
            return Ok(None);
        }
    }
    Ok(Some(shapes))
}

impl AuditIndex {
    fn new(alloc: Global, shapes: Vec<Shape>) -> Result<AuditIndex, AllocError>
        ensures { (rows : List Row) → AreAuditShapesOf rows shapes.items
            → IfOk result (IsAuditIndexUpTo rows 0) }
    {
        Ok(AuditIndex {
            shapes,
            last: vec![in alloc; None; SLOTS]?,
            earlier: Vec::new(alloc),
        })
    }

    // Adds the row at this place.
    fn add(&mut self, rows: &[Row], place: u32) -> Result<(), AllocError>
        requires place { place < length rows.now }
        requires index { IsAuditIndexUpTo rows.now place self.old }
        ensures { OnOk result (IsAuditIndexUpTo rows.now (place + 1) self.new) }
    {
        let slot = audit_slot_of_row(&self.shapes, &rows[place as usize]);
        let before = self.last[slot];
        self.earlier.push(before)?;
        self.last[slot] = Some(place);
        Ok(())
    }

    // An index of the rows, if they have few shapes: with more, a scan costs less.
    fn of(alloc: Global, rows: &[Row]) -> Result<Option<AuditIndex>, AllocError>
        requires { IsPolicy rows.now }
        ensures { IfOk result (λ some. IfSome some (IsAuditIndexOf rows.now)) }
    {
        let Some(shapes) = audit_row_shapes_of(alloc, rows)? else {
            return Ok(None);
        };
        let mut index = AuditIndex::new(alloc, shapes)?;
        for place in 0..rows.len() as u32 {
            index.add(rows, place)?;
        }
        Ok(Some(index))
    }

    // The best of the hit and of the matching rows in the slot.
    fn best_in(&self, rows: &[Row], slot: usize, fields: &Fields, hit: Hit) -> Hit
        requires index { IsAuditIndexOf rows.now self.now }
        requires slot { slot < 4096 }
        ensures { IsBetterAuditHit self.now.shapes.items rows.now slot fields.now hit result }
    {
        let mut best = hit;
        let mut at = self.last[slot];
        while let Some(place) = at {
            best = better(&rows[place as usize], fields, best);
            at = self.earlier[place as usize];
        }
        best
    }

    // The best of all matching rows; the default if none matches.
    fn best(&self, rows: &[Row], fields: &Fields) -> Hit
        requires rows { IsPolicy rows.now }
        requires index { IsAuditIndexOf rows.now self.now }
        ensures { IsBestAuditHit rows.now fields.now result }
    {
        let mut best = Hit::DEFAULT;
        for (place, shape) in self.shapes.iter().enumerate() {
            let src = Prefix::new(fields.src, shape.src);
            let dst = Prefix::new(fields.dst, shape.dst);
            let slot = audit_index_slot(&self.shapes, place, src.address, dst.address);
            best = self.best_in(rows, slot, fields, best);
        }
        best
    }
}

impl IndexedAuditPolicy {
    /// The policy with an index of its rows, if they have few shapes.
    ///
    /// # Errors
    /// Only out of memory.
    pub fn new(alloc: Global, policy: Policy) -> Result<IndexedAuditPolicy, AllocError>
        ensures { IfOk result (λ version. version ≡ policy) }
    {
        let index = AuditIndex::of(alloc, policy.rows())?;
        Ok(IndexedAuditPolicy { policy, index })
    }

    /// The policy itself.
    pub fn policy(&self) -> &Policy
        ensures { result.now ≡ self.now }
    {
        &self.policy
    }

    /// The only first match of a header.
    pub fn first_match(&self, header: &Header) -> Hit
        ensures is { IsFirstPolicyMatch self.now header.now result }
        ensures only { (hit : Hit) → IsFirstPolicyMatch self.now header.now hit → hit ≡ result }
    {
        policy_laws();
        let rows = self.policy.rows();
        match &self.index {
            Some(index) => index.best(rows, &header.fields()),
            None => self.policy.scan(header),
        }
    }
}
