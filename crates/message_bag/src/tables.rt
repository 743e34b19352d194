//! The frames of tables, which installations of the same tables share.
ghost use Rattle.std.specs.Prelude.{◌≡◌, ◌<◌, ◌++◌, ◌∷◌, [], Some, true, drop, get_or, length, IfOk, IfSome, IsTrue, OnOk};
ghost use Rattle.ctrl_msg.specs.declared.message.Body.TheVariants.{Install};
ghost use Rattle.switch_table.specs.declared.tables.Tables.{Tables};
ghost use Rattle.wire.specs.Frames.{AreWireFrames, frame, frames};
ghost use Rattle.message_bag.specs.Feeding.{HasShortBagSpelling};
ghost use Rattle.wire.specs.Messages.{IsWirePlace, wire_message_front, message as form, wire_spelled_front};
ghost use Rattle.message_bag.specs.KeptFrames.{AreBagFramesOfMessage, IsBagGrown, IsBagInstallOf, BagFramesCarryRows, BagFramesCarryTables, bag_frames_in};

use crate::digest::bag_tables_digest_of;
use crate::reading::{read_bag_install_front, tables_in_bag_frames};
use ctrl_msg::{
    Body, Message, Place, SharedTables, are_same_control_message_tables,
    have_same_message_table_rows,
};
use std::alloc::{AllocError, Global};
use std::marker::Model;
use switch_table::{PartRow, Tables};
use wire::{Frames, HEADER_LEN, append_install_front, split};

/// How many bits the number of a packet's header has.
const HEADER_BITS: u32 = 104;

/// The frames of an installation of some tables: those after its first one encode the tables, and
/// each installation of the same tables that is posted shares them. Contracts see the frames.
#[derive(Drop)]
pub struct BagTableFrames {
    // The tables decoded from the frames, which each message that is taken shares.
    said: SharedTables,
    frames: Frames,
    // Their version and digest, kept here so that a search skips most others.
    version: u32,
    digest: usize,
}

impl Model for BagTableFrames {
    ghost use Rattle.std.specs.Prelude.{List, ℕ};
    ghost use Rattle.message_bag.specs.KeptFrames.{BagFramesCarryTables};

    ghost Value = { List (List ℕ) };

    ghost view = { λ t. t.frames };

    ghost invariant = { λ t. BagFramesCarryTables t.said t.frames };
}

impl BagTableFrames {
    // The frames for an installation of these tables, which are encoded and decoded.
    fn new(alloc: Global, message: &Message, tables: &Tables) -> Result<BagTableFrames, AllocError>
        requires { IsBagInstallOf message.now tables.now }
        ensures { IfOk result (BagFramesCarryTables tables.now) }
    {
        let frames = split(alloc, message)?;
        let said = bag_tables_with_trees(alloc, tables_in_bag_frames(alloc, &frames)?)?;
        Ok(BagTableFrames {
            said,
            frames,
            version: tables.version,
            digest: bag_tables_digest_of(tables),
        })
    }

    // The frames for the same tables under another version, without encoding or decoding them.
    fn with_version(&self, alloc: Global, version: u32) -> Result<BagTableFrames, AllocError>
        ensures { IfOk result (λ kept. (t : Tables) → BagFramesCarryTables t self.now
            → BagFramesCarryTables (record t { version = version }) kept) }
    {
        let said = self.said.with_version(alloc, version)?;
        let frames = self.frames.with_version(alloc, version)?;
        Ok(BagTableFrames {
            said,
            frames,
            version,
            digest: self.digest,
        })
    }

    // Whether they encode these tables, which have this digest.
    fn carry(&self, tables: &Tables, digest: usize) -> bool
        ensures { IsTrue result → BagFramesCarryTables tables.now self.now }
    {
        self.version == tables.version
            && self.digest == digest
            && are_same_control_message_tables(self.said.tables(), tables)
    }

    // Whether they encode these tables, which have this digest, under some version.
    fn carry_rows(&self, tables: &Tables, digest: usize) -> bool
        ensures { IsTrue result → BagFramesCarryRows tables.now self.now }
    {
        self.digest == digest && have_same_message_table_rows(self.said.tables(), tables)
    }

    // Appends the first frame of an installation of these tables: only the receiver and
    // the boot are its own.
    fn put_first(&self, out: &mut Vec<u8>, to: Place, boot: u32) -> Result<(), AllocError>
        requires { IsWirePlace to }
        ensures fits { OnOk result (wire_message_front.fits (to, (1, boot)) ≡ true) }
        ensures put { OnOk result (out.new.items
            ≡ out.old.items ++ frame 0 (length self.now) (wire_spelled_front to boot)) }
    {
        match self.frames.get(0) {
            Some(own) => out.extend_from_slice(own.split_at(HEADER_LEN).0)?,
            None => unreachable!(),
        }
        append_install_front(out, to, boot)
    }

    /// The message of this first frame and those after it. All such messages share the tables.
    ///
    /// # Errors
    /// Only out of memory.
    pub fn message(&self, alloc: Global, first: &[u8]) -> Result<Message, AllocError>
        requires { AreBagFramesOfMessage (first.now ∷ drop 1 self.now) }
        ensures { IfOk result (λ message.
            AreWireFrames message (first.now ∷ drop 1 self.now)) }
    {
        let tables = self.said.clone()?;
        let (to, boot) = read_bag_install_front(alloc, &first[HEADER_LEN..])?;
        Ok(Message {
            to,
            body: Body::Install { boot, tables },
        })
    }
}

// The same tables. They get trees if their regions may partition all headers, as those of plans
// do: trees over others might be far larger than the tables.
fn bag_tables_with_trees(alloc: Global, tables: SharedTables) -> Result<SharedTables, AllocError>
    ensures { IfOk result (λ grown. grown ≡ tables) }
{
    if are_bag_regions_whole(tables.tables().parts.items()) {
        tables.with_trees(alloc)
    } else {
        Ok(tables)
    }
}

// Whether the regions together have as many headers as there are.
fn are_bag_regions_whole(rows: &[PartRow]) -> bool {
    let mut headers: u128 = 0;
    for row in rows {
        let free = HEADER_BITS.saturating_sub(row.region.mask().count_ones());
        headers = headers.saturating_add(1 << free);
    }
    headers == 1 << HEADER_BITS
}

// The number of the frames that encode these tables; `None` if there are none.
fn find(kept: &[BagTableFrames], tables: &Tables) -> Option<usize>
    ensures there { IfSome result (λ number. number < length kept.now) }
    ensures carry { IfSome result (λ number. BagFramesCarryTables tables.now (get_or kept.now number [])) }
{
    let digest = bag_tables_digest_of(tables);
    kept.iter().rposition(|frames| frames.carry(tables, digest))
}

// The number of the frames that encode these tables under any version; `None` if there are none.
fn find_bag_kept_rows(kept: &[BagTableFrames], tables: &Tables) -> Option<usize>
    ensures there { IfSome result (λ number. number < length kept.now) }
    ensures carry { IfSome result (λ number. BagFramesCarryRows tables.now (get_or kept.now number [])) }
{
    let digest = bag_tables_digest_of(tables);
    kept.iter()
        .rposition(|frames| frames.carry_rows(tables, digest))
}

// The frames of an installation of these tables: those of the same tables under another version,
// with this version written into them, or new ones.
fn made(
    kept: &[BagTableFrames],
    alloc: Global,
    message: &Message,
    tables: &Tables,
) -> Result<BagTableFrames, AllocError>
    requires { IsBagInstallOf message.now tables.now }
    ensures { IfOk result (BagFramesCarryTables tables.now) }
{
    match find_bag_kept_rows(kept, tables) {
        Some(number) => Ok(kept[number].with_version(alloc, tables.version)?),
        None => Ok(BagTableFrames::new(alloc, message, tables)?),
    }
}

// The number of the kept frames that encode the tables of this installation: those that exist, or
// those that are made for it and kept from now on.
fn keep(
    kept: &mut Vec<BagTableFrames>,
    alloc: Global,
    message: &Message,
    tables: &Tables,
) -> Result<usize, AllocError>
    requires { IsBagInstallOf message.now tables.now }
    ensures there { IfOk result (λ number. number < length kept.new.items) }
    ensures carry { IfOk result (λ number.
        BagFramesCarryTables tables.now (get_or kept.new.items number [])) }
    ensures grown { IsBagGrown kept.old.items kept.new.items }
{
    match find(kept, tables) {
        Some(number) => Ok(number),
        None => {
            let number = kept.len();
            let own = made(kept, alloc, message, tables)?;
            kept.push(own)?;
            Ok(number)
        }
    }
}

/// Encodes an installation: its first frame, which replaces what was in the buffer, and the number
/// of the kept frames for the others. These are encoded only if none of the same rows and
/// partitions are kept.
///
/// # Errors
/// Only out of memory.
pub fn spell_bag_install(
    kept: &mut Vec<BagTableFrames>,
    first: &mut Vec<u8>,
    alloc: Global,
    message: &Message,
    boot: u32,
    tables: &SharedTables,
) -> Result<usize, AllocError>
    requires spelling { HasShortBagSpelling message.now }
    requires carries { message.now.body ≡ Install boot tables.now }
    ensures there { IfOk result (λ number. number < length kept.new.items) }
    ensures fits { OnOk result (form.fits message.now ≡ true) }
    ensures own { IfOk result (λ number.
        bag_frames_in kept.new.items (first.new.items, Some number) ≡ frames message.now) }
    ensures grown { IsBagGrown kept.old.items kept.new.items }
{
    let number = keep(kept, alloc, message, tables.tables())?;
    first.clear();
    kept[number].put_first(first, message.to, boot)?;
    Ok(number)
}
