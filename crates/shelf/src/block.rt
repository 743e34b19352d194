//! Pieces of a text that are gathered before they are written.
ghost use Rattle.std.specs.Prelude.{◌≡◌, ◌≢◌, ◌≤◌, ◌+◌, ◌++◌, [], List, Option, ℕ, IsOk, IsErrOf, OnErr, OnOk, length, IsTrue};
ghost use Rattle.shelf.specs.Sink.{SinkGainedPart, sink_with_gained, SinkFaultsRose};
ghost use Rattle.shelf.specs.SinkWrites.{IsSinkAfterWrite, IsSinkBlockGathered};

use crate::output::{Sink, SinkError, write_whole};
use std::marker::Model;

/// The most bytes of a block.
const BLOCK_BYTES: usize = 65_536;

/// The bytes of a text that aren't written yet. A block gathers pieces, so that one call of the
/// system writes many of them, and it allocates nothing. Contracts see these bytes.
#[derive(Drop)]
pub struct ShelfBlock {
    bytes: [u8; BLOCK_BYTES],
    len: usize,
}

impl Model for ShelfBlock {
    ghost use Rattle.std.specs.Prelude.{List, ℕ, take, ◌≤◌};

    ghost Value = { List ℕ };

    ghost view = { λ block. take block.len block.bytes };

    ghost invariant = { λ block. block.len ≤ 65536 };
}

impl ShelfBlock {
    /// An empty block.
    pub fn new() -> ShelfBlock
        ensures { result ≡ [] }
    {
        ShelfBlock {
            bytes: [0; BLOCK_BYTES],
            len: 0,
        }
    }

    // The bytes that aren't written yet.
    fn bytes(&self) -> &[u8]
        ensures { result.now ≡ self.now }
    {
        &self.bytes[..self.len]
    }

    // Adds a piece for which there is room.
    fn put(&mut self, piece: &[u8])
        requires { length self.old + length piece.now ≤ BLOCK_BYTES }
        ensures { self.new ≡ self.old ++ piece.now }
    {
        let end = self.len + piece.len();
        self.bytes[self.len..end].copy_from_slice(piece);
        self.len = end;
    }

    /// Adds the next piece of a text. If there is no room for it, the block is written first; on an
    /// error the sink has gained a part of the text, and the block is unchanged.
    pub fn push<K: Sink>(&mut self, piece: &[u8], sink: &mut K) -> Result<(), SinkError>
        requires { length piece.now ≤ 65536 }
        ensures gathered { (text : List ℕ) (before : Option (List ℕ))
            → IsSinkBlockGathered text before (K.state sink.old).bytes self.old
            → OnOk result (IsSinkBlockGathered (text ++ piece.now) before (K.state sink.new).bytes self.new) }
        ensures part { (text : List ℕ) (before : Option (List ℕ))
            → IsSinkBlockGathered text before (K.state sink.old).bytes self.old
            → OnErr result (SinkGainedPart before (text ++ piece.now) (K.state sink.new).bytes) }
        ensures unchanged { OnErr result (self.new ≡ self.old) }
        ensures faults { (K.state sink.old).faults ≤ (K.state sink.new).faults }
        ensures calm { result ≢ Err SinkError.Failed
            → (K.state sink.new).faults ≡ (K.state sink.old).faults }
        ensures failed { IsErrOf result SinkError.Failed
            → SinkFaultsRose (K.state sink.old).faults (K.state sink.new).faults }
        ensures no_memory { IsErrOf result SinkError.NoMemory → IsTrue K.takes_memory }
    {
        if piece.len() <= BLOCK_BYTES - self.len {
            self.put(piece);
            return Ok(());
        }
        write_whole(sink, self.bytes())?;
        self.len = 0;
        self.put(piece);
        Ok(())
    }

    /// Writes the rest of a text. On an error the sink has gained only a part of the text.
    pub fn finish<K: Sink>(self, sink: &mut K) -> Result<(), SinkError>
        ensures whole { (text : List ℕ) (before : Option (List ℕ))
            → IsSinkBlockGathered text before (K.state sink.old).bytes self
            → OnOk result ((K.state sink.new).bytes ≡ sink_with_gained before text) }
        ensures part { (text : List ℕ) (before : Option (List ℕ))
            → IsSinkBlockGathered text before (K.state sink.old).bytes self
            → OnErr result (SinkGainedPart before text (K.state sink.new).bytes) }
        ensures no_bytes { self ≡ [] → IsOk result × (sink.new ≡ sink.old) }
        ensures after { IsSinkAfterWrite self K.takes_memory
            (K.state sink.old) (K.state sink.new) result }
    {
        write_whole(sink, self.bytes())
    }
}
