//! The sink of bytes, and a write of many bytes to it.
ghost use Rattle.std.specs.Prelude.{◌≡◌, ◌≢◌, ◌≤◌, ◌<◌, Bool, IsTrue, [], length, take, IfOk, IsOk, OnErr, IsErrOf};
ghost use Rattle.std.specs.List.{flat_map};
ghost use Rattle.shelf.specs.Sink.{SinkState, sink_with_gained, SinkFaultsRose};
ghost use Rattle.shelf.specs.declared.output.SinkError.TheVariants.{NoMemory};
ghost use Rattle.shelf.specs.SinkWrites.{IsSinkAfterWrite};

use std::alloc::AllocError;
use thiserror::Error;

/// Why bytes weren't written.
#[derive(Debug, Clone, Copy, PartialEq, Eq, Error)]
pub enum SinkError {
    /// The write failed, and the sink's count of faults rose.
    #[error("the output can't be written")]
    Failed,
    /// There is no memory for the bytes.
    #[error("out of memory")]
    NoMemory,
}

impl From<AllocError> for SinkError {
    ghost from_gives = { λ _ e. e ≡ NoMemory };

    fn from(_: AllocError) -> Self {
        SinkError::NoMemory
    }
}

/// A sink of bytes, which are added at its end.
pub trait Sink {
    /// What contracts see: the bytes, if they are known, and the count of faults.
    ghost state: { Self → SinkState };

    /// Whether writes to this kind of sink may allocate.
    ghost takes_memory: { Bool };

    /// Accepts some bytes from the front of the piece, and returns how many.
    fn write(&mut self, piece: &[u8]) -> Result<u64, SinkError>
        requires short { length piece.now ≤ 65536 }
        ensures within { IfOk result (λ taken. taken ≤ length piece.now) }
        ensures taken { IfOk result (λ taken.
            (state self.new).bytes ≡ sink_with_gained (state self.old).bytes (take taken piece.now)) }
        ensures nothing_taken { OnErr result ((state self.new).bytes ≡ (state self.old).bytes) }

        ensures faults { (state self.old).faults ≤ (state self.new).faults }
        ensures failed { IsErrOf result SinkError.Failed
            → SinkFaultsRose (state self.old).faults (state self.new).faults }
        ensures no_memory { IsErrOf result SinkError.NoMemory → IsTrue takes_memory }

        // A call that doesn't fail, and accepts some of a piece that has bytes, counts no fault.
        ensures calm { result ≢ Err SinkError.Failed → (result ≡ Ok 0 → piece.now ≡ [])
            → (state self.new).faults ≡ (state self.old).faults }

        // A call that accepts nothing of a piece that has bytes counts a fault, too.
        ensures stuck { result ≡ Ok 0 → 0 < length piece.now
            → SinkFaultsRose (state self.old).faults (state self.new).faults };
}

/// The most bytes that are given to one write.
const CHUNK_BYTES: usize = 65_536;

/// Writes all the bytes, in chunks of at most 65,536 bytes, and allocates nothing itself.
///
/// On an error the sink has gained the bytes of the writes before it. A write that accepts nothing
/// ends the call like a failed one.
pub fn write_whole<K: Sink>(sink: &mut K, bytes: &[u8]) -> Result<(), SinkError>
    ensures after { IsSinkAfterWrite bytes.now K.takes_memory
        (K.state sink.old) (K.state sink.new) result }
    ensures no_bytes { bytes.now ≡ [] → IsOk result × (sink.new ≡ sink.old) }
{
    let mut written = 0;
    while written < bytes.len() {
        let rest = &bytes[written..];
        let chunk = &rest[..rest.len().min(CHUNK_BYTES)];
        let taken = sink.write(chunk)?;
        if taken == 0 {
            return Err(SinkError::Failed);
        }
        written += taken as usize;
    }
    Ok(())
}

/// Writes the pieces one after another, until one fails, and allocates nothing itself.
///
/// On an error the sink has gained the pieces before the one that failed, and a part of that one.
pub fn write_pieces<K: Sink>(sink: &mut K, pieces: &[&[u8]]) -> Result<(), SinkError>
    ensures { IsSinkAfterWrite (flat_map (λ piece. piece.now) pieces.now) K.takes_memory
        (K.state sink.old) (K.state sink.new) result }
{
    for piece in pieces {
        if let Err(error) = write_whole(sink, piece) {
            return Err(error);
        }
    }
    Ok(())
}
