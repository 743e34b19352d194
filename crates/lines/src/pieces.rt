// Pieces that are copied after the first `len` bytes of a line's array.
ghost use Rattle.std.specs.Prelude.{◌≡◌, ◌≤◌, ◌+◌, ◌++◌, ◌<◌, length, take};
ghost use Rattle.lines.specs.Pushes.{line_with};

use crate::line::LINE_BYTES;

/// Copies a piece, as far as there is room for it, and returns the new length: at most 2,048.
#[inline]
pub(crate) fn put(bytes: &mut [u8; 2048], len: usize, piece: &[u8]) -> usize
    requires { len ≤ LINE_BYTES }
    ensures within { result ≤ LINE_BYTES }
    ensures held { take result bytes.new ≡ line_with (take len bytes.old) piece.now }
{
    if piece.len() <= LINE_BYTES - len {
        put_whole_piece(bytes, len, piece);
        len + piece.len()
    } else {
        fill(bytes, len, piece);
        LINE_BYTES
    }
}

// Copies as much of a piece as there is room for, if that isn't all of it.
#[cold]
#[inline(never)]
fn fill(bytes: &mut [u8; 2048], len: usize, piece: &[u8])
    requires line { len ≤ 2048 }
    requires more { 2048 < len + length piece.now }
    ensures { take LINE_BYTES bytes.new ≡ line_with (take len bytes.old) piece.now }
{
    bytes[len..].copy_from_slice(&piece[..LINE_BYTES - len]);
}

// Copies a piece for which there is room: a short one by its halves, without a call.
#[inline]
fn put_whole_piece(bytes: &mut [u8; 2048], len: usize, piece: &[u8])
    requires { len + length piece.now ≤ 2048 }
    ensures { take (len + length piece.now) bytes.new ≡ take len bytes.old ++ piece.now }
{
    let count = piece.len();
    if count > 16 {
        bytes[len..len + count].copy_from_slice(piece);
    } else if count >= 8 {
        put_line_piece_halves::<8>(bytes, len, piece);
    } else if count >= 4 {
        put_line_piece_halves::<4>(bytes, len, piece);
    } else if count >= 2 {
        put_line_piece_halves::<2>(bytes, len, piece);
    } else if count == 1 {
        bytes[len] = piece[0];
    }
}

// Copies the first N bytes of a piece and its last N, which may overlap. They pass through arrays,
// so that the compiler knows that they aren't bytes of the line, and copies each in one move.
#[inline]
fn put_line_piece_halves<const N: usize>(bytes: &mut [u8; 2048], len: usize, piece: &[u8])
    requires room { len + length piece.now ≤ 2048 }
    requires long { N ≤ length piece.now }
    requires short { length piece.now ≤ N + N }
    ensures { take (len + length piece.now) bytes.new ≡ take len bytes.old ++ piece.now }
{
    let split = piece.len() - N;
    let mut front = [0; N];
    front.copy_from_slice(&piece[..N]);
    let mut back = [0; N];
    back.copy_from_slice(&piece[split..]);
    bytes[len..len + N].copy_from_slice(&front);
    bytes[len + split..len + piece.len()].copy_from_slice(&back);
}
