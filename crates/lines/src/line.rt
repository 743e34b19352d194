ghost use Rattle.std.specs.Prelude.{◌≡◌, ◌≤◌, [], length, decimal};
ghost use Rattle.lines.specs.Pushes.{line_with};

use crate::digits::{put_line_digit, put_short_line_number};
use crate::pieces::put;
use itoa::Buffer;
use std::marker::Model;

/// How many bytes a line has at most.
pub(crate) const LINE_BYTES: usize = 2048;

/// The first 2,048 bytes of a text that is built piece by piece. Contracts see these bytes.
#[derive(Drop)]
pub struct Line {
    bytes: [u8; 2048],
    len: usize,
}

impl Model for Line {
    ghost use Rattle.std.specs.Prelude.{List, ℕ, take, ◌≤◌};

    ghost Value = { List ℕ };

    ghost view = { λ line. take line.len line.bytes };

    ghost invariant = { λ line. line.len ≤ 2048 };
}

impl Line {
    /// An empty line.
    pub fn new() -> Line
        ensures { result ≡ [] }
    {
        Line {
            bytes: [0; 2048],
            len: 0,
        }
    }

    /// The line's bytes.
    pub fn bytes(&self) -> &[u8]
        ensures held { result.now ≡ self.now }
        ensures within { length result.now ≤ 2048 }
    {
        &self.bytes[..self.len]
    }

    /// Empties the line.
    pub fn clear(&mut self)
        ensures { self.new ≡ [] }
    {
        self.len = 0;
    }

    /// Adds bytes.
    #[inline]
    pub fn push_bytes(&mut self, piece: &[u8])
        ensures { self.new ≡ line_with self.old piece.now }
    {
        self.len = put(&mut self.bytes, self.len, piece);
    }

    /// Adds a text.
    #[inline]
    pub fn push(&mut self, piece: &str)
        ensures { self.new ≡ line_with self.old piece.now }
    {
        self.push_bytes(piece.as_bytes());
    }

    /// Adds a number in decimal digits.
    #[inline]
    pub fn push_number(&mut self, n: u64)
        ensures { self.new ≡ line_with self.old (decimal n) }
    {
        if n < 10 && self.len < LINE_BYTES {
            self.len = put_line_digit(&mut self.bytes, self.len, n);
        } else {
            self.push_digits(n);
        }
    }

    // Adds a number that may have more than one digit, in a call of its own.
    #[inline(never)]
    fn push_digits(&mut self, n: u64)
        ensures { self.new ≡ line_with self.old (decimal n) }
    {
        if n < 1_000_000 && self.len <= LINE_BYTES - 6 {
            self.len = put_short_line_number(&mut self.bytes, self.len, n);
        } else {
            self.push_long_number(n);
        }
    }

    // Adds a number of any length, also at the end of a line that is nearly full.
    #[cold]
    #[inline(never)]
    fn push_long_number(&mut self, n: u64)
        ensures { self.new ≡ line_with self.old (decimal n) }
    {
        let mut buffer = Buffer::new();
        self.push(buffer.format(n));
    }
}
