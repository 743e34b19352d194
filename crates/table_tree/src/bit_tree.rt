ghost use Rattle.std.specs.Prelude.{◌≡◌, ◌<◌, ◌==◌};
ghost use Rattle.std.specs.Int.{bit_at};
ghost use Rattle.table_tree.specs.LookupTrees.{table_tree_leaf_at, lookup_tree_of};

use std::marker::Model;

/// A bit of a header number, from 0 to 103.
#[derive(Clone, Copy, Debug, PartialEq, Eq)]
pub struct HeaderBit {
    bit: u32,
}

impl Model for HeaderBit {
    ghost use Rattle.std.specs.Prelude.{ℕ, ◌<◌};

    ghost Value = { ℕ };

    ghost view = { λ b. b.bit };

    ghost invariant = { λ b. b.bit < 104 };

    ghost inverse = { λ bit. record { bit = bit } };
}

impl HeaderBit {
    /// The bit of this number.
    pub fn new(bit: u32) -> HeaderBit
        requires { bit < 104 }
        ensures { result ≡ bit }
    {
        HeaderBit { bit }
    }

    /// Whether the bit of the number is 1.
    pub fn is_set_in(self, number: u128) -> bool
        ensures { result ≡ (bit_at number self == 1) }
    {
        (number >> self.bit) & 1 == 1
    }
}

/// A decision tree over the bits of a header number.
#[derive(Debug, Drop)]
pub enum BitTree<L> {
    /// Where the bits of a number lead.
    End(L),
    /// The headers with a 0 at the bit are on the low side, those with a 1 on the high side.
    Cut {
        bit: HeaderBit,
        low: Box<BitTree<L>>,
        high: Box<BitTree<L>>,
    },
}

impl<L> BitTree<L> {
    /// The end to which the bits of the number lead.
    pub fn end_of(&self, number: u128) -> &L
        ensures { result.now ≡ table_tree_leaf_at number (lookup_tree_of (λ x. x) self.now) }
    {
        match self {
            BitTree::End(end) => end,
            BitTree::Cut { bit, low, high } => {
                if bit.is_set_in(number) {
                    high.end_of(number)
                } else {
                    low.end_of(number)
                }
            }
        }
    }
}
