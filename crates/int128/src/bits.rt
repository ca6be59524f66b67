// The operators on each bit by itself.
ghost use Rattle.std.specs.Prelude.{◌≡◌};
ghost use Rattle.int128.specs.Value.{value_of};
ghost use Rattle.int128.specs.Ops.{and_of, or_of, xor_of, not_of};

use super::Int128;
use std::ops::{BitAnd, BitOr, BitXor, Not};

impl BitAnd for Int128 {
    type Output = Int128;

    ghost bitand_gives = { λ a b r. value_of r ≡ and_of (value_of a) (value_of b) };

    fn bitand(self, other: Int128) -> Int128 {
        Int128 {
            hi: self.hi & other.hi,
            lo: self.lo & other.lo,
        }
    }
}

impl BitOr for Int128 {
    type Output = Int128;

    ghost bitor_gives = { λ a b r. value_of r ≡ or_of (value_of a) (value_of b) };

    fn bitor(self, other: Int128) -> Int128 {
        Int128 {
            hi: self.hi | other.hi,
            lo: self.lo | other.lo,
        }
    }
}

impl BitXor for Int128 {
    type Output = Int128;

    ghost bitxor_gives = { λ a b r. value_of r ≡ xor_of (value_of a) (value_of b) };

    fn bitxor(self, other: Int128) -> Int128 {
        Int128 {
            hi: self.hi ^ other.hi,
            lo: self.lo ^ other.lo,
        }
    }
}

impl Not for Int128 {
    type Output = Int128;

    ghost not_gives = { λ a r. value_of r ≡ not_of (value_of a) };

    fn not(self) -> Int128 {
        Int128 {
            hi: !self.hi,
            lo: !self.lo,
        }
    }
}
