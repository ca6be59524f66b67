// A number by its sign and its magnitude. A magnitude of up to 2^128 - 1 stands in the bits of an Int128, read as unsigned.
ghost use Rattle.std.specs.Prelude.{◌≡◌, not, nat_abs};
ghost use Rattle.std.specs.Int.Signed.{non_neg};
ghost use Rattle.int128.specs.Value.{bits_of, value_of, checked_of};
ghost use Rattle.int128.specs.Ops.{exact, signed_of};

use super::{Int128, SIGN};

pub(crate) fn negative(x: Int128) -> bool
    ensures { result ≡ not (non_neg (value_of x)) }
{
    SIGN <= x.hi
}

pub(crate) fn magnitude(x: Int128) -> Int128
    ensures { bits_of result ≡ nat_abs (value_of x) }
{
    if x.hi < SIGN {
        return x;
    }
    if x.lo == 0 {
        return Int128 {
            hi: u64::MAX - x.hi + 1,
            lo: 0,
        };
    }
    Int128 {
        hi: u64::MAX - x.hi,
        lo: u64::MAX - x.lo + 1,
    }
}

// The magnitude with a sign, where it lies in the range: up to 2^127 - 1, or 2^127 below 0.
pub(crate) fn signed(x: Int128, below: bool) -> Option<Int128>
    ensures { checked_of result ≡ exact (signed_of below (bits_of x)) }
{
    if x.hi < SIGN {
        if below {
            return x.checked_neg();
        }
        return Some(x);
    }
    if below {
        if x.hi == SIGN {
            if x.lo == 0 {
                return Some(x);
            }
        }
    }
    None
}
