// Comparison, and the four ranges of int_fits.
ghost use Rattle.std.specs.Prelude.{◌≡◌};
ghost use Rattle.std.specs.Ordering.{on, int_eq, int_cmp, nat_cmp, as_partial_cmp};
ghost use Rattle.std.specs.Cmp.{partial_order_from_own_ties};
ghost use Rattle.std.specs.Cmp.Rules.{comparing};
ghost use Rattle.std.proofs.Common.{rules};
ghost use Rattle.int128.specs.Value.{bits_of, value_of};
ghost use Rattle.int128.specs.Ops.{least_of, greatest_of, int_fits};

use super::{Int128, SIGN};
use std::cmp::Ordering;

// The bits as unsigned numbers.
pub(crate) fn cmp_bits(a: Int128, b: Int128) -> Ordering
    ensures { result ≡ nat_cmp (bits_of a) (bits_of b) }
{
    a.hi.cmp(&b.hi).then(a.lo.cmp(&b.lo))
}

// These compare the whole numbers. A derive would promise only what the halves are.
impl PartialEq for Int128 {
    ghost eq = { on value_of int_eq };

    ghost laws = { Prim.search (comparing, rules) };

    fn eq(&self, other: &Int128) -> bool {
        self.cmp(other).is_eq()
    }
}

impl Eq for Int128 {
    ghost laws = { Prim.search (comparing, rules) };
}

impl Ord for Int128 {
    ghost cmp = { on value_of int_cmp };

    ghost total = { Prim.search (comparing, rules) };

    ghost matches_partial_cmp = { Prim.search (comparing, rules) };

    ghost matches_eq = { Prim.search (comparing, rules) };

    // Where the signs are equal the bits decide, else the signs.
    fn cmp(&self, other: &Int128) -> Ordering {
        let a = *self;
        let b = *other;
        if a.hi < SIGN {
            if SIGN <= b.hi {
                return Ordering::Greater;
            }
        } else if b.hi < SIGN {
            return Ordering::Less;
        }
        cmp_bits(a, b)
    }
}

impl PartialOrd for Int128 {
    ghost partial_cmp = { as_partial_cmp (on value_of int_cmp) };

    ghost laws = { partial_order_from_own_ties (Prim.search (comparing, rules)) (Prim.search (comparing, rules)) };

    fn partial_cmp(&self, other: &Int128) -> Option<Ordering> {
        Some(self.cmp(other))
    }
}

// The ends of the four ranges of int_fits.
fn least(short: bool, unsigned: bool) -> Int128
    ensures { value_of result ≡ least_of short unsigned }
{
    if unsigned {
        return Int128 { hi: 0, lo: 0 };
    }
    if short {
        return Int128 {
            hi: u64::MAX,
            lo: 0xffff_ffff_8000_0000,
        };
    }
    Int128 {
        hi: u64::MAX,
        lo: SIGN,
    }
}

fn greatest(short: bool, unsigned: bool) -> Int128
    ensures { value_of result ≡ greatest_of short unsigned }
{
    if short {
        if unsigned {
            return Int128 {
                hi: 0,
                lo: 0xffff_ffff,
            };
        }
        return Int128 {
            hi: 0,
            lo: 0x7fff_ffff,
        };
    }
    if unsigned {
        return Int128 {
            hi: 0,
            lo: u64::MAX,
        };
    }
    Int128 {
        hi: 0,
        lo: 0x7fff_ffff_ffff_ffff,
    }
}

// Whether the value lies in the range of a number of 32 bits where short, else of 64, and not below 0 where unsigned.
pub fn int_fits(value: Int128, short: bool, unsigned: bool) -> bool
    ensures { result ≡ int_fits (value_of value) short unsigned }
{
    // Each range begins at or below 0 and ends above it, so that one end is enough: the sign tells which.
    if value.hi < SIGN {
        value <= greatest(short, unsigned)
    } else {
        least(short, unsigned) <= value
    }
}
