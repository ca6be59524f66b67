// Sum, difference and negation.
ghost use Rattle.std.specs.Prelude.{◌≡◌, ◌+◌, ◌*◌, ◌≤◌, ◌^◌, pos, ◌+ℤ◌};
ghost use Rattle.int128.specs.Value.{value_of, checked_of};
ghost use Rattle.int128.specs.Ops.{exact, add_of, sub_of, neg_of};

use super::{Int128, SIGN};

// A sum of two halves: 64 bits, and 1 where it carries.
#[derive(Clone, Copy)]
struct Half {
    sum: u64,
    carry: u64,
}

// a + b + carry, for a carry of 0 or 1.
fn add_half(a: u64, b: u64, carry: u64) -> Half
    requires { carry ≤ 1 }
    ensures { (result.carry * 2 ^ 64 + result.sum ≡ a + b + carry) × (result.carry ≤ 1) }
{
    let room = u64::MAX - b;
    if a < room {
        return Half {
            sum: a + b + carry,
            carry: 0,
        };
    }
    if a == room {
        if carry == 0 {
            return Half {
                sum: a + b,
                carry: 0,
            };
        }
        return Half { sum: 0, carry: 1 };
    }
    Half {
        sum: a - room - 1 + carry,
        carry: 1,
    }
}

// The sum of two numbers and a carry of 0 or 1. It passes the range only where both have one sign and the bits of the sum the other.
fn sum(a: Int128, b: Int128, carry: u64) -> Option<Int128>
    requires { carry ≤ 1 }
    ensures { checked_of result ≡ exact (value_of a +ℤ value_of b +ℤ pos carry) }
{
    let low = add_half(a.lo, b.lo, carry);
    let high = add_half(a.hi, b.hi, low.carry);
    let top = high.sum;
    let r = Int128 {
        hi: top,
        lo: low.sum,
    };
    if a.hi < SIGN {
        if b.hi < SIGN {
            if top < SIGN {
                return Some(r);
            }
            return None;
        }
        return Some(r);
    }
    if b.hi < SIGN {
        return Some(r);
    }
    if top < SIGN {
        return None;
    }
    Some(r)
}

impl Int128 {
    pub fn checked_add(self, other: Int128) -> Option<Int128>
        ensures { checked_of result ≡ add_of (value_of self) (value_of other) }
    {
        sum(self, other, 0)
    }

    // a - b is a + !b + 1.
    pub fn checked_sub(self, other: Int128) -> Option<Int128>
        ensures { checked_of result ≡ sub_of (value_of self) (value_of other) }
    {
        sum(self, !other, 1)
    }

    // -a is 0 + !a + 1.
    pub fn checked_neg(self) -> Option<Int128>
        ensures { checked_of result ≡ neg_of (value_of self) }
    {
        sum(Int128::from(0u64), !self, 1)
    }
}
