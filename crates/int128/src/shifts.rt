// Left and right shifts. A count of 128 or more, or below 0, gives nothing.
ghost use Rattle.std.specs.Prelude.{◌≡◌, ◌*◌, ◌/◌, ◌%◌, ◌^◌, ◌<◌};
ghost use Rattle.int128.specs.Value.{bits_of, value_of, checked_of};
ghost use Rattle.int128.specs.Ops.{shl_of, shr_of, by_count, CountStands};

use super::{Int128, SIGN};

// The bits moved up by n, less those that leave at the top.
pub(crate) fn shl_bits(x: Int128, n: u32) -> Int128
    requires { n < 128 }
    ensures { bits_of result ≡ bits_of x * 2 ^ n % 2 ^ 128 }
{
    if n == 0 {
        return x;
    }
    if n < 64 {
        let m = 64 - n;
        return Int128 {
            hi: (x.hi << n) + (x.lo >> m),
            lo: x.lo << n,
        };
    }
    let m = n - 64;
    Int128 {
        hi: x.lo << m,
        lo: 0,
    }
}

// The bits moved down by n, with zeros from the top.
pub(crate) fn shr_bits(x: Int128, n: u32) -> Int128
    requires { n < 128 }
    ensures { bits_of result ≡ bits_of x / 2 ^ n }
{
    if n == 0 {
        return x;
    }
    if n < 64 {
        let m = 64 - n;
        return Int128 {
            hi: x.hi >> n,
            lo: (x.hi << m) + (x.lo >> n),
        };
    }
    let m = n - 64;
    Int128 {
        hi: 0,
        lo: x.hi >> m,
    }
}

// A count of 128 bits as one of 32, where it is below 128; what answers nothing from 128 on answers the same by both.
fn shift_count(count: Int128) -> Option<u32>
    ensures { CountStands result (value_of count) }
{
    if count.hi == 0 && count.lo < 128 {
        return Some(count.lo as u32);
    }
    None
}

impl Int128 {
    pub fn checked_shl(self, n: u32) -> Option<Int128>
        ensures { checked_of result ≡ shl_of (value_of self) n }
    {
        if n < 128 {
            return Some(shl_bits(self, n));
        }
        None
    }

    // Below 0 the complement is shifted, so that ones come from the top.
    pub fn checked_shr(self, n: u32) -> Option<Int128>
        ensures { checked_of result ≡ shr_of (value_of self) n }
    {
        if n < 128 {
            if self.hi < SIGN {
                return Some(shr_bits(self, n));
            }
            return Some(!shr_bits(!self, n));
        }
        None
    }

    // The same by a count of 128 bits.
    pub fn checked_shl_by(self, count: Int128) -> Option<Int128>
        ensures { checked_of result ≡ by_count (shl_of (value_of self)) (value_of count) }
    {
        self.checked_shl(shift_count(count)?)
    }

    pub fn checked_shr_by(self, count: Int128) -> Option<Int128>
        ensures { checked_of result ≡ by_count (shr_of (value_of self)) (value_of count) }
    {
        self.checked_shr(shift_count(count)?)
    }
}
