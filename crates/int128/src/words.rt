// From and to the machine's integers of 64 bits.
ghost use Rattle.std.specs.Prelude.{◌≡◌, pos};
ghost use Rattle.std.specs.Int.{w64};
ghost use Rattle.std.proofs.Common.{to_z};
ghost use Rattle.int128.specs.Value.{value_of, checked_u64_of, checked_i64_of};
ghost use Rattle.int128.specs.Ops.{to_u64_of, to_i64_of};

use super::{Int128, SIGN};

impl From<i64> for Int128 {
    ghost from_gives = { λ x r. value_of r ≡ x };

    fn from(x: i64) -> Int128 {
        if x < 0 {
            let n = (-1 - x) as u64;
            return Int128 {
                hi: u64::MAX,
                lo: u64::MAX - n,
            };
        }
        Int128 {
            hi: 0,
            lo: x as u64,
        }
    }
}

impl From<u64> for Int128 {
    ghost from_gives = { λ x r. value_of r ≡ pos x };

    fn from(x: u64) -> Int128 {
        Int128 { hi: 0, lo: x }
    }
}

impl Int128 {
    // The number that 64 bits stand for in two's complement.
    pub fn from_i64_bits(bits: u64) -> Int128
        ensures { value_of result ≡ to_z w64 bits }
    {
        if bits < SIGN {
            return Int128 { hi: 0, lo: bits };
        }
        Int128 {
            hi: u64::MAX,
            lo: bits,
        }
    }

    pub fn to_u64(self) -> Option<u64>
        ensures { checked_u64_of result ≡ to_u64_of (value_of self) }
    {
        if self.hi == 0 {
            return Some(self.lo);
        }
        None
    }

    pub fn to_i64(self) -> Option<i64>
        ensures { checked_i64_of result ≡ to_i64_of (value_of self) }
    {
        if self.hi == 0 {
            if self.lo < SIGN {
                return Some(self.lo as i64);
            }
            return None;
        }
        if self.hi == u64::MAX {
            if self.lo < SIGN {
                return None;
            }
            let n = u64::MAX - self.lo;
            return Some(-1 - (n as i64));
        }
        None
    }
}
