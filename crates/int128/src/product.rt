// The product: of two words, of a word and a magnitude, of two magnitudes, and with signs.
ghost use Rattle.std.specs.Prelude.{◌≡◌, ◌*◌};
ghost use Rattle.int128.specs.Value.{bits_of, value_of, checked_of};
ghost use Rattle.int128.specs.Ops.{mul_of};
ghost use Rattle.int128.specs.Magnitude.{IsProduct};

use super::Int128;
use super::magnitude::{magnitude, negative, signed};

pub(crate) const BASE: u64 = 0x1_0000_0000;

// The whole product of two words. Each is cut into digits of 32 bits, and the products of the digits are
// added column by column with their carries, as in multiplying by hand.
pub(crate) fn mul_words(u: u64, v: u64) -> Int128
    ensures { bits_of result ≡ u * v }
{
    let u0 = u % BASE;
    let u1 = u / BASE;
    let v0 = v % BASE;
    let v1 = v / BASE;
    let first = u0 * v0;
    let middle = u1 * v0 + first / BASE;
    let next = middle % BASE + u0 * v1;
    Int128 {
        hi: u1 * v1 + middle / BASE + next / BASE,
        lo: next % BASE * BASE + first % BASE,
    }
}

// x * w, of magnitudes; nothing where it is 2^128 or more.
pub(crate) fn mul_word(x: Int128, w: u64) -> Option<Int128>
    ensures { IsProduct (bits_of x * w) result }
{
    let low = mul_words(x.lo, w);
    let high = mul_words(x.hi, w);
    let carried = low.hi;
    let added = high.lo;
    if high.hi == 0 {
        if added <= u64::MAX - carried {
            return Some(Int128 {
                hi: added + carried,
                lo: low.lo,
            });
        }
    }
    None
}

// a * b, of magnitudes. Where both are 2^64 or more the product is 2^128 or more.
fn mul_bits(a: Int128, b: Int128) -> Option<Int128>
    ensures { IsProduct (bits_of a * bits_of b) result }
{
    if a.hi == 0 {
        return mul_word(b, a.lo);
    }
    if b.hi == 0 {
        return mul_word(a, b.lo);
    }
    None
}

impl Int128 {
    pub fn checked_mul(self, other: Int128) -> Option<Int128>
        ensures { checked_of result ≡ mul_of (value_of self) (value_of other) }
    {
        let p = mul_bits(magnitude(self), magnitude(other))?;
        signed(p, negative(self) != negative(other))
    }
}
