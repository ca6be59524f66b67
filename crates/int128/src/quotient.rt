// Quotient and remainder: long division with digits of 32 bits for a divisor of one word, and one digit of 64 bits for a longer divisor.
// A digit is first estimated from the leading parts of dividend and divisor. The divisor's top bit is set for that, so that the estimate is
// at most 2 too large; then it is corrected.
ghost use Rattle.std.specs.Prelude.{◌≡◌, ◌+◌, ◌-◌, ◌*◌, ◌/◌, ◌%◌, ◌^◌, ◌≤◌, ◌<◌, eqb, leb};
ghost use Rattle.int128.specs.Value.{bits_of, value_of, checked_of};
ghost use Rattle.int128.specs.Ops.{div_of, rem_of};

use super::Int128;
use super::magnitude::{magnitude, negative, signed};
use super::order::cmp_bits;
use super::product::{BASE, mul_word};
use super::shifts::{shl_bits, shr_bits};

// Of magnitudes.
#[derive(Clone, Copy)]
pub(crate) struct Division {
    quotient: Int128,
    remainder: Int128,
}

// Of words.
#[derive(Clone, Copy)]
struct WordDivision {
    quotient: u64,
    remainder: u64,
}

fn sub_bits(a: Int128, b: Int128) -> Int128
    requires { bits_of b ≤ bits_of a }
    ensures { bits_of result ≡ bits_of a - bits_of b }
{
    if b.lo <= a.lo {
        return Int128 {
            hi: a.hi - b.hi,
            lo: a.lo - b.lo,
        };
    }
    Int128 {
        hi: a.hi - b.hi - 1,
        lo: u64::MAX - b.lo + 1 + a.lo,
    }
}

// Whether d * q is at most n.
fn at_most(d: Int128, q: u64, n: Int128) -> bool
    ensures { result ≡ leb (bits_of d * q) (bits_of n) }
{
    match mul_word(d, q) {
        Some(p) => cmp_bits(p, n).is_le(),
        None => false,
    }
}

// The quotient of n by d, from an estimate that is at most 2 too large.
fn settle(n: Int128, d: Int128, estimate: u64) -> u64
    requires { (0 < bits_of d) × (bits_of n / bits_of d ≤ estimate) × (estimate ≤ bits_of n / bits_of d + 2) }
    ensures { result ≡ bits_of n / bits_of d }
{
    let mut q = estimate;
    while !at_most(d, q, n) {
        q -= 1;
    }
    q
}

// What is left of n after q times d.
fn rest(n: Int128, d: Int128, q: u64) -> Int128
    requires { (0 < bits_of d) × (q ≡ bits_of n / bits_of d) }
    ensures { bits_of result ≡ bits_of n % bits_of d }
{
    match mul_word(d, q) {
        Some(p) => sub_bits(n, p),
        None => n,
    }
}

// One digit: h * 2^32 + l by d, for a divisor with its top bit set and h below it.
fn digit(h: u64, l: u64, d: u64) -> WordDivision
    requires { (2 ^ 63 ≤ d) × (h < d) × (l < 2 ^ 32) }
    ensures { (result.quotient ≡ (h * 2 ^ 32 + l) / d) × (result.remainder ≡ (h * 2 ^ 32 + l) % d) }
{
    let top = d / BASE;
    let n = Int128 {
        hi: h / BASE,
        lo: h % BASE * BASE + l,
    };
    let v = Int128 { hi: 0, lo: d };
    let q = settle(n, v, h / top);
    let r = rest(n, v, q);
    WordDivision {
        quotient: q,
        remainder: r.lo,
    }
}

// The shift that brings the top bit of v to bit 63.
fn norm_shift(v: u64) -> u32
    requires { 0 < v }
    ensures { (result < 64) × (2 ^ 63 ≤ v * 2 ^ result) × (v * 2 ^ result < 2 ^ 64) }
{
    u64::leading_zeros(v)
}

// u1 * 2^64 + u0 by v, for u1 below v.
fn div_two(u1: u64, u0: u64, v: u64) -> WordDivision
    requires { u1 < v }
    ensures { (result.quotient ≡ (u1 * 2 ^ 64 + u0) / v) × (result.remainder ≡ (u1 * 2 ^ 64 + u0) % v) }
{
    if u1 == 0 {
        return WordDivision {
            quotient: u0 / v,
            remainder: u0 % v,
        };
    }
    let s = norm_shift(v);
    let d = v << s;
    let n = shl_bits(Int128 { hi: u1, lo: u0 }, s);
    let low = n.lo;
    let first = digit(n.hi, low / BASE, d);
    let second = digit(first.remainder, low % BASE, d);
    WordDivision {
        quotient: first.quotient * BASE + second.quotient,
        remainder: second.remainder >> s,
    }
}

// n by a word.
fn div_word(n: Int128, d: u64) -> Division
    requires { 0 < d }
    ensures { (bits_of result.quotient ≡ bits_of n / d) × (bits_of result.remainder ≡ bits_of n % d) }
{
    let upper = n.hi / d;
    let lower = div_two(n.hi % d, n.lo, d);
    let q = Int128 {
        hi: upper,
        lo: lower.quotient,
    };
    let r = Int128 {
        hi: 0,
        lo: lower.remainder,
    };
    Division {
        quotient: q,
        remainder: r,
    }
}

// n by a divisor of 2^64 or more: the quotient is one word.
fn div_long(n: Int128, d: Int128) -> Division
    requires { 2 ^ 64 ≤ bits_of d }
    ensures { (bits_of result.quotient ≡ bits_of n / bits_of d) × (bits_of result.remainder ≡ bits_of n % bits_of d) }
{
    let s = norm_shift(d.hi);
    let k = 64 - s;
    let leading = shr_bits(n, k);
    let top = shr_bits(d, k);
    let estimate = div_two(leading.hi, leading.lo, top.lo);
    let word = settle(n, d, estimate.quotient);
    let q = Int128 { hi: 0, lo: word };
    let r = rest(n, d, word);
    Division {
        quotient: q,
        remainder: r,
    }
}

// Quotient and remainder of magnitudes.
pub(crate) fn div_rem(n: Int128, d: Int128) -> Division
    requires { 0 < bits_of d }
    ensures { (bits_of result.quotient ≡ bits_of n / bits_of d) × (bits_of result.remainder ≡ bits_of n % bits_of d) }
{
    if d.hi == 0 {
        return div_word(n, d.lo);
    }
    div_long(n, d)
}

fn is_zero(x: Int128) -> bool
    ensures { result ≡ eqb (bits_of x) 0 }
{
    if x.hi == 0 {
        return x.lo == 0;
    }
    false
}

impl Int128 {
    // Cut towards zero.
    pub fn checked_div(self, other: Int128) -> Option<Int128>
        ensures { checked_of result ≡ div_of (value_of self) (value_of other) }
    {
        let d = magnitude(other);
        if is_zero(d) {
            return None;
        }
        let both = div_rem(magnitude(self), d);
        signed(both.quotient, negative(self) != negative(other))
    }

    // With the sign of self. Where the quotient does not fit there is no remainder either.
    pub fn checked_rem(self, other: Int128) -> Option<Int128>
        ensures { checked_of result ≡ rem_of (value_of self) (value_of other) }
    {
        let d = magnitude(other);
        if is_zero(d) {
            return None;
        }
        let both = div_rem(magnitude(self), d);
        signed(both.quotient, negative(self) != negative(other))?;
        signed(both.remainder, negative(self))
    }
}
