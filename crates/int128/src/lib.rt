// Signed integers of 128 bits, as two halves of 64 bits in two's complement. The operations are those of Rust's i128, under its names; each
// contract gives the exact whole number, or nothing where that does not fit.
#![tactic(auto)]

pub mod bits;
pub mod magnitude;
pub mod order;
pub mod product;
pub mod quotient;
pub mod shifts;
pub mod sums;
pub mod words;

pub use order::int_fits;

// hi * 2^64 + lo, less 2^128 where hi is 2^63 or more.
#[derive(Clone, Copy)]
pub struct Int128 {
    pub hi: u64,
    pub lo: u64,
}

// The bit of the sign.
const SIGN: u64 = 0x8000_0000_0000_0000;
