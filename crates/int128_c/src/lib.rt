// The operations of int128 for C and Rust: numbers as two halves. An answer is true with its halves in the two words that the caller lends,
// or false with zeros there.
#![tactic(auto)]

ghost use Rattle.int128.specs.Ops.{add_of, sub_of, mul_of, div_of, rem_of, neg_of, not_of, and_of, or_of, xor_of, shl_of, shr_of, by_count, int_fits};
ghost use Rattle.std.specs.Int.Signed.{lt_z};
ghost use Rattle.std.proofs.Math.Option.{some};
ghost use Rattle.std.specs.Prelude.{◌≡◌};
ghost use Rattle.int128.specs.Value.{checked_of};
ghost use Rattle.int128_c.specs.Words.{value_in, answer_in};

use int128::Int128;

fn put(answer: Option<Int128>, hi: &mut u64, lo: &mut u64) -> bool
    ensures { answer_in result hi.new lo.new ≡ answer }
{
    match answer {
        Some(x) => {
            *hi = x.hi;
            *lo = x.lo;
            true
        }
        None => {
            *hi = 0;
            *lo = 0;
            false
        }
    }
}

#[unsafe(no_mangle)]
pub extern "C" fn int128_c_add(
    ah: u64,
    al: u64,
    bh: u64,
    bl: u64,
    hi: &mut u64,
    lo: &mut u64,
) -> bool
    ensures { checked_of (answer_in result hi.new lo.new) ≡ add_of (value_in ah al) (value_in bh bl) }
{
    let a = Int128 { hi: ah, lo: al };
    let b = Int128 { hi: bh, lo: bl };
    put(a.checked_add(b), hi, lo)
}

#[unsafe(no_mangle)]
pub extern "C" fn int128_c_sub(
    ah: u64,
    al: u64,
    bh: u64,
    bl: u64,
    hi: &mut u64,
    lo: &mut u64,
) -> bool
    ensures { checked_of (answer_in result hi.new lo.new) ≡ sub_of (value_in ah al) (value_in bh bl) }
{
    let a = Int128 { hi: ah, lo: al };
    let b = Int128 { hi: bh, lo: bl };
    put(a.checked_sub(b), hi, lo)
}

#[unsafe(no_mangle)]
pub extern "C" fn int128_c_mul(
    ah: u64,
    al: u64,
    bh: u64,
    bl: u64,
    hi: &mut u64,
    lo: &mut u64,
) -> bool
    ensures { checked_of (answer_in result hi.new lo.new) ≡ mul_of (value_in ah al) (value_in bh bl) }
{
    let a = Int128 { hi: ah, lo: al };
    let b = Int128 { hi: bh, lo: bl };
    put(a.checked_mul(b), hi, lo)
}

#[unsafe(no_mangle)]
pub extern "C" fn int128_c_div(
    ah: u64,
    al: u64,
    bh: u64,
    bl: u64,
    hi: &mut u64,
    lo: &mut u64,
) -> bool
    ensures { checked_of (answer_in result hi.new lo.new) ≡ div_of (value_in ah al) (value_in bh bl) }
{
    let a = Int128 { hi: ah, lo: al };
    let b = Int128 { hi: bh, lo: bl };
    put(a.checked_div(b), hi, lo)
}

#[unsafe(no_mangle)]
pub extern "C" fn int128_c_rem(
    ah: u64,
    al: u64,
    bh: u64,
    bl: u64,
    hi: &mut u64,
    lo: &mut u64,
) -> bool
    ensures { checked_of (answer_in result hi.new lo.new) ≡ rem_of (value_in ah al) (value_in bh bl) }
{
    let a = Int128 { hi: ah, lo: al };
    let b = Int128 { hi: bh, lo: bl };
    put(a.checked_rem(b), hi, lo)
}

#[unsafe(no_mangle)]
pub extern "C" fn int128_c_and(
    ah: u64,
    al: u64,
    bh: u64,
    bl: u64,
    hi: &mut u64,
    lo: &mut u64,
) -> bool
    ensures { checked_of (answer_in result hi.new lo.new) ≡ some (and_of (value_in ah al) (value_in bh bl)) }
{
    let a = Int128 { hi: ah, lo: al };
    let b = Int128 { hi: bh, lo: bl };
    put(Some(a & b), hi, lo)
}

#[unsafe(no_mangle)]
pub extern "C" fn int128_c_or(
    ah: u64,
    al: u64,
    bh: u64,
    bl: u64,
    hi: &mut u64,
    lo: &mut u64,
) -> bool
    ensures { checked_of (answer_in result hi.new lo.new) ≡ some (or_of (value_in ah al) (value_in bh bl)) }
{
    let a = Int128 { hi: ah, lo: al };
    let b = Int128 { hi: bh, lo: bl };
    put(Some(a | b), hi, lo)
}

#[unsafe(no_mangle)]
pub extern "C" fn int128_c_xor(
    ah: u64,
    al: u64,
    bh: u64,
    bl: u64,
    hi: &mut u64,
    lo: &mut u64,
) -> bool
    ensures { checked_of (answer_in result hi.new lo.new) ≡ some (xor_of (value_in ah al) (value_in bh bl)) }
{
    let a = Int128 { hi: ah, lo: al };
    let b = Int128 { hi: bh, lo: bl };
    put(Some(a ^ b), hi, lo)
}

#[unsafe(no_mangle)]
pub extern "C" fn int128_c_shl(
    ah: u64,
    al: u64,
    bh: u64,
    bl: u64,
    hi: &mut u64,
    lo: &mut u64,
) -> bool
    ensures { checked_of (answer_in result hi.new lo.new) ≡ by_count (shl_of (value_in ah al)) (value_in bh bl) }
{
    let a = Int128 { hi: ah, lo: al };
    let b = Int128 { hi: bh, lo: bl };
    put(a.checked_shl_by(b), hi, lo)
}

#[unsafe(no_mangle)]
pub extern "C" fn int128_c_shr(
    ah: u64,
    al: u64,
    bh: u64,
    bl: u64,
    hi: &mut u64,
    lo: &mut u64,
) -> bool
    ensures { checked_of (answer_in result hi.new lo.new) ≡ by_count (shr_of (value_in ah al)) (value_in bh bl) }
{
    let a = Int128 { hi: ah, lo: al };
    let b = Int128 { hi: bh, lo: bl };
    put(a.checked_shr_by(b), hi, lo)
}

#[unsafe(no_mangle)]
pub extern "C" fn int128_c_neg(ah: u64, al: u64, hi: &mut u64, lo: &mut u64) -> bool
    ensures { checked_of (answer_in result hi.new lo.new) ≡ neg_of (value_in ah al) }
{
    let a = Int128 { hi: ah, lo: al };
    put(a.checked_neg(), hi, lo)
}

#[unsafe(no_mangle)]
pub extern "C" fn int128_c_not(ah: u64, al: u64, hi: &mut u64, lo: &mut u64) -> bool
    ensures { checked_of (answer_in result hi.new lo.new) ≡ some (not_of (value_in ah al)) }
{
    let a = Int128 { hi: ah, lo: al };
    put(Some(!a), hi, lo)
}

#[unsafe(no_mangle)]
pub extern "C" fn int128_c_lt(ah: u64, al: u64, bh: u64, bl: u64) -> bool
    ensures { result ≡ lt_z (value_in ah al) (value_in bh bl) }
{
    let a = Int128 { hi: ah, lo: al };
    let b = Int128 { hi: bh, lo: bl };
    a < b
}

#[unsafe(no_mangle)]
pub extern "C" fn int128_c_fits(ah: u64, al: u64, short: bool, unsigned: bool) -> bool
    ensures { result ≡ int_fits (value_in ah al) short unsigned }
{
    let a = Int128 { hi: ah, lo: al };
    int128::int_fits(a, short, unsigned)
}
