// Samples of a text: the digests of its beginnings, a stride apart, from which the digest of any long part is found without reading it whole.
ghost use Rattle.std.specs.Prelude.{◌≡◌, ◌+◌, ◌*◌, ◌%◌, ◌≤◌, ◌<◌, length};
ghost use Rattle.records.specs.Words.{word_at, text_at, most_records, none};
ghost use Rattle.records.specs.Digest.{roll_modulus, roll_of};
ghost use Rattle.records.specs.Samples.{roll_power, roll_across, roll_between, sample_bytes, sample_at, SampleRoom, Sampled, Samples};

use crate::layout::{SAMPLE_BYTES, SAMPLE_POWER};
use crate::texts::{LONG_STEP, ROLL_MODULUS, reach, roll, roll_byte, text_roll};
use crate::words::{load, put_pair};

// A product, short of multiples of 2^32 - 5.
fn times(a: u32, b: u32) -> u32
    ensures { (result ≡ a * b % roll_modulus) × (result < roll_modulus) }
{
    ((a as u64) * (b as u64) % ROLL_MODULUS) as u32
}

// What a digest is multiplied by over n bytes.
fn roll_power(n: usize) -> u32
    ensures { (result ≡ roll_power n) × (result < roll_modulus) }
{
    let mut x: u32 = 1;
    for _i in 0..n {
        x = roll_byte(x, 0);
    }
    x
}

// How far the samples of a text of so many bytes lie apart: as near as `room` bytes allow. A digest goes on over a long step at once, so
// strides are multiples of it.
pub fn stride_within(bytes: usize, room: usize) -> usize
    requires { (bytes ≤ none * most_records) × (sample_bytes ≤ room) }
    ensures { SampleRoom bytes result 0 room }
{
    let entries = room / SAMPLE_BYTES;
    (bytes / LONG_STEP / entries + 1) * LONG_STEP
}

// A sample for each whole stride of the text, from byte `at` of scratch on, in one pass over the text.
pub fn sample(text: &[u8], scratch: &mut [u8], at: usize, stride: usize)
    requires { SampleRoom (length text.now) stride at (length scratch.old) }
    ensures { Samples text.now stride at scratch.old scratch.new }
{
    if stride == 0 {
        return;
    }
    let factor = roll_power(stride);
    let mut d: u32 = 1;
    let mut power: u32 = 1;
    put_pair(scratch, at, d, power);
    for k in 0..text.len() / stride {
        d = roll(text, d, k * stride, stride);
        power = times(power, factor);
        put_pair(scratch, at + SAMPLE_BYTES * (k + 1), d, power);
    }
}

// From digest h on over a run, by the digests of the text up to its ends and by its power.
fn roll_across(h: u32, from: u32, to: u32, power: u32) -> u32
    requires { (h < roll_modulus) × (from < roll_modulus) }
    ensures { (result ≡ roll_across h from to power) × (result < roll_modulus) }
{
    let more = ((h as u64) + ROLL_MODULUS - (from as u64)) % ROLL_MODULUS;
    (((to as u64) + more * (power as u64)) % ROLL_MODULUS) as u32
}

// The same from one sample to another.
fn roll_between(scratch: &[u8], at: usize, h: u32, first: usize, last: usize) -> u32
    requires { (first ≤ last) × (sample_at at (last + 1) ≤ length scratch.now) × (h < roll_modulus) × (word_at scratch.now (sample_at at first) < roll_modulus) }
    ensures { (result ≡ roll_between scratch.now at h first last) × (result < roll_modulus) }
{
    let from = load(scratch, at + SAMPLE_BYTES * first);
    let to = load(scratch, at + SAMPLE_BYTES * last);
    let power = load(scratch, at + SAMPLE_BYTES * (last - first) + SAMPLE_POWER);
    roll_across(h, from, to, power)
}

// The digest of the n bytes from i on, more than a stride: they are read up to the first sample and from the last on.
fn roll_long(text: &[u8], scratch: &[u8], at: usize, stride: usize, i: usize, n: usize) -> u32
    requires { Sampled text.now stride at scratch.now × (0 < stride) × (stride < n) × (i + n ≤ length text.now) }
    ensures { (result ≡ roll_of (text_at text.now i n)) × (result < roll_modulus) }
{
    let first = i / stride + 1;
    let last = (i + n) / stride;
    let a = first * stride;
    let b = last * stride;
    let d = roll(text, 1, i, a - i);
    let h = roll_between(scratch, at, d, first, last);
    roll(text, h, b, i + n - b)
}

// The digest of a text that goes on, as `text_roll` finds it. A stride of 0 has no samples.
pub fn sampled_roll(
    text: &[u8],
    scratch: &[u8],
    at: usize,
    stride: usize,
    offset: u32,
    len: u32,
) -> u32
    requires { Sampled text.now stride at scratch.now }
    ensures { (result ≡ roll_of (text_at text.now offset len)) × (result < roll_modulus) }
{
    if stride == 0 {
        return text_roll(text, offset, len);
    }
    let i = offset as usize;
    let n = reach(text, i, len as usize);
    if n <= stride {
        return text_roll(text, offset, len);
    }
    roll_long(text, scratch, at, stride, i, n)
}
