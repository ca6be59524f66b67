// Texts compared, by their places in the text buffer.
ghost use Rattle.std.specs.Prelude.{◌≡◌, ◌+◌, ◌*◌, ◌%◌, ◌≤◌, ◌<◌, length};
ghost use Rattle.records.specs.Words.{text_at, same_text};
ghost use Rattle.records.specs.Digest.{digest_step, digest_end, digest_four, high_first, roll_modulus, roll_step, roll_from, roll_of};

use crate::words::load;

// How many bytes a text has: none of them lie past the buffer's end.
pub fn reach(text: &[u8], offset: usize, len: usize) -> usize
    ensures { result ≡ length (text_at text.now offset len) }
{
    len.min(text.len().saturating_sub(offset))
}

// Whether four bytes of s from i on and of t from j on are the same, as one load each.
fn same_word(s: &[u8], i: usize, t: &[u8], j: usize) -> bool
    requires { (i + 4 ≤ length s.now) × (j + 4 ≤ length t.now) }
    ensures { result ≡ same_text (text_at s.now i 4) (text_at t.now j 4) }
{
    load(s, i) == load(t, j)
}

// The same of eight bytes. The compiler makes one load of 64 bits of the two words, and of the functions below wider ones; so nothing here may
// branch.
pub fn same_eight(s: &[u8], i: usize, t: &[u8], j: usize) -> bool
    requires { (i + 8 ≤ length s.now) × (j + 8 ≤ length t.now) }
    ensures { result ≡ same_text (text_at s.now i 8) (text_at t.now j 8) }
{
    same_word(s, i, t, j) & same_word(s, i + 4, t, j + 4)
}

// The same of N eights, side by side: their number is fixed, so that the compiler lays them one beside the other.
pub(crate) fn same_eights<const N: usize>(s: &[u8], i: usize, t: &[u8], j: usize) -> bool
    requires { (i + 8 * N ≤ length s.now) × (j + 8 * N ≤ length t.now) }
    ensures { result ≡ same_text (text_at s.now i (8 * N)) (text_at t.now j (8 * N)) }
{
    let mut same = true;
    for k in 0..N {
        same &= same_eight(s, i + 8 * k, t, j + 8 * k);
    }
    same
}

// Eight eights.
pub fn same_sixty_four(s: &[u8], i: usize, t: &[u8], j: usize) -> bool
    requires { (i + 64 ≤ length s.now) × (j + 64 ≤ length t.now) }
    ensures { result ≡ same_text (text_at s.now i 64) (text_at t.now j 64) }
{
    same_eights::<8>(s, i, t, j)
}

// Four bytes of the rest, each by itself. Nothing branches between them, so that the compiler compares them at once.
fn same_four(s: &[u8], i: usize, t: &[u8], j: usize) -> bool
    requires { (i + 4 ≤ length s.now) × (j + 4 ≤ length t.now) }
    ensures { result ≡ same_text (text_at s.now i 4) (text_at t.now j 4) }
{
    (s[i] == t[j]) & (s[i + 1] == t[j + 1]) & (s[i + 2] == t[j + 2]) & (s[i + 3] == t[j + 3])
}

// Three bytes at most. The number of turns is fixed, so that the compiler lays them one behind the other.
fn same_singly(s: &[u8], a: usize, t: &[u8], b: usize, n: usize) -> bool
    requires { (a + n ≤ length s.now) × (b + n ≤ length t.now) × (n < 4) }
    ensures { result ≡ same_text (text_at s.now a n) (text_at t.now b n) }
{
    for k in 0..3 {
        if k < n && s[a + k] != t[b + k] {
            return false;
        }
    }
    true
}

// The rest, seven bytes at most, singly.
fn same_rest(s: &[u8], a: usize, t: &[u8], b: usize, n: usize) -> bool
    requires { (a + n ≤ length s.now) × (b + n ≤ length t.now) × (n < 8) }
    ensures { result ≡ same_text (text_at s.now a n) (text_at t.now b n) }
{
    if n < 4 {
        return same_singly(s, a, t, b, n);
    }
    if !same_four(s, a, t, b) {
        return false;
    }
    same_singly(s, a + 4, t, b + 4, n - 4)
}

// Eights by eight, then by four, by two and by one at most once each, and the rest.
fn same_long(s: &[u8], a: usize, t: &[u8], b: usize, n: usize) -> bool
    requires { (a + n ≤ length s.now) × (b + n ≤ length t.now) }
    ensures { result ≡ same_text (text_at s.now a n) (text_at t.now b n) }
{
    for k in 0..n / 64 {
        if !same_eights::<8>(s, a + 64 * k, t, b + 64 * k) {
            return false;
        }
    }
    let mut i = n / 64 * 64;
    if n - i >= 32 {
        if !same_eights::<4>(s, a + i, t, b + i) {
            return false;
        }
        i += 32;
    }
    if n - i >= 16 {
        if !same_eights::<2>(s, a + i, t, b + i) {
            return false;
        }
        i += 16;
    }
    if n - i >= 8 {
        if !same_eight(s, a + i, t, b + i) {
            return false;
        }
        i += 8;
    }
    same_rest(s, a + i, t, b + i, n - i)
}

// Whether n bytes of s from a on and of t from b on are the same: the one place where that is asked, eight at a time and the rest singly
// (how far two texts agree: `common` in order.rt). The first eight stand alone: texts that differ mostly differ there.
pub fn same_run(s: &[u8], a: usize, t: &[u8], b: usize, n: usize) -> bool
    requires { (a + n ≤ length s.now) × (b + n ≤ length t.now) }
    ensures { result ≡ same_text (text_at s.now a n) (text_at t.now b n) }
{
    if n < 8 {
        return same_rest(s, a, t, b, n);
    }
    if !same_eight(s, a, t, b) {
        return false;
    }
    same_long(s, a + 8, t, b + 8, n - 8)
}

// The same within one text.
pub fn same_part(text: &[u8], a: usize, b: usize, n: usize) -> bool
    requires { (a + n ≤ length text.now) × (b + n ≤ length text.now) }
    ensures { result ≡ same_text (text_at text.now a n) (text_at text.now b n) }
{
    same_run(text, a, text, b, n)
}

// Whether two texts are the same, byte for byte.
pub fn same_text(text: &[u8], a: u32, n: u32, b: u32, m: u32) -> bool
    ensures { result ≡ same_text (text_at text.now a n) (text_at text.now b m) }
{
    let i = a as usize;
    let j = b as usize;
    let x = reach(text, i, n as usize);
    let y = reach(text, j, m as usize);
    if x != y {
        return false;
    }
    if x == 0 {
        return true;
    }
    same_part(text, i, j, x)
}

// What a digest is multiplied by: odd numbers with bits spread over 30 and 31 places, small enough that no sum below exceeds 64 bits.
const FACTOR: u64 = 663608941;

const FACTOR_SECOND: u64 = 1013904223;

const FACTOR_LAST: u64 = 1481765933;

// 2^32 - 5: what is left over from it is the digest of a text that goes on.
pub const ROLL_MODULUS: u64 = 4294967291;

// The upper half is added to the lower: a remainder alone would keep the lowest bits from ever seeing the others.
#[tactic(auto, unfolding(crate::specs::Digest::digest_step))]
fn step(h: u64, w: u32, v: u32) -> u64
    requires { h < 8589934592 }
    ensures { (result ≡ digest_step h w v) × (result < 8589934592) }
{
    let x = h * FACTOR + (w as u64) + (v as u64) * FACTOR_SECOND;
    x % 4294967296 + x / 4294967296
}

#[tactic(auto, unfolding(crate::specs::Digest::digest_end))]
fn digest_end(h: u64) -> u32
    requires { h < 8589934592 }
    ensures { result ≡ digest_end h }
{
    let x = h * FACTOR_LAST;
    let y = x % 4294967296 + x / 4294967296;
    (y % 4294967296) as u32
}

// The digest of four words.
pub fn word_digest(a: u32, b: u32, c: u32, d: u32) -> u32
    ensures { result ≡ digest_four a b c d }
{
    digest_end(step(step(1, a, b), c, d))
}

// So many bytes a text's digest goes on over at once; the two shorter steps are for what is left behind the last long one.
pub const LONG_STEP: usize = 16;

const MIDDLE_STEP: usize = 8;

const SHORT_STEP: usize = 4;

// What a digest is multiplied by over such a step: modulo 2^32 - 5, 2^32 is 5, 2^64 is 25 and 2^128 is 625.
const OVER_LONG: u64 = 625;

const OVER_MIDDLE: u64 = 25;

const OVER_SHORT: u64 = 5;

// Four bytes as a number, the first the highest: one load, and its bytes turned round.
#[tactic(auto, unfolding(crate::specs::Digest::high_first, crate::specs::Words::byte_at))]
fn high_first(text: &[u8], i: usize) -> u64
    requires { i + 4 ≤ length text.now }
    ensures { (result ≡ high_first text.now i) × (result < 4294967296) }
{
    u32::from_be_bytes([text[i], text[i + 1], text[i + 2], text[i + 3]]) as u64
}

// Eight bytes as such a number, short of a multiple of 2^32 - 5.
fn eight_digits(text: &[u8], i: usize) -> u64
    requires { i + 8 ≤ length text.now }
    ensures { (result ≡ high_first text.now i * 5 + high_first text.now (i + 4)) × (result < 25769803776) }
{
    high_first(text, i) * OVER_SHORT + high_first(text, i + SHORT_STEP)
}

// Five times the upper half is added to the lower, which keeps the remainder by 2^32 - 5.
fn turned(x: u64) -> u64
    requires { x < 17592186044416 }
    ensures { (result % roll_modulus ≡ x % roll_modulus) × (result < 8589934592) }
{
    x % 4294967296 + x / 4294967296 * OVER_SHORT
}

// From x on, over sixteen bytes, in one product that waits for the one before.
fn roll_sixteen(text: &[u8], x: u64, i: usize) -> u64
    requires { (i + 16 ≤ length text.now) × (x < 8589934592) }
    ensures { (result % roll_modulus ≡ roll_from (x % roll_modulus) (text_at text.now i 16)) × (result < 8589934592) }
{
    turned(
        x * OVER_LONG + eight_digits(text, i) * OVER_MIDDLE + eight_digits(text, i + MIDDLE_STEP),
    )
}

// The same over eight.
fn roll_eight(text: &[u8], x: u64, i: usize) -> u64
    requires { (i + 8 ≤ length text.now) × (x < 8589934592) }
    ensures { (result % roll_modulus ≡ roll_from (x % roll_modulus) (text_at text.now i 8)) × (result < 8589934592) }
{
    turned(x * OVER_MIDDLE + eight_digits(text, i))
}

// The same over four.
fn roll_four(text: &[u8], x: u64, i: usize) -> u64
    requires { (i + 4 ≤ length text.now) × (x < 8589934592) }
    ensures { (result % roll_modulus ≡ roll_from (x % roll_modulus) (text_at text.now i 4)) × (result < 8589934592) }
{
    turned(x * OVER_SHORT + high_first(text, i))
}

// A byte more.
#[tactic(auto, unfolding(crate::specs::Digest::roll_step))]
pub fn roll_byte(d: u32, b: u8) -> u32
    requires { d < roll_modulus }
    ensures { (result ≡ roll_step d b) × (result < roll_modulus) }
{
    (((d as u64) * 256 + (b as u64)) % ROLL_MODULUS) as u32
}

// From digest d on, over the n bytes from `at` on: by sixteens, then by eight and by four at most once each, so that no more than three
// bytes go singly, each of which waits for the one before.
pub fn roll(text: &[u8], d: u32, at: usize, n: usize) -> u32
    requires { (at + n ≤ length text.now) × (d < roll_modulus) }
    ensures { (result ≡ roll_from d (text_at text.now at n)) × (result < roll_modulus) }
{
    let mut x = d as u64;
    let steps = n / LONG_STEP;
    for k in 0..steps {
        x = roll_sixteen(text, x, at + LONG_STEP * k);
    }
    let mut i = LONG_STEP * steps;
    if n - i >= MIDDLE_STEP {
        x = roll_eight(text, x, at + i);
        i += MIDDLE_STEP;
    }
    if n - i >= SHORT_STEP {
        x = roll_four(text, x, at + i);
        i += SHORT_STEP;
    }
    for k in i..n {
        x = turned(x * 256 + (text[at + k] as u64));
    }
    (x % ROLL_MODULUS) as u32
}

// The digest of a text that goes on, as far as the text lies within the buffer.
pub fn text_roll(text: &[u8], offset: u32, len: u32) -> u32
    ensures { (result ≡ roll_of (text_at text.now offset len)) × (result < roll_modulus) }
{
    let i = offset as usize;
    let x = reach(text, i, len as usize);
    if x == 0 {
        return 1;
    }
    roll(text, 1, i, x)
}

// What is made of it to find a text's bucket: texts that differ in their last bytes alone come far apart.
pub fn roll_digest(d: u32) -> u32
    ensures { result ≡ digest_end d }
{
    digest_end(d as u64)
}
