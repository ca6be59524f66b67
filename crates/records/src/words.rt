// Bytes, little-endian words, records of 32 bytes: read, and written into a lent buffer.
ghost use Rattle.std.specs.Prelude.{◌≡◌, ◌++◌, ◌+◌, ◌*◌, ◌/◌, ◌%◌, ◌≤◌, ◌<◌, length};
ghost use Rattle.std.specs.Float.{binary64};
ghost use Rattle.std.specs.Float.Ieee.{nan_bits};
ghost use Rattle.laws.specs.Splice.{splice};
ghost use Rattle.records.specs.Words.{record_bytes, word_at, word_of, kind_of, detail_of, pad_of, word as word_bytes, bool_number};

// FFFFFFFF in a word that refers to a record means none.
pub const NONE: u32 = 4294967295;

// A record of the tree has so many bytes.
pub const RECORD_BYTES: usize = 32;

// The words of a record.
pub const WORD_A: usize = 0;

pub const WORD_B: usize = 1;

pub const WORD_C: usize = 2;

pub const WORD_D: usize = 3;

pub const WORD_E: usize = 4;

pub const SPAN_START: usize = 5;

pub const SPAN_END: usize = 6;

// Where the second, third and fourth of an entry's words stand, from its beginning.
pub const SECOND_WORD: usize = 4;

pub const THIRD_WORD: usize = 8;

pub const FOURTH_WORD: usize = 12;

// How many records a tree has at least, which are the types that each begins with, and at most.
pub const FEWEST_RECORDS: usize = 12;

pub const MOST_RECORDS: usize = 16384;

pub fn wide(x: u8) -> u32
    ensures { (result ≡ x) × (result < 256) }
{
    u32::from(x)
}

// The word of four bytes at `at`, the lowest first.
#[tactic(auto, unfolding(crate::specs::Words::word_at, crate::specs::Words::byte_at))]
pub fn load(s: &[u8], at: usize) -> u32
    requires { at + 4 ≤ length s.now }
    ensures { result ≡ word_at s.now at }
{
    u32::from_le_bytes([s[at], s[at + 1], s[at + 2], s[at + 3]])
}

// Word k of record r: one of A to E, or of the span.
pub fn word(tree: &[u8], r: usize, k: usize) -> u32
    requires { (r * record_bytes + record_bytes ≤ length tree.now) × (k < 7) }
    ensures { result ≡ word_of tree.now r k }
{
    load(tree, r * RECORD_BYTES + 4 + k * 4)
}

// The kind of record r.
pub fn kind(tree: &[u8], r: usize) -> u8
    requires { r * record_bytes + record_bytes ≤ length tree.now }
    ensures { result ≡ kind_of tree.now r }
{
    tree[r * RECORD_BYTES]
}

// The detail of record r.
pub fn detail(tree: &[u8], r: usize) -> u8
    requires { r * record_bytes + record_bytes ≤ length tree.now }
    ensures { result ≡ detail_of tree.now r }
{
    tree[r * RECORD_BYTES + 1]
}

// Bytes 2 and 3 of record r, which are zero in a good record.
#[tactic(auto, unfolding(crate::specs::Words::pad_of, crate::specs::Words::byte_at))]
pub fn pad(tree: &[u8], r: usize) -> u32
    requires { r * record_bytes + record_bytes ≤ length tree.now }
    ensures { result ≡ pad_of tree.now r }
{
    let at = r * RECORD_BYTES + 2;
    u32::from(u16::from_le_bytes([tree[at], tree[at + 1]]))
}

// A word as a record's number.
pub fn index(x: u32) -> usize
    ensures { result ≡ x }
{
    x as usize
}

// Word k of record r as a record's number.
pub fn reference(tree: &[u8], r: usize, k: usize) -> usize
    requires record_bytes_in_bounds { r * record_bytes + record_bytes ≤ length tree.now }
    requires k_bound { k ≤ 4 }
    ensures { result ≡ word_of tree.now r k }
{
    word(tree, r, k) as usize
}

pub fn low(x: u64) -> u32
    ensures { result ≡ x % 4294967296 }
{
    (x % 4294967296) as u32
}

pub fn high(x: u64) -> u32
    ensures { (result ≡ x / 4294967296) × (result < 4294967296) }
{
    (x / 4294967296) as u32
}

#[tactic(auto, unfolding(crate::specs::Words::bool_number))]
pub fn mark(b: bool) -> u32
    ensures { result ≡ bool_number b }
{
    u32::from(b)
}

// v's four bytes at `at`, the lowest first.
pub fn put_word(buf: &mut [u8], at: usize, v: u32)
    requires { at + 4 ≤ length buf.old }
    ensures { buf.new ≡ splice buf.old at (word_bytes v) }
{
    buf[at..at + 4].copy_from_slice(&v.to_le_bytes());
}

// Two words, one behind the other.
pub fn put_pair(buf: &mut [u8], at: usize, a: u32, b: u32)
    requires { at + 8 ≤ length buf.old }
    ensures { buf.new ≡ splice buf.old at (word_bytes a ++ word_bytes b) }
{
    let second = at + SECOND_WORD;
    put_word(buf, at, a);
    put_word(buf, second, b);
}

// Four words, to be written at once; what each is for its writer says.
#[derive(Clone, Copy)]
pub struct Four(pub u32, pub u32, pub u32, pub u32);

pub fn put_four(buf: &mut [u8], at: usize, w: Four)
    requires { at + 16 ≤ length buf.old }
    ensures { buf.new ≡ splice buf.old at (word_bytes w.0 ++ word_bytes w.1 ++ word_bytes w.2 ++ word_bytes w.3) }
{
    let third = at + THIRD_WORD;
    put_pair(buf, at, w.0, w.1);
    put_pair(buf, third, w.2, w.3);
}

// Whether 64 bits are a NaN's: without the sign, above an infinity's.
pub fn nan_bits(b: u64) -> bool
    ensures { result ≡ nan_bits binary64 b }
{
    (b & 0x7FFF_FFFF_FFFF_FFFF) > 0x7FF0_0000_0000_0000
}
