// Numbers in buckets of digests, where each is chained to the last before it in its bucket: heads, digests and links in lent bytes.
ghost use Rattle.std.specs.Prelude.{◌≡◌, ◌≤◌, ◌<◌, length};
ghost use Rattle.records.specs.Words.{most_records};
ghost use Rattle.records.specs.Chains.{bucket_of, entered, ChainRoom, Cleared, Emptied};

use crate::layout::{CHAIN_ENTRY_BYTES, CHAIN_HEAD_BYTES};
use crate::words::{put_pair, put_word};

// A walk that passes more entries than this is too long: of what is not made to share a digest or a bucket hardly ten meet in one.
pub const FAR: u32 = 32;

// The bucket of a digest, of n buckets: a product and its upper half cost less than a remainder.
pub fn bucket(d: u32, n: usize) -> usize
    requires { (0 < n) × (n ≤ most_records) }
    ensures { (result ≡ bucket_of n d) × (result < n) }
{
    ((d as usize) * n) / 4294967296
}

// Zero from one byte up to another, and the others as they were.
pub fn clear_run(scratch: &mut [u8], from: usize, to: usize)
    requires { (from ≤ to) × (to ≤ length scratch.old) }
    ensures { Cleared from to scratch.old scratch.new }
{
    scratch[from..to].fill(0);
}

// Zero in the first n bytes, and the others as they were: no bucket has a number yet.
pub fn clear_heads(scratch: &mut [u8], n: usize)
    requires { n ≤ length scratch.old }
    ensures { Emptied n scratch.old scratch.new }
{
    clear_run(scratch, 0, n);
}

// Number r goes before the others of its bucket.
pub fn enter(scratch: &mut [u8], n: usize, r: usize, d: u32, b: usize, head: u32)
    requires { ChainRoom n scratch.old × (r < n) × (b < n) }
    ensures { scratch.new ≡ entered n r d b head scratch.old }
{
    let next = (r + 1) as u32;
    put_pair(
        scratch,
        CHAIN_HEAD_BYTES * n + CHAIN_ENTRY_BYTES * r,
        d,
        head,
    );
    put_word(scratch, CHAIN_HEAD_BYTES * b, next);
}
