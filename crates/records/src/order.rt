// Texts in the order of their common beginnings: how far two texts agree, where a text belongs in a chain, and its entry written.
ghost use Rattle.std.specs.Prelude.{◌≡◌, ◌+◌, ◌*◌, ◌≤◌, ◌<◌, length};
ghost use Rattle.records.specs.Words.{record_bytes, text_at};
ghost use Rattle.records.specs.Chains.{ChainRoom};
ghost use Rattle.records.specs.Order.{common as common_of, Agrees, record_text, Leads, PlaceOf, placed_at};

use crate::layout::{CHAIN_ENTRY_BYTES, CHAIN_HEAD_BYTES};
use crate::texts::{reach, same_eights, same_text};
use crate::words::{SECOND_WORD, WORD_A, WORD_B, load, put_pair, put_word, word};

// As far as parts of N eights agree: how many of n bytes are sure to, where the first `from` do.
fn common_parts<const N: usize>(text: &[u8], a: usize, b: usize, n: usize, from: usize) -> usize
    requires { (0 < n → (a + n ≤ length text.now) × (b + n ≤ length text.now)) × (0 < N) × (N ≤ 8) × (from ≤ common_of (text_at text.now a n) (text_at text.now b n)) }
    ensures { result ≤ common_of (text_at text.now a n) (text_at text.now b n) }
{
    let mut k = from;
    // A `for` over the parts would count beside k, which is what is asked, and break at a part that differs.
    while n - k >= 8 * N && same_eights::<N>(text, a + k, text, b + k) {
        k += 8 * N;
    }
    k
}

// How many of n bytes from a and from b on agree, where the first `from` do: by eight eights, by eights, and singly.
pub fn common(text: &[u8], a: usize, b: usize, n: usize, from: usize) -> usize
    requires { (0 < n → (a + n ≤ length text.now) × (b + n ≤ length text.now)) × (from ≤ common_of (text_at text.now a n) (text_at text.now b n)) }
    ensures { result ≡ common_of (text_at text.now a n) (text_at text.now b n) }
{
    let long = common_parts::<8>(text, a, b, n, from);
    let short = common_parts::<1>(text, a, b, n, long);
    for k in short..n {
        if text[a + k] != text[b + k] {
            return k;
        }
    }
    n
}

// How far two texts agree, and whether they are the same.
#[derive(Clone, Copy)]
pub struct Agreement {
    pub bytes: u32,
    pub whole: bool,
}

// Two texts that agree in the first `from` bytes. Most that are compared from the first on are the same, so that is asked before.
fn agreed(text: &[u8], a: u32, n: u32, b: u32, m: u32, from: u32) -> Agreement
    requires { from ≤ common_of (text_at text.now a n) (text_at text.now b m) }
    ensures { Agrees (text_at text.now a n) (text_at text.now b m) result.bytes result.whole }
{
    let i = a as usize;
    let j = b as usize;
    let x = reach(text, i, n as usize);
    let y = reach(text, j, m as usize);
    if from == 0 && same_text(text, a, n, b, m) {
        return Agreement {
            bytes: x as u32,
            whole: true,
        };
    }
    let bytes = common(text, i, j, x.min(y), from as usize);
    Agreement {
        bytes: bytes as u32,
        whole: (bytes == x) & (bytes == y),
    }
}

// The same of the texts of records k and r.
fn records_agree(tree: &[u8], text: &[u8], k: usize, r: usize, from: u32) -> Agreement
    requires record_bytes_in_bounds { (k * record_bytes + record_bytes ≤ length tree.now) × (r * record_bytes + record_bytes ≤ length tree.now) }
    requires from_bound { from ≤ common_of (record_text tree.now text.now k) (record_text tree.now text.now r) }
    ensures { Agrees (record_text tree.now text.now k) (record_text tree.now text.now r) result.bytes result.whole }
{
    let a = word(tree, k, WORD_A);
    let b = word(tree, k, WORD_B);
    agreed(
        text,
        a,
        b,
        word(tree, r, WORD_A),
        word(tree, r, WORD_B),
        from,
    )
}

// Where a record belongs in a chain: the entry that has its text, or itself; and then where the link that is to lead to it stands, and how far its text agrees
// with that of the entry before. Beside it, how many entries were passed.
#[derive(Clone, Copy)]
pub struct ChainPlace {
    pub number: usize,
    pub at: usize,
    pub shared: u32,
    pub passed: u32,
}

// The chain is walked from the link at `head` on. An entry tells how far its text agrees with that of the one before: only where r's text agrees just as far
// is it compared, from there on. So a byte of r's text that agreed is read at no later entry; the one that differed, and up to 63 that are compared along with
// it, at each that agrees just as far.
pub fn find_place(
    tree: &[u8],
    text: &[u8],
    scratch: &[u8],
    n: usize,
    r: usize,
    head: usize,
) -> ChainPlace
    requires chain_room { ChainRoom n scratch.now × (n * record_bytes ≤ length tree.now) × (r < n) × (head + 4 ≤ length scratch.now) }
    requires leads { Leads (record_text tree.now text.now) n r head scratch.now }
    ensures { PlaceOf (record_text tree.now text.now) n r head scratch.now result.number result.at result.shared }
{
    let mut at = head;
    let mut shared: u32 = 0;
    let mut passed: u32 = 0;
    let mut link = load(scratch, at) as usize;
    while link > 0 {
        let k = link - 1;
        let e = CHAIN_HEAD_BYTES * n + CHAIN_ENTRY_BYTES * k;
        let before = load(scratch, e);
        if before < shared {
            return ChainPlace {
                number: r,
                at,
                shared,
                passed,
            };
        }
        if before == shared {
            let a = records_agree(tree, text, k, r, shared);
            if a.whole {
                return ChainPlace {
                    number: k,
                    at,
                    shared,
                    passed,
                };
            }
            shared = a.bytes;
        }
        at = e + SECOND_WORD;
        link = load(scratch, at) as usize;
        passed = passed.saturating_add(1);
    }
    ChainPlace {
        number: r,
        at,
        shared,
        passed,
    }
}

// Number r goes where the link at `at` leads, before what that led to.
pub fn enter_at(scratch: &mut [u8], n: usize, r: usize, shared: u32, at: usize, next: u32)
    requires { ChainRoom n scratch.old × (r < n) × (at + 4 ≤ length scratch.old) }
    ensures { scratch.new ≡ placed_at n r shared at next scratch.old }
{
    let link = (r + 1) as u32;
    put_pair(
        scratch,
        CHAIN_HEAD_BYTES * n + CHAIN_ENTRY_BYTES * r,
        shared,
        next,
    );
    put_word(scratch, at, link);
}
