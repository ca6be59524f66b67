// What a record refers to: counted, and each record that is not referred to exactly once.
ghost use Rattle.std.specs.Prelude.{◌≡◌, true, not, ℕ, ◌+◌, ◌*◌, ◌≤◌, ◌<◌, length};
ghost use Rattle.laws.specs.Below.{any_below};
ghost use Rattle.records.specs.Layout.{known_bytes, scratch_each};
ghost use Rattle.records.specs.Words.{record_bytes, most_records};
ghost use Rattle.records.specs.Shapes.{refers};
ghost use Rattle.records.specs.Rules.{referred_once};
ghost use Rattle.judge.specs.Inner.{Lowest, KnownBelow, miscounted_in, ReferenceCounts, Took};

use crate::rules::{BADGES_EACH, high_badge, low_badge, none_ok};
use records::layout::{KNOWN_BYTES, NEXT_CLASS, NEXT_COUNT, NEXT_DEPTH, NEXT_KIND};
use records::numbers::{KIND_FUNCTION, KIND_TYPE};
use records::shape::Role;
use records::words::{NONE, index, kind, load};

// A slot as a word: one more of the count and of the kind, and how many values a byte has.
const ONE_COUNT: u32 = 256;

const ONE_KIND: u32 = 16777216;

const BYTE_VALUES: u32 = 256;

// What a word, or a whole record, was found to be: right, and so deep, up to 65.
#[derive(Clone, Copy)]
pub struct Told {
    pub ok: bool,
    pub depth: u8,
}

// Word w of record r, which refers: judged, and one more for a lower record that it refers to, up to 2. More than once is all that matters. What is
// not lower has no bytes yet, and its count never matters: record r is at fault then, and it is not the higher of the two.
pub(crate) fn take_reference(tree: &[u8], r: usize, role: Role, w: u32, known: &mut [u8]) -> Told
    requires { (r < most_records) × (r * known_bytes + known_bytes ≤ length known.old) × KnownBelow tree.now r known.old × (refers role ≡ true) }
    ensures { (bytes next : ℕ) → Took tree.now bytes r role w next known.old known.new result.ok result.depth }
{
    let i = index(w);
    if i >= r {
        return Told {
            ok: (w == NONE) & none_ok(role),
            depth: 0,
        };
    }
    let badge = u32::from(known[i * KNOWN_BYTES + NEXT_KIND]) * BADGES_EACH
        + u32::from(known[i * KNOWN_BYTES + NEXT_CLASS]);
    let ok = (low_badge(role) <= badge) & (badge <= high_badge(role));
    let depth = known[i * KNOWN_BYTES + NEXT_DEPTH];
    let count = known[i * KNOWN_BYTES + NEXT_COUNT];
    if count >= 2 {
        return Told { ok, depth };
    }
    known[i * KNOWN_BYTES + NEXT_COUNT] = count + 1;
    Told { ok, depth }
}

// Whether one of n records is neither type nor function and not referred to exactly once, by what is known of them. Each slot is read as a word and nothing
// branches on it, so that several are asked at once.
fn some_miscounted(n: usize, known: &[u8]) -> bool
    requires { scratch_each * n ≤ length known.now }
    ensures { result ≡ any_below n (miscounted_in known.now) }
{
    let mut some = false;
    for r in 0..n {
        let slot = load(known, r * KNOWN_BYTES + KNOWN_BYTES);
        let k = slot / ONE_KIND;
        let count = slot / ONE_COUNT % BYTE_VALUES;
        some |= !((k == KIND_TYPE as u32) | (k == KIND_FUNCTION as u32) | (count == 1));
    }
    some
}

// The lowest of n records that is neither type nor function and not referred to exactly once, or n.
pub(crate) fn lowest_miscounted(tree: &[u8], n: usize, known: &[u8]) -> usize
    requires { (n * record_bytes ≤ length tree.now) × (scratch_each * n ≤ length known.now) × ReferenceCounts tree.now n known.now }
    ensures { Lowest n (λ k. not (referred_once tree.now k)) result }
{
    if !some_miscounted(n, known) {
        return n;
    }
    for r in 0..n {
        let k = kind(tree, r);
        let count = known[r * KNOWN_BYTES + NEXT_COUNT];
        if !((k == KIND_TYPE) | (k == KIND_FUNCTION) | (count == 1)) {
            return r;
        }
    }
    n
}
