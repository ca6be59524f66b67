// Labels and floats, entries of words, looked for in their tables.
ghost use Rattle.std.specs.Prelude.{◌≡◌, ◌+◌, ◌*◌, ◌≤◌, length};
ghost use Rattle.records.specs.Words.{word_at};
ghost use Rattle.conversion.specs.Written.{label_bytes, float_bytes};
ghost use Rattle.ir.specs.Arena.{search_bytes};
ghost use Rattle.ir.specs.Search.{label_words_at, float_words_at, Walks};

use crate::arena::{FLOAT_BYTES, LABEL_BYTES, SEARCH_BYTES};
use records::words::{Four, SECOND_WORD, THIRD_WORD, index, load};

// Whether label j of those from byte `at` on is a and b.
pub fn is_label_at(s: &[u8], at: usize, j: usize, a: u32, b: u32) -> bool
    requires { at + label_bytes * j + label_bytes ≤ length s.now }
    ensures { result ≡ label_words_at s.now at a b j }
{
    let x = load(s, at + LABEL_BYTES * j);
    let y = load(s, at + LABEL_BYTES * j + SECOND_WORD);
    (a == x) & (b == y)
}

// Whether the first three words of float j of those from byte `at` on are w's.
fn is_float_at(s: &[u8], at: usize, j: usize, w: Four) -> bool
    requires { at + float_bytes * j + float_bytes ≤ length s.now }
    ensures { result ≡ float_words_at s.now at w.0 w.1 w.2 j }
{
    let x = load(s, at + FLOAT_BYTES * j);
    let y = load(s, at + FLOAT_BYTES * j + SECOND_WORD);
    let z = load(s, at + FLOAT_BYTES * j + THIRD_WORD);
    (w.0 == x) & (w.1 == y) & (w.2 == z)
}

// The first float whose first three words are w's, of those that a chain leads through from v on, which is one past a float's number, or 0. So is the word
// at each float's link, and one that does not lead lower ends the walk.
pub fn walk_float(s: &[u8], at: usize, links: usize, v: usize, w: Four) -> Option<usize>
    requires { (at + float_bytes * v ≤ length s.now) × (links + search_bytes * v ≤ length s.now) }
    ensures { Walks (λ j. word_at s.now (links + search_bytes * j)) (float_words_at s.now at w.0 w.1 w.2) v result }
{
    let mut u = v;
    while 0 < u {
        let j = u - 1;
        if is_float_at(s, at, j, w) {
            return Some(j);
        }
        let next = index(load(s, links + SEARCH_BYTES * j));
        if j < next {
            return None;
        }
        u = next;
    }
    None
}
