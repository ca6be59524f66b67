// What is remembered of types, so that each is worked out once (document 02, point 9): an expression's type stands at its slot, with the turn in which it was
// worked out, and beside it what a call runs or the type that both sides of a Binary take. A turn is a statement, so that all this is only used in the scope
// that it was worked out in.
ghost use Rattle.std.specs.Prelude.{◌≡◌, ◌+◌, ◌*◌, ◌≤◌, ◌<◌, length};
ghost use Rattle.records.specs.Layout.{scratch_each};
ghost use Rattle.records.specs.Words.{records, word_at};
ghost use Rattle.expressions.specs.Slots.{in_turn, visits_at, beside_at, after_visit, Forgets};
ghost use Rattle.expressions.specs.Answers.{Keepable, Keeps};

use records::convert_error::ConvertError;
use records::layout::{
    BESIDE_BYTES, BESIDES, SCRATCH, TURN_BYTES, TURNS, TYPE_SLOT_BYTES, TYPE_SLOTS,
};
use records::words::{RECORD_BYTES, load, put_word};

// What is kept beside the type of an expression that is neither a call nor a Binary.
pub(crate) const NOTHING: usize = 0;

// The word of record e in a region of scratch: where the region begins, in bytes a record, and how long each entry is.
pub(crate) fn entry(tree: &[u8], scratch: &[u8], region: usize, each: usize, e: usize) -> u32
    requires { region * records tree.now + each * e + 4 ≤ length scratch.now }
    ensures { result ≡ word_at scratch.now (region * records tree.now + each * e) }
{
    let n = tree.len() / RECORD_BYTES;
    load(scratch, region * n + each * e)
}

// Whether the type of e was worked out in this turn.
pub(crate) fn is_typed(tree: &[u8], scratch: &[u8], turn: u32, e: usize) -> bool
    requires { (e < records tree.now) × (scratch_each * records tree.now ≤ length scratch.now) }
    ensures { result ≡ in_turn tree.now turn scratch.now e }
{
    entry(tree, scratch, TURNS, TURN_BYTES, e) == turn
}

// A visit: the type y of e was worked out in this turn, and b is kept beside it.
fn visit(tree: &[u8], scratch: &mut [u8], turn: u32, e: usize, y: usize, b: usize)
    requires e_bound { (e < records tree.now) × (scratch_each * records tree.now ≤ length scratch.old) × (y < 4294967296) × (b < 4294967296) }
    requires scratch_bound { visits_at tree.now scratch.old + 1 < 4294967296 }
    ensures { scratch.new ≡ after_visit tree.now turn e y b scratch.old }
{
    let n = tree.len() / RECORD_BYTES;
    let visits = load(scratch, BESIDES * n);
    put_word(scratch, TYPE_SLOTS * n + TYPE_SLOT_BYTES * e, y as u32);
    put_word(scratch, TURNS * n + TURN_BYTES * e, turn);
    put_word(scratch, BESIDES * n + BESIDE_BYTES * e, b as u32);
    put_word(scratch, BESIDES * n, visits + 1);
}

// What working out the type of e came to: a type is kept, and b beside it, and the visit counted.
pub(crate) fn keep(
    tree: &[u8],
    scratch: &mut [u8],
    turn: u32,
    e: usize,
    a: Result<usize, ConvertError>,
    b: usize,
) -> Result<usize, ConvertError>
    requires { Keepable tree.now e a b scratch.old }
    ensures { Keeps tree.now turn e a b scratch.old result scratch.new }
{
    // By a match, not by `?`: what `?` passes on is copied in pieces and read across them, for which the processor waits (docs/PERFORMANCE.md).
    match a {
        Err(x) => Err(x),
        Ok(y) => {
            visit(tree, scratch, turn, e, y, b);
            Ok(y)
        }
    }
}

// What is kept beside the type of e.
pub(crate) fn beside(tree: &[u8], scratch: &[u8], e: usize) -> usize
    requires { (e < records tree.now) × (scratch_each * records tree.now ≤ length scratch.now) }
    ensures { result ≡ beside_at tree.now scratch.now e }
{
    entry(tree, scratch, BESIDES, BESIDE_BYTES, e) as usize
}

// No type is known and no visit made, whatever the scratch held.
pub fn forget(tree: &[u8], scratch: &mut [u8])
    requires { scratch_each * records tree.now ≤ length scratch.old }
    ensures { Forgets tree.now scratch.old scratch.new }
{
    let n = tree.len() / RECORD_BYTES;
    scratch[TURNS * n..SCRATCH * n].fill(0);
}

// How many visits were made.
pub fn visits(tree: &[u8], scratch: &[u8]) -> usize
    requires { (0 < records tree.now) × (scratch_each * records tree.now ≤ length scratch.now) }
    ensures { result ≡ visits_at tree.now scratch.now }
{
    let n = tree.len() / RECORD_BYTES;
    load(scratch, BESIDES * n) as usize
}
