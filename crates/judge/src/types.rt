// The rules for types: the twelve first, types before all else; when two are equal.
ghost use Rattle.std.specs.Prelude.{◌≡◌, false, List, ℕ, ◌+◌, ◌*◌, ◌≤◌, length};
ghost use Rattle.records.specs.Words.{record_bytes};
ghost use Rattle.records.specs.Rules.{is_first_type, same_type};
ghost use Rattle.judge.specs.Inner.{TypesLead};
ghost use Rattle.judge.specs.Equal.{is_custom};

use records::numbers::{
    CHAR_TYPE, FORM_ADDRESS, FORM_BOOL, FORM_BYTE, FORM_CHAR, FORM_FLOAT, FORM_INT, FORM_NULL,
    FORM_SHORT_FLOAT, FORM_SHORT_INT, FORM_SHORT_UNSIGNED, FORM_UNSIGNED, KIND_TYPE, NULL_TYPE,
};
use records::words::{FEWEST_RECORDS, WORD_A, WORD_B, WORD_C, detail, kind, word};

// The details of the twelve types that every tree begins with.
const TWELVE: [u8; FEWEST_RECORDS] = [
    FORM_INT,
    FORM_SHORT_INT,
    FORM_UNSIGNED,
    FORM_SHORT_UNSIGNED,
    FORM_FLOAT,
    FORM_SHORT_FLOAT,
    FORM_BOOL,
    FORM_CHAR,
    FORM_BYTE,
    FORM_NULL,
    FORM_ADDRESS,
    FORM_ADDRESS,
];

// What the two addresses among them are of: Char and Null.
const INNER: [u32; FEWEST_RECORDS] = [
    0,
    0,
    0,
    0,
    0,
    0,
    0,
    0,
    0,
    0,
    CHAR_TYPE as u32,
    NULL_TYPE as u32,
];

// Record r is not among the first twelve, or it is the type that stands there in every tree.
pub(crate) fn is_first_type(tree: &[u8], r: usize) -> bool
    requires { r * record_bytes + record_bytes ≤ length tree.now }
    ensures { result ≡ is_first_type tree.now r }
{
    if r >= FEWEST_RECORDS {
        return true;
    }
    (kind(tree, r) == KIND_TYPE)
        & (detail(tree, r) == TWELVE[r])
        & (word(tree, r, WORD_A) == INNER[r])
}

// How many records stand before the first that is no type.
pub(crate) fn leading_types(tree: &[u8], n: usize) -> usize
    requires { n * record_bytes ≡ length tree.now }
    ensures { TypesLead tree.now n result }
{
    for i in 0..n {
        if kind(tree, i) != KIND_TYPE {
            return i;
        }
    }
    n
}

// Types j and r, of which r is no Custom, are equal, key text aside. So no name has a part in it.
pub(crate) fn same_words(tree: &[u8], j: usize, r: usize) -> bool
    requires record_bytes_in_bounds { (j * record_bytes + record_bytes ≤ length tree.now) × (r * record_bytes + record_bytes ≤ length tree.now) }
    requires r_value { is_custom tree.now r ≡ false }
    ensures { (text : List ℕ) → result ≡ same_type tree.now text j r }
{
    if detail(tree, j) != detail(tree, r) {
        return false;
    }
    (word(tree, j, WORD_A) == word(tree, r, WORD_A))
        & (word(tree, j, WORD_B) == word(tree, r, WORD_B))
        & (word(tree, j, WORD_C) == word(tree, r, WORD_C))
}
