// Type::size, exact: how many bytes a value of a type takes.
ghost use Rattle.std.specs.Prelude.{◌≡◌, List, ℕ, ◌+◌, ◌*◌, ◌%◌, ◌≤◌, length};
ghost use Rattle.std.proofs.Math.Option.{Option};
ghost use Rattle.records.specs.Words.{record_bytes, detail_of};
ghost use Rattle.records.specs.Kinds.{form_array};
ghost use Rattle.conversion.specs.Types.{times_size};
ghost use Rattle.types.specs.Sizes.{exact_size, bytes_for, exact_bytes, size_at};

use crate::form::{form, is_short, two_words};
use records::numbers::{
    FORM_ADDRESS, FORM_ARRAY, FORM_BOOL, FORM_BYTE, FORM_CHAR, FORM_FLOAT, FORM_INT,
};
use records::words::{WORD_A, WORD_B, reference};

// A number below 2^63, or that it is 2^63 or more, or nothing: Custom, Null and arrays of these have no size.
#[derive(Clone, Copy)]
pub enum Bytes {
    Exactly(u64),
    Over,
    Nothing,
}

const SIZE_MAX: u64 = 9223372036854775807;

// n times a size. An array of none takes 0 bytes, however large its element.
fn times(element: Bytes, n: u64) -> Bytes
    ensures { (o : Option ℕ) → element ≡ bytes_for o → result ≡ bytes_for (times_size o n) }
{
    match element {
        Bytes::Nothing => Bytes::Nothing,
        Bytes::Over => {
            if n == 0 {
                return Bytes::Exactly(0);
            }
            Bytes::Over
        }
        Bytes::Exactly(b) => {
            if n == 0 {
                return Bytes::Exactly(0);
            }
            if b <= SIZE_MAX / n {
                return Bytes::Exactly(b * n);
            }
            Bytes::Over
        }
    }
}

// The size of a type that is no array.
fn plain_size(tree: &[u8], ty: usize) -> Bytes
    requires record_bytes_in_bounds { ty * record_bytes + record_bytes ≤ length tree.now }
    requires fact { detail_of tree.now ty % 16 ≡ form_array → ⊥ }
    ensures { (text : List ℕ) → result ≡ bytes_for (exact_size tree.now text ty) }
{
    match form(tree, ty) {
        FORM_INT | FORM_FLOAT if is_short(tree, ty) => Bytes::Exactly(4),
        FORM_INT | FORM_FLOAT | FORM_ADDRESS => Bytes::Exactly(8),
        FORM_BOOL | FORM_CHAR | FORM_BYTE => Bytes::Exactly(1),
        _ => Bytes::Nothing,
    }
}

// Over and Nothing are document 01's 27.
pub fn size(tree: &[u8], ty: usize) -> Bytes
    requires { ty * record_bytes + record_bytes ≤ length tree.now }
    ensures exact { (text : List ℕ) → result ≡ bytes_for (exact_size tree.now text ty) }
    ensures size { (text : List ℕ) → exact_bytes result ≡ size_at tree.now text ty }
{
    if form(tree, ty) == FORM_ARRAY {
        let element = reference(tree, ty, WORD_A);
        if element < ty {
            return times(size(tree, element), two_words(tree, ty, WORD_B));
        }
        return Bytes::Nothing;
    }
    plain_size(tree, ty)
}
