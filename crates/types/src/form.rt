// A type record read: its form (Int, Float, ..) and its marks.
ghost use Rattle.std.specs.Prelude.{◌≡◌, List, ℕ, ◌+◌, ◌*◌, ◌%◌, ◌≤◌, length};
ghost use Rattle.records.specs.Words.{record_bytes, detail_of, word_of};
ghost use Rattle.syntax.specs.Decode.{bit, type_at};
ghost use Rattle.conversion.specs.Types.{is_number};

use records::numbers::{FORM_FLOAT, FORM_INT};
use records::words::{detail, word};

// Which of the forms a type has: its detail without the marks.
pub fn form(tree: &[u8], ty: usize) -> u8
    requires { ty * record_bytes + record_bytes ≤ length tree.now }
    ensures { result ≡ detail_of tree.now ty % 16 }
{
    detail(tree, ty) % 16
}

// The mark 16 of an Int or a Float.
pub fn is_short(tree: &[u8], ty: usize) -> bool
    requires { ty * record_bytes + record_bytes ≤ length tree.now }
    ensures { result ≡ bit 16 (detail_of tree.now ty) }
{
    detail(tree, ty) / 16 % 2 == 1
}

// The mark 32 of an Int.
pub fn is_unsigned(tree: &[u8], ty: usize) -> bool
    requires { ty * record_bytes + record_bytes ≤ length tree.now }
    ensures { result ≡ bit 32 (detail_of tree.now ty) }
{
    detail(tree, ty) / 32 % 2 == 1
}

pub fn is_number(tree: &[u8], ty: usize) -> bool
    requires { ty * record_bytes + record_bytes ≤ length tree.now }
    ensures { (text : List ℕ) → result ≡ is_number (type_at tree.now text ty) }
{
    matches!(form(tree, ty), FORM_INT | FORM_FLOAT)
}

// The 64 bits of words k and k + 1, low and high.
pub fn two_words(tree: &[u8], r: usize, k: usize) -> u64
    requires record_bytes_in_bounds { r * record_bytes + record_bytes ≤ length tree.now }
    requires k_bound { k ≤ 3 }
    ensures { result ≡ word_of tree.now r k + word_of tree.now r (k + 1) * 4294967296 }
{
    u64::from(word(tree, r, k)) + u64::from(word(tree, r, k + 1)) * 4294967296
}
