// int_value: an integer constant folds in 128 bits.
ghost use Rattle.std.specs.Prelude.{◌≡◌, List, ℕ, ◌+◌, ◌*◌, ◌≤◌, length, get_or};
ghost use Rattle.std.proofs.Math.Option.{some};
ghost use Rattle.records.specs.Words.{record_bytes};
ghost use Rattle.int128.specs.Value.{value_of, checked_of};
ghost use Rattle.syntax.specs.Syntax.{unary_ops, binary_ops, Neg, Or, binary_number, BitOr, BitAnd, Shl};
ghost use Rattle.syntax.specs.Decode.{expr_of, node};
ghost use Rattle.conversion.specs.Types.{fold_unary, shl_kept, fold_two, fold_binary, int_value};

use crate::form::two_words;
use int128::Int128;
use records::numbers::{
    ADD, BIT_AND, BIT_NOT, BIT_OR, BIT_XOR, DIV, KIND_BINARY, KIND_INT, KIND_UNARY, MUL, NOT, REM,
    SHL, SHR, SUB,
};
use records::words::{WORD_A, WORD_B, detail, kind, reference};

fn fold_unary(op: u8, value: Option<Int128>) -> Option<Int128>
    ensures { checked_of result ≡ fold_unary (get_or unary_ops op Neg) (checked_of value) }
{
    let v = value?;
    match op {
        BIT_NOT => Some(!v),
        NOT => None,
        _ => v.checked_neg(),
    }
}

// BitOr, BitXor, BitAnd.
fn fold_bits(op: u8, left: Int128, right: Int128) -> Int128
    requires { (binary_number BitOr ≤ op) × (op ≤ binary_number BitAnd) }
    ensures { some (value_of result) ≡ fold_two (get_or binary_ops op Or) (value_of left) (value_of right) }
{
    match op {
        BIT_OR => left | right,
        BIT_XOR => left ^ right,
        _ => left & right,
    }
}

// The shifted value, where taken back by the same count it gives the old one: a shift that loses bits folds to nothing.
fn fold_shl(left: Int128, right: Int128) -> Option<Int128>
    ensures { checked_of result ≡ shl_kept (value_of left) (value_of right) }
{
    let v = left.checked_shl_by(right)?;
    let back = v.checked_shr_by(right)?;
    if back == left {
        return Some(v);
    }
    None
}

// From Shl on: Shl, Shr, Add, Sub, Mul, Div, Rem.
fn fold_checked(op: u8, left: Int128, right: Int128) -> Option<Int128>
    requires { binary_number Shl ≤ op }
    ensures { checked_of result ≡ fold_two (get_or binary_ops op Or) (value_of left) (value_of right) }
{
    match op {
        SHL => fold_shl(left, right),
        SHR => left.checked_shr_by(right),
        ADD => left.checked_add(right),
        SUB => left.checked_sub(right),
        MUL => left.checked_mul(right),
        DIV => left.checked_div(right),
        REM => left.checked_rem(right),
        _ => None,
    }
}

fn fold_two(op: u8, left: Int128, right: Int128) -> Option<Int128>
    ensures { checked_of result ≡ fold_two (get_or binary_ops op Or) (value_of left) (value_of right) }
{
    match op {
        BIT_OR..=BIT_AND => Some(fold_bits(op, left, right)),
        SHL.. => fold_checked(op, left, right),
        _ => None,
    }
}

fn fold_binary(op: u8, left: Option<Int128>, right: Option<Int128>) -> Option<Int128>
    ensures { checked_of result ≡ fold_binary (get_or binary_ops op Or) (checked_of left) (checked_of right) }
{
    fold_two(op, left?, right?)
}

// The value of an Int, or of a Unary or Binary of such.
pub fn int_value(tree: &[u8], r: usize) -> Option<Int128>
    requires { r * record_bytes + record_bytes ≤ length tree.now }
    ensures { (text : List ℕ) → checked_of result ≡ int_value (expr_of (node tree.now text r)) }
{
    let k = kind(tree, r);
    if k == KIND_INT {
        return Some(Int128::from_i64_bits(two_words(tree, r, WORD_A)));
    }
    if k == KIND_UNARY {
        let a = reference(tree, r, WORD_A);
        if a < r {
            return fold_unary(detail(tree, r), int_value(tree, a));
        }
        return None;
    }
    if k == KIND_BINARY {
        let a = reference(tree, r, WORD_A);
        let b = reference(tree, r, WORD_B);
        if a < r {
            if b < r {
                return fold_binary(detail(tree, r), int_value(tree, a), int_value(tree, b));
            }
        }
        return None;
    }
    None
}
