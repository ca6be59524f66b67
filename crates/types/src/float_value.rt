// float_value and float_fits: a float constant folds in f64 itself.
ghost use Rattle.std.specs.Prelude.{◌≡◌, List, ℕ, ◌+◌, ◌*◌, ◌≤◌, length, get_or, Float};
ghost use Rattle.std.proofs.Math.Option.{some};
ghost use Rattle.std.specs.Float.{binary64, nan};
ghost use Rattle.std.specs.Float.Ieee.{of_bits};
ghost use Rattle.records.specs.Words.{record_bytes};
ghost use Rattle.syntax.specs.Syntax.{unary_ops, binary_ops, Neg, Or};
ghost use Rattle.syntax.specs.Decode.{expr_of, node};
ghost use Rattle.conversion.specs.Types.{neg_float, float_two, float_binary, float_value, float_fits};
ghost use Rattle.types.specs.Floats.{float_of, finite, small};

use crate::form::two_words;
use records::numbers::{ADD, BIT_NOT, DIV, KIND_BINARY, KIND_FLOAT, KIND_UNARY, MUL, NOT, SUB};
use records::words::{WORD_A, WORD_B, detail, kind, nan_bits, reference};

// A number or an infinity, or a NaN. A NaN stands apart because its bits are not an f64 that code may make.
#[derive(Clone, Copy)]
pub enum FloatValue {
    Value(f64),
    Nan,
}

// The largest f32: bits 47EFFFFFE0000000.
const F32_MAX: f64 = 340282346638528859811704183484516925440.0;

fn from_bits(b: u64) -> Option<FloatValue>
    ensures { float_of result ≡ some (of_bits binary64 b) }
{
    if nan_bits(b) {
        return Some(FloatValue::Nan);
    }
    Some(FloatValue::Value(f64::from_bits(b)))
}

// What an operation gave, with a NaN set apart.
fn nan_apart(x: f64) -> Option<FloatValue>
    ensures { float_of result ≡ some x }
{
    if x == x {
        return Some(FloatValue::Value(x));
    }
    Some(FloatValue::Nan)
}

// Neg is the only one of the three for floats.
fn fold_neg(op: u8, value: Option<FloatValue>) -> Option<FloatValue>
    ensures { float_of result ≡ neg_float (get_or unary_ops op Neg) (float_of value) }
{
    match op {
        BIT_NOT | NOT => None,
        _ => match value? {
            FloatValue::Value(x) => Some(FloatValue::Value(-x)),
            FloatValue::Nan => Some(FloatValue::Nan),
        },
    }
}

// Add, Sub, Mul, Div.
fn fold_two(op: u8, left: f64, right: f64) -> Option<FloatValue>
    ensures { float_of result ≡ float_two (get_or binary_ops op Or) left right }
{
    match op {
        ADD => nan_apart(left + right),
        SUB => nan_apart(left - right),
        MUL => nan_apart(left * right),
        DIV => nan_apart(left / right),
        _ => None,
    }
}

// A NaN on either side gives a NaN.
fn fold_nan(op: u8) -> Option<FloatValue>
    ensures left { (y : Float) → float_of result ≡ float_two (get_or binary_ops op Or) nan y }
    ensures right { (x : Float) → float_of result ≡ float_two (get_or binary_ops op Or) x nan }
{
    match op {
        ADD..=DIV => Some(FloatValue::Nan),
        _ => None,
    }
}

fn fold_right(op: u8, left: f64, right: Option<FloatValue>) -> Option<FloatValue>
    ensures { float_of result ≡ float_binary (get_or binary_ops op Or) (some left) (float_of right) }
{
    match right? {
        FloatValue::Value(y) => fold_two(op, left, y),
        FloatValue::Nan => fold_nan(op),
    }
}

fn fold_binary(op: u8, left: Option<FloatValue>, right: Option<FloatValue>) -> Option<FloatValue>
    ensures { float_of result ≡ float_binary (get_or binary_ops op Or) (float_of left) (float_of right) }
{
    match left? {
        FloatValue::Value(x) => fold_right(op, x, right),
        FloatValue::Nan => {
            right?;
            fold_nan(op)
        }
    }
}

// The value of a Float, or of a Unary or Binary of such.
pub fn float_value(tree: &[u8], r: usize) -> Option<FloatValue>
    requires { r * record_bytes + record_bytes ≤ length tree.now }
    ensures { (text : List ℕ) → float_of result ≡ float_value (expr_of (node tree.now text r)) }
{
    let k = kind(tree, r);
    if k == KIND_FLOAT {
        return from_bits(two_words(tree, r, WORD_A));
    }
    if k == KIND_UNARY {
        let a = reference(tree, r, WORD_A);
        if a < r {
            return fold_neg(detail(tree, r), float_value(tree, a));
        }
        return None;
    }
    if k == KIND_BINARY {
        let a = reference(tree, r, WORD_A);
        let b = reference(tree, r, WORD_B);
        if a < r {
            if b < r {
                return fold_binary(detail(tree, r), float_value(tree, a), float_value(tree, b));
            }
        }
        return None;
    }
    None
}

// x - x is a number where x is finite.
fn is_finite(x: f64) -> bool
    ensures { result ≡ finite x }
{
    let d = x - x;
    d == d
}

// No further from zero than the limit.
fn is_small(x: f64) -> bool
    ensures { result ≡ small x }
{
    -F32_MAX <= x && x <= F32_MAX
}

pub fn float_fits(value: f64, short: bool) -> bool
    ensures { result ≡ float_fits value short }
{
    is_finite(value) && (!short || is_small(value))
}
