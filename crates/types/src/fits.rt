// fits and range_error: what goes where another type is expected.
ghost use Rattle.std.specs.Prelude.{◌≡◌, ◌||◌, List, ℕ, ◌+◌, ◌*◌, ◌≤◌, length, eqb};
ghost use Rattle.records.specs.Words as Words;
ghost use Rattle.records.specs.Words.{record_bytes, detail_of, word_of};
ghost use Rattle.syntax.specs.Syntax.{null_type};
ghost use Rattle.syntax.specs.Places.{IsExpr};
ghost use Rattle.syntax.specs.Decode.{expr_of, node, bit};
ghost use Rattle.conversion.specs.Types.{some_and, is_some, int_value, float_value, float_fits};
ghost use Rattle.types.specs.Fits.{IsType, in_range_of, fits_at, into_at, literal_at, range_error_at};

use crate::float_value::{FloatValue, float_fits, float_value};
use crate::form::{form, is_short, is_unsigned};
use crate::int_value::int_value;
use int128::int_fits;
use records::numbers::{FORM_ADDRESS, FORM_FLOAT, FORM_INT, FORM_NULL, KIND_NULL, NULL_TYPE};
use records::words::{WORD_A, kind, reference};

fn int_constant_fits(tree: &[u8], e: usize, expected: usize) -> bool
    requires record_bytes_in_bounds { e * record_bytes + record_bytes ≤ length tree.now }
    requires record_bytes_in_bounds_2 { expected * record_bytes + record_bytes ≤ length tree.now }
    ensures { (text : List ℕ) → result ≡ some_and (int_value (expr_of (node tree.now text e))) (in_range_of tree.now expected) }
{
    int_value(tree, e).is_some_and(|v| int_fits(
        v,
        is_short(tree, expected),
        is_unsigned(tree, expected),
    ))
}

fn float_constant_fits(tree: &[u8], e: usize, expected: usize) -> bool
    requires record_bytes_in_bounds { e * record_bytes + record_bytes ≤ length tree.now }
    requires record_bytes_in_bounds_2 { expected * record_bytes + record_bytes ≤ length tree.now }
    ensures { (text : List ℕ) → result ≡ some_and (float_value (expr_of (node tree.now text e))) (λ v. float_fits v (bit 16 (detail_of tree.now expected))) }
{
    match float_value(tree, e) {
        Some(FloatValue::Value(v)) => float_fits(v, is_short(tree, expected)),
        _ => false,
    }
}

// One of two addresses is to nothing.
fn to_nothing(tree: &[u8], from: usize, to: usize) -> bool
    requires record_bytes_in_bounds { from * record_bytes + record_bytes ≤ length tree.now }
    requires record_bytes_in_bounds_2 { to * record_bytes + record_bytes ≤ length tree.now }
    ensures { result ≡ (eqb (word_of tree.now from Words.A) null_type || eqb (word_of tree.now to Words.A) null_type) }
{
    reference(tree, from, WORD_A) == NULL_TYPE || reference(tree, to, WORD_A) == NULL_TYPE
}

// Where the two types are not equal.
fn fits_into(tree: &[u8], e: usize, ty: usize, expected: usize) -> bool
    requires expr { IsExpr tree.now e }
    requires fact { IsType tree.now ty }
    requires fact_2 { IsType tree.now expected }
    ensures { (text : List ℕ) → result ≡ into_at tree.now text e ty expected }
{
    match (form(tree, ty), form(tree, expected)) {
        (FORM_INT, FORM_INT) => int_constant_fits(tree, e, expected),
        (FORM_FLOAT, FORM_FLOAT) => float_constant_fits(tree, e, expected),
        (FORM_ADDRESS, FORM_ADDRESS) => to_nothing(tree, ty, expected),
        (FORM_NULL, FORM_ADDRESS) => kind(tree, e) == KIND_NULL,
        _ => false,
    }
}

// Whether e, of type ty, goes where `expected` goes.
pub fn fits(tree: &[u8], e: usize, ty: usize, expected: usize) -> bool
    requires expr { IsExpr tree.now e }
    requires fact { IsType tree.now ty }
    requires fact_2 { IsType tree.now expected }
    ensures { (text : List ℕ) → result ≡ fits_at tree.now text e ty expected }
{
    ty == expected || fits_into(tree, e, ty, expected)
}

fn is_int_constant(tree: &[u8], e: usize) -> bool
    requires { e * record_bytes + record_bytes ≤ length tree.now }
    ensures { (text : List ℕ) → result ≡ is_some (int_value (expr_of (node tree.now text e))) }
{
    int_value(tree, e).is_some()
}

// A NaN is a literal too.
fn is_float_constant(tree: &[u8], e: usize) -> bool
    requires { e * record_bytes + record_bytes ≤ length tree.now }
    ensures { (text : List ℕ) → result ≡ is_some (float_value (expr_of (node tree.now text e))) }
{
    float_value(tree, e).is_some()
}

// A constant of the form that is expected.
fn is_literal(tree: &[u8], e: usize, ty: usize, expected: usize) -> bool
    requires record_bytes_in_bounds { e * record_bytes + record_bytes ≤ length tree.now }
    requires record_bytes_in_bounds_2 { ty * record_bytes + record_bytes ≤ length tree.now }
    requires record_bytes_in_bounds_3 { expected * record_bytes + record_bytes ≤ length tree.now }
    ensures { (text : List ℕ) → result ≡ literal_at tree.now text e ty expected }
{
    match (form(tree, ty), form(tree, expected)) {
        (FORM_INT, FORM_INT) => is_int_constant(tree, e),
        (FORM_FLOAT, FORM_FLOAT) => is_float_constant(tree, e),
        _ => false,
    }
}

// Whether e is a constant of the expected form whose value does not fit: LiteralOutOfRange at e.
pub fn range_error(tree: &[u8], e: usize, ty: usize, expected: usize) -> bool
    requires expr { IsExpr tree.now e }
    requires fact { IsType tree.now ty }
    requires fact_2 { IsType tree.now expected }
    ensures { (text : List ℕ) → result ≡ range_error_at tree.now text e ty expected }
{
    is_literal(tree, e, ty, expected) && !fits(tree, e, ty, expected)
}
