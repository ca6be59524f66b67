// expressions.rs: the types of expressions from those of their operands, and of those that have none.
ghost use Rattle.std.specs.Prelude.{◌≡◌, List, ℕ, ◌+◌, ◌*◌, ◌≤◌, ◌<◌, length, get_or};
ghost use Rattle.records.specs.Words.{record_bytes, kind_of, records};
ghost use Rattle.records.specs.Kinds.{kind_name, kind_size_of, kind_unary, kind_binary};
ghost use Rattle.records.specs.Good.{Good};
ghost use Rattle.syntax.specs.Syntax.{unary_ops, Neg};
ghost use Rattle.syntax.specs.Decode.{program};
ghost use Rattle.conversion.specs.Scope as Def;
ghost use Rattle.conversion.specs.Expressions.{accepts_unary};
ghost use Rattle.scope.specs.Open.{scope_at};
ghost use Rattle.syntax.specs.Places.{IsExpr, TypeAt, IsKind};
ghost use Rattle.texts.specs.Texts.{Numbered};
ghost use Rattle.keys.specs.Keys.{all_keys};
ghost use Rattle.expressions.specs.Slots.{Scoped, type_in};
ghost use Rattle.conversion.specs.ConvertError.{ok};
ghost use Rattle.expressions.specs.Answers.{value_result, IsCallee, Operands, TypeIs, FoundIs, Accepts, unary_type_at, common_at, binary_error_at, binary_type_at};

use crate::answers::{Callee, refuse};
use crate::names::find_name;
use records::convert_error::{ConvertError, ConvertErrorKind};
use records::numbers::{
    ADDRESS_OF_CHAR, BIT_NOT, BOOL_TYPE, FLOAT_LONG, FORM_INT, KIND_BOOL, KIND_FLOAT, KIND_INT,
    KIND_NAME, KIND_NULL, KIND_STR, NOT, NULL_TYPE, UNSIGNED_LONG,
};
use records::words::{NONE, WORD_D, detail, kind, reference};
use scope::Scope;
use types::fits::{fits, range_error};
use types::form::{form, is_number};
use types::operators::{OperandClass, ResultClass, operator_of};

// Whether an operator's class of operands has this type.
fn accepts(tree: &[u8], class: OperandClass, ty: usize) -> bool
    requires { ty * record_bytes + record_bytes ≤ length tree.now }
    ensures { (text : List ℕ) → Accepts tree.now text class ty result }
{
    match class {
        OperandClass::Bools => ty == BOOL_TYPE,
        OperandClass::Any => true,
        OperandClass::Numbers => is_number(tree, ty),
        OperandClass::Integers => form(tree, ty) == FORM_INT,
    }
}

// Neg takes numbers, BitNot integers, Not Bool.
fn accepts_unary(tree: &[u8], op: u8, ty: usize) -> bool
    requires { ty * record_bytes + record_bytes ≤ length tree.now }
    ensures { (text : List ℕ) → result ≡ accepts_unary (program tree.now text) (all_keys tree.now text) (get_or unary_ops op Neg) ty }
{
    match op {
        BIT_NOT => form(tree, ty) == FORM_INT,
        NOT => ty == BOOL_TYPE,
        _ => is_number(tree, ty),
    }
}

// The type of the Unary e, whose operand has type ty.
pub(crate) fn unary_type(
    tree: &[u8],
    text: &[u8],
    e: usize,
    ty: usize,
) -> Result<usize, ConvertError>
    requires good { Good tree.now text.now }
    requires kind { IsKind tree.now kind_unary e }
    requires type_at { TypeAt tree.now ty }
    ensures { TypeIs tree.now result (unary_type_at tree.now text.now e ty) }
{
    if accepts_unary(tree, detail(tree, e), ty) {
        return Ok(ty);
    }
    refuse(ConvertErrorKind::WrongOperands, e)
}

// Two operands, expressions with their types.
#[derive(Clone, Copy)]
pub struct Sides {
    pub left: usize,
    pub left_type: usize,
    pub right: usize,
    pub right_type: usize,
}

// The type that both take: a literal takes the type of the other side.
pub(crate) fn common_of(tree: &[u8], text: &[u8], s: Sides) -> Option<usize>
    requires good { Good tree.now text.now }
    requires operands { Operands tree.now s }
    ensures { FoundIs tree.now result (common_at tree.now text.now s) }
{
    if fits(tree, s.right, s.right_type, s.left_type) {
        return Some(s.left_type);
    }
    if fits(tree, s.left, s.left_type, s.right_type) {
        return Some(s.right_type);
    }
    None
}

// Where they take no common type that the Binary e accepts: a constant out of the other side's range, the right one
// first, else WrongOperands.
fn binary_error(tree: &[u8], text: &[u8], e: usize, s: Sides) -> Result<usize, ConvertError>
    requires good { Good tree.now text.now }
    requires operands { Operands tree.now s }
    requires kind { IsKind tree.now kind_binary e }
    ensures { TypeIs tree.now result (binary_error_at tree.now text.now e s) }
{
    if range_error(tree, s.right, s.right_type, s.left_type) {
        return refuse(ConvertErrorKind::LiteralOutOfRange, s.right);
    }
    if range_error(tree, s.left, s.left_type, s.right_type) {
        return refuse(ConvertErrorKind::LiteralOutOfRange, s.left);
    }
    refuse(ConvertErrorKind::WrongOperands, e)
}

// The type of the Binary e, from the type that both sides take.
pub(crate) fn binary_type(
    tree: &[u8],
    text: &[u8],
    e: usize,
    s: Sides,
    common: Option<usize>,
) -> Result<usize, ConvertError>
    requires good { Good tree.now text.now }
    requires operands { Operands tree.now s }
    requires kind { IsKind tree.now kind_binary e }
    requires found_is { FoundIs tree.now common (common_at tree.now text.now s) }
    ensures { TypeIs tree.now result (binary_type_at tree.now text.now e s) }
{
    let op = operator_of(detail(tree, e) as usize);
    match common {
        Some(ty) if accepts(tree, op.operands, ty) => match op.result {
            ResultClass::Common => Ok(ty),
            ResultClass::Bool => Ok(BOOL_TYPE),
        },
        _ => binary_error(tree, text, e, s),
    }
}

// The type of the Call e: what its callee gives back.
pub(crate) fn value_type(
    tree: &[u8],
    text: &[u8],
    e: usize,
    callee: Result<Callee, ConvertError>,
) -> Result<usize, ConvertError>
    requires good { Good tree.now text.now }
    requires callee { IsCallee tree.now callee }
    requires e_bound { e < records tree.now }
    ensures { TypeIs tree.now result (value_result tree.now text.now e callee) }
{
    // By a match, not by `?`: what `?` passes on is copied in pieces and read across them, for which the processor waits (docs/PERFORMANCE.md).
    match callee {
        Err(x) => Err(x),
        Ok(Callee::Cast(y)) => Ok(y),
        Ok(Callee::Function(f)) => {
            let y = reference(tree, f, WORD_D);
            if y == NONE as usize {
                return refuse(ConvertErrorKind::NoValue, e);
            }
            Ok(y)
        }
    }
}

// Int 2, Float 3, Str 4, Bool 5, Null 7, SizeOf 8, by the twelve first types' numbers; an Int's and a Float's marks are their place among them.
fn literal_type(tree: &[u8], text: &[u8], e: usize) -> usize
    requires good { Good tree.now text.now }
    requires expr { IsExpr tree.now e }
    requires e_bound { (kind_of tree.now e ≤ kind_size_of) × (kind_of tree.now e ≡ kind_name → ⊥) }
    ensures { TypeAt tree.now result × ((S : Def.Scope) → type_in tree.now text.now S e ≡ ok result) }
{
    let mark = detail(tree, e) as usize;
    match kind(tree, e) {
        KIND_INT => mark,
        KIND_FLOAT => FLOAT_LONG + mark,
        KIND_STR => ADDRESS_OF_CHAR,
        KIND_BOOL => BOOL_TYPE,
        KIND_NULL => NULL_TYPE,
        _ => UNSIGNED_LONG,
    }
}

// The type of the Name e.
fn name_type(
    tree: &[u8],
    text: &[u8],
    scratch: &[u8],
    scope: Scope,
    e: usize,
) -> Result<usize, ConvertError>
    requires good { Good tree.now text.now × Numbered tree.now text.now scratch.now }
    requires scoped { Scoped tree.now scratch.now scope }
    requires kind { IsKind tree.now kind_name e }
    ensures { TypeIs tree.now result (type_in tree.now text.now (scope_at tree.now text.now scratch.now scope) e) }
{
    match find_name(tree, text, scratch, scope, e) {
        Some(known) => Ok(known.var.1 as usize),
        None => refuse(ConvertErrorKind::UnknownVariable, e),
    }
}

// The type of an expression without operands.
pub(crate) fn leaf_type(
    tree: &[u8],
    text: &[u8],
    scratch: &[u8],
    scope: Scope,
    e: usize,
) -> Result<usize, ConvertError>
    requires good { Good tree.now text.now × Numbered tree.now text.now scratch.now }
    requires scoped { Scoped tree.now scratch.now scope }
    requires expr { IsExpr tree.now e }
    requires e_bound { kind_of tree.now e ≤ kind_size_of }
    ensures { TypeIs tree.now result (type_in tree.now text.now (scope_at tree.now text.now scratch.now scope) e) }
{
    if kind(tree, e) == KIND_NAME {
        return name_type(tree, text, scratch, scope, e);
    }
    Ok(literal_type(tree, text, e))
}
