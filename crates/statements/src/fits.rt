// statements.rs: operands as values of the type that is expected, and the arguments of a call.
ghost use Rattle.std.specs.Prelude.{◌≡◌, Bool, true, false, length, List, ℕ, ◌+◌, ◌*◌, ◌≤◌, ◌<◌};
ghost use Rattle.records.specs.Layout.{scratch_each};
ghost use Rattle.records.specs.Words.{records};
ghost use Rattle.records.specs.Kinds.{kind_call};
ghost use Rattle.records.specs.Good.{Good};
ghost use Rattle.syntax.specs.Syntax.{float_type};
ghost use Rattle.syntax.specs.Decode.{program};
ghost use Rattle.syntax.specs.Places.{IsExpr, IsKind, TypeAt, FunctionAt, ArgsAt, ParamsAt, expr_at, params_at};
ghost use Rattle.conversion.specs.Ir.{OVar, OFloat, lift};
ghost use Rattle.conversion.specs.Expressions.{Functions};
ghost use Rattle.conversion.specs.Statements.{refloat, cast_operand, emit_args, check_fits, parameter_type};
ghost use Rattle.types.specs.Fits.{IsType};
ghost use Rattle.ir.specs.Amounts.{amount};
ghost use Rattle.ir.specs.Counted.{counted};
ghost use Rattle.ir.specs.Instructions.{operand_of, var_of};
ghost use Rattle.expressions.specs.Answers.{outcome_of};
ghost use Rattle.statements.specs.Converting.{Converting, Afforded, RoomFor, OperandIn, StackIn, StaysFor, NamesStay};
ghost use Rattle.statements.specs.Lent.{at, fitted};
ghost use Rattle.statements.specs.Meets.{Adds};
ghost use Rattle.statements.specs.Answers.{FitAdds, OperandFits, IntFits, ParameterBehind, waiting, FirstValue, FitsAs, PassesAs};
ghost use Rattle.statements.specs.Turns.{TurnsStay};

use crate::answers::{AtValue, Converter, error_at};
use crate::operands::{operand_at, push_operand};
use expressions::arguments::{Argument, END, argument_at, next_cell};
use ir::floats::float_entry;
use ir::lent::{float_bits, float_id, new_var};
use ir::structs::{Operand, VarId, emit_arg, emit_cast};
use keys::keys::parameters_of;
use records::convert_error::{ConvertError, ConvertErrorKind};
use records::numbers::{FLOAT_LONG, FORM_FLOAT, FORM_INT};
use records::words::{RECORD_BYTES, WORD_A, WORD_C, reference};
use types::fits::{fits, range_error};
use types::form::{form, is_short, is_unsigned};

// The float of number i with this mark.
fn refloat(arena: &mut [u8], k: &mut [usize], i: u32, short: bool) -> Operand
    requires { RoomFor (counted k.old) arena.old (amount 0 0 0 0 1) }
    ensures { (tree : List ℕ) → FitAdds tree (refloat i short) (amount 0 0 0 0 1) (counted k.old) arena.old (fitted k.new result) arena.new }
{
    let f = float_entry(float_bits(arena, k, i), short);
    Operand::Float(float_id(arena, k, f))
}

// The variable cast to a new one of this type.
fn cast_operand(arena: &mut [u8], k: &mut [usize], v: VarId, expected: usize) -> Operand
    requires { RoomFor (counted k.old) arena.old (amount 1 1 0 0 0) × (expected < 4294967296) }
    ensures { (tree : List ℕ) → TypeAt tree expected → FitAdds tree (cast_operand true (var_of v) expected) (amount 1 1 0 0 0) (counted k.old) arena.old (fitted k.new result) arena.new }
{
    let dest = new_var(arena, k, expected as u32);
    emit_cast(arena, k, dest, Operand::Var(v));
    Operand::Var(dest)
}

// A Float variable of the other size goes through a Cast.
fn fit_variable(
    tree: &[u8],
    arena: &mut [u8],
    k: &mut [usize],
    v: VarId,
    expected: usize,
) -> Operand
    requires { RoomFor (counted k.old) arena.old (amount 1 1 0 0 0) × (expected < 4294967296) × TypeAt tree.now expected × TypeAt tree.now v.1 }
    ensures { OperandFits tree.now (OVar (var_of v)) expected (amount 1 1 0 0 0) (counted k.old) arena.old (fitted k.new result) arena.new }
{
    let ty = v.1 as usize;
    let floats = (form(tree, expected) == FORM_FLOAT) & (form(tree, ty) == FORM_FLOAT);
    if floats & (ty != expected) {
        return cast_operand(arena, k, v, expected);
    }
    Operand::Var(v)
}

fn fit_float(tree: &[u8], arena: &mut [u8], k: &mut [usize], i: u32, expected: usize) -> Operand
    requires { RoomFor (counted k.old) arena.old (amount 0 0 0 0 1) × TypeAt tree.now expected }
    ensures { OperandFits tree.now (OFloat i) expected (amount 0 0 0 0 1) (counted k.old) arena.old (fitted k.new result) arena.new }
{
    if form(tree, expected) == FORM_FLOAT {
        return refloat(arena, k, i, is_short(tree, expected));
    }
    Operand::Float(i)
}

// An Int at the expected Int type; at any other as it is.
fn fit_int(tree: &[u8], o: Operand, bits: u64, expected: usize) -> Operand
    requires { TypeAt tree.now expected }
    ensures { (k : List ℕ) → IntFits tree.now o bits expected (counted k) (fitted k result) }
{
    if form(tree, expected) == FORM_INT {
        return Operand::Int(bits, is_short(tree, expected), is_unsigned(tree, expected));
    }
    o
}

// The operand as a value of type `expected`, once `fits` accepted it: a literal takes the marks of that type.
pub(crate) fn fit_operand(
    tree: &[u8],
    arena: &mut [u8],
    k: &mut [usize],
    o: Operand,
    expected: usize,
) -> Operand
    requires room_for { RoomFor (counted k.old) arena.old (amount 1 1 0 0 1) × (expected < 4294967296) }
    requires type_at { TypeAt tree.now expected × OperandIn tree.now (operand_of o) }
    ensures { OperandFits tree.now (operand_of o) expected (amount 1 1 0 0 1) (counted k.old) arena.old (fitted k.new result) arena.new }
{
    match o {
        Operand::Var(v) => fit_variable(tree, arena, k, v, expected),
        Operand::Float(i) => fit_float(tree, arena, k, i, expected),
        Operand::Int(bits, _, _) => fit_int(tree, o, bits, expected),
        Operand::Bool(_) | Operand::DataAddress(_) | Operand::Null => o,
    }
}

// The type of the parameter in a cell; behind the parameters long Float.
fn parameter_type(tree: &[u8], text: &[u8], parameter: usize) -> usize
    requires { Good tree.now text.now × ParamsAt tree.now parameter × TypeAt tree.now (float_type false) }
    ensures { (result ≡ parameter_type (params_at tree.now text.now parameter) 0) × TypeAt tree.now result }
{
    if parameter == END {
        return FLOAT_LONG;
    }
    reference(tree, reference(tree, parameter, WORD_A), WORD_C)
}

fn next_parameter(tree: &[u8], text: &[u8], parameter: usize) -> usize
    requires { Good tree.now text.now × ParamsAt tree.now parameter }
    ensures { ParameterBehind tree.now text.now parameter result }
{
    if parameter == END {
        return END;
    }
    next_cell(tree, parameter)
}

// The first value from this argument on, beside the parameters from this one on. A type gives no Arg, and takes a parameter's place.
fn first_value(tree: &[u8], text: &[u8], argument: usize, parameter: usize) -> AtValue
    requires { Good tree.now text.now × ArgsAt tree.now argument × ParamsAt tree.now parameter }
    ensures { FirstValue tree.now text.now argument parameter result }
{
    let mut cell = argument;
    let mut beside = parameter;
    while cell != END {
        let next = next_cell(tree, cell);
        if let Argument::Expr(_) = argument_at(tree, text, cell) {
            return AtValue {
                parameter: beside,
                rest: next,
            };
        }
        beside = next_parameter(tree, text, beside);
        cell = next;
    }
    AtValue {
        parameter: beside,
        rest: END,
    }
}

// Fits the last `count` operands of the stack, the values of the call e, to the parameters of f, in place.
fn fit_args(
    tree: &[u8],
    text: &[u8],
    arena: &mut [u8],
    scratch: &mut [u8],
    k: &mut [usize],
    c: Converter,
    e: usize,
    f: usize,
    count: usize,
)
    requires converting { Converting tree.now text.now arena.old scratch.old (at c k.old) × FunctionAt tree.now f × IsKind tree.now kind_call e }
    requires afforded { Afforded tree.now (at c k.old) (amount count count 0 0 count) count 0 × StackIn tree.now scratch.old c.operands count }
    ensures fits_as { FitsAs e f count (at c k.old) tree.now text.now arena.old scratch.old (counted k.new) arena.new scratch.new }
    ensures turns { TurnsStay tree.now scratch.old scratch.new }
{
    let first = c.operands;
    let n = tree.len() / RECORD_BYTES;
    let mut argument = reference(tree, e, WORD_C);
    let mut parameter = parameters_of(tree, text, f);
    for j in 0..count {
        let at = first_value(tree, text, argument, parameter);
        let o = operand_at(scratch, n, first + j);
        let expected = parameter_type(tree, text, at.parameter);
        let fitted = fit_operand(tree, arena, k, o, expected);
        push_operand(scratch, n, first + j, fitted);
        argument = at.rest;
        parameter = next_parameter(tree, text, at.parameter);
    }
}

// An Arg for each of `count` operands of the stack.
fn emit_args(
    tree: &[u8],
    arena: &mut [u8],
    scratch: &[u8],
    k: &mut [usize],
    c: Converter,
    count: usize,
)
    requires room_for { RoomFor (counted k.old) arena.old (amount count 0 0 0 0) }
    requires count_bound { (c.operands + count ≤ records tree.now) × (scratch_each * records tree.now ≤ length scratch.now) }
    ensures { Adds (emit_args (waiting tree.now scratch.now (at c k.old) count)) (amount count 0 0 0 0) (counted k.old) arena.old tt (counted k.new) arena.new }
{
    let first = c.operands;
    let n = tree.len() / RECORD_BYTES;
    for j in 0..count {
        let o = operand_at(scratch, n, first + j);
        emit_arg(arena, k, o);
    }
}

// What stands directly before the call e of f: the casts of its values, then an Arg for each.
pub(crate) fn pass_args(
    tree: &[u8],
    text: &[u8],
    arena: &mut [u8],
    scratch: &mut [u8],
    k: &mut [usize],
    c: Converter,
    e: usize,
    f: usize,
    count: usize,
)
    requires converting { Converting tree.now text.now arena.old scratch.old (at c k.old) × FunctionAt tree.now f × IsKind tree.now kind_call e }
    requires afforded { Afforded tree.now (at c k.old) (amount (2 * count) count 0 0 count) count 0 × StackIn tree.now scratch.old c.operands count }
    ensures adds { PassesAs e f count (at c k.old) tree.now text.now arena.old scratch.old (counted k.new) arena.new }
    ensures stays { StaysFor tree.now (at c k.old) scratch.old scratch.new × NamesStay tree.now scratch.old scratch.new }
    ensures turns { TurnsStay tree.now scratch.old scratch.new }
{
    fit_args(tree, text, arena, scratch, k, c, e, f, count);
    emit_args(tree, arena, scratch, k, c, count);
}

// Whether e, of type y, goes where `expected` goes: first the range, then the error of the place.
pub(crate) fn check_fits(
    tree: &[u8],
    e: usize,
    y: usize,
    expected: usize,
    kind: ConvertErrorKind,
    place: usize,
) -> Result<(), ConvertError>
    requires { IsExpr tree.now e × IsType tree.now y × IsType tree.now expected × (e < 4294967296) × (place < 4294967296) }
    ensures { (text : List ℕ) (F : Functions) → check_fits (program tree.now text) F (expr_at tree.now text e) y expected kind place ≡ lift (outcome_of result) }
{
    if fits(tree, e, y, expected) {
        return Ok(());
    }
    if range_error(tree, e, y, expected) {
        return Err(error_at(ConvertErrorKind::LiteralOutOfRange, e));
    }
    Err(error_at(kind, place))
}
