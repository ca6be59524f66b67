// statements.rs: the statements that hold no block, and conditions.
// An answer is passed on by a match, not by `?`: what `?` passes on is copied in pieces and read across them, for which the processor waits (docs/PERFORMANCE.md).
ghost use Rattle.std.specs.Prelude.{◌≡◌, false, List, ℕ, ◌<◌, eqb, ltb};
ghost use Rattle.laws.specs.Fix.{pick};
ghost use Rattle.records.specs.Words as Words;
ghost use Rattle.records.specs.Words.{word_of};
ghost use Rattle.records.specs.Kinds.{kind_call, kind_declare, kind_init, kind_return, kind_call_statement, kind_break, kind_continue, form_address};
ghost use Rattle.syntax.specs.Syntax.{null_type, address_of_null};
ghost use Rattle.syntax.specs.Decode.{program};
ghost use Rattle.syntax.specs.Places.{IsExpr, IsKind, TypeAt, FunctionAt};
ghost use Rattle.types.specs.Fits.{IsType};
ghost use Rattle.ir.specs.Amounts.{amount};
ghost use Rattle.ir.specs.Counted.{counted};
ghost use Rattle.ir.specs.Instructions.{operand_of, var_of};
ghost use Rattle.statements.specs.Converting.{Converting, RoomFor, OperandIn, Afforded, ExprAfforded, BehindAfforded};
ghost use Rattle.statements.specs.Lent.{at, converted, stated, finished_with};
ghost use Rattle.statements.specs.Meets.{Adds};
ghost use Rattle.statements.specs.Parts.{copy_fitted, zero_float};
ghost use Rattle.statements.specs.Answers.{ZeroMeets, givens, given, ConvertsAs, StatesAs, CallOnlyAs, DeclaresAs, cond_steps, declare_steps, init_steps, init_new_steps, assign_steps, assign_to_steps, return_steps, return_as_steps, call_statement_steps, call_only_steps, break_steps, continue_steps, loop_jump_steps, declare_init_steps};
ghost use Rattle.statements.specs.Turns.{InTurn, no_types, call_only_types, value_types, assign_types, init_types, head_types, return_as_types, own_types, ConvertsTyped, StatesTyped};

use crate::answers::{Converter, error_at};
use crate::exprs::{convert_args, convert_expr};
use crate::fits::{check_fits, fit_operand, pass_args};
use crate::jumps::jump;
use crate::numbers::LabelKind;
use expressions::answers::Callee;
use expressions::expressions::{get_type, resolve_call};
use expressions::names::{declare_name, find_name};
use ir::floats::float_entry;
use ir::lent::{float_id, new_var};
use ir::structs::{Operand, VarId, emit_call_only, emit_copy, emit_return, emit_zero};
use records::convert_error::{ConvertError, ConvertErrorKind};
use records::numbers::{
    ADDRESS_OF_NULL, BOOL_TYPE, FORM_ADDRESS, FORM_ARRAY, FORM_CUSTOM, FORM_FLOAT, FORM_INT,
    KIND_CALL, NULL_TYPE,
};
use records::words::{NONE, WORD_A, WORD_C, WORD_D, detail, kind, reference, word};
use scope::{Known, Scope};
use types::form::{form, is_short, is_unsigned};

// The operand of the condition e, which must be a Bool.
pub(crate) fn convert_cond(
    tree: &[u8],
    text: &[u8],
    arena: &mut [u8],
    scratch: &mut [u8],
    k: &mut [usize],
    c: Converter,
    e: usize,
) -> Result<Operand, ConvertError>
    requires converting { Converting tree.now text.now arena.old scratch.old (at c k.old) × ExprAfforded tree.now text.now (at c k.old) e }
    requires expr { IsExpr tree.now e }
    requires in_turn { InTurn tree.now text.now scratch.old (at c k.old) }
    ensures converts_as { ConvertsAs cond_steps (at c k.old) e tree.now text.now arena.old scratch.old (converted k.new result) arena.new scratch.new }
    ensures types { ConvertsTyped value_types (at c k.old) e tree.now text.now scratch.old (converted k.new result) scratch.new }
{
    match get_type(tree, text, scratch, c.scope, c.turn, e) {
        Err(x) => Err(x),
        Ok(y) => {
            if y == BOOL_TYPE {
                return convert_expr(tree, text, arena, scratch, k, c, e);
            }
            Err(error_at(ConvertErrorKind::NotBool, e))
        }
    }
}

fn zero_float(arena: &mut [u8], k: &mut [usize], v: VarId, short: bool)
    requires { RoomFor (counted k.old) arena.old (amount 1 0 0 0 1) }
    ensures { Adds (zero_float (var_of v) short) (amount 1 0 0 0 1) (counted k.old) arena.old tt (counted k.new) arena.new }
{
    let zero = float_id(arena, k, float_entry(0, short));
    emit_copy(arena, k, v, Operand::Float(zero));
}

// The zero of a type that is neither Int nor Float nor Array nor Custom: Bool, Char and Byte have the bool, Address and Null the null.
fn zero_operand(f: u8) -> Operand
    ensures { result ≡ pick (ltb f form_address) (Operand.Bool false) Operand.Null }
{
    if f < FORM_ADDRESS {
        return Operand::Bool(false);
    }
    Operand::Null
}

// The zero value that the Declare r writes; of a Custom the Rust would panic.
fn zero_value(
    tree: &[u8],
    arena: &mut [u8],
    k: &mut [usize],
    r: usize,
    v: VarId,
) -> Result<(), ConvertError>
    requires { RoomFor (counted k.old) arena.old (amount 1 0 0 0 1) × IsType tree.now v.1 × (r < 4294967296) }
    ensures { ZeroMeets tree.now r v (counted k.old) arena.old (finished_with k.new result) arena.new }
{
    let y = v.1 as usize;
    let f = form(tree, y);
    let short = is_short(tree, y);
    if f == FORM_INT {
        let zero = Operand::Int(0, short, is_unsigned(tree, y));
        emit_copy(arena, k, v, zero);
        return Ok(());
    }
    if f == FORM_FLOAT {
        zero_float(arena, k, v, short);
        return Ok(());
    }
    if f == FORM_ARRAY {
        emit_zero(arena, k, v);
        return Ok(());
    }
    if f == FORM_CUSTOM {
        return Err(error_at(ConvertErrorKind::WouldPanic, r));
    }
    emit_copy(arena, k, v, zero_operand(f));
    Ok(())
}

// The Declare r: the variable takes its number before its name is looked at.
pub(crate) fn convert_declare(
    tree: &[u8],
    text: &[u8],
    arena: &mut [u8],
    scratch: &mut [u8],
    k: &mut [usize],
    c: Converter,
    r: usize,
) -> Result<Scope, ConvertError>
    requires converting { Converting tree.now text.now arena.old scratch.old (at c k.old) × BehindAfforded tree.now text.now (at c k.old) r }
    requires kind { IsKind tree.now kind_declare r }
    requires in_turn { InTurn tree.now text.now scratch.old (at c k.old) }
    ensures states_as { StatesAs declare_steps (at c k.old) r tree.now text.now arena.old scratch.old (stated k.new result) arena.new scratch.new }
    ensures types { StatesTyped no_types (at c k.old) r tree.now text.now scratch.old (stated k.new result) scratch.new }
{
    let v = new_var(arena, k, word(tree, r, WORD_C));
    match declare_name(tree, text, scratch, c.scope, r, v, false) {
        None => Err(error_at(ConvertErrorKind::AlreadyDeclared, r)),
        Some(next) => match zero_value(tree, arena, k, r, v) {
            Err(x) => Err(x),
            Ok(()) => Ok(next),
        },
    }
}

// The operand, fitted to the variable's type, is copied into it.
pub(crate) fn copy_fitted(tree: &[u8], arena: &mut [u8], k: &mut [usize], v: VarId, src: Operand)
    requires { RoomFor (counted k.old) arena.old (amount 2 1 0 0 1) × TypeAt tree.now v.1 × OperandIn tree.now (operand_of src) }
    ensures { (text : List ℕ) → Adds (copy_fitted (program tree.now text) (var_of v) (operand_of src)) (amount 2 1 0 0 1) (counted k.old) arena.old tt (counted k.new) arena.new }
{
    let fitted = fit_operand(tree, arena, k, src, v.1 as usize);
    emit_copy(arena, k, v, fitted);
}

// The Init r of the known variable v: its value is converted before its type is held against the variable's.
fn assign_to(
    tree: &[u8],
    text: &[u8],
    arena: &mut [u8],
    scratch: &mut [u8],
    k: &mut [usize],
    c: Converter,
    r: usize,
    v: VarId,
) -> Result<Scope, ConvertError>
    requires converting { Converting tree.now text.now arena.old scratch.old (at c k.old) × BehindAfforded tree.now text.now (at c k.old) r }
    requires kind { IsKind tree.now kind_init r × TypeAt tree.now v.1 }
    requires in_turn { InTurn tree.now text.now scratch.old (at c k.old) }
    ensures states_as { StatesAs (given assign_to_steps v) (at c k.old) r tree.now text.now arena.old scratch.old (stated k.new result) arena.new scratch.new }
    ensures types { StatesTyped assign_types (at c k.old) r tree.now text.now scratch.old (stated k.new result) scratch.new }
{
    let e = reference(tree, r, WORD_C);
    match convert_expr(tree, text, arena, scratch, k, c, e) {
        Err(x) => Err(x),
        Ok(src) => match get_type(tree, text, scratch, c.scope, c.turn, e) {
            Err(x) => Err(x),
            Ok(y) => {
                let expected = v.1 as usize;
                match check_fits(tree, e, y, expected, ConvertErrorKind::WrongAssignType, r) {
                    Err(x) => Err(x),
                    Ok(()) => {
                        copy_fitted(tree, arena, k, v, src);
                        Ok(c.scope)
                    }
                }
            }
        },
    }
}

fn convert_assign(
    tree: &[u8],
    text: &[u8],
    arena: &mut [u8],
    scratch: &mut [u8],
    k: &mut [usize],
    c: Converter,
    r: usize,
    known: Known,
) -> Result<Scope, ConvertError>
    requires converting { Converting tree.now text.now arena.old scratch.old (at c k.old) × BehindAfforded tree.now text.now (at c k.old) r }
    requires kind { IsKind tree.now kind_init r × TypeAt tree.now known.var.1 }
    requires in_turn { InTurn tree.now text.now scratch.old (at c k.old) }
    ensures states_as { StatesAs (givens assign_steps known.var known.constant) (at c k.old) r tree.now text.now arena.old scratch.old (stated k.new result) arena.new scratch.new }
    ensures types { StatesTyped assign_types (at c k.old) r tree.now text.now scratch.old (stated k.new result) scratch.new }
{
    if known.constant {
        return Err(error_at(ConvertErrorKind::AssignToConstant, r));
    }
    assign_to(tree, text, arena, scratch, k, c, r, known.var)
}

// What a new variable of a value of type y has as its type: an address to nothing for Null.
fn init_type(y: usize) -> usize
    ensures { result ≡ pick (eqb y null_type) address_of_null y }
{
    if y == NULL_TYPE {
        return ADDRESS_OF_NULL;
    }
    y
}

// The Init r of a new name, behind its value: the variable, then the name, then the copy.
fn declare_init(
    tree: &[u8],
    text: &[u8],
    arena: &mut [u8],
    scratch: &mut [u8],
    k: &mut [usize],
    c: Converter,
    r: usize,
    y: usize,
    src: Operand,
) -> Result<Scope, ConvertError>
    requires converting { Converting tree.now text.now arena.old scratch.old (at c k.old) × Afforded tree.now (at c k.old) (amount 1 1 0 0 0) 0 1 }
    requires kind { IsKind tree.now kind_init r × TypeAt tree.now y }
    requires in_turn { InTurn tree.now text.now scratch.old (at c k.old) }
    ensures declares_as { DeclaresAs (givens declare_init_steps y src) (at c k.old) r tree.now text.now arena.old scratch.old (stated k.new result) arena.new scratch.new }
    ensures types { StatesTyped no_types (at c k.old) r tree.now text.now scratch.old (stated k.new result) scratch.new }
{
    let constant = detail(tree, r) == 1;
    let v = new_var(arena, k, init_type(y) as u32);
    match declare_name(tree, text, scratch, c.scope, r, v, constant) {
        None => Err(error_at(ConvertErrorKind::AlreadyDeclared, r)),
        Some(next) => {
            emit_copy(arena, k, v, src);
            Ok(next)
        }
    }
}

// The Init r of a new name.
fn init_new(
    tree: &[u8],
    text: &[u8],
    arena: &mut [u8],
    scratch: &mut [u8],
    k: &mut [usize],
    c: Converter,
    r: usize,
) -> Result<Scope, ConvertError>
    requires converting { Converting tree.now text.now arena.old scratch.old (at c k.old) × BehindAfforded tree.now text.now (at c k.old) r }
    requires kind { IsKind tree.now kind_init r }
    requires in_turn { InTurn tree.now text.now scratch.old (at c k.old) }
    ensures states_as { StatesAs init_new_steps (at c k.old) r tree.now text.now arena.old scratch.old (stated k.new result) arena.new scratch.new }
    ensures types { StatesTyped init_types (at c k.old) r tree.now text.now scratch.old (stated k.new result) scratch.new }
{
    let e = reference(tree, r, WORD_C);
    match get_type(tree, text, scratch, c.scope, c.turn, e) {
        Err(x) => Err(x),
        Ok(y) => match convert_expr(tree, text, arena, scratch, k, c, e) {
            Err(x) => Err(x),
            Ok(src) => declare_init(tree, text, arena, scratch, k, c, r, y, src),
        },
    }
}

// The Init r: a plain one of a known name assigns.
pub(crate) fn convert_init(
    tree: &[u8],
    text: &[u8],
    arena: &mut [u8],
    scratch: &mut [u8],
    k: &mut [usize],
    c: Converter,
    r: usize,
) -> Result<Scope, ConvertError>
    requires converting { Converting tree.now text.now arena.old scratch.old (at c k.old) × BehindAfforded tree.now text.now (at c k.old) r }
    requires kind { IsKind tree.now kind_init r }
    requires in_turn { InTurn tree.now text.now scratch.old (at c k.old) }
    ensures states_as { StatesAs init_steps (at c k.old) r tree.now text.now arena.old scratch.old (stated k.new result) arena.new scratch.new }
    ensures types { StatesTyped init_types (at c k.old) r tree.now text.now scratch.old (stated k.new result) scratch.new }
{
    if detail(tree, r) == 1 {
        return init_new(tree, text, arena, scratch, k, c, r);
    }
    match find_name(tree, text, scratch, c.scope, r) {
        Some(known) => convert_assign(tree, text, arena, scratch, k, c, r, known),
        None => init_new(tree, text, arena, scratch, k, c, r),
    }
}

// The Return r of a value of type y, where `expected` is the function's.
fn return_as(
    tree: &[u8],
    text: &[u8],
    arena: &mut [u8],
    scratch: &mut [u8],
    k: &mut [usize],
    c: Converter,
    r: usize,
    y: usize,
    expected: usize,
) -> Result<Scope, ConvertError>
    requires converting { Converting tree.now text.now arena.old scratch.old (at c k.old) × BehindAfforded tree.now text.now (at c k.old) r }
    requires kind { IsKind tree.now kind_return r × TypeAt tree.now y × TypeAt tree.now expected }
    requires in_turn { InTurn tree.now text.now scratch.old (at c k.old) }
    ensures states_as { StatesAs (givens return_as_steps y expected) (at c k.old) r tree.now text.now arena.old scratch.old (stated k.new result) arena.new scratch.new }
    ensures types { StatesTyped return_as_types (at c k.old) r tree.now text.now scratch.old (stated k.new result) scratch.new }
{
    let e = reference(tree, r, WORD_A);
    match check_fits(tree, e, y, expected, ConvertErrorKind::WrongReturnType, r) {
        Err(x) => Err(x),
        Ok(()) => match convert_expr(tree, text, arena, scratch, k, c, e) {
            Err(x) => Err(x),
            Ok(value) => {
                let fitted = fit_operand(tree, arena, k, value, expected);
                emit_return(arena, k, fitted);
                Ok(c.scope)
            }
        },
    }
}

// The Return r: its type is held against the function's before the value is converted.
pub(crate) fn convert_return(
    tree: &[u8],
    text: &[u8],
    arena: &mut [u8],
    scratch: &mut [u8],
    k: &mut [usize],
    c: Converter,
    r: usize,
) -> Result<Scope, ConvertError>
    requires converting { Converting tree.now text.now arena.old scratch.old (at c k.old) × BehindAfforded tree.now text.now (at c k.old) r }
    requires kind { IsKind tree.now kind_return r }
    requires in_turn { InTurn tree.now text.now scratch.old (at c k.old) }
    ensures states_as { StatesAs return_steps (at c k.old) r tree.now text.now arena.old scratch.old (stated k.new result) arena.new scratch.new }
    ensures types { StatesTyped head_types (at c k.old) r tree.now text.now scratch.old (stated k.new result) scratch.new }
{
    let e = reference(tree, r, WORD_A);
    let expected = reference(tree, c.scope.function as usize, WORD_D);
    match get_type(tree, text, scratch, c.scope, c.turn, e) {
        Err(x) => Err(x),
        Ok(y) => {
            if expected == NONE as usize {
                return Err(error_at(ConvertErrorKind::ReturnWithoutType, r));
            }
            return_as(tree, text, arena, scratch, k, c, r, y, expected)
        }
    }
}

// A call of f by the call e, whose result is not used.
fn call_only(
    tree: &[u8],
    text: &[u8],
    arena: &mut [u8],
    scratch: &mut [u8],
    k: &mut [usize],
    c: Converter,
    e: usize,
    f: usize,
) -> Result<Scope, ConvertError>
    requires converting { Converting tree.now text.now arena.old scratch.old (at c k.old) × ExprAfforded tree.now text.now (at c k.old) e }
    requires kind { IsKind tree.now kind_call e × FunctionAt tree.now f }
    requires in_turn { InTurn tree.now text.now scratch.old (at c k.old) }
    ensures call_only_as { CallOnlyAs (given call_only_steps f) (at c k.old) e tree.now text.now arena.old scratch.old (stated k.new result) arena.new scratch.new }
    ensures types { StatesTyped call_only_types (at c k.old) e tree.now text.now scratch.old (stated k.new result) scratch.new }
{
    match convert_args(tree, text, arena, scratch, k, c, e) {
        Err(x) => Err(x),
        Ok(count) => {
            pass_args(tree, text, arena, scratch, k, c, e, f, count);
            emit_call_only(arena, k, f as u32);
            Ok(c.scope)
        }
    }
}

// The call statement r whose expression e is a call; at a cast the Rust would panic.
fn call_statement(
    tree: &[u8],
    text: &[u8],
    arena: &mut [u8],
    scratch: &mut [u8],
    k: &mut [usize],
    c: Converter,
    r: usize,
    e: usize,
) -> Result<Scope, ConvertError>
    requires converting { Converting tree.now text.now arena.old scratch.old (at c k.old) × BehindAfforded tree.now text.now (at c k.old) r }
    requires kind { IsKind tree.now kind_call_statement r × IsKind tree.now kind_call e × (e ≡ word_of tree.now r Words.A) }
    requires in_turn { InTurn tree.now text.now scratch.old (at c k.old) }
    ensures states_as { StatesAs call_statement_steps (at c k.old) r tree.now text.now arena.old scratch.old (stated k.new result) arena.new scratch.new }
    ensures types { StatesTyped own_types (at c k.old) r tree.now text.now scratch.old (stated k.new result) scratch.new }
{
    match resolve_call(tree, text, scratch, c.scope, c.turn, e) {
        Err(x) => Err(x),
        Ok(Callee::Cast(_)) => Err(error_at(ConvertErrorKind::WouldPanic, r)),
        Ok(Callee::Function(f)) => call_only(tree, text, arena, scratch, k, c, e, f),
    }
}

// The call statement r: an expression that is no call is typed and never converted.
pub(crate) fn convert_call(
    tree: &[u8],
    text: &[u8],
    arena: &mut [u8],
    scratch: &mut [u8],
    k: &mut [usize],
    c: Converter,
    r: usize,
) -> Result<Scope, ConvertError>
    requires converting { Converting tree.now text.now arena.old scratch.old (at c k.old) × BehindAfforded tree.now text.now (at c k.old) r }
    requires kind { IsKind tree.now kind_call_statement r }
    requires in_turn { InTurn tree.now text.now scratch.old (at c k.old) }
    ensures states_as { StatesAs call_statement_steps (at c k.old) r tree.now text.now arena.old scratch.old (stated k.new result) arena.new scratch.new }
    ensures types { StatesTyped own_types (at c k.old) r tree.now text.now scratch.old (stated k.new result) scratch.new }
{
    let e = reference(tree, r, WORD_A);
    if kind(tree, e) == KIND_CALL {
        return call_statement(tree, text, arena, scratch, k, c, r, e);
    }
    match get_type(tree, text, scratch, c.scope, c.turn, e) {
        Err(x) => Err(x),
        Ok(_) => Ok(c.scope),
    }
}

// A jump to the label of this kind of the innermost loop; outside of all loops it is refused.
fn jump_in_loop(
    tree: &[u8],
    text: &[u8],
    arena: &mut [u8],
    scratch: &[u8],
    k: &mut [usize],
    c: Converter,
    r: usize,
    kind: LabelKind,
    outside: ConvertErrorKind,
) -> Result<Scope, ConvertError>
    requires converting { Converting tree.now text.now arena.old scratch.now (at c k.old) × BehindAfforded tree.now text.now (at c k.old) r }
    requires r_bound { r < 4294967296 }
    ensures { StatesAs (givens loop_jump_steps kind outside) (at c k.old) r tree.now text.now arena.old scratch.now (stated k.new result) arena.new scratch.now }
{
    match c.scope.in_loop() {
        None => Err(error_at(outside, r)),
        Some(l) => {
            jump(arena, k, kind, l as usize);
            Ok(c.scope)
        }
    }
}

// The Break r goes to the end of the innermost loop.
pub(crate) fn convert_break(
    tree: &[u8],
    text: &[u8],
    arena: &mut [u8],
    scratch: &[u8],
    k: &mut [usize],
    c: Converter,
    r: usize,
) -> Result<Scope, ConvertError>
    requires converting { Converting tree.now text.now arena.old scratch.now (at c k.old) × BehindAfforded tree.now text.now (at c k.old) r }
    requires kind { IsKind tree.now kind_break r }
    ensures { StatesAs break_steps (at c k.old) r tree.now text.now arena.old scratch.now (stated k.new result) arena.new scratch.now }
{
    let end = LabelKind::LoopEnd;
    let outside = ConvertErrorKind::BreakOutOfLoop;
    jump_in_loop(tree, text, arena, scratch, k, c, r, end, outside)
}

// The Continue r goes to the start of the innermost loop, which for a For is where it counts on.
pub(crate) fn convert_continue(
    tree: &[u8],
    text: &[u8],
    arena: &mut [u8],
    scratch: &[u8],
    k: &mut [usize],
    c: Converter,
    r: usize,
) -> Result<Scope, ConvertError>
    requires converting { Converting tree.now text.now arena.old scratch.now (at c k.old) × BehindAfforded tree.now text.now (at c k.old) r }
    requires kind { IsKind tree.now kind_continue r }
    ensures { StatesAs continue_steps (at c k.old) r tree.now text.now arena.old scratch.now (stated k.new result) arena.new scratch.now }
{
    let start = LabelKind::LoopStart;
    let outside = ConvertErrorKind::ContinueOutOfLoop;
    jump_in_loop(tree, text, arena, scratch, k, c, r, start, outside)
}
