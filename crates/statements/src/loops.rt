// statements.rs: what stands around the blocks of an If, a While and a For.
ghost use Rattle.std.specs.Prelude.{◌≡◌, List, ℕ, ◌+◌, ◌*◌, ◌≤◌, ◌<◌, length};
ghost use Rattle.laws.specs.Fix.{pick};
ghost use Rattle.records.specs.Words as Words;
ghost use Rattle.records.specs.Words.{record_bytes, detail_of, word_of};
ghost use Rattle.records.specs.Kinds.{kind_if, kind_while, kind_for};
ghost use Rattle.syntax.specs.Decode.{program, bit};
ghost use Rattle.syntax.specs.Places.{IsExpr, IsKind, TypeAt};
ghost use Rattle.conversion.specs.Ir.{condition_end, otherwise_label};
ghost use Rattle.ir.specs.Amounts.{amount};
ghost use Rattle.ir.specs.Counted.{counted};
ghost use Rattle.ir.specs.Instructions.{operand_of, var_of};
ghost use Rattle.expressions.specs.Slots.{Ready};
ghost use Rattle.statements.specs.Converting.{Converting, RoomFor, OperandIn, BehindAfforded, BoundAfforded};
ghost use Rattle.statements.specs.Labels.{label_number};
ghost use Rattle.statements.specs.Lent.{at, stated, finished_with, found_variable};
ghost use Rattle.statements.specs.Meets.{Adds};
ghost use Rattle.statements.specs.Parts.{if_middle, loop_back, test_bound, place_label};
ghost use Rattle.statements.specs.Answers.{count_on_steps, of_var, HeadAs, BoundAs, TurnsAs, TurnsAfforded, ForHeadAs, VariableAs, VariableStays, Checks, if_head_steps, while_head_steps, for_variable_steps, bound_steps, for_bounds_steps, for_begin_steps, for_test_steps, for_turns_steps, for_head_steps};
ghost use Rattle.statements.specs.Turns.{InTurn, head_types, bound_types, bounds_types, for_begin_types, for_test_types, for_types, StatesTyped, FinishesTyped, VariableTyped, ChecksTyped};

use crate::answers::{Converter, ForVariable, error_at};
use crate::exprs::convert_expr;
use crate::fits::{check_fits, fit_operand};
use crate::jumps::{jump, jump_if_not, place_label};
use crate::numbers::LabelKind;
use crate::statements::{convert_cond, copy_fitted};
use expressions::expressions::get_type;
use expressions::names::{declare_name, find_name};
use ir::lent::new_var;
use ir::structs::{Operand, VarId, emit_binary};
use records::convert_error::{ConvertError, ConvertErrorKind};
use records::numbers::{ADD, BOOL_TYPE, FORM_INT, LT};
use records::words::{NONE, WORD_A, WORD_B, WORD_C, detail, reference, word};
use scope::Scope;
use types::form::{form, is_short, is_unsigned};

// Whether the If r has an otherwise.
pub(crate) fn has_otherwise(tree: &[u8], r: usize) -> bool
    requires record_bytes_in_bounds { r * record_bytes + record_bytes ≤ length tree.now }
    requires r_bound { detail_of tree.now r ≤ 1 }
    ensures { result ≡ bit 1 (detail_of tree.now r) }
{
    detail(tree, r) == 1
}

// Where the If r goes when its condition does not hold.
fn if_not_label(tree: &[u8], r: usize) -> LabelKind
    requires record_bytes_in_bounds { r * record_bytes + record_bytes ≤ length tree.now }
    requires r_bound { detail_of tree.now r ≤ 1 }
    ensures { label_number result ≡ pick (bit 1 (detail_of tree.now r)) (otherwise_label r).kind (condition_end r).kind }
{
    if has_otherwise(tree, r) {
        return LabelKind::Otherwise;
    }
    LabelKind::ConditionEnd
}

// The If r before its then-block. Its condition, as each value below, is looked at by a match, not by `?`: what `?` passes on is copied in pieces
// and read across them, for which the processor waits (docs/PERFORMANCE.md).
pub(crate) fn if_head(
    tree: &[u8],
    text: &[u8],
    arena: &mut [u8],
    scratch: &mut [u8],
    k: &mut [usize],
    c: Converter,
    r: usize,
) -> Result<(), ConvertError>
    requires converting { Converting tree.now text.now arena.old scratch.old (at c k.old) × BehindAfforded tree.now text.now (at c k.old) r }
    requires kind { IsKind tree.now kind_if r }
    requires in_turn { InTurn tree.now text.now scratch.old (at c k.old) }
    ensures head_as { HeadAs if_head_steps (at c k.old) r tree.now text.now arena.old scratch.old (finished_with k.new result) arena.new scratch.new }
    ensures types { FinishesTyped head_types (at c k.old) r tree.now text.now scratch.old (finished_with k.new result) scratch.new }
{
    let e = reference(tree, r, WORD_A);
    let label = if_not_label(tree, r);
    match convert_cond(tree, text, arena, scratch, k, c, e) {
        Ok(cond) => {
            jump_if_not(arena, k, cond, label, r);
            Ok(())
        }
        Err(x) => Err(x),
    }
}

// Between the blocks of the If r.
pub(crate) fn if_middle(arena: &mut [u8], k: &mut [usize], r: usize)
    requires { RoomFor (counted k.old) arena.old (amount 2 0 2 0 0) × (r < (counted k.old).records) }
    ensures { Adds (if_middle r) (amount 2 0 2 0 0) (counted k.old) arena.old tt (counted k.new) arena.new }
{
    jump(arena, k, LabelKind::ConditionEnd, r);
    place_label(arena, k, LabelKind::Otherwise, r);
}

// Behind the last block of the If r.
pub(crate) fn if_end(arena: &mut [u8], k: &mut [usize], r: usize)
    requires { RoomFor (counted k.old) arena.old (amount 1 0 1 0 0) × (r < (counted k.old).records) }
    ensures { Adds (place_label (condition_end r)) (amount 1 0 1 0 0) (counted k.old) arena.old tt (counted k.new) arena.new }
{
    place_label(arena, k, LabelKind::ConditionEnd, r);
}

// The While r before its body.
pub(crate) fn while_head(
    tree: &[u8],
    text: &[u8],
    arena: &mut [u8],
    scratch: &mut [u8],
    k: &mut [usize],
    c: Converter,
    r: usize,
) -> Result<(), ConvertError>
    requires converting { Converting tree.now text.now arena.old scratch.old (at c k.old) × BehindAfforded tree.now text.now (at c k.old) r }
    requires kind { IsKind tree.now kind_while r }
    requires in_turn { InTurn tree.now text.now scratch.old (at c k.old) }
    ensures head_as { HeadAs while_head_steps (at c k.old) r tree.now text.now arena.old scratch.old (finished_with k.new result) arena.new scratch.new }
    ensures types { FinishesTyped head_types (at c k.old) r tree.now text.now scratch.old (finished_with k.new result) scratch.new }
{
    let e = reference(tree, r, WORD_A);
    place_label(arena, k, LabelKind::LoopStart, r);
    match convert_cond(tree, text, arena, scratch, k, c, e) {
        Ok(cond) => {
            jump_if_not(arena, k, cond, LabelKind::LoopEnd, r);
            Ok(())
        }
        Err(x) => Err(x),
    }
}

// Behind the body of the While or For r.
pub(crate) fn loop_end(arena: &mut [u8], k: &mut [usize], r: usize)
    requires { RoomFor (counted k.old) arena.old (amount 2 0 2 0 0) × (r < (counted k.old).records) }
    ensures { Adds (loop_back r) (amount 2 0 2 0 0) (counted k.old) arena.old tt (counted k.new) arena.new }
{
    jump(arena, k, LabelKind::LoopStart, r);
    place_label(arena, k, LabelKind::LoopEnd, r);
}

// The For r that declares its variable, of record v, in the scope of its body.
fn for_declared(
    tree: &[u8],
    text: &[u8],
    arena: &mut [u8],
    scratch: &mut [u8],
    k: &mut [usize],
    c: Converter,
    r: usize,
    v: usize,
) -> Result<ForVariable, ConvertError>
    requires converting { Converting tree.now text.now arena.old scratch.old (at c k.old) × BehindAfforded tree.now text.now (at c k.old) r }
    requires kind { IsKind tree.now kind_for r × (v ≡ word_of tree.now r Words.A) × TypeAt tree.now (word_of tree.now v Words.C) }
    requires in_turn { InTurn tree.now text.now scratch.old (at c k.old) }
    ensures variable_as { VariableAs for_variable_steps (at c k.old) r tree.now text.now arena.old scratch.old (found_variable k.new result) arena.new scratch.new }
    ensures types { VariableTyped (at c k.old) tree.now text.now scratch.old (found_variable k.new result) scratch.new }
{
    let x = new_var(arena, k, word(tree, v, WORD_C));
    match declare_name(tree, text, scratch, c.scope, v, x, false) {
        Some(next) => Ok(ForVariable {
            var: x,
            scope: next,
        }),
        None => Err(error_at(ConvertErrorKind::AlreadyDeclared, r)),
    }
}

// The For r that changes a variable of the blocks around it, named in record v.
fn for_known(
    tree: &[u8],
    text: &[u8],
    scratch: &[u8],
    c: Converter,
    r: usize,
    v: usize,
) -> Result<ForVariable, ConvertError>
    requires ready { Ready tree.now text.now scratch.now c.scope }
    requires kind { IsKind tree.now kind_for r × (v ≡ word_of tree.now r Words.A) × (word_of tree.now v Words.C ≡ Words.none) }
    ensures { VariableStays for_variable_steps c r tree.now text.now scratch.now result }
{
    match find_name(tree, text, scratch, c.scope, v) {
        Some(known) => {
            if known.constant {
                return Err(error_at(ConvertErrorKind::AssignToConstant, r));
            }
            Ok(ForVariable {
                var: known.var,
                scope: c.scope,
            })
        }
        None => Err(error_at(ConvertErrorKind::UnknownVariable, r)),
    }
}

// The variable of the For r.
fn for_variable(
    tree: &[u8],
    text: &[u8],
    arena: &mut [u8],
    scratch: &mut [u8],
    k: &mut [usize],
    c: Converter,
    r: usize,
) -> Result<ForVariable, ConvertError>
    requires converting { Converting tree.now text.now arena.old scratch.old (at c k.old) × BehindAfforded tree.now text.now (at c k.old) r }
    requires kind { IsKind tree.now kind_for r }
    requires in_turn { InTurn tree.now text.now scratch.old (at c k.old) }
    ensures variable_as { VariableAs for_variable_steps (at c k.old) r tree.now text.now arena.old scratch.old (found_variable k.new result) arena.new scratch.new }
    ensures types { VariableTyped (at c k.old) tree.now text.now scratch.old (found_variable k.new result) scratch.new }
{
    let v = reference(tree, r, WORD_A);
    if word(tree, v, WORD_C) == NONE {
        return for_known(tree, text, scratch, c, r, v);
    }
    for_declared(tree, text, arena, scratch, k, c, r, v)
}

// The bound e is of the variable's type y.
fn check_bound(
    tree: &[u8],
    text: &[u8],
    scratch: &mut [u8],
    c: Converter,
    e: usize,
    y: usize,
) -> Result<(), ConvertError>
    requires ready { Ready tree.now text.now scratch.old c.scope × IsExpr tree.now e × TypeAt tree.now y }
    requires by_index { (k : List ℕ) → InTurn tree.now text.now scratch.old (at c k) }
    ensures by_index_2 { (k : List ℕ) → Checks tree.now (bound_steps tree.now text.now scratch.old (at c k) e y) scratch.old result scratch.new }
    ensures types { (k : List ℕ) → ChecksTyped bound_types (at c k) e tree.now text.now scratch.old result scratch.new }
{
    match get_type(tree, text, scratch, c.scope, c.turn, e) {
        Ok(q) => check_fits(tree, e, q, y, ConvertErrorKind::NotInteger, e),
        Err(x) => Err(x),
    }
}

// Both bounds of the For r are looked at before either is converted.
fn for_bounds(
    tree: &[u8],
    text: &[u8],
    scratch: &mut [u8],
    c: Converter,
    r: usize,
    y: usize,
) -> Result<(), ConvertError>
    requires ready { Ready tree.now text.now scratch.old c.scope × IsKind tree.now kind_for r × TypeAt tree.now y }
    requires by_index { (k : List ℕ) → InTurn tree.now text.now scratch.old (at c k) }
    ensures by_index_2 { (k : List ℕ) → Checks tree.now (for_bounds_steps tree.now text.now scratch.old (at c k) r y) scratch.old result scratch.new }
    ensures types { (k : List ℕ) → ChecksTyped bounds_types (at c k) r tree.now text.now scratch.old result scratch.new }
{
    let from = reference(tree, r, WORD_B);
    let until = reference(tree, r, WORD_C);
    check_bound(tree, text, scratch, c, from, y)?;
    check_bound(tree, text, scratch, c, until, y)
}

// Where the For r counts on: at its start, which the first turn passes by, and then the check.
fn count_on(tree: &[u8], arena: &mut [u8], k: &mut [usize], r: usize, x: VarId)
    requires { RoomFor (counted k.old) arena.old (amount 4 0 3 0 0) × (r < (counted k.old).records) × TypeAt tree.now x.1 }
    ensures { Adds (count_on_steps tree.now r x) (amount 4 0 3 0 0) (counted k.old) arena.old tt (counted k.new) arena.new }
{
    let y = x.1 as usize;
    let one = Operand::Int(1, is_short(tree, y), is_unsigned(tree, y));
    jump(arena, k, LabelKind::LoopCheck, r);
    place_label(arena, k, LabelKind::LoopStart, r);
    emit_binary(arena, k, x, ADD, Operand::Var(x), one);
    place_label(arena, k, LabelKind::LoopCheck, r);
}

// The For r up to its check: its variable gets the first bound.
fn for_begin(
    tree: &[u8],
    text: &[u8],
    arena: &mut [u8],
    scratch: &mut [u8],
    k: &mut [usize],
    c: Converter,
    r: usize,
    x: VarId,
) -> Result<(), ConvertError>
    requires converting { Converting tree.now text.now arena.old scratch.old (at c k.old) × BoundAfforded tree.now text.now (at c k.old) r Words.B }
    requires kind { IsKind tree.now kind_for r × TypeAt tree.now x.1 }
    requires in_turn { InTurn tree.now text.now scratch.old (at c k.old) }
    ensures bound_as { BoundAs (of_var for_begin_steps x) Words.B (at c k.old) r tree.now text.now arena.old scratch.old (finished_with k.new result) arena.new scratch.new }
    ensures types { FinishesTyped for_begin_types (at c k.old) r tree.now text.now scratch.old (finished_with k.new result) scratch.new }
{
    let from = reference(tree, r, WORD_B);
    match convert_expr(tree, text, arena, scratch, k, c, from) {
        Ok(a) => {
            copy_fitted(tree, arena, k, x, a);
            count_on(tree, arena, k, r, x);
            Ok(())
        }
        Err(e) => Err(e),
    }
}

// Whether the variable is below the bound, or the For r ends.
fn test_bound(tree: &[u8], arena: &mut [u8], k: &mut [usize], r: usize, x: VarId, until: Operand)
    requires { RoomFor (counted k.old) arena.old (amount 3 2 1 0 1) × (r < (counted k.old).records) × TypeAt tree.now x.1 × OperandIn tree.now (operand_of until) }
    ensures { (text : List ℕ) → Adds (test_bound (program tree.now text) r (var_of x) (operand_of until)) (amount 3 2 1 0 1) (counted k.old) arena.old tt (counted k.new) arena.new }
{
    let bound = fit_operand(tree, arena, k, until, x.1 as usize);
    let cond = new_var(arena, k, BOOL_TYPE as u32);
    emit_binary(arena, k, cond, LT, Operand::Var(x), bound);
    jump_if_not(arena, k, Operand::Var(cond), LabelKind::LoopEnd, r);
}

// The check of the For r: its second bound is computed anew at each turn.
fn for_test(
    tree: &[u8],
    text: &[u8],
    arena: &mut [u8],
    scratch: &mut [u8],
    k: &mut [usize],
    c: Converter,
    r: usize,
    x: VarId,
) -> Result<(), ConvertError>
    requires converting { Converting tree.now text.now arena.old scratch.old (at c k.old) × BoundAfforded tree.now text.now (at c k.old) r Words.C }
    requires kind { IsKind tree.now kind_for r × TypeAt tree.now x.1 }
    requires in_turn { InTurn tree.now text.now scratch.old (at c k.old) }
    ensures bound_as { BoundAs (of_var for_test_steps x) Words.C (at c k.old) r tree.now text.now arena.old scratch.old (finished_with k.new result) arena.new scratch.new }
    ensures types { FinishesTyped for_test_types (at c k.old) r tree.now text.now scratch.old (finished_with k.new result) scratch.new }
{
    let until = reference(tree, r, WORD_C);
    match convert_expr(tree, text, arena, scratch, k, c, until) {
        Ok(b) => {
            test_bound(tree, arena, k, r, x, b);
            Ok(())
        }
        Err(e) => Err(e),
    }
}

// The For r from its variable on, up to its body.
fn for_turns(
    tree: &[u8],
    text: &[u8],
    arena: &mut [u8],
    scratch: &mut [u8],
    k: &mut [usize],
    c: Converter,
    r: usize,
    x: VarId,
) -> Result<(), ConvertError>
    requires converting { Converting tree.now text.now arena.old scratch.old (at c k.old) × TurnsAfforded tree.now text.now (at c k.old) r }
    requires kind { IsKind tree.now kind_for r × TypeAt tree.now x.1 }
    requires in_turn { InTurn tree.now text.now scratch.old (at c k.old) }
    ensures turns_as { TurnsAs (of_var for_turns_steps x) (at c k.old) r tree.now text.now arena.old scratch.old (finished_with k.new result) arena.new scratch.new }
    ensures types { FinishesTyped for_types (at c k.old) r tree.now text.now scratch.old (finished_with k.new result) scratch.new }
{
    let y = x.1 as usize;
    if form(tree, y) != FORM_INT {
        return Err(error_at(ConvertErrorKind::NotInteger, r));
    }
    for_bounds(tree, text, scratch, c, r, y)?;
    for_begin(tree, text, arena, scratch, k, c, r, x)?;
    for_test(tree, text, arena, scratch, k, c, r, x)
}

// The For r before its body, with the scope of the body: a variable that it declares is unknown in its bounds.
pub(crate) fn for_head(
    tree: &[u8],
    text: &[u8],
    arena: &mut [u8],
    scratch: &mut [u8],
    k: &mut [usize],
    c: Converter,
    r: usize,
) -> Result<Scope, ConvertError>
    requires converting { Converting tree.now text.now arena.old scratch.old (at c k.old) × BehindAfforded tree.now text.now (at c k.old) r }
    requires kind { IsKind tree.now kind_for r }
    requires in_turn { InTurn tree.now text.now scratch.old (at c k.old) }
    ensures for_head_as { ForHeadAs for_head_steps (at c k.old) r tree.now text.now arena.old scratch.old (stated k.new result) arena.new scratch.new }
    ensures types { StatesTyped for_types (at c k.old) r tree.now text.now scratch.old (stated k.new result) scratch.new }
{
    match for_variable(tree, text, arena, scratch, k, c, r) {
        Ok(found) => match for_turns(tree, text, arena, scratch, k, c, r, found.var) {
            Ok(()) => Ok(found.scope),
            Err(e) => Err(e),
        },
        Err(e) => Err(e),
    }
}
