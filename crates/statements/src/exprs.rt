// statements.rs: the instructions of an expression. The functions that call each other convert parts of records, whose numbers fall;
// arguments are walked by a loop.
// An answer is passed on by a match, not by `?`: what `?` passes on is copied in pieces and read across them, for which the processor waits (docs/PERFORMANCE.md).
ghost use Rattle.std.specs.Prelude.{◌+◌};
ghost use Rattle.records.specs.Words as Words;
ghost use Rattle.records.specs.Words.{word_of};
ghost use Rattle.records.specs.Kinds.{kind_unary, kind_binary, kind_call};
ghost use Rattle.syntax.specs.Places.{IsExpr, IsKind, TypeAt};
ghost use Rattle.statements.specs.Converting.{Converting, ExprAfforded, ArgsAfforded};
ghost use Rattle.statements.specs.Lent.{at, converted, converted_args};
ghost use Rattle.statements.specs.Answers.{givens, given, expr_steps, unary_steps, logic_steps, other_steps, binary_steps, call_steps, args_steps, ConvertsAs, CallArgsAs};
ghost use Rattle.statements.specs.Turns.{InTurn, expr_types, unary_types, sides_types, binary_types, args_types, call_types, ConvertsTyped, ArgumentsTyped};

use crate::answers::Converter;
use crate::operands::{operand, push_operand};
use crate::parts::{
    begin_logic, end_logic, finish_binary, finish_call, finish_unary, join_logic, operand_type,
};
use expressions::arguments::{Argument, END, argument_at, next_cell};
use expressions::expressions::{get_type, resolve_call};
use ir::structs::Operand;
use records::convert_error::ConvertError;
use records::numbers::{AND, KIND_BINARY, KIND_SIZE_OF, KIND_UNARY};
use records::words::{RECORD_BYTES, WORD_A, WORD_B, WORD_C, detail, kind, reference};

// The operand of the expression e; what computes it is written.
#[cycle(convert_args_convert_binary_convert_call_value_convert_expr_convert_logic_convert_other_convert_unary)]
pub(crate) fn convert_expr(
    tree: &[u8],
    text: &[u8],
    arena: &mut [u8],
    scratch: &mut [u8],
    k: &mut [usize],
    c: Converter,
    e: usize,
) -> Result<Operand, ConvertError>
    requires converting { Converting tree.now text.now arena.old scratch.old (at c k.old) × ExprAfforded tree.now text.now (at c k.old) e }
    requires expr { IsExpr tree.now e }
    requires in_turn { InTurn tree.now text.now scratch.old (at c k.old) }
    ensures converts_as { ConvertsAs expr_steps (at c k.old) e tree.now text.now arena.old scratch.old (converted k.new result) arena.new scratch.new }
    ensures types { ConvertsTyped expr_types (at c k.old) e tree.now text.now scratch.old (converted k.new result) scratch.new }
{
    let node = kind(tree, e);
    if node <= KIND_SIZE_OF {
        return operand(tree, text, arena, scratch, k, c, e);
    }
    match get_type(tree, text, scratch, c.scope, c.turn, e) {
        Err(x) => Err(x),
        Ok(y) => {
            if node == KIND_UNARY {
                return convert_unary(tree, text, arena, scratch, k, c, e, y);
            }
            if node == KIND_BINARY {
                return convert_binary(tree, text, arena, scratch, k, c, e, y);
            }
            convert_call_value(tree, text, arena, scratch, k, c, e, y)
        }
    }
}

// The Unary e, of type y.
#[cycle(convert_args_convert_binary_convert_call_value_convert_expr_convert_logic_convert_other_convert_unary)]
fn convert_unary(
    tree: &[u8],
    text: &[u8],
    arena: &mut [u8],
    scratch: &mut [u8],
    k: &mut [usize],
    c: Converter,
    e: usize,
    y: usize,
) -> Result<Operand, ConvertError>
    requires converting { Converting tree.now text.now arena.old scratch.old (at c k.old) × ExprAfforded tree.now text.now (at c k.old) e }
    requires kind { IsKind tree.now kind_unary e × TypeAt tree.now y }
    requires in_turn { InTurn tree.now text.now scratch.old (at c k.old) }
    ensures converts_as { ConvertsAs (given unary_steps y) (at c k.old) e tree.now text.now arena.old scratch.old (converted k.new result) arena.new scratch.new }
    ensures types { ConvertsTyped unary_types (at c k.old) e tree.now text.now scratch.old (converted k.new result) scratch.new }
{
    let op = detail(tree, e);
    let part = reference(tree, e, WORD_A);
    match convert_expr(tree, text, arena, scratch, k, c, part) {
        Err(x) => Err(x),
        Ok(src) => Ok(finish_unary(arena, k, op, src, y)),
    }
}

// The Binary e, of type y.
#[cycle(convert_args_convert_binary_convert_call_value_convert_expr_convert_logic_convert_other_convert_unary)]
fn convert_binary(
    tree: &[u8],
    text: &[u8],
    arena: &mut [u8],
    scratch: &mut [u8],
    k: &mut [usize],
    c: Converter,
    e: usize,
    y: usize,
) -> Result<Operand, ConvertError>
    requires converting { Converting tree.now text.now arena.old scratch.old (at c k.old) × ExprAfforded tree.now text.now (at c k.old) e }
    requires kind { IsKind tree.now kind_binary e × TypeAt tree.now y }
    requires in_turn { InTurn tree.now text.now scratch.old (at c k.old) }
    ensures converts_as { ConvertsAs (given binary_steps y) (at c k.old) e tree.now text.now arena.old scratch.old (converted k.new result) arena.new scratch.new }
    ensures types { ConvertsTyped binary_types (at c k.old) e tree.now text.now scratch.old (converted k.new result) scratch.new }
{
    match operand_type(tree, text, scratch, c, e, y) {
        Err(x) => Err(x),
        Ok(q) => {
            if detail(tree, e) <= AND {
                return convert_logic(tree, text, arena, scratch, k, c, e, y);
            }
            convert_other(tree, text, arena, scratch, k, c, e, y, q)
        }
    }
}

// The And or Or e: the right side is computed only where the left one does not decide. Inlined, so that a level of nesting takes one frame of the
// stack and not two.
#[inline(always)]
#[cycle(convert_args_convert_binary_convert_call_value_convert_expr_convert_logic_convert_other_convert_unary)]
fn convert_logic(
    tree: &[u8],
    text: &[u8],
    arena: &mut [u8],
    scratch: &mut [u8],
    k: &mut [usize],
    c: Converter,
    e: usize,
    y: usize,
) -> Result<Operand, ConvertError>
    requires converting { Converting tree.now text.now arena.old scratch.old (at c k.old) × ExprAfforded tree.now text.now (at c k.old) e }
    requires kind { IsKind tree.now kind_binary e × TypeAt tree.now y }
    requires in_turn { InTurn tree.now text.now scratch.old (at c k.old) }
    ensures converts_as { ConvertsAs (given logic_steps y) (at c k.old) e tree.now text.now arena.old scratch.old (converted k.new result) arena.new scratch.new }
    ensures types { ConvertsTyped sides_types (at c k.old) e tree.now text.now scratch.old (converted k.new result) scratch.new }
{
    let left = reference(tree, e, WORD_A);
    let right = reference(tree, e, WORD_B);
    let dest = begin_logic(arena, k, e, y);
    match convert_expr(tree, text, arena, scratch, k, c, left) {
        Err(x) => Err(x),
        Ok(a) => {
            join_logic(tree, arena, k, e, dest, a);
            match convert_expr(tree, text, arena, scratch, k, c, right) {
                Err(x) => Err(x),
                Ok(b) => Ok(end_logic(arena, k, e, dest, b)),
            }
        }
    }
}

// Any other Binary e. Inlined, as convert_logic is.
#[inline(always)]
#[cycle(convert_args_convert_binary_convert_call_value_convert_expr_convert_logic_convert_other_convert_unary)]
fn convert_other(
    tree: &[u8],
    text: &[u8],
    arena: &mut [u8],
    scratch: &mut [u8],
    k: &mut [usize],
    c: Converter,
    e: usize,
    y: usize,
    q: usize,
) -> Result<Operand, ConvertError>
    requires converting { Converting tree.now text.now arena.old scratch.old (at c k.old) × ExprAfforded tree.now text.now (at c k.old) e }
    requires kind { IsKind tree.now kind_binary e × TypeAt tree.now y × TypeAt tree.now q }
    requires in_turn { InTurn tree.now text.now scratch.old (at c k.old) }
    ensures converts_as { ConvertsAs (givens other_steps y q) (at c k.old) e tree.now text.now arena.old scratch.old (converted k.new result) arena.new scratch.new }
    ensures types { ConvertsTyped sides_types (at c k.old) e tree.now text.now scratch.old (converted k.new result) scratch.new }
{
    let op = detail(tree, e);
    let left = reference(tree, e, WORD_A);
    let right = reference(tree, e, WORD_B);
    match convert_expr(tree, text, arena, scratch, k, c, left) {
        Err(x) => Err(x),
        Ok(a) => match convert_expr(tree, text, arena, scratch, k, c, right) {
            Err(x) => Err(x),
            Ok(b) => Ok(finish_binary(tree, arena, k, op, a, b, y, q)),
        },
    }
}

// The call e, of type y, whose result is used: a Call, or a Cast.
#[cycle(convert_args_convert_binary_convert_call_value_convert_expr_convert_logic_convert_other_convert_unary)]
fn convert_call_value(
    tree: &[u8],
    text: &[u8],
    arena: &mut [u8],
    scratch: &mut [u8],
    k: &mut [usize],
    c: Converter,
    e: usize,
    y: usize,
) -> Result<Operand, ConvertError>
    requires converting { Converting tree.now text.now arena.old scratch.old (at c k.old) × ExprAfforded tree.now text.now (at c k.old) e }
    requires kind { IsKind tree.now kind_call e × TypeAt tree.now y }
    requires in_turn { InTurn tree.now text.now scratch.old (at c k.old) }
    ensures converts_as { ConvertsAs (given call_steps y) (at c k.old) e tree.now text.now arena.old scratch.old (converted k.new result) arena.new scratch.new }
    ensures types { ConvertsTyped call_types (at c k.old) e tree.now text.now scratch.old (converted k.new result) scratch.new }
{
    match resolve_call(tree, text, scratch, c.scope, c.turn, e) {
        Err(x) => Err(x),
        Ok(callee) => match convert_args(tree, text, arena, scratch, k, c, e) {
            Err(x) => Err(x),
            Ok(count) => finish_call(tree, text, arena, scratch, k, c, e, y, callee, count),
        },
    }
}

// The values of the call e go onto the stack, above what waits there; a type gives none.
#[cycle(convert_args_convert_binary_convert_call_value_convert_expr_convert_logic_convert_other_convert_unary)]
pub(crate) fn convert_args(
    tree: &[u8],
    text: &[u8],
    arena: &mut [u8],
    scratch: &mut [u8],
    k: &mut [usize],
    c: Converter,
    e: usize,
) -> Result<usize, ConvertError>
    requires converting { Converting tree.now text.now arena.old scratch.old (at c k.old) × ArgsAfforded tree.now text.now (at c k.old) (word_of tree.now e Words.C) }
    requires kind { IsKind tree.now kind_call e }
    requires in_turn { InTurn tree.now text.now scratch.old (at c k.old) }
    ensures call_args_as { CallArgsAs args_steps (at c k.old) e tree.now text.now arena.old scratch.old (converted_args k.new result) arena.new scratch.new }
    ensures types { ArgumentsTyped args_types (at c k.old) (word_of tree.now e Words.C) tree.now text.now scratch.old (converted_args k.new result) scratch.new }
{
    let n = tree.len() / RECORD_BYTES;
    let first = c.operands;
    let mut cell = reference(tree, e, WORD_C);
    let mut at = c;
    while cell != END {
        if let Argument::Expr(value) = argument_at(tree, text, cell) {
            match convert_expr(tree, text, arena, scratch, k, at, value) {
                Err(x) => return Err(x),
                Ok(o) => {
                    let top = at.operands;
                    push_operand(scratch, n, top, o);
                    at.operands = top + 1;
                }
            }
        }
        cell = next_cell(tree, cell);
    }
    Ok(at.operands - first)
}
