// expressions.rs: the type of an expression and what a call runs. Typing an expression, resolving a call and typing its arguments call each
// other; the record's number falls. Lists are walked by a loop, and recursion goes only into items. For document 02, point 9, a type is worked out once
// in a turn (`turns.rt`).
ghost use Rattle.std.specs.Prelude.{◌≡◌, false};
ghost use Rattle.records.specs.Words as Words;
ghost use Rattle.records.specs.Words.{word_of};
ghost use Rattle.records.specs.Kinds.{kind_binary, kind_call};
ghost use Rattle.syntax.specs.Places.{IsExpr, IsKind};
ghost use Rattle.expressions.specs.Slots.{in_turn, Typing};
ghost use Rattle.expressions.specs.Answers.{TypeMeets, ArgsMeet, CallMeets, CommonMeets, SidesMeet};

use crate::answers::Callee;
use crate::arguments::{Argument, END, argument_at, next_cell, slot};
use crate::calls::{callee_at, callee_record, resolve_typed};
use crate::operands::{Sides, binary_type, common_of, leaf_type, unary_type, value_type};
use crate::turns::{NOTHING, beside, is_typed, keep};
use records::convert_error::ConvertError;
use records::numbers::{KIND_BINARY, KIND_CALL, KIND_UNARY};
use records::words::{WORD_A, WORD_B, WORD_C, kind, reference};
use scope::Scope;

// The type of the expression e, once its names and calls are checked; it is worked out once in a turn.
#[cycle(find_callee_get_argument_types_get_type_work_out)]
pub fn get_type(
    tree: &[u8],
    text: &[u8],
    scratch: &mut [u8],
    scope: Scope,
    turn: u32,
    e: usize,
) -> Result<usize, ConvertError>
    requires typing { Typing tree.now text.now scratch.old scope turn }
    requires expr { IsExpr tree.now e }
    ensures { TypeMeets tree.now text.now scratch.old scope turn e result scratch.new }
{
    if is_typed(tree, scratch, turn, e) {
        return Ok(slot(tree, scratch, e));
    }
    work_out(tree, text, scratch, scope, turn, e)
}

// The type of the expression e from those of its parts, kept at its slot: a visit. It may be made only where none was in this turn.
#[cycle(find_callee_get_argument_types_get_type_work_out)]
fn work_out(
    tree: &[u8],
    text: &[u8],
    scratch: &mut [u8],
    scope: Scope,
    turn: u32,
    e: usize,
) -> Result<usize, ConvertError>
    requires typing { Typing tree.now text.now scratch.old scope turn }
    requires expr { IsExpr tree.now e × (in_turn tree.now turn scratch.old e ≡ false) }
    ensures { TypeMeets tree.now text.now scratch.old scope turn e result scratch.new }
{
    let k = kind(tree, e);
    let left = reference(tree, e, WORD_A);
    // By matches, not by `?`: what `?` passes on is copied in pieces and read across them, for which the processor waits (docs/PERFORMANCE.md).
    if k == KIND_UNARY {
        return match get_type(tree, text, scratch, scope, turn, left) {
            Err(x) => Err(x),
            Ok(ty) => {
                let a = unary_type(tree, text, e, ty);
                keep(tree, scratch, turn, e, a, NOTHING)
            }
        };
    }
    if k == KIND_BINARY {
        let right = reference(tree, e, WORD_B);
        return match get_type(tree, text, scratch, scope, turn, left) {
            Err(x) => Err(x),
            Ok(l) => match get_type(tree, text, scratch, scope, turn, right) {
                Err(x) => Err(x),
                Ok(r) => {
                    let sides = Sides {
                        left,
                        left_type: l,
                        right,
                        right_type: r,
                    };
                    let common = common_of(tree, text, sides);
                    let a = binary_type(tree, text, e, sides, common);
                    keep(tree, scratch, turn, e, a, common.unwrap_or(NOTHING))
                }
            },
        };
    }
    if k == KIND_CALL {
        let callee = find_callee(tree, text, scratch, scope, turn, e);
        let a = value_type(tree, text, e, callee);
        return keep(tree, scratch, turn, e, a, callee_record(callee));
    }
    let a = leaf_type(tree, text, scratch, scope, e);
    keep(tree, scratch, turn, e, a, NOTHING)
}

// What the call of record r runs: it is kept where the type of r was worked out in this turn.
pub fn resolve_call(
    tree: &[u8],
    text: &[u8],
    scratch: &mut [u8],
    scope: Scope,
    turn: u32,
    r: usize,
) -> Result<Callee, ConvertError>
    requires typing { Typing tree.now text.now scratch.old scope turn }
    requires kind { IsKind tree.now kind_call r }
    ensures { CallMeets tree.now text.now scratch.old scope turn r result scratch.new }
{
    if is_typed(tree, scratch, turn, r) {
        return Ok(callee_at(tree, beside(tree, scratch, r)));
    }
    find_callee(tree, text, scratch, scope, turn, r)
}

// What the call of record r runs, once its arguments are checked.
#[cycle(find_callee_get_argument_types_get_type_work_out)]
fn find_callee(
    tree: &[u8],
    text: &[u8],
    scratch: &mut [u8],
    scope: Scope,
    turn: u32,
    r: usize,
) -> Result<Callee, ConvertError>
    requires typing { Typing tree.now text.now scratch.old scope turn }
    requires kind { IsKind tree.now kind_call r }
    ensures { CallMeets tree.now text.now scratch.old scope turn r result scratch.new }
{
    get_argument_types(tree, text, scratch, scope, turn, r)?;
    resolve_typed(tree, text, scratch, r)
}

// Types each argument of the call of record r; the types stand in scratch, each at its expression's slot.
#[cycle(find_callee_get_argument_types_get_type_work_out)]
fn get_argument_types(
    tree: &[u8],
    text: &[u8],
    scratch: &mut [u8],
    scope: Scope,
    turn: u32,
    r: usize,
) -> Result<(), ConvertError>
    requires typing { Typing tree.now text.now scratch.old scope turn }
    requires kind { IsKind tree.now kind_call r }
    ensures { ArgsMeet tree.now text.now scratch.old scope turn (word_of tree.now r Words.C) result scratch.new }
{
    let mut cell = reference(tree, r, WORD_C);
    while cell != END {
        if let Argument::Expr(e) = argument_at(tree, text, cell) {
            get_type(tree, text, scratch, scope, turn, e)?;
        }
        cell = next_cell(tree, cell);
    }
    Ok(())
}

// The type that both sides of the Binary e take: it is kept where the type of e was worked out in this turn.
pub fn common_type(
    tree: &[u8],
    text: &[u8],
    scratch: &mut [u8],
    scope: Scope,
    turn: u32,
    e: usize,
) -> Result<Option<usize>, ConvertError>
    requires typing { Typing tree.now text.now scratch.old scope turn }
    requires kind { IsKind tree.now kind_binary e }
    ensures { SidesMeet tree.now text.now scratch.old scope turn e result scratch.new }
{
    if is_typed(tree, scratch, turn, e) {
        return Ok(Some(beside(tree, scratch, e)));
    }
    let left = reference(tree, e, WORD_A);
    let right = reference(tree, e, WORD_B);
    find_common(tree, text, scratch, scope, turn, left, right)
}

// The type that two expressions both take. It stays apart: then the answer of `common_type` needs no memory where the type is kept.
#[inline(never)]
fn find_common(
    tree: &[u8],
    text: &[u8],
    scratch: &mut [u8],
    scope: Scope,
    turn: u32,
    left: usize,
    right: usize,
) -> Result<Option<usize>, ConvertError>
    requires typing { Typing tree.now text.now scratch.old scope turn }
    requires expr { IsExpr tree.now left }
    requires expr_2 { IsExpr tree.now right }
    ensures { CommonMeets tree.now text.now scratch.old scope turn left right result scratch.new }
{
    match get_type(tree, text, scratch, scope, turn, left) {
        Err(x) => Err(x),
        Ok(l) => match get_type(tree, text, scratch, scope, turn, right) {
            Err(x) => Err(x),
            Ok(r) => {
                let sides = Sides {
                    left,
                    left_type: l,
                    right,
                    right_type: r,
                };
                Ok(common_of(tree, text, sides))
            }
        },
    }
}
