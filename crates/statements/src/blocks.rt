// statements.rs: statements and blocks. The functions that call each other convert parts of records, whose numbers fall; a block's
// statements are walked by a loop, and recursion goes only into their blocks.
ghost use Rattle.std.specs.Prelude.{◌≡◌, List, ℕ, ◌≤◌};
ghost use Rattle.records.specs.Words.{kind_of};
ghost use Rattle.records.specs.Kinds.{kind_call_statement, kind_if, kind_while, kind_for, kind_break};
ghost use Rattle.syntax.specs.Places.{IsKind, IsStatement, BodyAt};
ghost use Rattle.ir.specs.Counted.{counted};
ghost use Rattle.statements.specs.Converting.{Converting, BehindAfforded, StatementAfforded, BlockAfforded};
ghost use Rattle.statements.specs.Lent.{at, stated, finished_with};
ghost use Rattle.statements.specs.Answers.{StatesAs, StatementAs, BlockAs, FinishesAs, plain_steps, jump_steps, statement_steps, block_steps, if_steps, while_steps, for_steps};
ghost use Rattle.statements.specs.Turns.{Turns, Fresh, InTurn, own_types, StatesTyped, StatementVisited, FinishedVisited, BlockVisited};

use crate::answers::Converter;
use crate::loops::{for_head, has_otherwise, if_end, if_head, if_middle, loop_end, while_head};
use crate::statements::{
    convert_break, convert_call, convert_continue, convert_declare, convert_init, convert_return,
};
use expressions::arguments::{END, next_cell};
use ir::lent::COUNT_INSTRUCTIONS;
use ir::structs::emit_comment;
use records::convert_error::ConvertError;
use records::numbers::{
    KIND_BREAK, KIND_CALL_STATEMENT, KIND_DECLARE, KIND_FOR, KIND_IF, KIND_INIT, KIND_RETURN,
    KIND_WHILE,
};
use records::words::{WORD_A, WORD_B, WORD_C, WORD_D, kind, reference};
use scope::Scope;

// The statement r, a Declare, Init, Return or call statement, behind its comment.
fn convert_plain(
    tree: &[u8],
    text: &[u8],
    arena: &mut [u8],
    scratch: &mut [u8],
    k: &mut [usize],
    c: Converter,
    r: usize,
) -> Result<Scope, ConvertError>
    requires converting { Converting tree.now text.now arena.old scratch.old (at c k.old) × BehindAfforded tree.now text.now (at c k.old) r }
    requires statement { IsStatement tree.now r × (kind_of tree.now r ≤ kind_call_statement) }
    requires in_turn { InTurn tree.now text.now scratch.old (at c k.old) }
    ensures states_as { StatesAs plain_steps (at c k.old) r tree.now text.now arena.old scratch.old (stated k.new result) arena.new scratch.new }
    ensures types { StatesTyped own_types (at c k.old) r tree.now text.now scratch.old (stated k.new result) scratch.new }
{
    match kind(tree, r) {
        KIND_DECLARE => convert_declare(tree, text, arena, scratch, k, c, r),
        KIND_INIT => convert_init(tree, text, arena, scratch, k, c, r),
        KIND_RETURN => convert_return(tree, text, arena, scratch, k, c, r),
        _ => convert_call(tree, text, arena, scratch, k, c, r),
    }
}

// The Break or Continue r, behind its comment.
fn convert_jump(
    tree: &[u8],
    text: &[u8],
    arena: &mut [u8],
    scratch: &[u8],
    k: &mut [usize],
    c: Converter,
    r: usize,
) -> Result<Scope, ConvertError>
    requires converting { Converting tree.now text.now arena.old scratch.now (at c k.old) × BehindAfforded tree.now text.now (at c k.old) r }
    requires statement { IsStatement tree.now r × (kind_break ≤ kind_of tree.now r) }
    ensures { StatesAs jump_steps (at c k.old) r tree.now text.now arena.old scratch.now (stated k.new result) arena.new scratch.now }
{
    if kind(tree, r) == KIND_BREAK {
        return convert_break(tree, text, arena, scratch, k, c, r);
    }
    convert_continue(tree, text, arena, scratch, k, c, r)
}

// The statement r, with its comment first; one with blocks leaves the scope as it was. Its turn is told by how far the instructions are, so that no earlier one has the same.
#[cycle(convert_block_convert_for_loop_convert_if_convert_statement_convert_while_loop)]
fn convert_statement(
    tree: &[u8],
    text: &[u8],
    arena: &mut [u8],
    scratch: &mut [u8],
    k: &mut [usize],
    c: Converter,
    r: usize,
) -> Result<Scope, ConvertError>
    requires converting { Converting tree.now text.now arena.old scratch.old (at c k.old) × StatementAfforded tree.now text.now (at c k.old) r }
    requires statement { IsStatement tree.now r }
    requires turns { Turns tree.now scratch.old (counted k.old) }
    ensures statement_as { StatementAs statement_steps (at c k.old) r tree.now text.now arena.old scratch.old (stated k.new result) arena.new scratch.new }
    ensures visits { StatementVisited r tree.now text.now scratch.old (stated k.new result) scratch.new }
{
    emit_comment(arena, k, r as u32);
    let at = Converter {
        turn: k[COUNT_INSTRUCTIONS] as u32,
        ..c
    };
    match kind(tree, r) {
        KIND_DECLARE..=KIND_CALL_STATEMENT => convert_plain(tree, text, arena, scratch, k, at, r),
        KIND_IF => match convert_if(tree, text, arena, scratch, k, at, r) {
            Ok(()) => Ok(c.scope),
            Err(e) => Err(e),
        },
        KIND_WHILE => match convert_while_loop(tree, text, arena, scratch, k, at, r) {
            Ok(()) => Ok(c.scope),
            Err(e) => Err(e),
        },
        KIND_FOR => match convert_for_loop(tree, text, arena, scratch, k, at, r) {
            Ok(()) => Ok(c.scope),
            Err(e) => Err(e),
        },
        _ => convert_jump(tree, text, arena, scratch, k, at, r),
    }
}

// The block whose first cell this is, in a scope of its own. By a match, not by `?`: what `?` passes on is copied in pieces and read across
// them, for which the processor waits (docs/PERFORMANCE.md).
#[cycle(convert_block_convert_for_loop_convert_if_convert_statement_convert_while_loop)]
pub fn convert_block(
    tree: &[u8],
    text: &[u8],
    arena: &mut [u8],
    scratch: &mut [u8],
    k: &mut [usize],
    c: Converter,
    first: usize,
) -> Result<(), ConvertError>
    requires converting { Converting tree.now text.now arena.old scratch.old (at c k.old) × BlockAfforded tree.now text.now (at c k.old) first }
    requires body_at { BodyAt tree.now first }
    requires turns { Turns tree.now scratch.old (counted k.old) }
    ensures block_as { BlockAs block_steps (at c k.old) first tree.now text.now arena.old scratch.old (finished_with k.new result) arena.new scratch.new }
    ensures visits { BlockVisited first tree.now text.now scratch.old (finished_with k.new result) scratch.new }
{
    let mut cell = first;
    let mut at = c;
    while cell != END {
        let r = reference(tree, cell, WORD_A);
        match convert_statement(tree, text, arena, scratch, k, at, r) {
            Ok(scope) => at.scope = scope,
            Err(e) => return Err(e),
        }
        cell = next_cell(tree, cell);
    }
    Ok(())
}

// The If r.
#[cycle(convert_block_convert_for_loop_convert_if_convert_statement_convert_while_loop)]
fn convert_if(
    tree: &[u8],
    text: &[u8],
    arena: &mut [u8],
    scratch: &mut [u8],
    k: &mut [usize],
    c: Converter,
    r: usize,
) -> Result<(), ConvertError>
    requires converting { Converting tree.now text.now arena.old scratch.old (at c k.old) × BehindAfforded tree.now text.now (at c k.old) r }
    requires kind { IsKind tree.now kind_if r }
    requires fresh { Fresh tree.now scratch.old (at c k.old) }
    ensures finishes_as { FinishesAs if_steps (at c k.old) r tree.now text.now arena.old scratch.old (finished_with k.new result) arena.new scratch.new }
    ensures visits { FinishedVisited r tree.now text.now scratch.old (finished_with k.new result) scratch.new }
{
    let then = reference(tree, r, WORD_B);
    let otherwise = reference(tree, r, WORD_C);
    if_head(tree, text, arena, scratch, k, c, r)?;
    convert_block(tree, text, arena, scratch, k, c, then)?;
    if has_otherwise(tree, r) {
        if_middle(arena, k, r);
        convert_block(tree, text, arena, scratch, k, c, otherwise)?;
    }
    if_end(arena, k, r);
    Ok(())
}

// The While r.
#[cycle(convert_block_convert_for_loop_convert_if_convert_statement_convert_while_loop)]
fn convert_while_loop(
    tree: &[u8],
    text: &[u8],
    arena: &mut [u8],
    scratch: &mut [u8],
    k: &mut [usize],
    c: Converter,
    r: usize,
) -> Result<(), ConvertError>
    requires converting { Converting tree.now text.now arena.old scratch.old (at c k.old) × BehindAfforded tree.now text.now (at c k.old) r }
    requires kind { IsKind tree.now kind_while r }
    requires fresh { Fresh tree.now scratch.old (at c k.old) }
    ensures finishes_as { FinishesAs while_steps (at c k.old) r tree.now text.now arena.old scratch.old (finished_with k.new result) arena.new scratch.new }
    ensures visits { FinishedVisited r tree.now text.now scratch.old (finished_with k.new result) scratch.new }
{
    let inner = Converter {
        scope: c.scope.with_loop(r as u32),
        ..c
    };
    let body = reference(tree, r, WORD_B);
    while_head(tree, text, arena, scratch, k, c, r)?;
    convert_block(tree, text, arena, scratch, k, inner, body)?;
    loop_end(arena, k, r);
    Ok(())
}

// The For r.
#[cycle(convert_block_convert_for_loop_convert_if_convert_statement_convert_while_loop)]
fn convert_for_loop(
    tree: &[u8],
    text: &[u8],
    arena: &mut [u8],
    scratch: &mut [u8],
    k: &mut [usize],
    c: Converter,
    r: usize,
) -> Result<(), ConvertError>
    requires converting { Converting tree.now text.now arena.old scratch.old (at c k.old) × BehindAfforded tree.now text.now (at c k.old) r }
    requires kind { IsKind tree.now kind_for r }
    requires fresh { Fresh tree.now scratch.old (at c k.old) }
    ensures finishes_as { FinishesAs for_steps (at c k.old) r tree.now text.now arena.old scratch.old (finished_with k.new result) arena.new scratch.new }
    ensures visits { FinishedVisited r tree.now text.now scratch.old (finished_with k.new result) scratch.new }
{
    let body = reference(tree, r, WORD_D);
    match for_head(tree, text, arena, scratch, k, c, r) {
        Ok(scope) => {
            let inner = Converter {
                scope: scope.with_loop(r as u32),
                ..c
            };
            convert_block(tree, text, arena, scratch, k, inner, body)?;
            loop_end(arena, k, r);
            Ok(())
        }
        Err(e) => Err(e),
    }
}
