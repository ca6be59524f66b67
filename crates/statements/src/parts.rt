// statements.rs: what stands before, between and behind the parts of an expression.
ghost use Rattle.std.specs.Prelude.{◌≡◌, List, ℕ, ◌+◌, ◌*◌, ◌≤◌, ◌<◌, length, get_or};
ghost use Rattle.records.specs.Words.{record_bytes};
ghost use Rattle.records.specs.Kinds.{kind_binary, kind_call};
ghost use Rattle.syntax.specs.Syntax.{unary_ops, binary_ops, Neg, Or};
ghost use Rattle.syntax.specs.Places.{IsKind, TypeAt, FunctionAt};
ghost use Rattle.ir.specs.Amounts.{amount};
ghost use Rattle.ir.specs.Counted.{counted};
ghost use Rattle.ir.specs.Instructions.{operand_of, var_of};
ghost use Rattle.expressions.specs.Slots.{Ready};
ghost use Rattle.expressions.specs.Answers.{IsCallee};
ghost use Rattle.statements.specs.Converting.{Converting, RoomFor, OperandIn, StackIn, Afforded};
ghost use Rattle.statements.specs.Lent.{at, converted, fitted};
ghost use Rattle.statements.specs.Meets.{Adds};
ghost use Rattle.statements.specs.Parts.{finish_unary, begin_logic, join_and, join_or, end_logic};
ghost use Rattle.statements.specs.Answers.{FitAdds, BinaryFinishes, join_steps, OperandTyped, CastsAs, CallsAs, CallEndsAs};
ghost use Rattle.statements.specs.Turns.{InTurn, TurnsStay, CommonTyped};

use crate::answers::{Converter, error_at};
use crate::fits::{fit_operand, pass_args};
use crate::jumps::{jump, jump_if_not, label, place_label};
use crate::numbers::LabelKind;
use crate::operands::operand_at;
use expressions::answers::Callee;
use expressions::expressions::common_type;
use ir::lent::new_var;
use ir::structs::{Operand, VarId, emit_binary, emit_call, emit_cast, emit_copy, emit_unary};
use records::convert_error::{ConvertError, ConvertErrorKind};
use records::numbers::AND;
use records::words::{RECORD_BYTES, detail};

pub(crate) fn finish_unary(
    arena: &mut [u8],
    k: &mut [usize],
    op: u8,
    src: Operand,
    y: usize,
) -> Operand
    requires { RoomFor (counted k.old) arena.old (amount 1 1 0 0 0) × (y < 4294967296) }
    ensures { (t : List ℕ) → TypeAt t y → FitAdds t (finish_unary (get_or unary_ops op Neg) y (operand_of src)) (amount 1 1 0 0 0) (counted k.old) arena.old (fitted k.new result) arena.new }
{
    let dest = new_var(arena, k, y as u32);
    emit_unary(arena, k, dest, op, src);
    Operand::Var(dest)
}

// The variable of the And or Or e, of type y. Both labels are numbered now: one inside a side takes later numbers.
pub(crate) fn begin_logic(arena: &mut [u8], k: &mut [usize], e: usize, y: usize) -> VarId
    requires { RoomFor (counted k.old) arena.old (amount 0 1 2 0 0) × (e < (counted k.old).records) × (y < 4294967296) }
    ensures adds { Adds (begin_logic e y) (amount 0 1 2 0 0) (counted k.old) arena.old (var_of (result)) (counted k.new) arena.new }
    ensures typed { result.1 ≡ y }
{
    let dest = new_var(arena, k, y as u32);
    label(arena, k, LabelKind::LogicRhs, e);
    label(arena, k, LabelKind::LogicEnd, e);
    dest
}

// Between the sides of And: the right one is skipped where the left one decides.
pub(crate) fn join_and(arena: &mut [u8], k: &mut [usize], e: usize, dest: VarId, left: Operand)
    requires { RoomFor (counted k.old) arena.old (amount 2 0 1 0 0) × (e < (counted k.old).records) }
    ensures { Adds (join_and e (var_of dest) (operand_of left)) (amount 2 0 1 0 0) (counted k.old) arena.old tt (counted k.new) arena.new }
{
    emit_copy(arena, k, dest, left);
    jump_if_not(arena, k, Operand::Var(dest), LabelKind::LogicEnd, e);
}

// Between the sides of Or.
pub(crate) fn join_or(arena: &mut [u8], k: &mut [usize], e: usize, dest: VarId, left: Operand)
    requires { RoomFor (counted k.old) arena.old (amount 4 0 3 0 0) × (e < (counted k.old).records) }
    ensures { Adds (join_or e (var_of dest) (operand_of left)) (amount 4 0 3 0 0) (counted k.old) arena.old tt (counted k.new) arena.new }
{
    emit_copy(arena, k, dest, left);
    jump_if_not(arena, k, Operand::Var(dest), LabelKind::LogicRhs, e);
    jump(arena, k, LabelKind::LogicEnd, e);
    place_label(arena, k, LabelKind::LogicRhs, e);
}

// What stands between the sides of the And or Or e: the left one is copied, and tested. Inlined, so that the operands are not written to memory first.
#[inline(always)]
pub(crate) fn join_logic(
    tree: &[u8],
    arena: &mut [u8],
    k: &mut [usize],
    e: usize,
    dest: VarId,
    left: Operand,
)
    requires { RoomFor (counted k.old) arena.old (amount 4 0 3 0 0) × (e < (counted k.old).records) × (e * record_bytes + record_bytes ≤ length tree.now) }
    ensures { Adds (join_steps tree.now e dest left) (amount 4 0 3 0 0) (counted k.old) arena.old tt (counted k.new) arena.new }
{
    if detail(tree, e) == AND {
        return join_and(arena, k, e, dest, left);
    }
    join_or(arena, k, e, dest, left);
}

// Behind the sides of the And or Or e. Inlined, as join_logic is.
#[inline(always)]
pub(crate) fn end_logic(
    arena: &mut [u8],
    k: &mut [usize],
    e: usize,
    dest: VarId,
    right: Operand,
) -> Operand
    requires { RoomFor (counted k.old) arena.old (amount 2 0 1 0 0) × (e < (counted k.old).records) }
    ensures { (tree : List ℕ) → TypeAt tree dest.1 → FitAdds tree (end_logic e (var_of dest) (operand_of right)) (amount 2 0 1 0 0) (counted k.old) arena.old (fitted k.new result) arena.new }
{
    emit_copy(arena, k, dest, right);
    place_label(arena, k, LabelKind::LogicEnd, e);
    Operand::Var(dest)
}

// The type that both sides of the Binary e are fitted to; where they have none in common, its own type y.
pub(crate) fn operand_type(
    tree: &[u8],
    text: &[u8],
    scratch: &mut [u8],
    c: Converter,
    e: usize,
    y: usize,
) -> Result<usize, ConvertError>
    requires ready { Ready tree.now text.now scratch.old c.scope }
    requires kind { IsKind tree.now kind_binary e × TypeAt tree.now y }
    requires by_index { (k : List ℕ) → InTurn tree.now text.now scratch.old (at c k) }
    ensures by_index_2 { (k : List ℕ) → OperandTyped tree.now text.now scratch.old (at c k) e y result scratch.new }
    ensures types { (k : List ℕ) → CommonTyped (at c k) e tree.now text.now scratch.old result scratch.new }
{
    // By a match, not by `?`: what `?` passes on is copied in pieces and read across them, for which the processor waits (docs/PERFORMANCE.md).
    match common_type(tree, text, scratch, c.scope, c.turn, e) {
        Err(x) => Err(x),
        Ok(Some(q)) => Ok(q),
        Ok(None) => Ok(y),
    }
}

// Any Binary but And and Or, behind its sides: both are fitted to q, then the operator goes into a new variable of type y. Inlined,
// as join_logic is.
#[inline(always)]
pub(crate) fn finish_binary(
    tree: &[u8],
    arena: &mut [u8],
    k: &mut [usize],
    op: u8,
    left: Operand,
    right: Operand,
    y: usize,
    q: usize,
) -> Operand
    requires room_for { RoomFor (counted k.old) arena.old (amount 3 3 0 0 2) × (y < 4294967296) × (q < 4294967296) }
    requires type_at { TypeAt tree.now y × TypeAt tree.now q }
    requires operand_in { OperandIn tree.now (operand_of left) × OperandIn tree.now (operand_of right) }
    ensures { BinaryFinishes tree.now (get_or binary_ops op Or) y q left right (counted k.old) arena.old (fitted k.new result) arena.new }
{
    let a = fit_operand(tree, arena, k, left, q);
    let b = fit_operand(tree, arena, k, right, q);
    let dest = new_var(arena, k, y as u32);
    emit_binary(arena, k, dest, op, a, b);
    Operand::Var(dest)
}

// A cast takes the first of its values; without one the Rust would panic, at the call e.
pub(crate) fn cast_first(
    tree: &[u8],
    text: &[u8],
    arena: &mut [u8],
    scratch: &[u8],
    k: &mut [usize],
    c: Converter,
    e: usize,
    dest: VarId,
    count: usize,
) -> Result<Operand, ConvertError>
    requires converting { Converting tree.now text.now arena.old scratch.now (at c k.old) × Afforded tree.now (at c k.old) (amount 1 0 0 0 0) count 0 }
    requires e_bound { (e < 4294967296) × TypeAt tree.now dest.1 }
    ensures { CastsAs e dest count (at c k.old) tree.now text.now arena.old scratch.now (converted k.new result) arena.new }
{
    if count == 0 {
        return Err(error_at(ConvertErrorKind::WouldPanic, e));
    }
    let n = tree.len() / RECORD_BYTES;
    let first = operand_at(scratch, n, c.operands);
    emit_cast(arena, k, dest, first);
    Ok(Operand::Var(dest))
}

// The call e of f, whose result goes to dest.
pub(crate) fn call_function(
    tree: &[u8],
    text: &[u8],
    arena: &mut [u8],
    scratch: &mut [u8],
    k: &mut [usize],
    c: Converter,
    e: usize,
    f: usize,
    dest: VarId,
    count: usize,
) -> Result<Operand, ConvertError>
    requires converting { Converting tree.now text.now arena.old scratch.old (at c k.old) × Afforded tree.now (at c k.old) (amount (2 * count + 1) count 0 0 count) count 0 }
    requires function_at { FunctionAt tree.now f × IsKind tree.now kind_call e × TypeAt tree.now dest.1 × StackIn tree.now scratch.old c.operands count }
    ensures calls_as { CallsAs e f dest count (at c k.old) tree.now text.now arena.old scratch.old (converted k.new result) arena.new scratch.new }
    ensures turns { TurnsStay tree.now scratch.old scratch.new }
{
    pass_args(tree, text, arena, scratch, k, c, e, f, count);
    emit_call(arena, k, dest, f as u32);
    Ok(Operand::Var(dest))
}

// The call e, of type y, behind its values, of which `count` wait on the stack.
pub(crate) fn finish_call(
    tree: &[u8],
    text: &[u8],
    arena: &mut [u8],
    scratch: &mut [u8],
    k: &mut [usize],
    c: Converter,
    e: usize,
    y: usize,
    callee: Callee,
    count: usize,
) -> Result<Operand, ConvertError>
    requires converting { Converting tree.now text.now arena.old scratch.old (at c k.old) × Afforded tree.now (at c k.old) (amount (2 * count + 1) (count + 1) 0 0 count) count 0 }
    requires kind { IsKind tree.now kind_call e × TypeAt tree.now y × IsCallee tree.now (Ok callee) × StackIn tree.now scratch.old c.operands count }
    ensures call_ends_as { CallEndsAs e y (Ok callee) count (at c k.old) tree.now text.now arena.old scratch.old (converted k.new result) arena.new scratch.new }
    ensures turns { TurnsStay tree.now scratch.old scratch.new }
{
    let dest = new_var(arena, k, y as u32);
    match callee {
        Callee::Cast(_) => cast_first(tree, text, arena, scratch, k, c, e, dest, count),
        Callee::Function(f) => {
            call_function(tree, text, arena, scratch, k, c, e, f, dest, count)
        }
    }
}
