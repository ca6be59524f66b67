// The operands of expressions without operands of their own: `operand` of expressions.rs, and the strings and sizes of convert_expr; and the
// stack of operands in scratch.
ghost use Rattle.std.specs.Prelude.{◌≡◌, List, ◌++◌, ℕ, ◌+◌, ◌*◌, ◌≤◌, length};
ghost use Rattle.std.specs.Int.{w64};
ghost use Rattle.std.proofs.Common.{to_z};
ghost use Rattle.laws.specs.Splice.{splice};
ghost use Rattle.records.specs.Layout.{operands};
ghost use Rattle.records.specs.Words as Words;
ghost use Rattle.records.specs.Words.{record_bytes, detail_of, kind_of};
ghost use Rattle.records.specs.Kinds.{kind_float, kind_str, kind_name, kind_size_of};
ghost use Rattle.records.specs.Good.{Good};
ghost use Rattle.syntax.specs.Decode.{bit, wide_of};
ghost use Rattle.syntax.specs.Places.{IsExpr, IsKind};
ghost use Rattle.conversion.specs.Ir.{OInt};
ghost use Rattle.conversion.specs.Written.{word};
ghost use Rattle.ir.specs.Amounts.{amount, Affords};
ghost use Rattle.ir.specs.Counted.{counted};
ghost use Rattle.ir.specs.Instructions.{operand_of};
ghost use Rattle.expressions.specs.Slots.{Ready};
ghost use Rattle.statements.specs.Stack.{operand_bytes, operand_from, stack_entry_at, operand_at};
ghost use Rattle.statements.specs.Converting.{Converting, RoomFor, expr_amount};
ghost use Rattle.statements.specs.Lent.{at, converted, fitted};
ghost use Rattle.statements.specs.Answers.{LeafAdds, LeafConverts, LeafStays, LeafAnywhere};

use crate::answers::{Converter, error_at};
use crate::numbers::{
    TAG_BOOL, TAG_FLOAT, TAG_INT, TAG_NULL, TAG_STRING, TAG_UNSIGNED, TAG_VARIABLE,
};
use expressions::names::find_name;
use ir::floats::float_entry;
use ir::lent::{float_id, string_id};
use ir::structs::{Operand, TextId, VarId};
use records::convert_error::{ConvertError, ConvertErrorKind};
use records::layout::{OPERAND_BYTES, OPERANDS};
use records::numbers::{KIND_BOOL, KIND_FLOAT, KIND_INT, KIND_NAME, KIND_NULL, KIND_STR};
use records::words::{
    FOURTH_WORD, Four, SECOND_WORD, THIRD_WORD, WORD_A, WORD_B, detail, high, kind, load, low,
    mark, put_four, reference, word,
};
use texts::original;
use types::form::two_words;
use types::size::{Bytes, size};

// An operand in four words: tag, a variable's type, the value low and high.
fn operand_words(o: Operand) -> Four
    ensures bytes { word result.0 ++ word result.1 ++ word result.2 ++ word result.3 ≡ operand_bytes (operand_of o) }
    ensures back { operand_from result.0 result.1 result.2 result.3 ≡ operand_of o }
{
    match o {
        Operand::Var(v) => Four(TAG_VARIABLE, v.1, v.0, 0),
        Operand::Int(bits, short, unsigned) => {
            let tag = TAG_INT + mark(short) + 2 * mark(unsigned);
            Four(tag, 0, low(bits), high(bits))
        }
        Operand::Float(i) => Four(TAG_FLOAT, 0, i, 0),
        Operand::Bool(b) => Four(TAG_BOOL, 0, mark(b), 0),
        Operand::DataAddress(i) => Four(TAG_STRING, 0, i, 0),
        Operand::Null => Four(TAG_NULL, 0, 0, 0),
    }
}

// The operand that four words stand for.
fn operand_of(w: Four) -> Operand
    ensures { operand_of result ≡ operand_from w.0 w.1 w.2 w.3 }
{
    let tag = w.0;
    if tag == TAG_VARIABLE {
        return Operand::Var(VarId(w.2, w.1));
    }
    if tag < TAG_INT {
        return Operand::Null;
    }
    if tag < TAG_FLOAT {
        let bits = w.2 as u64 + w.3 as u64 * 4294967296;
        return Operand::Int(bits, tag % 2 == 1, tag >= TAG_UNSIGNED);
    }
    if tag == TAG_FLOAT {
        return Operand::Float(w.2);
    }
    if tag == TAG_BOOL {
        return Operand::Bool(w.2 == 1);
    }
    if tag == TAG_STRING {
        return Operand::DataAddress(w.2);
    }
    Operand::Null
}

// Writes the operand at place j of the stack, for a tree of so many records.
pub(crate) fn push_operand(scratch: &mut [u8], records: usize, j: usize, o: Operand)
    requires { stack_entry_at records j + operands.each ≤ length scratch.old }
    ensures written { scratch.new ≡ splice scratch.old (stack_entry_at records j) (operand_bytes (operand_of o)) }
    ensures back { operand_at scratch.new records j ≡ operand_of o }
{
    let w = operand_words(o);
    put_four(scratch, OPERANDS * records + OPERAND_BYTES * j, w);
}

// The operand at place j of the stack.
pub(crate) fn operand_at(scratch: &[u8], records: usize, j: usize) -> Operand
    requires { stack_entry_at records j + operands.each ≤ length scratch.now }
    ensures { operand_of result ≡ operand_at scratch.now records j }
{
    let at = OPERANDS * records + OPERAND_BYTES * j;
    let a = load(scratch, at);
    let b = load(scratch, at + SECOND_WORD);
    let c = load(scratch, at + THIRD_WORD);
    let d = load(scratch, at + FOURTH_WORD);
    operand_of(Four(a, b, c, d))
}

// Detail 1 is short, 2 unsigned.
fn int_operand(tree: &[u8], e: usize) -> Operand
    requires { e * record_bytes + record_bytes ≤ length tree.now }
    ensures { (text : List ℕ) → operand_of result ≡ OInt (to_z w64 (wide_of tree.now text e Words.A)) (bit 1 (detail_of tree.now e)) (bit 2 (detail_of tree.now e)) }
{
    let marks = detail(tree, e);
    let bits = two_words(tree, e, WORD_A);
    Operand::Int(bits, marks % 2 == 1, marks / 2 % 2 == 1)
}

fn float_operand(tree: &[u8], text: &[u8], arena: &mut [u8], k: &mut [usize], e: usize) -> Operand
    requires { RoomFor (counted k.old) arena.old (amount 0 0 0 0 1) × Good tree.now text.now × IsKind tree.now kind_float e }
    ensures { LeafAdds tree.now text.now e (amount 0 0 0 0 1) (counted k.old) arena.old (fitted k.new result) arena.new }
{
    let f = float_entry(two_words(tree, e, WORD_A), detail(tree, e) == 1);
    Operand::Float(float_id(arena, k, f))
}

// The string goes by the number of its text, which stands in the scratch.
fn string_operand(
    tree: &[u8],
    text: &[u8],
    arena: &mut [u8],
    scratch: &[u8],
    k: &mut [usize],
    c: Converter,
    e: usize,
) -> Operand
    requires converting { Converting tree.now text.now arena.old scratch.now (at c k.old) }
    requires affords { Affords (counted k.old) (amount 0 0 0 1 0) × IsKind tree.now kind_str e }
    ensures { LeafAdds tree.now text.now e (amount 0 0 0 1 0) (counted k.old) arena.old (fitted k.new result) arena.new }
{
    let id = TextId {
        number: original(scratch, c.scope.records, e),
        offset: word(tree, e, WORD_A),
        len: word(tree, e, WORD_B),
    };
    Operand::DataAddress(string_id(arena, k, id))
}

// The variable of the Name e.
fn name_operand(
    tree: &[u8],
    text: &[u8],
    scratch: &[u8],
    c: Converter,
    e: usize,
) -> Result<Operand, ConvertError>
    requires { Ready tree.now text.now scratch.now c.scope × IsKind tree.now kind_name e }
    ensures { LeafStays c e tree.now text.now scratch.now result }
{
    // By a match, not by `?`: what `?` passes on is copied in pieces and read across them, for which the processor waits (docs/PERFORMANCE.md).
    match find_name(tree, text, scratch, c.scope, e) {
        Some(known) => Ok(Operand::Var(known.var)),
        None => Err(error_at(ConvertErrorKind::UnknownVariable, e)),
    }
}

// The operand is tagged signed, though a SizeOf's type is unsigned.
fn size_operand(tree: &[u8], text: &[u8], e: usize) -> Result<Operand, ConvertError>
    requires { Good tree.now text.now × IsKind tree.now kind_size_of e }
    ensures { LeafAnywhere e tree.now text.now result }
{
    match size(tree, reference(tree, e, WORD_A)) {
        Bytes::Exactly(n) => Ok(Operand::Int(n, false, false)),
        Bytes::Over | Bytes::Nothing => Err(error_at(ConvertErrorKind::WouldPanic, e)),
    }
}

// The operand of an expression without operands: kinds 2 to 8.
pub(crate) fn operand(
    tree: &[u8],
    text: &[u8],
    arena: &mut [u8],
    scratch: &[u8],
    k: &mut [usize],
    c: Converter,
    e: usize,
) -> Result<Operand, ConvertError>
    requires converting { Converting tree.now text.now arena.old scratch.now (at c k.old) }
    requires affords { Affords (counted k.old) (expr_amount 0) }
    requires expr { IsExpr tree.now e × (kind_of tree.now e ≤ kind_size_of) }
    ensures { LeafConverts (expr_amount 0) (at c k.old) e tree.now text.now arena.old scratch.now (converted k.new result) arena.new }
{
    match kind(tree, e) {
        KIND_INT => Ok(int_operand(tree, e)),
        KIND_FLOAT => Ok(float_operand(tree, text, arena, k, e)),
        KIND_STR => Ok(string_operand(tree, text, arena, scratch, k, c, e)),
        KIND_BOOL => Ok(Operand::Bool(detail(tree, e) == 1)),
        KIND_NAME => name_operand(tree, text, scratch, c, e),
        KIND_NULL => Ok(Operand::Null),
        _ => size_operand(tree, text, e),
    }
}
