// The arguments of a call: a list of cells. The type of an argument that is an expression stands in scratch, at the expression's slot.
ghost use Rattle.std.specs.Prelude.{◌≡◌, ◌⊎◌, List, ℕ, ◌+◌, ◌*◌, ◌≤◌, ◌<◌, length};
ghost use Rattle.records.specs.Layout.{scratch_each};
ghost use Rattle.records.specs.Words as Words;
ghost use Rattle.records.specs.Words.{records, word_of, none};
ghost use Rattle.records.specs.Good.{Good};
ghost use Rattle.syntax.specs.Decode.{key_at};
ghost use Rattle.conversion.specs.Expressions.{target_type, source_type};
ghost use Rattle.syntax.specs.Places.{TypeAt, ArgsAt, ParamsAt, params_at};
ghost use Rattle.keys.specs.Parts.{PartIs};
ghost use Rattle.expressions.specs.Calls.{typed_at, Argued};
ghost use Rattle.expressions.specs.Slots.{slot_at, FirstType};
ghost use Rattle.expressions.specs.Answers.{ArgumentIs, found_number, TypeFound};

use crate::turns::entry;
use keys::parts::{Part, text_part};
use records::layout::{TYPE_SLOT_BYTES, TYPE_SLOTS};
use records::numbers::KIND_VALUE;
use records::words::{NONE, WORD_A, WORD_B, WORD_D, kind, reference};

// No further cell.
pub const END: usize = NONE as usize;

// An expression, or a type.
#[derive(Clone, Copy)]
pub enum Argument {
    Expr(usize),
    ToType(usize),
}

// A call: its verb's number and where the verb stands, its first cell (or END), and how many arguments it has.
#[derive(Clone, Copy)]
pub struct Call {
    pub verb: usize,
    pub offset: usize,
    pub len: usize,
    pub first: usize,
    pub count: usize,
}

// The argument in a cell.
pub fn argument_at(tree: &[u8], text: &[u8], cell: usize) -> Argument
    requires good { Good tree.now text.now }
    requires args_at { ArgsAt tree.now cell }
    requires fact { cell ≡ none → ⊥ }
    ensures { ArgumentIs tree.now text.now cell result }
{
    let item = reference(tree, cell, WORD_A);
    let inner = reference(tree, item, WORD_A);
    if kind(tree, item) == KIND_VALUE {
        return Argument::Expr(inner);
    }
    Argument::ToType(inner)
}

// The cell behind a cell, or END.
pub fn next_cell(tree: &[u8], cell: usize) -> usize
    requires { cell < records tree.now }
    ensures { result ≡ word_of tree.now cell Words.B }
{
    reference(tree, cell, WORD_B)
}

// The type at an expression's slot.
pub(crate) fn slot(tree: &[u8], scratch: &[u8], e: usize) -> usize
    requires { (e < records tree.now) × (scratch_each * records tree.now ≤ length scratch.now) }
    ensures { result ≡ slot_at tree.now scratch.now e }
{
    entry(tree, scratch, TYPE_SLOTS, TYPE_SLOT_BYTES, e) as usize
}

// The type of the argument in a cell.
pub(crate) fn argument_type(tree: &[u8], text: &[u8], scratch: &[u8], cell: usize) -> usize
    requires argued { Argued tree.now text.now scratch.now cell }
    requires fact { cell ≡ none → ⊥ }
    ensures { FirstType (typed_at tree.now text.now scratch.now cell) result × TypeAt tree.now result }
{
    match argument_at(tree, text, cell) {
        Argument::Expr(e) => slot(tree, scratch, e),
        Argument::ToType(y) => y,
    }
}

// The key text of a type.
pub(crate) fn type_key(tree: &[u8], text: &[u8], y: usize) -> Part
    requires good { Good tree.now text.now }
    requires type_at { TypeAt tree.now y }
    ensures { PartIs text.now result (key_at tree.now text.now y) }
{
    text_part(tree, y, WORD_D)
}

// How many cells a list has, of arguments or of parameters.
fn count_cells(tree: &[u8], text: &[u8], first: usize) -> usize
    requires good { Good tree.now text.now }
    requires list { ArgsAt tree.now first ⊎ ParamsAt tree.now first }
    ensures arguments { ArgsAt tree.now first → (s : List ℕ) → result ≡ length (typed_at tree.now text.now s first) }
    ensures parameters { ParamsAt tree.now first → result ≡ length (params_at tree.now text.now first) }
{
    let mut n = 0;
    let mut cell = first;
    while cell != END {
        n += 1;
        cell = next_cell(tree, cell);
    }
    n
}

pub(crate) fn count_arguments(tree: &[u8], text: &[u8], first: usize) -> usize
    requires good { Good tree.now text.now }
    requires args_at { ArgsAt tree.now first }
    ensures { (s : List ℕ) → result ≡ length (typed_at tree.now text.now s first) }
{
    count_cells(tree, text, first)
}

pub(crate) fn count_parameters(tree: &[u8], text: &[u8], first: usize) -> usize
    requires good { Good tree.now text.now }
    requires params_at { ParamsAt tree.now first }
    ensures { result ≡ length (params_at tree.now text.now first) }
{
    count_cells(tree, text, first)
}

// The first type among the arguments.
pub(crate) fn target_type(tree: &[u8], text: &[u8], first: usize) -> Option<usize>
    requires good { Good tree.now text.now }
    requires args_at { ArgsAt tree.now first }
    ensures { ((s : List ℕ) → found_number result ≡ target_type (typed_at tree.now text.now s first)) × TypeFound tree.now result }
{
    let mut cell = first;
    while cell != END {
        if let Argument::ToType(y) = argument_at(tree, text, cell) {
            return Some(y);
        }
        cell = next_cell(tree, cell);
    }
    None
}

// The type of the first expression among the arguments.
pub(crate) fn source_type(tree: &[u8], text: &[u8], scratch: &[u8], first: usize) -> Option<usize>
    requires { Argued tree.now text.now scratch.now first }
    ensures { (found_number result ≡ source_type (typed_at tree.now text.now scratch.now first)) × TypeFound tree.now result }
{
    let mut cell = first;
    while cell != END {
        if let Argument::Expr(e) = argument_at(tree, text, cell) {
            return Some(slot(tree, scratch, e));
        }
        cell = next_cell(tree, cell);
    }
    None
}
