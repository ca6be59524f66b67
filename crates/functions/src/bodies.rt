// functions.rs, `convert_func`: a function's parameters, its body, and its entry.
ghost use Rattle.std.specs.Prelude.{◌≡◌, ◌<◌, length};
ghost use Rattle.records.specs.Words as Words;
ghost use Rattle.records.specs.Words.{records, word_of};
ghost use Rattle.records.specs.Good.{Good};
ghost use Rattle.syntax.specs.Count.{function_records};
ghost use Rattle.syntax.specs.Places.{FunctionAt, function_of};
ghost use Rattle.conversion.specs.Types.{is_some};
ghost use Rattle.ir.specs.Amounts.{amount};
ghost use Rattle.ir.specs.Arena.{Room};
ghost use Rattle.ir.specs.Counted.{counted};
ghost use Rattle.keys.specs.Keys.{Keyed};
ghost use Rattle.statements.specs.Converting.{Converting, RoomFor, BlockAfforded};
ghost use Rattle.statements.specs.Lent.{at, finished_with};
ghost use Rattle.statements.specs.Turns.{Turns, BlockVisited};
ghost use Rattle.functions.specs.Bodies.{ParametersAdd, misses_return, FunctionsAfforded, BodyAs, ConvertsFunction, FunctionVisited};

use crate::parameters::declare_parameters;
use crate::returns::always_returns;
use expressions::arguments::{END, next_cell};
use ir::lent::{add_function, new_var};
use keys::keys::parameters_of;
use records::convert_error::{ConvertError, ConvertErrorKind};
use records::words::{NONE, WORD_A, WORD_C, WORD_D, WORD_E, detail, reference, word};
use statements::answers::Converter;
use statements::blocks::convert_block;

// A function's detail has 4 where it has a body.
fn has_body(tree: &[u8], text: &[u8], f: usize) -> bool
    requires { Good tree.now text.now × FunctionAt tree.now f }
    ensures { result ≡ is_some (function_of tree.now text.now f).body }
{
    detail(tree, f) / 4 % 2 == 1
}

// A variable for each parameter of f: the first of its function.
fn parameter_variables(tree: &[u8], text: &[u8], arena: &mut [u8], k: &mut [usize], f: usize)
    requires good { Good tree.now text.now × FunctionAt tree.now f }
    requires room_for { RoomFor (counted k.old) arena.old (amount 0 (length (function_of tree.now text.now f).params) 0 0 0) }
    ensures { ParametersAdd (function_of tree.now text.now f).params (counted k.old) arena.old (counted k.new) arena.new }
{
    let mut cell = parameters_of(tree, text, f);
    while cell != END {
        new_var(arena, k, word(tree, reference(tree, cell, WORD_A), WORD_C));
        cell = next_cell(tree, cell);
    }
}

// f has a type to return, and a path through its body that returns nothing.
fn misses_return(tree: &[u8], text: &[u8], f: usize) -> bool
    requires { Good tree.now text.now × FunctionAt tree.now f }
    ensures { result ≡ misses_return tree.now text.now f }
{
    if reference(tree, f, WORD_D) == NONE as usize {
        return false;
    }
    !always_returns(tree, text, reference(tree, f, WORD_E))
}

// The body of f, in the scope of its parameters; MissingReturn follows the body's own errors.
fn convert_body(
    tree: &[u8],
    text: &[u8],
    arena: &mut [u8],
    scratch: &mut [u8],
    k: &mut [usize],
    c: Converter,
    f: usize,
) -> Result<(), ConvertError>
    requires converting { Converting tree.now text.now arena.old scratch.old (at c k.old) × BlockAfforded tree.now text.now (at c k.old) (word_of tree.now f Words.E) }
    requires function_at { FunctionAt tree.now f × ((counted k.old).functions < (counted k.old).records) }
    requires turns { Turns tree.now scratch.old (counted k.old) }
    ensures body_as { BodyAs (at c k.old) f tree.now text.now arena.old scratch.old (finished_with k.new result) arena.new scratch.new }
    ensures visits { BlockVisited (word_of tree.now f Words.E) tree.now text.now scratch.old (finished_with k.new result) scratch.new }
{
    let body = reference(tree, f, WORD_E);
    convert_block(tree, text, arena, scratch, k, c, body)?;
    if misses_return(tree, text, f) {
        return Err(ConvertError {
            kind: ConvertErrorKind::MissingReturn,
            place: f as u32,
        });
    }
    add_function(arena, k, f as u32, true);
    Ok(())
}

// The function f; one without a body has an entry alone.
pub fn convert_func(
    tree: &[u8],
    text: &[u8],
    arena: &mut [u8],
    scratch: &mut [u8],
    k: &mut [usize],
    f: usize,
) -> Result<(), ConvertError>
    requires keyed { Keyed tree.now text.now scratch.old × FunctionAt tree.now f }
    requires room { Room (counted k.old) arena.old × ((counted k.old).records ≡ records tree.now) × FunctionsAfforded (counted k.old) (function_records (function_of tree.now text.now f)) }
    requires turns { Turns tree.now scratch.old (counted k.old) }
    ensures converts_function { ConvertsFunction tree.now text.now f (counted k.old) arena.old scratch.old (finished_with k.new result) arena.new scratch.new }
    ensures visits { FunctionVisited f tree.now text.now scratch.old (finished_with k.new result) scratch.new }
{
    if !has_body(tree, text, f) {
        add_function(arena, k, f as u32, false);
        return Ok(());
    }
    let scope = declare_parameters(tree, text, scratch, f)?;
    parameter_variables(tree, text, arena, k, f);
    let c = Converter {
        scope,
        operands: 0,
        turn: 0,
    };
    convert_body(tree, text, arena, scratch, k, c, f)
}
