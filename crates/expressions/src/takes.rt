// expressions.rs: whether a function takes the arguments of a call.
ghost use Rattle.std.specs.Prelude.{◌≡◌, ◌<◌};
ghost use Rattle.records.specs.Good.{Good};
ghost use Rattle.records.specs.Words.{none};
ghost use Rattle.conversion.specs.Expressions.{takes_count};
ghost use Rattle.syntax.specs.Places.{FunctionAt, ParamsAt, function_of};
ghost use Rattle.expressions.specs.Calls.{Argued, Called, TakesAt, takes_args_at, takes_call};

use crate::arguments::{Argument, Call, END, argument_at, count_parameters, next_cell, slot};
use keys::keys::{is_variadic, parameters_of};
use records::words::{WORD_A, WORD_C, reference};
use types::fits::fits;

// As many as its parameters, or more when variadic.
fn takes_count(tree: &[u8], text: &[u8], f: usize, count: usize) -> bool
    requires good { Good tree.now text.now }
    requires function_at { FunctionAt tree.now f }
    ensures { result ≡ takes_count (function_of tree.now text.now f) count }
{
    let own = count_parameters(tree, text, parameters_of(tree, text, f));
    if own == count {
        return true;
    }
    if is_variadic(tree, text, f) {
        return own < count;
    }
    false
}

// Whether the argument in one cell goes into the parameter in another.
fn takes_arg(tree: &[u8], text: &[u8], scratch: &[u8], parameter: usize, cell: usize) -> bool
    requires argued { Argued tree.now text.now scratch.now cell }
    requires params_at { ParamsAt tree.now parameter }
    requires fact { (cell ≡ none → ⊥) × (parameter ≡ none → ⊥) }
    ensures { TakesAt tree.now text.now scratch.now parameter cell result }
{
    let ty = reference(tree, reference(tree, parameter, WORD_A), WORD_C);
    match argument_at(tree, text, cell) {
        Argument::Expr(e) => fits(tree, e, slot(tree, scratch, e), ty),
        Argument::ToType(y) => y == ty,
    }
}

// Arguments behind the parameters of a variadic are not looked at.
fn takes_args(tree: &[u8], text: &[u8], scratch: &[u8], parameters: usize, first: usize) -> bool
    requires argued { Argued tree.now text.now scratch.now first }
    requires params_at { ParamsAt tree.now parameters }
    ensures { result ≡ takes_args_at tree.now text.now scratch.now parameters first }
{
    let mut parameter = parameters;
    let mut cell = first;
    while parameter != END {
        if cell == END {
            return true;
        }
        if !takes_arg(tree, text, scratch, parameter, cell) {
            return false;
        }
        parameter = next_cell(tree, parameter);
        cell = next_cell(tree, cell);
    }
    true
}

// The Rust's takes_count and takes_args, which are always tested together.
pub(crate) fn takes_call(tree: &[u8], text: &[u8], scratch: &[u8], f: usize, call: Call) -> bool
    requires called { Called tree.now text.now scratch.now call }
    requires function_at { FunctionAt tree.now f }
    ensures { result ≡ takes_call tree.now text.now scratch.now call (function_of tree.now text.now f) }
{
    let count = call.count;
    let first = call.first;
    if !takes_count(tree, text, f, count) {
        return false;
    }
    takes_args(tree, text, scratch, parameters_of(tree, text, f), first)
}
