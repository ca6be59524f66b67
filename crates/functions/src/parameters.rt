// functions.rs: the parameters of a function, which stand in the scope of its body: where convert_func begins.
ghost use Rattle.std.specs.Prelude.{◌≡◌, ◌+◌, ◌<◌};
ghost use Rattle.records.specs.Words.{records, none};
ghost use Rattle.syntax.specs.Places.{FunctionAt, ParamsAt};
ghost use Rattle.keys.specs.Keys.{Keyed};
ghost use Rattle.expressions.specs.Slots.{Ready};
ghost use Rattle.functions.specs.Parameters.{parameter_in, OneMore, ParametersMeet};
ghost use Rattle.statements.specs.Turns.{TurnsStay};

use expressions::arguments::{END, next_cell};
use expressions::names::declare_name;
use ir::structs::VarId;
use keys::keys::parameters_of;
use records::convert_error::{ConvertError, ConvertErrorKind};
use records::words::{NONE, RECORD_BYTES, WORD_A, WORD_C, reference, word};
use scope::Scope;

// The scope with the parameter of one cell more, or AlreadyDeclared where its name is taken; its variable's number is how many stood before. There is room: each parameter has a record.
fn declare_parameter(
    tree: &[u8],
    text: &[u8],
    scratch: &mut [u8],
    scope: Scope,
    cell: usize,
) -> Result<Scope, ConvertError>
    requires ready { Ready tree.now text.now scratch.old scope }
    requires params_at { ParamsAt tree.now cell }
    requires fact { (cell ≡ none → ⊥) × (scope.names + cell < records tree.now) }
    ensures one_more { OneMore tree.now text.now scope (parameter_in tree.now text.now cell) scratch.old scratch.new result }
    ensures turns { TurnsStay tree.now scratch.old scratch.new }
{
    let p = reference(tree, cell, WORD_A);
    let v = VarId(scope.names as u32, word(tree, p, WORD_C));
    declare_name(tree, text, scratch, scope, p, v, false).ok_or(ConvertError {
        kind: ConvertErrorKind::AlreadyDeclared,
        place: p as u32,
    })
}

// The scope with which the body of function f begins: its parameters, numbered from 0; or AlreadyDeclared at the first whose name is taken.
pub fn declare_parameters(
    tree: &[u8],
    text: &[u8],
    scratch: &mut [u8],
    f: usize,
) -> Result<Scope, ConvertError>
    requires keyed { Keyed tree.now text.now scratch.old }
    requires function_at { FunctionAt tree.now f }
    ensures parameters_meet { ParametersMeet tree.now text.now f scratch.old scratch.new result }
    ensures turns { TurnsStay tree.now scratch.old scratch.new }
{
    let mut cell = parameters_of(tree, text, f);
    let mut scope = Scope {
        records: tree.len() / RECORD_BYTES,
        names: 0,
        inner: NONE,
        function: f as u32,
    };
    while cell != END {
        scope = declare_parameter(tree, text, scratch, scope, cell)?;
        cell = next_cell(tree, cell);
    }
    Ok(scope)
}
