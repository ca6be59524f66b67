// expressions.rs: what a call runs, once its arguments' types stand in scratch.
ghost use Rattle.std.specs.Prelude.{◌≡◌, ◌⊎◌, ℕ, ◌*◌, ◌≤◌, List, length, Ok};
ghost use Rattle.records.specs.Layout.{scratch_each};
ghost use Rattle.records.specs.Words as Words;
ghost use Rattle.records.specs.Words.{record_bytes, records, word_of};
ghost use Rattle.records.specs.Kinds.{kind_call};
ghost use Rattle.records.specs.Good.{Good};
ghost use Rattle.syntax.specs.Places.{IsKind, TypeAt, FunctionAt, args_at};
ghost use Rattle.conversion.specs.ConvertError.{ok};
ghost use Rattle.texts.specs.Texts.{Numbered};
ghost use Rattle.keys.specs.Keys.{Keyed};
ghost use Rattle.expressions.specs.Slots.{ArgsTyped, callee_at};
ghost use Rattle.expressions.specs.Calls.{Called, CallAt, literal_fits, cast_type_of, function_for, resolved_at};
ghost use Rattle.expressions.specs.Answers.{callee_record, CandidatesAre, CastIs, CalleeIs};

use crate::answers::{Callee, Candidates, refuse};
use crate::arguments::{Call, count_arguments, source_type, target_type};
use crate::exact::find_exact_function;
use crate::takes::takes_call;
use crate::turns::NOTHING;
use keys::keys::{name_before, name_head};
use keys::parts::{Part, is_cast_verb, text_part};
use records::convert_error::{ConvertError, ConvertErrorKind};
use records::numbers::KIND_FUNCTION;
use records::words::{RECORD_BYTES, WORD_A, WORD_C, kind, reference};
use texts::original;
use types::casts::can_cast;

// The mangled functions of the verb's name whose parameters take the arguments: the chain of the name's number has no others.
fn find_functions_by_literals(tree: &[u8], text: &[u8], scratch: &[u8], call: Call) -> Candidates
    requires keyed { Keyed tree.now text.now scratch.now }
    requires called { Called tree.now text.now scratch.now call }
    ensures { CandidatesAre tree.now text.now result (literal_fits tree.now text.now scratch.now call) }
{
    let n = tree.len() / RECORD_BYTES;
    let mut found = Candidates::Nobody;
    let mut at = name_head(scratch, n, call.verb);
    while at > 0 {
        let f = at - 1;
        if takes_call(tree, text, scratch, f, call) {
            if let Candidates::One(_) = found {
                return Candidates::Several;
            }
            found = Candidates::One(f);
        }
        at = name_before(scratch, n, f);
    }
    found
}

// The type that the call of record r casts to, where its verb is the cast's and it has a type argument.
fn cast_type(
    tree: &[u8],
    text: &[u8],
    scratch: &[u8],
    call: Call,
    r: u32,
) -> Result<Option<usize>, ConvertError>
    requires { Called tree.now text.now scratch.now call }
    ensures { CastIs tree.now result (cast_type_of tree.now text.now scratch.now call r) }
{
    let first = call.first;
    if !is_cast_verb(
        text,
        Part {
            offset: call.offset,
            len: call.len,
        },
    ) {
        return Ok(None);
    }
    let Some(to) = target_type(tree, text, first) else {
        return Ok(None);
    };
    let Some(from) = source_type(tree, text, scratch, first) else {
        return Ok(Some(to));
    };
    if can_cast(tree, from, to) {
        return Ok(Some(to));
    }
    Err(ConvertError {
        kind: ConvertErrorKind::InvalidCast,
        place: r,
    })
}

// Where the call is no cast.
fn resolve_function(
    tree: &[u8],
    text: &[u8],
    scratch: &[u8],
    call: Call,
    r: u32,
) -> Result<Callee, ConvertError>
    requires keyed { Keyed tree.now text.now scratch.now }
    requires called { Called tree.now text.now scratch.now call }
    ensures { CalleeIs tree.now text.now result (function_for tree.now text.now scratch.now call r) }
{
    if let Some(f) = find_exact_function(tree, text, scratch, call) {
        return Ok(Callee::Function(f));
    }
    match find_functions_by_literals(tree, text, scratch, call) {
        Candidates::One(f) => Ok(Callee::Function(f)),
        Candidates::Nobody => refuse(ConvertErrorKind::UnknownFunction, r as usize),
        Candidates::Several => refuse(ConvertErrorKind::AmbiguousCall, r as usize),
    }
}

// The call of record r, for its typed arguments.
fn call_of(tree: &[u8], text: &[u8], scratch: &[u8], r: usize) -> Call
    requires good { Good tree.now text.now × Numbered tree.now text.now scratch.now × (scratch_each * records tree.now ≤ length scratch.now) }
    requires kind { IsKind tree.now kind_call r }
    ensures { CallAt tree.now text.now r result }
{
    let number = original(scratch, tree.len() / RECORD_BYTES, r);
    let verb = text_part(tree, r, WORD_A);
    let first = reference(tree, r, WORD_C);
    let count = count_arguments(tree, text, first);
    Call {
        verb: number,
        offset: verb.offset,
        len: verb.len,
        first,
        count,
    }
}

// resolve_call from the typed arguments on.
pub(crate) fn resolve_typed(
    tree: &[u8],
    text: &[u8],
    scratch: &[u8],
    r: usize,
) -> Result<Callee, ConvertError>
    requires keyed { Keyed tree.now text.now scratch.now }
    requires kind { IsKind tree.now kind_call r }
    requires args_typed { ArgsTyped tree.now scratch.now (args_at tree.now text.now (word_of tree.now r Words.C)) }
    ensures { CalleeIs tree.now text.now result (resolved_at tree.now text.now scratch.now r) }
{
    let call = call_of(tree, text, scratch, r);
    let place = r as u32;
    // By a match, not by `?`: what `?` passes on is copied in pieces and read across them, for which the processor waits (docs/PERFORMANCE.md).
    match cast_type(tree, text, scratch, call, place) {
        Err(e) => Err(e),
        Ok(Some(y)) => Ok(Callee::Cast(y)),
        Ok(None) => resolve_function(tree, text, scratch, call, place),
    }
}

// The record of what a call runs: the function's, or that of the type it casts to.
pub(crate) fn callee_record(callee: Result<Callee, ConvertError>) -> usize
    ensures { result ≡ callee_record callee }
{
    let Ok(callee) = callee else {
        return NOTHING;
    };
    match callee {
        Callee::Function(f) => f,
        Callee::Cast(y) => y,
    }
}

// What a call runs, by that record.
pub(crate) fn callee_at(tree: &[u8], b: usize) -> Callee
    requires function_at { FunctionAt tree.now b ⊎ TypeAt tree.now b }
    requires tree_len { length tree.now ≡ records tree.now * record_bytes }
    ensures { (text : List ℕ) → CalleeIs tree.now text (Ok result) (ok (callee_at tree.now text b)) }
{
    if kind(tree, b) == KIND_FUNCTION {
        return Callee::Function(b);
    }
    Callee::Cast(b)
}
