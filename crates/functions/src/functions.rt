// functions.rs: all functions by their keys, and `main`. The Rust's map is a slot in scratch for the number of each key; the functions' records
// are listed besides.
ghost use Rattle.std.specs.Prelude.{◌≡◌, ◌+◌, ◌*◌, ◌≤◌, ◌<◌, length};
ghost use Rattle.records.specs.Layout.{scratch_each};
ghost use Rattle.records.specs.Words.{most_records, records};
ghost use Rattle.records.specs.Good.{Good};
ghost use Rattle.syntax.specs.Decode.{program, type_at};
ghost use Rattle.conversion.specs.Functions.{find_main, returns_int, check_main};
ghost use Rattle.syntax.specs.Places.{FunctionAt, function_of};
ghost use Rattle.texts.specs.Texts.{Numbered};
ghost use Rattle.keys.specs.Keys.{Listed, function_places, keys_below, KeySlots, FunctionIs};
ghost use Rattle.functions.specs.Functions.{listed_in, TurnMeets, AllMeet};
ghost use Rattle.expressions.specs.Answers.{outcome_of};

use keys::keys::{clear_keys, enter_key, find_own_key, function_at, is_mangled, name_of};
use keys::parts::{is_ascii, is_main};
use records::convert_error::{ConvertError, ConvertErrorKind};
use records::layout::LISTED_BYTES;
use records::numbers::{FORM_INT, KIND_FUNCTION};
use records::words::{NONE, RECORD_BYTES, WORD_D, kind, put_word, reference};
use types::form::form;

fn refuse_function(kind: ConvertErrorKind, place: u32) -> Result<(), ConvertError>
    ensures { result ≡ Err (record { kind = kind; place = place }) }
{
    Err(ConvertError { kind, place })
}

// Lists the functions' records in scratch, and says how many there are.
fn list_functions(tree: &[u8], scratch: &mut [u8]) -> usize
    requires tree_bound { records tree.now ≤ most_records }
    requires tree_in_bounds { scratch_each * records tree.now ≤ length scratch.old }
    ensures { (scratch.new ≡ listed_in tree.now scratch.old) × (result ≡ length (function_places tree.now)) }
{
    let mut count = 0;
    for r in 0..tree.len() / RECORD_BYTES {
        if kind(tree, r) == KIND_FUNCTION {
            put_word(scratch, LISTED_BYTES * count, r as u32);
            count += 1;
        }
    }
    count
}

// One turn of get_all_functions: the j-th function against those before it, which are entered by their keys.
fn check_function(tree: &[u8], text: &[u8], scratch: &[u8], j: usize) -> Result<(), ConvertError>
    requires good { Good tree.now text.now × Numbered tree.now text.now scratch.now }
    requires listed { Listed tree.now scratch.now }
    requires j_in_bounds { (j < length (function_places tree.now)) × KeySlots tree.now text.now scratch.now (keys_below tree.now text.now j) }
    ensures { TurnMeets tree.now text.now scratch.now j result }
{
    let f = function_at(tree, scratch, j);
    let name = name_of(tree, text, f);
    if is_mangled(tree, text, f) {
        if is_ascii(text, name) {
            return refuse_function(ConvertErrorKind::LatinCharInNonLibCFunction, f as u32);
        }
        if find_own_key(tree, text, scratch, f).is_some() {
            return refuse_function(ConvertErrorKind::SameSignature, f as u32);
        }
        return Ok(());
    }
    if !is_ascii(text, name) {
        return refuse_function(ConvertErrorKind::ExternNotLatin, f as u32);
    }
    if find_own_key(tree, text, scratch, f).is_some() {
        return refuse_function(ConvertErrorKind::SameSymbol, f as u32);
    }
    Ok(())
}

// Lists the functions' records in scratch, enters each by its key and says how many there are, or refuses the first function whose key is taken or whose name has the
// wrong letters.
pub fn get_all_functions(
    tree: &[u8],
    text: &[u8],
    scratch: &mut [u8],
) -> Result<usize, ConvertError>
    requires good { Good tree.now text.now × Numbered tree.now text.now scratch.old }
    requires tree_in_bounds { scratch_each * records tree.now ≤ length scratch.old }
    ensures { AllMeet tree.now text.now scratch.old scratch.new result }
{
    let count = list_functions(tree, scratch);
    clear_keys(scratch, tree.len() / RECORD_BYTES);
    for j in 0..count {
        check_function(tree, text, scratch, j)?;
        let added = function_at(tree, scratch, j);
        enter_key(tree, text, scratch, added);
    }
    Ok(count)
}

// The first function named `main`.
fn find_main(tree: &[u8], text: &[u8], scratch: &[u8], count: usize) -> Option<usize>
    requires good { Good tree.now text.now }
    requires listed { Listed tree.now scratch.now × (count ≡ length (function_places tree.now)) }
    ensures { FunctionIs tree.now text.now result (find_main (program tree.now text.now).functions) }
{
    for j in 0..count {
        let f = function_at(tree, scratch, j);
        if is_main(text, name_of(tree, text, f)) {
            return Some(f);
        }
    }
    None
}

fn returns_int(tree: &[u8], text: &[u8], f: usize) -> bool
    requires good { Good tree.now text.now }
    requires function_at { FunctionAt tree.now f }
    ensures { result ≡ returns_int (type_at tree.now text.now) (function_of tree.now text.now f).return_type }
{
    let ty = reference(tree, f, WORD_D);
    if ty == NONE as usize {
        return false;
    }
    form(tree, ty) == FORM_INT
}

// The program has a `main` that returns an integer, or needs none.
pub fn check_main(
    tree: &[u8],
    text: &[u8],
    scratch: &[u8],
    count: usize,
    needs_main: bool,
) -> Result<(), ConvertError>
    requires good { Good tree.now text.now }
    requires listed { Listed tree.now scratch.now × (count ≡ length (function_places tree.now)) }
    ensures { check_main (program tree.now text.now) needs_main ≡ outcome_of result }
{
    match find_main(tree, text, scratch, count) {
        Some(f) => {
            if returns_int(tree, text, f) {
                return Ok(());
            }
            refuse_function(ConvertErrorKind::MainNotInteger, f as u32)
        }
        None => {
            if needs_main {
                return refuse_function(ConvertErrorKind::NoMain, NONE);
            }
            Ok(())
        }
    }
}
