// A function's record read: its names, its marks, and the key by which it is found. And the functions in scratch: listed, each at the slot of its key's number, and in
// chains by the digests of their keys and by their names.
ghost use Rattle.std.specs.Prelude.{◌≡◌, true, ◌+◌, ◌*◌, ◌≤◌, ◌<◌, length};
ghost use Rattle.records.specs.Layout.{judging, key_slots, scratch_each, end_of};
ghost use Rattle.records.specs.Words.{word_at, records, most_records};
ghost use Rattle.records.specs.Chains.{bucket_of, Cleared};
ghost use Rattle.records.specs.Digest.{digest_end};
ghost use Rattle.records.specs.Good.{Good};
ghost use Rattle.conversion.specs.Expressions.{is_mangled};
ghost use Rattle.syntax.specs.Places.{FunctionAt, function_of, ParamsAt, params_at};
ghost use Rattle.keys.specs.Parts.{PartIs};
ghost use Rattle.texts.specs.Texts.{original as original_of, original_at, Numbered};
ghost use Rattle.keys.specs.Keys.{function_key, function_places, Listed, Mapped, Chaining, Keyed, ChainKeeps, key_record, key_slot_at, key_entered, chained_before, key_head_at, name_head_at, FindsKey, FindsOwnKey};

use crate::parts::{Part, is_main, text_part};
use records::chains::{bucket, clear_run};
use records::layout::{
    KEY_HEAD_BYTES, KEY_HEADS, KEY_SLOT_BYTES, KEY_SLOTS, LISTED_BYTES, NAME_HEAD_BYTES,
    NAME_HEADS, ORIGINAL_BYTES, ORIGINALS, TEXT_DIGEST_BYTES, TEXT_DIGESTS,
};
use records::texts::roll_digest;
use records::words::{RECORD_BYTES, WORD_A, WORD_B, WORD_C, detail, load, put_word, reference};
use texts::{kept_digest, original};

pub fn name_of(tree: &[u8], text: &[u8], f: usize) -> Part
    requires good { Good tree.now text.now }
    requires function_at { FunctionAt tree.now f }
    ensures { PartIs text.now result (function_of tree.now text.now f).name }
{
    text_part(tree, reference(tree, f, WORD_A), WORD_A)
}

pub fn mangled_name_of(tree: &[u8], text: &[u8], f: usize) -> Part
    requires good { Good tree.now text.now }
    requires function_at { FunctionAt tree.now f }
    ensures { PartIs text.now result (function_of tree.now text.now f).mangled_name }
{
    text_part(tree, reference(tree, f, WORD_B), WORD_A)
}

fn is_external(tree: &[u8], text: &[u8], f: usize) -> bool
    requires good { Good tree.now text.now }
    requires function_at { FunctionAt tree.now f }
    ensures { result ≡ (function_of tree.now text.now f).external }
{
    detail(tree, f) % 2 == 1
}

pub fn is_variadic(tree: &[u8], text: &[u8], f: usize) -> bool
    requires good { Good tree.now text.now }
    requires function_at { FunctionAt tree.now f }
    ensures { result ≡ (function_of tree.now text.now f).variadic }
{
    detail(tree, f) / 2 % 2 == 1
}

// The first cell of its parameters.
pub fn parameters_of(tree: &[u8], text: &[u8], f: usize) -> usize
    requires good { Good tree.now text.now }
    requires function_at { FunctionAt tree.now f }
    ensures { ((function_of tree.now text.now f).params ≡ params_at tree.now text.now result) × ParamsAt tree.now result }
{
    reference(tree, f, WORD_C)
}

// Neither external nor `main`.
pub fn is_mangled(tree: &[u8], text: &[u8], f: usize) -> bool
    requires good { Good tree.now text.now }
    requires function_at { FunctionAt tree.now f }
    ensures { result ≡ is_mangled (function_of tree.now text.now f) }
{
    !is_external(tree, text, f) && !is_main(text, name_of(tree, text, f))
}

pub fn key_of(tree: &[u8], text: &[u8], f: usize) -> Part
    requires good { Good tree.now text.now }
    requires function_at { FunctionAt tree.now f }
    ensures { PartIs text.now result (function_key (function_of tree.now text.now f)) }
{
    if is_mangled(tree, text, f) {
        mangled_name_of(tree, text, f)
    } else {
        name_of(tree, text, f)
    }
}

// The j-th of the listed functions.
pub fn function_at(tree: &[u8], scratch: &[u8], j: usize) -> usize
    requires listed { Listed tree.now scratch.now }
    requires j_in_bounds { j < length (function_places tree.now) }
    ensures { (result ≡ word_at scratch.now (judging.each * j)) × FunctionAt tree.now result }
{
    load(scratch, LISTED_BYTES * j) as usize
}

// The record whose text is a function's key.
fn key_record(tree: &[u8], text: &[u8], f: usize) -> usize
    requires good { Good tree.now text.now }
    requires function_at { FunctionAt tree.now f }
    ensures { result ≡ key_record tree.now text.now f }
{
    if is_mangled(tree, text, f) {
        reference(tree, f, WORD_B)
    } else {
        reference(tree, f, WORD_A)
    }
}

// The number of a function's key.
fn key_number(tree: &[u8], text: &[u8], scratch: &[u8], f: usize) -> usize
    requires good { Good tree.now text.now × Numbered tree.now text.now scratch.now × (scratch_each * records tree.now ≤ length scratch.now) }
    requires function_at { FunctionAt tree.now f }
    ensures { (result ≡ original_of tree.now text.now (key_record tree.now text.now f)) × (result < records tree.now) }
{
    let n = tree.len() / RECORD_BYTES;
    original(scratch, n, key_record(tree, text, f))
}

// No function is entered by its key yet.
pub fn clear_keys(scratch: &mut [u8], n: usize)
    requires { (n ≤ most_records) × (scratch_each * n ≤ length scratch.old) }
    ensures { Cleared (key_slots.from * n) (end_of key_slots * n) scratch.old scratch.new }
{
    let from = KEY_SLOTS * n;
    clear_run(scratch, from, from + KEY_SLOT_BYTES * n);
}

// A function is entered at the slot of its key's number.
pub fn enter_key(tree: &[u8], text: &[u8], scratch: &mut [u8], f: usize)
    requires good { Good tree.now text.now × Numbered tree.now text.now scratch.old × (scratch_each * records tree.now ≤ length scratch.old) }
    requires function_at { FunctionAt tree.now f }
    ensures { scratch.new ≡ key_entered tree.now text.now f scratch.old }
{
    let n = tree.len() / RECORD_BYTES;
    let number = key_number(tree, text, scratch, f);
    let next = (f + 1) as u32;
    put_word(scratch, KEY_SLOTS * n + KEY_SLOT_BYTES * number, next);
}

// The function whose key is the text of this number: one load, whatever the functions are.
pub fn find_key(tree: &[u8], text: &[u8], scratch: &[u8], number: usize) -> Option<usize>
    requires { Good tree.now text.now × (scratch_each * records tree.now ≤ length scratch.now) × (number < records tree.now) }
    ensures { FindsKey tree.now text.now scratch.now number result }
{
    let n = tree.len() / RECORD_BYTES;
    (load(scratch, KEY_SLOTS * n + KEY_SLOT_BYTES * number) as usize).checked_sub(1)
}

// The function that is entered with the key of function f.
pub fn find_own_key(tree: &[u8], text: &[u8], scratch: &[u8], f: usize) -> Option<usize>
    requires good { Good tree.now text.now × Numbered tree.now text.now scratch.now × (scratch_each * records tree.now ≤ length scratch.now) }
    requires function_at { FunctionAt tree.now f }
    ensures { FindsOwnKey tree.now text.now scratch.now f result }
{
    find_key(tree, text, scratch, key_number(tree, text, scratch, f))
}

// A number goes before the others of its bucket: its link says what the head said.
fn put_before(scratch: &mut [u8], head: usize, link: usize, next: u32)
    requires { (head + 4 ≤ length scratch.old) × (link + 4 ≤ length scratch.old) }
    ensures { scratch.new ≡ chained_before head link next scratch.old }
{
    let before = load(scratch, head);
    put_word(scratch, link, before);
    put_word(scratch, head, next);
}

// Function f gets the digest of its key, and goes before the others of the digest's bucket.
fn chain_key(tree: &[u8], text: &[u8], scratch: &mut [u8], f: usize)
    requires { Chaining tree.now text.now scratch.old f f × FunctionAt tree.now f }
    ensures chaining { Chaining tree.now text.now scratch.new (f + 1) f }
    ensures chain_keeps { ChainKeeps tree.now scratch.old scratch.new }
{
    let n = tree.len() / RECORD_BYTES;
    let next = (f + 1) as u32;
    let d = kept_digest(scratch, n, key_record(tree, text, f));
    let b = bucket(roll_digest(d), n);
    put_word(scratch, TEXT_DIGESTS * n + TEXT_DIGEST_BYTES * f, d);
    put_before(
        scratch,
        KEY_HEADS * n + KEY_HEAD_BYTES * b,
        ORIGINALS * n + ORIGINAL_BYTES * f,
        next,
    );
}

// A mangled function goes before the others of its name.
fn chain_name(tree: &[u8], text: &[u8], scratch: &mut [u8], f: usize)
    requires { Chaining tree.now text.now scratch.old (f + 1) f × FunctionAt tree.now f × (is_mangled (function_of tree.now text.now f) ≡ true) }
    ensures chaining { Chaining tree.now text.now scratch.new (f + 1) (f + 1) }
    ensures chain_keeps { ChainKeeps tree.now scratch.old scratch.new }
{
    let n = tree.len() / RECORD_BYTES;
    let next = (f + 1) as u32;
    let name = original(scratch, n, reference(tree, f, WORD_A));
    put_before(
        scratch,
        NAME_HEADS * n + NAME_HEAD_BYTES * name,
        KEY_SLOTS * n + KEY_SLOT_BYTES * f,
        next,
    );
}

// Function f by its key and, where it is mangled, by its name.
fn chain_function(tree: &[u8], text: &[u8], scratch: &mut [u8], f: usize)
    requires { Chaining tree.now text.now scratch.old f f × FunctionAt tree.now f }
    ensures chaining { Chaining tree.now text.now scratch.new (f + 1) (f + 1) }
    ensures chain_keeps { ChainKeeps tree.now scratch.old scratch.new }
{
    chain_key(tree, text, scratch, f);
    if is_mangled(tree, text, f) {
        chain_name(tree, text, scratch, f);
    }
}

// The functions, of which `count` are listed, are chained by the digests of their keys, and the mangled ones by their names, so that a call looks only at those
// that may be meant.
pub fn chain_functions(tree: &[u8], text: &[u8], scratch: &mut [u8], count: usize)
    requires { Mapped tree.now text.now scratch.old × (count ≡ length (function_places tree.now)) }
    ensures keyed { Keyed tree.now text.now scratch.new }
    ensures chain_keeps { ChainKeeps tree.now scratch.old scratch.new }
{
    let n = tree.len() / RECORD_BYTES;
    let keys = KEY_HEADS * n;
    clear_run(scratch, keys, keys + KEY_HEAD_BYTES * n);
    let names = NAME_HEADS * n;
    clear_run(scratch, names, names + NAME_HEAD_BYTES * n);
    for j in 0..count {
        let f = function_at(tree, scratch, j);
        chain_function(tree, text, scratch, f);
    }
}

// One more than the last function in the bucket of a digest, or 0.
pub fn key_head(scratch: &[u8], n: usize, d: u32) -> usize
    requires { (0 < n) × (n ≤ most_records) × (scratch_each * n ≤ length scratch.now) }
    ensures { result ≡ word_at scratch.now (key_head_at n (bucket_of n (digest_end d))) }
{
    let b = bucket(roll_digest(d), n);
    load(scratch, KEY_HEADS * n + KEY_HEAD_BYTES * b) as usize
}

// One more than the function before f in its bucket, or 0.
pub fn key_before(scratch: &[u8], n: usize, f: usize) -> usize
    requires { original_at n f + 4 ≤ length scratch.now }
    ensures { result ≡ word_at scratch.now (original_at n f) }
{
    load(scratch, ORIGINALS * n + ORIGINAL_BYTES * f) as usize
}

// One more than the last mangled function whose name has this number, or 0.
pub fn name_head(scratch: &[u8], n: usize, number: usize) -> usize
    requires { name_head_at n number + 4 ≤ length scratch.now }
    ensures { result ≡ word_at scratch.now (name_head_at n number) }
{
    load(scratch, NAME_HEADS * n + NAME_HEAD_BYTES * number) as usize
}

// One more than the mangled function before f with its name, or 0.
pub fn name_before(scratch: &[u8], n: usize, f: usize) -> usize
    requires { key_slot_at n f + 4 ≤ length scratch.now }
    ensures { result ≡ word_at scratch.now (key_slot_at n f) }
{
    load(scratch, KEY_SLOTS * n + KEY_SLOT_BYTES * f) as usize
}
