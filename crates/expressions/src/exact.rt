// expressions.rs: the function whose key is the verb, or the verb with the key texts of the arguments' types. No key text is built: keys are
// compared piece by piece, and only where lengths agree.
ghost use Rattle.std.specs.Prelude.{◌≡◌, ◌+◌, ◌≤◌, ◌<◌, ◌^◌, length, take, ◌++◌};
ghost use Rattle.std.proofs.Math.Option.{some};
ghost use Rattle.records.specs.Digest.{roll_modulus, roll_from, roll_of};
ghost use Rattle.records.specs.Words.{text_at};
ghost use Rattle.records.specs.Good.{Good};
ghost use Rattle.conversion.specs.Ir.{same_text};
ghost use Rattle.conversion.specs.Expressions.{is_mangled, filter_option, variadic_mark};
ghost use Rattle.syntax.specs.Places.{FunctionAt, function_of};
ghost use Rattle.texts.specs.Texts.{Numbered};
ghost use Rattle.keys.specs.Keys.{Keyed, FunctionIs};
ghost use Rattle.expressions.specs.Calls.{suffixes_at, verb_of, name_of, bytes_in, Argued, Called, suffixes_stand, by_name, by_full_name, by_marked, by_prefix, exactly};

use crate::arguments::{Call, END, argument_type, next_cell, type_key};
use crate::takes::takes_call;
use keys::keys::{find_key, is_mangled, key_before, key_head, key_of};
use keys::parts::{Part, is_variadic_mark};
use records::texts::{roll, roll_byte, same_part};
use records::words::RECORD_BYTES;
use texts::kept_digest;

const DOLLAR: u8 = 36;

const DOT: u8 = 46;

// How long the mark `$...` is.
const MARK_BYTES: usize = 4;

// How many bytes `$` and the key text of each argument's type have.
fn suffix_bytes(tree: &[u8], text: &[u8], scratch: &[u8], first: usize) -> usize
    requires { Argued tree.now text.now scratch.now first }
    ensures { (result ≡ bytes_in (suffixes_at tree.now text.now scratch.now first)) × (result < 2 ^ 48) }
{
    let mut n = 0;
    let mut cell = first;
    while cell != END {
        let key = type_key(tree, text, argument_type(tree, text, scratch, cell));
        n = n + 1 + key.len;
        cell = next_cell(tree, cell);
    }
    n
}

// How long the verb is with all suffixes.
fn full_length(tree: &[u8], text: &[u8], scratch: &[u8], call: Call) -> usize
    requires { Called tree.now text.now scratch.now call }
    ensures { result ≡ length (name_of tree.now text.now scratch.now call call.count) }
{
    let first = call.first;
    let len = call.len;
    len + suffix_bytes(tree, text, scratch, first)
}

// Whether the first k suffixes stand from `at` on, piece by piece.
fn are_suffixes(tree: &[u8], text: &[u8], scratch: &[u8], first: usize, k: usize, at: usize) -> bool
    requires argued { Argued tree.now text.now scratch.now first }
    requires k_in_bounds { k ≤ length (suffixes_at tree.now text.now scratch.now first) }
    requires first_in_bounds { at + bytes_in (take k (suffixes_at tree.now text.now scratch.now first)) ≤ length text.now }
    ensures { result ≡ suffixes_stand tree.now text.now scratch.now first k at }
{
    let mut here = at;
    let mut cell = first;
    for _ in 0..k {
        let piece = type_key(tree, text, argument_type(tree, text, scratch, cell));
        let start = piece.offset;
        let size = piece.len;
        if text[here] != DOLLAR {
            return false;
        }
        if !same_part(text, here + 1, start, size) {
            return false;
        }
        here = here + 1 + size;
        cell = next_cell(tree, cell);
    }
    true
}

// Whether a part of the right length is the verb with the first k suffixes.
fn is_name(tree: &[u8], text: &[u8], scratch: &[u8], call: Call, k: usize, key: Part) -> bool
    requires called { Called tree.now text.now scratch.now call }
    requires k_le_count { (k ≤ call.count) × (key.offset + key.len ≤ length text.now) }
    requires len_value { key.len ≡ length (name_of tree.now text.now scratch.now call k) }
    ensures { result ≡ same_text (text_at text.now key.offset key.len) (name_of tree.now text.now scratch.now call k) }
{
    let at = key.offset;
    let len = call.len;
    let first = call.first;
    if !same_part(text, at, call.offset, len) {
        return false;
    }
    are_suffixes(tree, text, scratch, first, k, at + len)
}

// The verb as a key.
fn by_name(tree: &[u8], text: &[u8], scratch: &[u8], call: Call) -> Option<usize>
    requires keyed { Keyed tree.now text.now scratch.now }
    requires called { Called tree.now text.now scratch.now call }
    ensures { FunctionIs tree.now text.now result (by_name tree.now text.now scratch.now call) }
{
    let f = find_key(tree, text, scratch, call.verb)?;
    if takes_call(tree, text, scratch, f, call) {
        return Some(f);
    }
    None
}

// A function, where it is mangled: without arguments, a verb must not find the external function of its name.
fn mangled_only(tree: &[u8], text: &[u8], f: usize) -> Option<usize>
    requires good { Good tree.now text.now }
    requires function_at { FunctionAt tree.now f }
    ensures { FunctionIs tree.now text.now result (filter_option is_mangled (some (function_of tree.now text.now f))) }
{
    is_mangled(tree, text, f).then_some(f)
}

// The verb's digest, which stands in scratch at the slot of its number.
fn verb_digest(tree: &[u8], text: &[u8], scratch: &[u8], call: Call) -> u32
    requires { Called tree.now text.now scratch.now call × Numbered tree.now text.now scratch.now }
    ensures { (result ≡ roll_of (verb_of tree.now text.now scratch.now call)) × (result < roll_modulus) }
{
    let n = tree.len() / RECORD_BYTES;
    kept_digest(scratch, n, call.verb)
}

// The digest of the verb with all suffixes, which goes on from the verb's.
fn full_digest(tree: &[u8], text: &[u8], scratch: &[u8], call: Call) -> u32
    requires { Called tree.now text.now scratch.now call × Numbered tree.now text.now scratch.now }
    ensures { result ≡ roll_of (name_of tree.now text.now scratch.now call call.count) }
{
    let mut d = verb_digest(tree, text, scratch, call);
    let mut cell = call.first;
    while cell != END {
        let key = type_key(tree, text, argument_type(tree, text, scratch, cell));
        d = roll(text, roll_byte(d, DOLLAR), key.offset, key.len);
        cell = next_cell(tree, cell);
    }
    d
}

// The verb with `$` and the key text of each type: of the functions in its digest's bucket few have another digest, and of those with the digest few
// another key.
fn by_full_name(tree: &[u8], text: &[u8], scratch: &[u8], call: Call) -> Option<usize>
    requires keyed { Keyed tree.now text.now scratch.now }
    requires called { Called tree.now text.now scratch.now call }
    ensures { FunctionIs tree.now text.now result (by_full_name tree.now text.now scratch.now call) }
{
    let n = tree.len() / RECORD_BYTES;
    let length = full_length(tree, text, scratch, call);
    let digest = full_digest(tree, text, scratch, call);
    let count = call.count;
    let mut at = key_head(scratch, n, digest);
    while at > 0 {
        let f = at - 1;
        if kept_digest(scratch, n, f) == digest {
            let key = key_of(tree, text, f);
            if key.len == length {
                if is_name(tree, text, scratch, call, count, key) {
                    return mangled_only(tree, text, f);
                }
            }
        }
        at = key_before(scratch, n, f);
    }
    None
}

// The same where there are no arguments: the whole name is the verb.
fn by_verb(tree: &[u8], text: &[u8], scratch: &[u8], call: Call) -> Option<usize>
    requires keyed { Keyed tree.now text.now scratch.now }
    requires called { Called tree.now text.now scratch.now call × (call.count ≡ 0) }
    ensures { FunctionIs tree.now text.now result (by_full_name tree.now text.now scratch.now call) }
{
    let f = find_key(tree, text, scratch, call.verb)?;
    mangled_only(tree, text, f)
}

// The verb with its types, which are looked at only where there are any.
fn by_whole_name(tree: &[u8], text: &[u8], scratch: &[u8], call: Call) -> Option<usize>
    requires keyed { Keyed tree.now text.now scratch.now }
    requires called { Called tree.now text.now scratch.now call }
    ensures { FunctionIs tree.now text.now result (by_full_name tree.now text.now scratch.now call) }
{
    if call.count == 0 {
        return by_verb(tree, text, scratch, call);
    }
    by_full_name(tree, text, scratch, call)
}

// The digest of a text with `$...` behind it, from the text's.
fn marked_digest(d: u32) -> u32
    requires { d < roll_modulus }
    ensures { result ≡ roll_from d variadic_mark }
{
    roll_byte(roll_byte(roll_byte(roll_byte(d, DOLLAR), DOT), DOT), DOT)
}

// Whether a key is the verb with the first k suffixes, `size` bytes, and `$...`.
fn is_marked(
    tree: &[u8],
    text: &[u8],
    scratch: &[u8],
    call: Call,
    k: usize,
    size: usize,
    key: Part,
) -> bool
    requires called { Called tree.now text.now scratch.now call }
    requires k_le_count { (k ≤ call.count) × (size ≡ length (name_of tree.now text.now scratch.now call k)) × (key.offset + key.len ≤ length text.now) }
    ensures { result ≡ same_text (text_at text.now key.offset key.len) (name_of tree.now text.now scratch.now call k ++ variadic_mark) }
{
    let at = key.offset;
    if key.len < MARK_BYTES {
        return false;
    }
    if key.len - MARK_BYTES != size {
        return false;
    }
    if !is_variadic_mark(
        text,
        Part {
            offset: at + size,
            len: MARK_BYTES,
        },
    ) {
        return false;
    }
    let name = Part {
        offset: at,
        len: size,
    };
    is_name(tree, text, scratch, call, k, name)
}

// The verb with the first k suffixes, `size` bytes, and `$...` as a key, looked for in the bucket of its digest.
fn by_marked(
    tree: &[u8],
    text: &[u8],
    scratch: &[u8],
    call: Call,
    k: usize,
    size: usize,
    digest: u32,
) -> Option<usize>
    requires keyed { Keyed tree.now text.now scratch.now }
    requires called { Called tree.now text.now scratch.now call }
    requires k_le_count { (k ≤ call.count) × (size ≡ length (name_of tree.now text.now scratch.now call k)) × (digest ≡ roll_of (name_of tree.now text.now scratch.now call k ++ variadic_mark)) }
    ensures { FunctionIs tree.now text.now result (by_marked tree.now text.now scratch.now call k) }
{
    let n = tree.len() / RECORD_BYTES;
    let mut at = key_head(scratch, n, digest);
    while at > 0 {
        let f = at - 1;
        if kept_digest(scratch, n, f) == digest {
            let key = key_of(tree, text, f);
            if is_marked(tree, text, scratch, call, k, size, key) {
                return mangled_only(tree, text, f);
            }
        }
        at = key_before(scratch, n, f);
    }
    None
}

// The Rust's `variadic`, the longest prefix with `$...`: each prefix is looked for by its digest, from the shortest on, and the last that is found is kept.
fn by_prefix(tree: &[u8], text: &[u8], scratch: &[u8], call: Call) -> Option<usize>
    requires keyed { Keyed tree.now text.now scratch.now }
    requires called { Called tree.now text.now scratch.now call }
    ensures { FunctionIs tree.now text.now result (by_prefix tree.now text.now scratch.now call) }
{
    let mut best = None;
    let mut digest = verb_digest(tree, text, scratch, call);
    let mut size = call.len;
    let mut cell = call.first;
    let mut k = 0;
    while cell != END {
        let marked = marked_digest(digest);
        let found = by_marked(tree, text, scratch, call, k, size, marked);
        best = found.or(best);
        let key = type_key(tree, text, argument_type(tree, text, scratch, cell));
        digest = roll(text, roll_byte(digest, DOLLAR), key.offset, key.len);
        size = size + 1 + key.len;
        cell = next_cell(tree, cell);
        k += 1;
    }
    let marked = marked_digest(digest);
    by_marked(tree, text, scratch, call, k, size, marked).or(best)
}

pub(crate) fn find_exact_function(
    tree: &[u8],
    text: &[u8],
    scratch: &[u8],
    call: Call,
) -> Option<usize>
    requires keyed { Keyed tree.now text.now scratch.now }
    requires called { Called tree.now text.now scratch.now call }
    ensures { FunctionIs tree.now text.now result (exactly tree.now text.now scratch.now call) }
{
    by_name(tree, text, scratch, call)
        .or_else(|| by_whole_name(tree, text, scratch, call))
        .or_else(|| by_prefix(tree, text, scratch, call))
}
