// The first type that equals an earlier one. Most trees are done by digests, in buckets: no type is taken for an earlier one. Where one is, or a bucket has too many,
// the types are sorted, so that none made to share a digest or a bucket cost much more than others.
ghost use Rattle.std.specs.Prelude.{◌≡◌, not, true, false, ℕ, ◌+◌, ◌*◌, ◌≤◌, ◌<◌, length};
ghost use Rattle.laws.specs.Chain.{link_to};
ghost use Rattle.records.specs.Words.{record_bytes, records, most_records, none};
ghost use Rattle.records.specs.Rules.{type_is_new};
ghost use Rattle.records.specs.Digest.{type_digest};
ghost use Rattle.records.specs.Chains.{chain_each, ChainRoom};
ghost use Rattle.records.specs.Samples.{sample_bytes, SampleRoom, Sampled};
ghost use Rattle.judge.specs.Inner.{Lowest, Passing};
ghost use Rattle.sorting.specs.Sorted.{sort_entry_bytes};
ghost use Rattle.judge.specs.Equal.{Leading, alike, like_earlier, type_bucket, TypesChained, DigestsPassed, TypesListed};

use crate::types::same_words;
use records::chains::{FAR, bucket, clear_heads, enter};
use records::layout::{CHAIN_EACH, CHAIN_ENTRY_BYTES, CHAIN_HEAD_BYTES};
use records::numbers::FORM_CUSTOM;
use records::samples::{sample, sampled_roll, stride_within};
use records::texts::{roll_digest, word_digest};
use records::words::{SECOND_WORD, WORD_A, WORD_B, WORD_C, detail, index, load, put_pair, word};
use sorting::sorted::{SORT_ENTRY_BYTES, first_repeated, sort_records};

// How long the name of type r is: only a Custom has one.
fn name_long(tree: &[u8], r: usize) -> usize
    requires { r * record_bytes + record_bytes ≤ length tree.now }
    ensures { result ≤ none }
{
    if detail(tree, r) != FORM_CUSTOM {
        return 0;
    }
    index(word(tree, r, WORD_B))
}

// How long the names of the leading types are in all.
fn names_long(tree: &[u8], types: usize) -> usize
    requires { (types * record_bytes ≤ length tree.now) × (types ≤ most_records) }
    ensures { result ≤ none * types }
{
    let mut long = 0;
    for r in 0..types {
        long += name_long(tree, r);
    }
    long
}

// How far the samples of a text of so many bytes lie apart: as near as `room` bytes allow; 0, for no samples, where the names are no longer
// in all than the text, so that reading each costs no more than sampling would.
fn stride_of(tree: &[u8], types: usize, bytes: usize, room: usize) -> usize
    requires { (types * record_bytes ≤ length tree.now) × (types ≤ most_records) × (sample_bytes * types ≤ room) }
    ensures { SampleRoom bytes result 0 room }
{
    if names_long(tree, types) <= bytes {
        return 0;
    }
    stride_within(bytes, room)
}

// The digest of what makes type r equal to another. The text's samples stand in scratch, from byte `at` on.
fn type_digest(tree: &[u8], text: &[u8], scratch: &[u8], at: usize, stride: usize, r: usize) -> u32
    requires { (r * record_bytes + record_bytes ≤ length tree.now) × Sampled text.now stride at scratch.now }
    ensures { result ≡ type_digest tree.now text.now r }
{
    let d = detail(tree, r);
    let a = word(tree, r, WORD_A);
    let b = word(tree, r, WORD_B);
    if d == FORM_CUSTOM {
        return roll_digest(sampled_roll(text, scratch, at, stride, a, b));
    }
    word_digest(u32::from(d), a, b, word(tree, r, WORD_C))
}

// Type k is taken for r: they share a digest, and are equal where r is no Custom. No name is looked at: the text is lent for the contract alone, here and below.
fn is_alike(tree: &[u8], text: &[u8], k: usize, r: usize, digest: u32, d: u32) -> bool
    requires record_bytes_in_bounds { (k * record_bytes + record_bytes ≤ length tree.now) × (r * record_bytes + record_bytes ≤ length tree.now) }
    requires digest_value { (digest ≡ type_digest tree.now text.now k) × (d ≡ type_digest tree.now text.now r) }
    ensures { result ≡ alike tree.now text.now k r }
{
    if digest != d {
        return false;
    }
    if detail(tree, r) == FORM_CUSTOM {
        return true;
    }
    same_words(tree, k, r)
}

// Some type below r is taken for it, or there are too many to tell: the chain of its bucket is walked from the head on.
fn may_have_alike(
    tree: &[u8],
    text: &[u8],
    types: usize,
    scratch: &[u8],
    r: usize,
    d: u32,
    head: u32,
) -> bool
    requires leading { Leading tree.now types × ChainRoom types scratch.now × (r < types) }
    requires types_chained { TypesChained tree.now text.now types r scratch.now × (d ≡ type_digest tree.now text.now r) }
    requires head_value { head ≡ link_to (type_bucket tree.now text.now types) r (type_bucket tree.now text.now types r) }
    ensures { result ≡ false → like_earlier tree.now text.now r ≡ false }
{
    let mut at = index(head);
    for _ in 0..FAR {
        if at == 0 {
            return false;
        }
        let k = at - 1;
        let e = CHAIN_HEAD_BYTES * types + CHAIN_ENTRY_BYTES * k;
        let digest = load(scratch, e);
        if is_alike(tree, text, k, r, digest, d) {
            return true;
        }
        at = index(load(scratch, e + SECOND_WORD));
    }
    at > 0
}

// The same, and r is entered with its digest. The text's samples stand behind the chains.
fn may_be_again(
    tree: &[u8],
    text: &[u8],
    types: usize,
    scratch: &mut [u8],
    stride: usize,
    r: usize,
) -> bool
    requires leading { Leading tree.now types × ChainRoom types scratch.old × (r < types) }
    requires digests_passed { DigestsPassed tree.now text.now types stride r scratch.old }
    ensures r_value { result ≡ false → like_earlier tree.now text.now r ≡ false }
    ensures digests_passed_2 { DigestsPassed tree.now text.now types stride (r + 1) scratch.new }
    ensures scratch_len_unchanged { length scratch.new ≡ length scratch.old }
{
    let d = type_digest(tree, text, scratch, CHAIN_EACH * types, stride, r);
    let b = bucket(d, types);
    let head = load(scratch, CHAIN_HEAD_BYTES * b);
    let again = may_have_alike(tree, text, types, scratch, r, d, head);
    enter(scratch, types, r, d, b, head);
    again
}

// Digests tell that no type equals an earlier one.
fn are_apart(tree: &[u8], text: &[u8], types: usize, scratch: &mut [u8], stride: usize) -> bool
    requires { Leading tree.now types × ChainRoom types scratch.old × Sampled text.now stride (chain_each * types) scratch.old }
    ensures k_value { result ≡ true → (k : ℕ) → k < types → not (type_is_new tree.now text.now k) ≡ false }
    ensures scratch_len_unchanged { length scratch.new ≡ length scratch.old }
{
    clear_heads(scratch, CHAIN_HEAD_BYTES * types);
    for r in 0..types {
        if may_be_again(tree, text, types, scratch, stride, r) {
            return false;
        }
    }
    true
}

// The leading types become entries to sort, from byte 0 on.
fn collect_types(scratch: &mut [u8], types: usize)
    requires { (types ≤ most_records) × (sort_entry_bytes * types ≤ length scratch.old) }
    ensures { TypesListed types scratch.new × (length scratch.new ≡ length scratch.old) }
{
    for r in 0..types {
        put_pair(scratch, SORT_ENTRY_BYTES * r, r as u32, 0);
    }
}

// The lowest of the leading types that equals an earlier one, or their count: those that do stand behind each other once they are sorted.
fn first_by_sorting(tree: &[u8], text: &[u8], types: usize, scratch: &mut [u8]) -> usize
    requires { Passing tree.now (records tree.now) types scratch.old }
    ensures { Lowest types (λ k. not (type_is_new tree.now text.now k)) result × (length scratch.new ≡ length scratch.old) }
{
    collect_types(scratch, types);
    sort_records(tree, text, scratch, 0, SORT_ENTRY_BYTES * types, types);
    first_repeated(tree, text, scratch, 0, types, types)
}

// The same: by digests, where they tell.
pub(crate) fn first_equal(tree: &[u8], text: &[u8], types: usize, scratch: &mut [u8]) -> usize
    requires { Passing tree.now (records tree.now) types scratch.old }
    ensures { Lowest types (λ k. not (type_is_new tree.now text.now k)) result × (length scratch.new ≡ length scratch.old) }
{
    let at = CHAIN_EACH * types;
    let stride = stride_of(tree, types, text.len(), scratch.len() - at);
    sample(text, scratch, at, stride);
    if are_apart(tree, text, types, scratch, stride) {
        return types;
    }
    first_by_sorting(tree, text, types, scratch)
}
