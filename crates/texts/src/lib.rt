// Texts by number: each record that has a text gets the lowest record with the same one, so that a look-up need not compare bytes.
#![tactic(auto)]

ghost use Rattle.std.specs.Prelude.{◌≡◌, true, ◌+◌, ◌*◌, ◌≤◌, ◌<◌, length};
ghost use Rattle.records.specs.Layout.{scratch_each};
ghost use Rattle.records.specs.Good.{Good};
ghost use Rattle.records.specs.Samples.{Sampled, Samples};
ghost use Rattle.records.specs.Digest.{roll_modulus, roll_of};
ghost use Rattle.records.specs.Words.{word_at, text_at, records, most_records, none};
ghost use Rattle.sorting.specs.Sorted.{OnlyThere};
ghost use Rattle.texts.specs.Texts.{has_text, has_own, original as original_of, original_at, text_digest_at, Numbered, Kept};
ghost use Rattle.texts.specs.Pass.{text_bucket, samples_from, SamplesFit, Read, OnlySamples, Chains, Entered, Rolled, text_entries_from, Collected, Passed};

use records::chains::{FAR, bucket, clear_heads};
use records::layout::{
    CHAIN_EACH, CHAIN_HEAD_BYTES, ORIGINAL_BYTES, ORIGINALS, TEXT_DIGEST_BYTES, TEXT_DIGESTS,
};
use records::numbers::{KIND_CALL, KIND_DECLARE, KIND_INIT, KIND_NAME, KIND_STR, KIND_VARIABLE};
use records::order::{enter_at, find_place};
use records::samples::{sample, sampled_roll, stride_within};
use records::texts::{roll_digest, text_roll};
use records::words::{RECORD_BYTES, WORD_A, WORD_B, kind, load, put_pair, put_word, word};
use sorting::sorted::{SORT_ENTRY_BYTES, number_sorted, sort_records};

// Whether words A and B of a record of this kind are a text.
#[tactic(auto, unfolding(crate::specs::Texts::has_text))]
fn has_text(k: u8) -> bool
    ensures { result ≡ has_text k }
{
    matches!(
        k,
        KIND_STR | KIND_NAME | KIND_CALL | KIND_DECLARE | KIND_INIT | KIND_VARIABLE
    )
}

// A text's number, and how many entries of its chain were passed to find it.
#[derive(Clone, Copy)]
struct Walk {
    number: u32,
    passed: u32,
}

// The number of record r's text: the entry of bucket b that has it, else r, which is then put into the bucket's chain. Only the first record with a text is
// entered, so that the entry is the number.
fn number_text(tree: &[u8], text: &[u8], r: usize, b: usize, scratch: &mut [u8]) -> Walk
    requires good { Good tree.now text.now × (scratch_each * records tree.now ≤ length scratch.old) }
    requires r_bound { (r < records tree.now) × (has_own tree.now r ≡ true) × (b ≡ text_bucket tree.now text.now r) × (b < records tree.now) }
    requires chains { Chains tree.now text.now r scratch.old }
    ensures { (result.number ≡ original_of tree.now text.now r) × Entered tree.now text.now r scratch.old scratch.new }
{
    let n = tree.len() / RECORD_BYTES;
    let place = find_place(tree, text, scratch, n, r, CHAIN_HEAD_BYTES * b);
    if place.number >= r {
        let next = load(scratch, place.at);
        enter_at(scratch, n, r, place.shared, place.at, next);
    }
    Walk {
        number: place.number as u32,
        passed: place.passed,
    }
}

// What the pass knows of long texts: how far the samples of the text lie apart, 0 where it is not sampled yet; and how many bytes the long texts have in all, up to
// the sampling.
#[derive(Clone, Copy)]
struct Reading {
    stride: usize,
    long: usize,
}

// A text of so many bytes at most is read whole for its digest: samples would spare nothing.
const SHORT: u32 = 256;

// Once the long texts are so many times longer in all than the buffer they lie in, it is sampled: they overlap, and samples cost less than reading each whole.
const OVERLAPPING: usize = 8;

// The text is sampled, as near as the room between the chains and the numbers allows. How far the samples lie apart is given back.
fn sample_text(text: &[u8], n: usize, scratch: &mut [u8]) -> usize
    requires { (0 < n) × (n ≤ most_records) × (scratch_each * n ≤ length scratch.old) × (length text.now ≤ none * most_records) }
    ensures { Samples text.now result (samples_from n) scratch.old scratch.new × SamplesFit text.now result n }
{
    let at = CHAIN_EACH * n;
    let stride = stride_within(text.len(), ORIGINALS * n - at);
    sample(text, scratch, at, stride);
    stride
}

// Record r has a text of `len` bytes: if it is long it counts, and the text may have to be sampled.
fn read_long(text: &[u8], n: usize, r: usize, len: u32, k: Reading, scratch: &mut [u8]) -> Reading
    requires { (r < n) × (n ≤ most_records) × (scratch_each * n ≤ length scratch.old) × Read text.now n r k.stride k.long scratch.old }
    ensures { Read text.now n (r + 1) result.stride result.long scratch.new × OnlySamples n scratch.old scratch.new }
{
    if (len <= SHORT) | (k.stride > 0) {
        return k;
    }
    let long = k.long + len as usize;
    if long / OVERLAPPING <= text.len() {
        return Reading { stride: 0, long };
    }
    let stride = sample_text(text, n, scratch);
    Reading { stride, long }
}

// The digest of a text that goes on. The samples stand behind the chains.
fn roll_read(text: &[u8], scratch: &[u8], n: usize, stride: usize, offset: u32, len: u32) -> u32
    requires { (n ≤ most_records) × Sampled text.now stride (samples_from n) scratch.now }
    ensures { (result ≡ roll_of (text_at text.now offset len)) × (result < roll_modulus) }
{
    if len <= SHORT {
        return text_roll(text, offset, len);
    }
    sampled_roll(text, scratch, CHAIN_EACH * n, stride, offset, len)
}

// What is known of long texts, and how many entries the record passed.
#[derive(Clone, Copy)]
struct Step {
    reading: Reading,
    passed: u32,
}

// Record r: where it has a text, the text's number is found and written, with the digest that goes on, so that the text need not be read for a digest again.
fn number_record(tree: &[u8], text: &[u8], r: usize, k: Reading, scratch: &mut [u8]) -> Step
    requires good { Good tree.now text.now × (scratch_each * records tree.now ≤ length scratch.old) }
    requires r_bound { (r < records tree.now) × Passed tree.now text.now r scratch.old × Read text.now (records tree.now) r k.stride k.long scratch.old }
    ensures passed { Passed tree.now text.now (r + 1) scratch.new × Kept (records tree.now) scratch.old scratch.new }
    ensures read { Read text.now (records tree.now) (r + 1) result.reading.stride result.reading.long scratch.new }
{
    if !has_text(kind(tree, r)) {
        return Step {
            reading: k,
            passed: 0,
        };
    }
    let n = tree.len() / RECORD_BYTES;
    let offset = word(tree, r, WORD_A);
    let len = word(tree, r, WORD_B);
    let next = read_long(text, n, r, len, k, scratch);
    let rolled = roll_read(text, scratch, n, next.stride, offset, len);
    let b = bucket(roll_digest(rolled), n);
    let walk = number_text(tree, text, r, b, scratch);
    put_word(scratch, ORIGINALS * n + ORIGINAL_BYTES * r, walk.number);
    put_word(scratch, TEXT_DIGESTS * n + TEXT_DIGEST_BYTES * r, rolled);
    Step {
        reading: next,
        passed: walk.passed,
    }
}

// Record r: where it has a text, its digest alone is written.
fn roll_record(tree: &[u8], text: &[u8], r: usize, k: Reading, scratch: &mut [u8]) -> Reading
    requires good { Good tree.now text.now × (scratch_each * records tree.now ≤ length scratch.old) }
    requires r_bound { (r < records tree.now) × Rolled tree.now text.now r scratch.old × Read text.now (records tree.now) r k.stride k.long scratch.old }
    ensures rolled { Rolled tree.now text.now (r + 1) scratch.new × Kept (records tree.now) scratch.old scratch.new }
    ensures read { Read text.now (records tree.now) (r + 1) result.stride result.long scratch.new }
{
    if !has_text(kind(tree, r)) {
        return k;
    }
    let n = tree.len() / RECORD_BYTES;
    let offset = word(tree, r, WORD_A);
    let len = word(tree, r, WORD_B);
    let next = read_long(text, n, r, len, k, scratch);
    let rolled = roll_read(text, scratch, n, next.stride, offset, len);
    put_word(scratch, TEXT_DIGESTS * n + TEXT_DIGEST_BYTES * r, rolled);
    next
}

// The digests of all texts from record `from` on.
fn roll_texts(tree: &[u8], text: &[u8], from: usize, known: Reading, scratch: &mut [u8])
    requires good { Good tree.now text.now × (scratch_each * records tree.now ≤ length scratch.old) }
    requires from_bound { (from ≤ records tree.now) × Rolled tree.now text.now from scratch.old × Read text.now (records tree.now) from known.stride known.long scratch.old }
    ensures rolled { Rolled tree.now text.now (records tree.now) scratch.new }
    ensures kept { Kept (records tree.now) scratch.old scratch.new }
{
    let n = tree.len() / RECORD_BYTES;
    let mut k = known;
    for r in from..n {
        k = roll_record(tree, text, r, k, scratch);
    }
}

// The entries to sort stand where the chains stood, from this byte on.
const ENTRIES: usize = 0;

// Record r becomes entry m of those to sort, if it has a text. How many there are is given back.
fn collect_record(tree: &[u8], r: usize, m: usize, scratch: &mut [u8]) -> usize
    requires { (records tree.now ≤ most_records) × (r < records tree.now) × (scratch_each * records tree.now ≤ length scratch.old) × Collected tree.now r m scratch.old }
    ensures { Collected tree.now (r + 1) result scratch.new × OnlyThere text_entries_from 0 (records tree.now) scratch.old scratch.new }
{
    if !has_text(kind(tree, r)) {
        return m;
    }
    put_pair(scratch, ENTRIES + SORT_ENTRY_BYTES * m, r as u32, 0);
    m + 1
}

// All records that have a text become entries, in rising order.
fn collect_texts(tree: &[u8], scratch: &mut [u8]) -> usize
    requires { (records tree.now ≤ most_records) × (scratch_each * records tree.now ≤ length scratch.old) }
    ensures collected { Collected tree.now (records tree.now) result scratch.new }
    ensures only_there { OnlyThere text_entries_from 0 (records tree.now) scratch.old scratch.new }
{
    let n = tree.len() / RECORD_BYTES;
    let mut m = 0;
    for r in 0..n {
        m = collect_record(tree, r, m, scratch);
    }
    m
}

// Every text gets its number by sorting, where the chains have grown too long; the records below r have their digests already. Nothing of the chains is needed,
// and nothing of the samples once the digests are written, so the entries stand where they stood.
fn number_by_sorting(tree: &[u8], text: &[u8], r: usize, k: Reading, scratch: &mut [u8])
    requires good { Good tree.now text.now × (scratch_each * records tree.now ≤ length scratch.old) }
    requires r_bound { (r ≤ records tree.now) × Rolled tree.now text.now r scratch.old × Read text.now (records tree.now) r k.stride k.long scratch.old }
    ensures { Numbered tree.now text.now scratch.new × Kept (records tree.now) scratch.old scratch.new }
{
    let n = tree.len() / RECORD_BYTES;
    roll_texts(tree, text, r, k, scratch);
    let m = collect_texts(tree, scratch);
    sort_records(
        tree,
        text,
        scratch,
        ENTRIES,
        ENTRIES + SORT_ENTRY_BYTES * n,
        m,
    );
    number_sorted(tree, text, scratch, ENTRIES, m, ORIGINALS * n);
}

// Every text of a good tree gets its number and its digest, in one pass over the records. The chains stand where nothing else does yet, and so do the samples.
// Who knows the digest can make a chain long: once a walk along one is too long, the texts are sorted instead.
pub fn number_texts(tree: &[u8], text: &[u8], scratch: &mut [u8])
    requires { Good tree.now text.now × (scratch_each * records tree.now ≤ length scratch.old) }
    ensures { Numbered tree.now text.now scratch.new × Kept (records tree.now) scratch.old scratch.new }
{
    let n = tree.len() / RECORD_BYTES;
    clear_heads(scratch, CHAIN_HEAD_BYTES * n);
    let mut k = Reading { stride: 0, long: 0 };
    for r in 0..n {
        let step = number_record(tree, text, r, k, scratch);
        k = step.reading;
        if step.passed > FAR {
            number_by_sorting(tree, text, r + 1, k, scratch);
            return;
        }
    }
}

// The number of record r's text, as it stands in the scratch of n records.
pub fn original(scratch: &[u8], n: usize, r: usize) -> usize
    requires { original_at n r + 4 ≤ length scratch.now }
    ensures { result ≡ word_at scratch.now (original_at n r) }
{
    load(scratch, ORIGINALS * n + ORIGINAL_BYTES * r) as usize
}

// The digest of record r's text that goes on, as it stands there.
pub fn kept_digest(scratch: &[u8], n: usize, r: usize) -> u32
    requires { text_digest_at n r + 4 ≤ length scratch.now }
    ensures { result ≡ word_at scratch.now (text_digest_at n r) }
{
    load(scratch, TEXT_DIGESTS * n + TEXT_DIGEST_BYTES * r)
}
