// Records sorted by their keys, in a time that no choice of the keys makes much longer: each entry keeps how far its key agrees with that of the one before,
// so that in merging two runs a byte that agreed is not compared again. The key of a type is its form and words, and that of a Custom or of any other record its text.
ghost use Rattle.std.specs.Prelude.{◌≡◌, true, ℕ, ◌+◌, ◌-◌, ◌*◌, ◌≤◌, ◌<◌, length};
ghost use Rattle.records.specs.Words.{text_at, records};
ghost use Rattle.records.specs.Order.{common as common_of, record_text};
ghost use Rattle.sorting.specs.Sorted.{has_words, three_words, word_key, record_key, ahead, sort_entry_bytes, record_in, shared_in, same_next, BehindOne, Chosen, HeadChosen, TwoRuns, Merging, Arranged, OnlyThere, OnlyBoth, TwoPlaces, RecordsRise, Sortable, SortedRecords, RepeatedBehind, FirstRepeated, FirstUpTo, NumbersApart, NumberedUpTo};

use records::layout::ORIGINAL_BYTES;
use records::numbers::{FORM_CUSTOM, KIND_TYPE};
use records::order::common;
use records::texts::reach;
use records::words::{SECOND_WORD, WORD_A, WORD_B, detail, kind, load, put_pair, put_word, word};

// An entry is a record, and beside it how far its key agrees with that of the entry before.
pub const SORT_ENTRY_BYTES: usize = 8;

// How many of n bytes from i and from j on agree, where the first `from` do: all where these are the same bytes.
fn common_from(text: &[u8], i: usize, j: usize, n: usize, from: usize) -> usize
    requires { (0 < n → (i + n ≤ length text.now) × (j + n ≤ length text.now)) × (from ≤ common_of (text_at text.now i n) (text_at text.now j n)) }
    ensures { result ≡ common_of (text_at text.now i n) (text_at text.now j n) }
{
    if i == j {
        return n;
    }
    common(text, i, j, n, from)
}

// Of two texts that agree just so far the first comes first, as it does where they are the same: it ends there, or its next byte is the lower.
fn comes_first(text: &[u8], i: usize, x: usize, j: usize, y: usize, shared: usize) -> bool
    requires { (x ≡ length (text_at text.now i x)) × (y ≡ length (text_at text.now j y)) × (shared ≡ common_of (text_at text.now i x) (text_at text.now j y)) }
    ensures { result ≡ ahead (text_at text.now i x) (text_at text.now j y) true }
{
    if shared == x {
        return true;
    }
    if shared == y {
        return false;
    }
    text[i + shared] < text[j + shared]
}

// Which of two is next, and how far their texts or keys agree.
#[derive(Clone, Copy)]
struct Choice {
    left: bool,
    shared: u32,
}

// The texts of records a and b compared, of which the first `from` bytes agree.
fn compare_texts(tree: &[u8], text: &[u8], a: usize, b: usize, from: usize) -> Choice
    requires a_bound { (a < records tree.now) × (b < records tree.now) }
    requires from_bound { from ≤ common_of (record_text tree.now text.now a) (record_text tree.now text.now b) }
    ensures { Chosen (record_text tree.now text.now a) (record_text tree.now text.now b) result.left result.shared }
{
    let i = word(tree, a, WORD_A) as usize;
    let x = reach(text, i, word(tree, a, WORD_B) as usize);
    let j = word(tree, b, WORD_A) as usize;
    let y = reach(text, j, word(tree, b, WORD_B) as usize);
    let shared = common_from(text, i, j, x.min(y), from);
    Choice {
        left: comes_first(text, i, x, j, y, shared),
        shared: shared as u32,
    }
}

// The words of a type's key: A, B and C.
const KEY_WORDS: usize = 3;

// Those of records a and b compared.
fn compare_words(tree: &[u8], a: usize, b: usize) -> Choice
    requires { (a < records tree.now) × (b < records tree.now) }
    ensures { Chosen (three_words tree.now a) (three_words tree.now b) result.left result.shared }
{
    for k in 0..KEY_WORDS {
        let x = word(tree, a, k);
        let y = word(tree, b, k);
        if x != y {
            return Choice {
                left: x < y,
                shared: k as u32,
            };
        }
    }
    Choice {
        left: true,
        shared: KEY_WORDS as u32,
    }
}

// Types a and b compared, which are told apart by their forms and words.
fn compare_types(tree: &[u8], a: usize, b: usize) -> Choice
    requires { (a < records tree.now) × (b < records tree.now) }
    ensures { Chosen (word_key tree.now a) (word_key tree.now b) result.left result.shared }
{
    let i = detail(tree, a);
    let j = detail(tree, b);
    if i != j {
        return Choice {
            left: i < j,
            shared: 0,
        };
    }
    let words = compare_words(tree, a, b);
    Choice {
        shared: words.shared + 1,
        ..words
    }
}

// Record r is a type that is told apart by its form and words: of types only a Custom has a text.
fn has_words(tree: &[u8], r: usize) -> bool
    requires { r < records tree.now }
    ensures { result ≡ has_words tree.now r }
{
    (kind(tree, r) == KIND_TYPE) & (detail(tree, r) != FORM_CUSTOM)
}

// Records a and b compared, whose keys agree in the first `from` numbers. A text comes before the words of a type, and agrees in nothing with them.
fn compare(tree: &[u8], text: &[u8], a: usize, b: usize, from: usize) -> Choice
    requires a_bound { (a < records tree.now) × (b < records tree.now) }
    requires from_bound { from ≤ common_of (record_key tree.now text.now a) (record_key tree.now text.now b) }
    ensures { Chosen (record_key tree.now text.now a) (record_key tree.now text.now b) result.left result.shared }
{
    let i = has_words(tree, a);
    let j = has_words(tree, b);
    if i & j {
        return compare_types(tree, a, b);
    }
    if i | j {
        return Choice { left: j, shared: 0 };
    }
    compare_texts(tree, text, a, b, from)
}

// Both stand behind one key, with which they agree in so many numbers: the one that agrees further is next, and only where they agree just as far are they
// compared, from there on.
fn choose(
    tree: &[u8],
    text: &[u8],
    a: usize,
    b: usize,
    left_shared: u32,
    right_shared: u32,
) -> Choice
    requires a_bound { (a < records tree.now) × (b < records tree.now) }
    requires behind_one { BehindOne (record_key tree.now text.now a) (record_key tree.now text.now b) left_shared right_shared }
    ensures { Chosen (record_key tree.now text.now a) (record_key tree.now text.now b) result.left result.shared }
{
    if right_shared < left_shared {
        return Choice {
            left: true,
            shared: right_shared,
        };
    }
    if left_shared < right_shared {
        return Choice {
            left: false,
            shared: left_shared,
        };
    }
    compare(tree, text, a, b, left_shared as usize)
}

// Two runs, of the entries from lo to mid and from mid to hi: they stand from `at` on, and are merged from `to` on.
#[derive(Clone, Copy)]
struct Runs {
    at: usize,
    to: usize,
    lo: usize,
    mid: usize,
    hi: usize,
}

// The entry of each that is next, and how far its key agrees with that of the last one put out.
#[derive(Clone, Copy)]
struct Heads {
    left: usize,
    right: usize,
    left_shared: u32,
    right_shared: u32,
}

// Which of the two is next. A run at its end has none.
fn choose_head(tree: &[u8], text: &[u8], scratch: &[u8], runs: Runs, heads: Heads) -> Choice
    requires merging { Merging (record_key tree.now text.now) (records tree.now) runs (heads.left + heads.right - runs.mid) heads scratch.now }
    requires right_bound { heads.left + heads.right < runs.mid + runs.hi }
    ensures { HeadChosen (record_key tree.now text.now) scratch.now runs heads result.left result.shared }
{
    let at = runs.at;
    let left = heads.left;
    let right = heads.right;
    if left == runs.mid {
        return Choice {
            left: false,
            shared: 0,
        };
    }
    if right == runs.hi {
        return Choice {
            left: true,
            shared: 0,
        };
    }
    choose(
        tree,
        text,
        load(scratch, at + SORT_ENTRY_BYTES * left) as usize,
        load(scratch, at + SORT_ENTRY_BYTES * right) as usize,
        heads.left_shared,
        heads.right_shared,
    )
}

// What stands beside entry i, if that is below `end`.
fn shared_before(scratch: &[u8], at: usize, i: usize, end: usize) -> u32
    requires { at + sort_entry_bytes * end ≤ length scratch.now }
    ensures { i < end → result ≡ shared_in scratch.now at i }
{
    if i < end {
        return load(scratch, at + SORT_ENTRY_BYTES * i + SECOND_WORD);
    }
    0
}

// The next one of two runs is put out, as entry k.
fn put_next(
    tree: &[u8],
    text: &[u8],
    scratch: &mut [u8],
    runs: Runs,
    k: usize,
    heads: Heads,
) -> Heads
    requires { Merging (record_key tree.now text.now) (records tree.now) runs k heads scratch.old × (k < runs.hi) }
    ensures merging { Merging (record_key tree.now text.now) (records tree.now) runs (k + 1) result scratch.new }
    ensures only_there { OnlyThere runs.to runs.lo runs.hi scratch.old scratch.new }
{
    let at = runs.at;
    let left = heads.left;
    let right = heads.right;
    let out = runs.to + SORT_ENTRY_BYTES * k;
    let choice = choose_head(tree, text, scratch, runs, heads);
    if choice.left {
        let next = heads.left + 1;
        let a = load(scratch, at + SORT_ENTRY_BYTES * left);
        let after = shared_before(scratch, at, next, runs.mid);
        put_pair(scratch, out, a, heads.left_shared);
        return Heads {
            left: next,
            right,
            left_shared: after,
            right_shared: choice.shared,
        };
    }
    let next = heads.right + 1;
    let b = load(scratch, at + SORT_ENTRY_BYTES * right);
    let after = shared_before(scratch, at, next, runs.hi);
    put_pair(scratch, out, b, heads.right_shared);
    Heads {
        left,
        right: next,
        left_shared: choice.shared,
        right_shared: after,
    }
}

// The two runs are merged.
fn merge(tree: &[u8], text: &[u8], scratch: &mut [u8], runs: Runs)
    requires { TwoRuns (record_key tree.now text.now) (records tree.now) runs scratch.old }
    ensures arranged { Arranged (record_key tree.now text.now) scratch.old runs.at scratch.new runs.to runs.lo runs.hi }
    ensures only_there { OnlyThere runs.to runs.lo runs.hi scratch.old scratch.new }
{
    let mut heads = Heads {
        left: runs.lo,
        right: runs.mid,
        left_shared: 0,
        right_shared: 0,
    };
    for k in runs.lo..runs.hi {
        heads = put_next(tree, text, scratch, runs, k, heads);
    }
}

// The entries from lo to hi, which stand both from `at` and from `to` on, are sorted from `to` on: each half from `at` on, and both merged.
fn sort_range(
    tree: &[u8],
    text: &[u8],
    scratch: &mut [u8],
    at: usize,
    to: usize,
    lo: usize,
    hi: usize,
)
    requires { Sortable (records tree.now) at to lo hi scratch.old }
    ensures arranged { Arranged (record_key tree.now text.now) scratch.old at scratch.new to lo hi }
    ensures only_both { OnlyBoth at to lo hi scratch.old scratch.new }
{
    if hi - lo < 2 {
        return;
    }
    let mid = lo + (hi - lo) / 2;
    sort_range(tree, text, scratch, to, at, lo, mid);
    sort_range(tree, text, scratch, to, at, mid, hi);
    let runs = Runs {
        at,
        to,
        lo,
        mid,
        hi,
    };
    merge(tree, text, scratch, runs);
}

// The records of the m entries from `at` on, once more from `to` on.
fn copy_records(scratch: &mut [u8], at: usize, to: usize, m: usize)
    requires { TwoPlaces at to 0 m scratch.old }
    ensures { ((i : ℕ) → i < m → record_in scratch.new to i ≡ record_in scratch.old at i) × OnlyThere to 0 m scratch.old scratch.new }
{
    for i in 0..m {
        let r = load(scratch, at + SORT_ENTRY_BYTES * i);
        put_pair(scratch, to + SORT_ENTRY_BYTES * i, r, 0);
    }
}

// The m records from `at` on, which rise, are sorted by their keys; as many entries from `to` on are room to work in.
pub fn sort_records(tree: &[u8], text: &[u8], scratch: &mut [u8], at: usize, to: usize, m: usize)
    requires { TwoPlaces at to 0 m scratch.old × RecordsRise (records tree.now) at 0 m scratch.old }
    ensures arranged { Arranged (record_key tree.now text.now) scratch.old at scratch.new at 0 m }
    ensures only_both { OnlyBoth at to 0 m scratch.old scratch.new }
{
    copy_records(scratch, at, to, m);
    sort_range(tree, text, scratch, to, at, 0, m);
}

// How many bytes the text of record r has.
fn text_long(tree: &[u8], text: &[u8], r: usize) -> usize
    requires { r < records tree.now }
    ensures { result ≡ length (record_text tree.now text.now r) }
{
    reach(
        text,
        word(tree, r, WORD_A) as usize,
        word(tree, r, WORD_B) as usize,
    )
}

// A type's form and its words.
const WORD_KEY: usize = 1 + KEY_WORDS;

// How long the key of record r is.
fn key_long(tree: &[u8], text: &[u8], r: usize) -> usize
    requires { r < records tree.now }
    ensures { result ≡ length (record_key tree.now text.now r) }
{
    if has_words(tree, r) {
        return WORD_KEY;
    }
    text_long(tree, text, r)
}

// Entry i and the one behind it have the same key: they agree to the end of both.
fn same_as_next(tree: &[u8], text: &[u8], scratch: &[u8], at: usize, i: usize) -> bool
    requires { SortedRecords (record_key tree.now text.now) (records tree.now) at (i + 2) scratch.now }
    ensures { result ≡ same_next (record_key tree.now text.now) scratch.now at i }
{
    let next = i + 1;
    let shared = load(scratch, at + SORT_ENTRY_BYTES * next + SECOND_WORD) as usize;
    let x = key_long(
        tree,
        text,
        load(scratch, at + SORT_ENTRY_BYTES * i) as usize,
    );
    let y = key_long(
        tree,
        text,
        load(scratch, at + SORT_ENTRY_BYTES * next) as usize,
    );
    (shared == x) & (shared == y)
}

// The record of the entry behind entry i, if that has the same key; else `bound`.
fn repeated_behind(
    tree: &[u8],
    text: &[u8],
    scratch: &[u8],
    at: usize,
    i: usize,
    bound: usize,
) -> usize
    requires { SortedRecords (record_key tree.now text.now) (records tree.now) at (i + 2) scratch.now }
    ensures { RepeatedBehind (record_key tree.now text.now) scratch.now at i bound result }
{
    if same_as_next(tree, text, scratch, at, i) {
        return load(scratch, at + SORT_ENTRY_BYTES * (i + 1)) as usize;
    }
    bound
}

// The lowest of m sorted records that has the key of a lower one, or `bound` where none is lower than that.
pub fn first_repeated(
    tree: &[u8],
    text: &[u8],
    scratch: &[u8],
    at: usize,
    m: usize,
    bound: usize,
) -> usize
    requires { SortedRecords (record_key tree.now text.now) (records tree.now) at m scratch.now }
    ensures { FirstRepeated (record_key tree.now text.now) scratch.now at m bound result }
{
    let mut lowest = bound;
    for i in 1..m {
        lowest = lowest.min(repeated_behind(tree, text, scratch, at, i - 1, bound));
    }
    lowest
}

// The first record with the key of entry i, where `first` is that with the key of the entry before.
fn first_up_to(tree: &[u8], text: &[u8], scratch: &[u8], at: usize, i: usize, first: u32) -> u32
    requires sorted_records { SortedRecords (record_key tree.now text.now) (records tree.now) at (i + 1) scratch.now }
    requires by_index { (q : ℕ) → q + 1 ≡ i → FirstUpTo (record_key tree.now text.now) scratch.now at q first }
    ensures { FirstUpTo (record_key tree.now text.now) scratch.now at i result }
{
    let r = load(scratch, at + SORT_ENTRY_BYTES * i);
    if i == 0 {
        return r;
    }
    if same_as_next(tree, text, scratch, at, i - 1) {
        return first;
    }
    r
}

// Each of m sorted records gets its number, the first record with its key: a word for each record, from `to` on.
pub fn number_sorted(tree: &[u8], text: &[u8], scratch: &mut [u8], at: usize, m: usize, to: usize)
    requires { SortedRecords (record_key tree.now text.now) (records tree.now) at m scratch.old × NumbersApart (records tree.now) at m to scratch.old }
    ensures { NumberedUpTo (record_key tree.now text.now) (records tree.now) at m to m scratch.old scratch.new }
{
    let mut first: u32 = 0;
    for i in 0..m {
        first = first_up_to(tree, text, scratch, at, i, first);
        let r = load(scratch, at + SORT_ENTRY_BYTES * i) as usize;
        put_word(scratch, to + ORIGINAL_BYTES * r, first);
    }
}
