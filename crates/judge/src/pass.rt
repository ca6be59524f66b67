// One pass over the records in rising order. Each leaves four bytes: how deep it is, how often it was referred to so far, what its list holds, and its
// kind. So no list is walked, and a record's bytes are written before anything refers to them.
ghost use Rattle.std.specs.Prelude.{◌≡◌, Bool, false, not, List, ℕ, ◌+◌, ◌*◌, ◌≤◌, ◌<◌, eqb, ltb, length};
ghost use Rattle.laws.specs.Fix.{pick};
ghost use Rattle.records.specs.Layout.{known_bytes, scratch_each};
ghost use Rattle.records.specs.Words.{record_bytes, records, most_records};
ghost use Rattle.records.specs.Shapes.{row_at, refers};
ghost use Rattle.records.specs.Rules.{word_ok, record_ok};
ghost use Rattle.records.specs.Depth.{depth as depth_of};
ghost use Rattle.judge.specs.Plain.{plain_rules, TookPlain};
ghost use Rattle.judge.specs.Judge.{fewest_records, deepest_allowed};
ghost use Rattle.judge.specs.Inner.{Lowest, LowestSoFar, Passing, KnownBelow, Counting, Took, TookWords, WordsOf, TookRecord, TookAll, depth_in, stored};

use crate::equal::first_equal;
use crate::nesting::depth_over;
use crate::plain::{RULE_NUMBERS, RULES, take_plain};
use crate::references::{Told, lowest_miscounted, take_reference};
use crate::rules::{MIXED, class_at, is_unused, marks_ok};
use crate::types::{is_first_type, leading_types};
use records::layout::{KNOWN_BYTES, NEXT_CLASS, NEXT_COUNT, NEXT_DEPTH, NEXT_KIND};
use records::numbers::{KIND_FUNCTION, KIND_TYPE};
use records::shape::{Role, Row, refers_to, row_of, shape_of};
use records::words::{
    FEWEST_RECORDS, WORD_A, WORD_B, WORD_C, WORD_D, WORD_E, detail, index, kind, pad, word,
};

// 'a record is deeper than 64'
const DEEPEST: u8 = 64;

// The words A to E of a record.
#[derive(Clone, Copy)]
pub struct Words {
    pub a: u32,
    pub b: u32,
    pub c: u32,
    pub d: u32,
    pub e: u32,
}

// The lowest record that breaks a rule, and the lowest that is too deep.
#[derive(Clone, Copy)]
pub struct Lowests {
    pub fault: usize,
    pub deep: usize,
}

// Word w, with the word after it, is right for a role that refers to no record.
fn plain_ok(role: Role, w: u32, next: u32, bytes: usize) -> bool
    ensures { refers role ≡ false → (tree : List ℕ) (r : ℕ) → result ≡ word_ok tree bytes r role w next }
{
    match role {
        Role::Unused => w == 0,
        Role::Text => index(w) + index(next) <= bytes,
        _ => true,
    }
}

// Word w of record r, with the word after it. Most words refer to nothing, and are judged where they stand.
fn take_word(
    tree: &[u8],
    bytes: usize,
    r: usize,
    role: Role,
    w: u32,
    next: u32,
    known: &mut [u8],
) -> Told
    requires { (r < most_records) × (r * known_bytes + known_bytes ≤ length known.old) × KnownBelow tree.now r known.old }
    ensures { Took tree.now bytes r role w next known.old known.new result.ok result.depth }
{
    if refers_to(role) {
        return take_reference(tree, r, role, w, known);
    }
    Told {
        ok: plain_ok(role, w, next, bytes),
        depth: 0,
    }
}

// The five words of record r. Most kinds use A and B alone, and the other three are zero then.
fn take_words(tree: &[u8], bytes: usize, r: usize, row: Row, words: Words, known: &mut [u8]) -> Told
    requires r_lt_most_records { (r < most_records) × (r * known_bytes + known_bytes ≤ length known.old) × KnownBelow tree.now r known.old }
    requires row_value { (row ≡ row_at tree.now r) × WordsOf tree.now r words }
    ensures { TookWords tree.now bytes r known.old known.new result.ok result.depth }
{
    let ra = row.a;
    let rb = row.b;
    let rc = row.c;
    let rd = row.d;
    let re = row.e;
    let a = words.a;
    let b = words.b;
    let c = words.c;
    let d = words.d;
    let e = words.e;
    let ta = take_word(tree, bytes, r, ra, a, b, known);
    let tb = take_word(tree, bytes, r, rb, b, c, known);
    if is_unused(rc) & is_unused(rd) & is_unused(re) {
        let depth = ta.depth.max(tb.depth);
        return Told {
            ok: ta.ok & tb.ok & (c == 0) & (d == 0) & (e == 0),
            depth,
        };
    }
    let tc = take_word(tree, bytes, r, rc, c, d, known);
    let td = take_word(tree, bytes, r, rd, d, e, known);
    let te = take_word(tree, bytes, r, re, e, 0, known);
    let de = td.depth.max(te.depth);
    let ce = tc.depth.max(de);
    let be = tb.depth.max(ce);
    let depth = ta.depth.max(be);
    Told {
        ok: ta.ok & tb.ok & tc.ok & td.ok & te.ok,
        depth,
    }
}

pub(crate) fn five_words(tree: &[u8], r: usize) -> Words
    requires { r * record_bytes + record_bytes ≤ length tree.now }
    ensures { WordsOf tree.now r result }
{
    Words {
        a: word(tree, r, WORD_A),
        b: word(tree, r, WORD_B),
        c: word(tree, r, WORD_C),
        d: word(tree, r, WORD_D),
        e: word(tree, r, WORD_E),
    }
}

// The bytes of record r.
pub(crate) fn put_known(known: &mut [u8], r: usize, class: u8, depth: u8, k: u8)
    requires { r * known_bytes + 2 * known_bytes ≤ length known.old }
    ensures { known.new ≡ stored known.old r class depth k }
{
    let at = r * KNOWN_BYTES;
    known[at + NEXT_DEPTH] = depth;
    known[at + NEXT_COUNT] = 0;
    known[at + NEXT_CLASS] = class;
    known[at + NEXT_KIND] = k;
}

// Record r of any kind, against every rule but two: that no two types are equal, and that it is referred to once.
fn take_any(tree: &[u8], bytes: usize, r: usize, types: usize, known: &mut [u8]) -> Told
    requires r_bound { (r < records tree.now) × Passing tree.now (records tree.now) types known.old }
    requires known_below { KnownBelow tree.now r known.old × Counting tree.now r known.old }
    ensures { TookRecord tree.now bytes r known.old known.new result.ok result.depth }
{
    let k = kind(tree, r);
    let found = detail(tree, r);
    let row = row_of(shape_of(k, found));
    let words = five_words(tree, r);
    let told = take_words(tree, bytes, r, row, words, known);
    let form = (pad(tree, r) == 0) & (found < row.limit) & told.ok;
    let marks = marks_ok(k, found, words.c, words.e);
    let first = is_first_type(tree, r);
    let lead = (k != KIND_TYPE) | (r < types);
    let class = class_at(tree, r, k, words.a, words.b, known);
    let depth = depth_over(k, told.depth);
    put_known(known, r, class, depth, k);
    Told {
        ok: form & marks & first & lead,
        depth,
    }
}

// How deep the type is that word a of one of the twelve first types refers to; 0 where it refers to none.
fn inner_depth(a: u32, known: &[u8]) -> u8
    requires { a * known_bytes + 2 * known_bytes ≤ length known.now }
    ensures { result ≡ pick (eqb a 0) 0 (depth_in known.now a) }
{
    if a == 0 {
        return 0;
    }
    known[index(a) * KNOWN_BYTES + NEXT_DEPTH]
}

// Record r, one of the twelve first, if it is right: then it is taken. What it refers to is a type, whose references are not counted. Else nothing was written.
fn take_first(tree: &[u8], bytes: usize, r: usize, types: usize, known: &mut [u8]) -> Told
    requires r_lt_fewest_records { (r < fewest_records) × (r < records tree.now) × Passing tree.now (records tree.now) types known.old }
    requires known_below { KnownBelow tree.now r known.old × Counting tree.now r known.old }
    ensures { TookPlain tree.now bytes r known.old known.new result.ok result.depth }
{
    let words = five_words(tree, r);
    let zero = index(words.b) + index(words.c) + index(pad(tree, r));
    let text = index(words.d) + index(words.e);
    let first = is_first_type(tree, r);
    if !((zero == 0) & (text <= bytes) & first & (r < types)) {
        return Told {
            ok: false,
            depth: 0,
        };
    }
    let below = inner_depth(words.a, known);
    let depth = depth_over(KIND_TYPE, below);
    put_known(known, r, MIXED, depth, KIND_TYPE);
    Told { ok: true, depth }
}

// Record r against the same rules. Most are right, and taken by the table or as one of the first types; what is wrong with another is found by `take_any`.
fn take_record(
    tree: &[u8],
    bytes: usize,
    r: usize,
    types: usize,
    known: &mut [u8],
    rules: &[u8; RULE_NUMBERS],
) -> Told
    requires r_bound { (r < records tree.now) × Passing tree.now (records tree.now) types known.old × (rules.now ≡ plain_rules) }
    requires known_below { KnownBelow tree.now r known.old × Counting tree.now r known.old }
    ensures { TookRecord tree.now bytes r known.old known.new result.ok result.depth }
{
    let k = kind(tree, r);
    if k > KIND_FUNCTION {
        return take_any(tree, bytes, r, types, known);
    }
    if r < FEWEST_RECORDS {
        let first = take_first(tree, bytes, r, types, known);
        if first.ok {
            return first;
        }
        return take_any(tree, bytes, r, types, known);
    }
    let told = take_plain(tree, bytes, r, k, known, rules);
    if told.ok {
        return told;
    }
    take_any(tree, bytes, r, types, known)
}

// The lowest so far, with record r: `found` is below r, or the number of all records, so that nothing is to be done where r is right.
fn next_lowest(found: usize, r: usize, ok: bool) -> usize
    ensures { (n : ℕ) (f : ℕ → Bool) → r < n → LowestSoFar n r f found → not ok ≡ f r → LowestSoFar n (r + 1) f result }
{
    if ok {
        return found;
    }
    if found < r {
        return found;
    }
    r
}

// All records.
fn pass(tree: &[u8], bytes: usize, n: usize, types: usize, known: &mut [u8]) -> Lowests
    requires { Passing tree.now n types known.old }
    ensures { TookAll tree.now bytes n known.old known.new result.fault result.deep }
{
    let mut fault = n;
    let mut deep = n;
    let rules = RULES;
    for r in 0..n {
        let told = take_record(tree, bytes, r, types, known, &rules);
        let ok = told.ok;
        let low = told.depth <= DEEPEST;
        fault = next_lowest(fault, r, ok);
        deep = next_lowest(deep, r, low);
    }
    Lowests { fault, deep }
}

// The lowest record that breaks a rule, and the lowest that is too deep, each n where there is none.
pub(crate) fn lowest_records(tree: &[u8], text: &[u8], n: usize, scratch: &mut [u8]) -> Lowests
    requires { (n * record_bytes ≡ length tree.now) × (n ≤ most_records) × (scratch_each * n ≤ length scratch.old) }
    ensures lowest { Lowest n (λ k. not (record_ok tree.now text.now k)) result.fault }
    ensures lowest_2 { Lowest n (λ k. ltb deepest_allowed (depth_of tree.now k)) result.deep }
    ensures scratch_len_unchanged { length scratch.new ≡ length scratch.old }
{
    let types = leading_types(tree, n);
    let equal = first_equal(tree, text, types, scratch);
    let passed = pass(tree, text.len(), n, types, scratch);
    let fault = passed.fault;
    let deep = passed.deep;
    let once = lowest_miscounted(tree, fault, scratch);
    if (equal < types) & (equal < once) {
        return Lowests { fault: equal, deep };
    }
    Lowests { fault: once, deep }
}
