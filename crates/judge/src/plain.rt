// A record that is right and of a kind that uses A, B and C alone, taken with no jump by what it is but for an If and a list's cell. Each word leads to a slot of
// four bytes: that of a lower record, or slot 0 where the word is none or does not refer. Only what is wrong branches; it is taken again, by `take_any`.
ghost use Rattle.std.specs.Prelude.{◌≡◌, true, false, ◌&&◌, ℕ, ◌+◌, ◌*◌, ◌/◌, ◌%◌, ◌≤◌, ◌<◌, leb, length, get_or, set};
ghost use Rattle.records.specs.Layout.{known_bytes, slot_count};
ghost use Rattle.records.specs.Words.{record_bytes, most_records, kind_of};
ghost use Rattle.records.specs.Kinds.{kind_list};
ghost use Rattle.records.specs.Shapes.{row_of};
ghost use Rattle.judge.specs.Inner.{class_in, item_class, class_at};
ghost use Rattle.judge.specs.Plain.{plain_rules, rule_rows, rule_numbers, must_refer, must_be_zero, badge_in, badge_within, Place, Cells, Owned, PlainForm, WordSlots, TookSlots, PlainReady, TookPlain};

use crate::nesting::depth_over;
use crate::pass::{Words, five_words, put_known};
use crate::references::Told;
use crate::rules::{BADGES_EACH, MIXED, PARAMETERS, otherwise_ok};
use records::layout::{CLASS_AT, COUNT_AT, DEPTH_AT, KIND_AT, KNOWN_BYTES};
use records::numbers::{KIND_FUNCTION, KIND_LIST, KIND_VARIABLE};
use records::words::{NONE, WORD_C, detail, index, pad, word};

// Words are numbers below this; none is the last of them.
const WORDS: usize = 4294967296;

// As deep as what a right record refers to may be.
const DEEPEST_BELOW: u8 = 63;

// Where the numbers stand in the table of rules below: how many a row has, and all of them.
const ROW_NUMBERS: usize = 20;

pub(crate) const RULE_NUMBERS: usize = 520;

// Among a word's five, behind whether it refers: whether it must, the lowest and the highest badge, whether it must be zero.
const MUST_REFER: usize = 1;

const BADGE_FROM: usize = 2;

const BADGE_TO: usize = 3;

const MUST_BE_ZERO: usize = 4;

// In a row, behind the five of A: those of B and C, and the last of each.
const RULE_OF_B: usize = 5;

const RULE_OF_C: usize = 10;

const ZERO_OF_B: usize = 9;

const ZERO_OF_C: usize = 14;

const TEXT_RULE: usize = 15;

const LIMIT_RULE: usize = 16;

const OWN_CLASS: usize = 17;

const OWN_KIND: usize = 18;

const ITEM_RULE: usize = 19;

// A row of numbers for each kind. For each of the words A, B and C: whether it refers to a record, whether it must, the badges that it may refer to, lowest and
// highest, whether it must be zero. Then whether A is a text, the limit of the details (0 where D or E is used), and what stands in slot 0, class and kind: a
// badge that its words which may be none may refer to; and which list such a record may stand in.
pub(crate) const RULES: [u8; RULE_NUMBERS] = [
    0, 0, 0, 255, 1, 0, 0, 0, 255, 1, 0, 0, 0, 255, 1, 0, 0, 0, 0, 0, 0, 0, 0, 255, 1, 0, 0, 0,
    255, 1, 0, 0, 0, 255, 1, 0, 0, 0, 0, 0, 0, 0, 0, 255, 0, 0, 0, 0, 255, 0, 0, 0, 0, 255, 1, 0,
    4, 0, 0, 0, 0, 0, 0, 255, 0, 0, 0, 0, 255, 0, 0, 0, 0, 255, 1, 0, 2, 0, 0, 0, 0, 0, 0, 255, 0,
    0, 0, 0, 255, 0, 0, 0, 0, 255, 1, 1, 1, 0, 0, 0, 0, 0, 0, 255, 1, 0, 0, 0, 255, 1, 0, 0, 0,
    255, 1, 0, 2, 0, 0, 0, 0, 0, 0, 255, 0, 0, 0, 0, 255, 0, 0, 0, 0, 255, 1, 1, 1, 0, 0, 0, 0, 0,
    0, 255, 1, 0, 0, 0, 255, 1, 0, 0, 0, 255, 1, 0, 1, 0, 0, 0, 1, 1, 4, 7, 0, 0, 0, 0, 255, 1, 0,
    0, 0, 255, 1, 0, 1, 0, 0, 0, 1, 1, 8, 47, 0, 0, 0, 0, 255, 1, 0, 0, 0, 255, 1, 0, 3, 0, 0, 0,
    1, 1, 8, 47, 0, 1, 1, 8, 47, 0, 0, 0, 0, 255, 1, 0, 18, 0, 0, 0, 0, 0, 0, 255, 0, 0, 0, 0, 255,
    0, 1, 0, 49, 49, 0, 1, 1, 1, 12, 0, 1, 1, 0, 255, 0, 1, 0, 48, 51, 0, 0, 0, 0, 255, 1, 0, 1, 0,
    12, 0, 1, 1, 8, 47, 0, 0, 0, 0, 255, 1, 0, 0, 0, 255, 1, 0, 1, 0, 0, 1, 1, 1, 4, 7, 0, 0, 0, 0,
    255, 1, 0, 0, 0, 255, 1, 0, 1, 0, 0, 1, 0, 0, 0, 255, 0, 0, 0, 0, 255, 0, 1, 1, 4, 7, 0, 1, 1,
    0, 0, 3, 0, 0, 0, 255, 0, 0, 0, 0, 255, 0, 1, 1, 8, 47, 0, 1, 2, 0, 0, 3, 1, 1, 8, 47, 0, 0, 0,
    0, 255, 1, 0, 0, 0, 255, 1, 0, 1, 0, 0, 3, 1, 1, 8, 47, 0, 0, 0, 0, 255, 1, 0, 0, 0, 255, 1, 0,
    1, 0, 0, 3, 1, 1, 8, 47, 0, 1, 0, 51, 51, 0, 1, 0, 51, 51, 0, 0, 2, 3, 12, 3, 1, 1, 8, 47, 0,
    1, 0, 51, 51, 0, 0, 0, 0, 255, 1, 0, 1, 3, 12, 3, 1, 1, 96, 99, 0, 1, 1, 8, 47, 0, 1, 1, 8, 47,
    0, 0, 0, 0, 0, 3, 0, 0, 0, 255, 1, 0, 0, 0, 255, 1, 0, 0, 0, 255, 1, 0, 1, 0, 0, 3, 0, 0, 0,
    255, 1, 0, 0, 0, 255, 1, 0, 0, 0, 255, 1, 0, 1, 0, 0, 3, 0, 0, 0, 255, 0, 0, 0, 0, 255, 0, 1,
    0, 4, 7, 0, 1, 1, 0, 1, 2, 1, 1, 24, 27, 0, 1, 1, 24, 27, 0, 1, 0, 50, 50, 0, 0, 0, 0, 0, 0,
];

// As much as a rule says: all of x, or nothing.
fn scaled(x: usize, by: u8) -> usize
    requires { x ≤ 8589934592 }
    ensures { (result ≡ x * by) × (result ≤ 2190433320960) }
{
    x * index(u32::from(by))
}

// The slot that word w leads to, by the rule that starts at `at`.
fn place_of(w: u32, rules: &[u8; RULE_NUMBERS], at: usize) -> usize
    requires { at + must_be_zero < rule_numbers }
    ensures { (result ≡ (w + 1) % 4294967296 * get_or rules.now at 0) × (w < 4294967296) }
{
    scaled((index(w) + 1) % WORDS, rules[at])
}

// Slot p is one that such a word of record r may lead to.
fn place_ok(p: usize, r: usize, rules: &[u8; RULE_NUMBERS], at: usize) -> bool
    requires { at + must_be_zero < rule_numbers }
    ensures { result ≡ (leb (get_or rules.now (at + must_refer) 0) p && leb p r) }
{
    (index(u32::from(rules[at + MUST_REFER])) <= p) & (p <= r)
}

// The record in slot p is one that such a word may refer to.
fn badge_ok(known: &[u8], p: usize, rules: &[u8; RULE_NUMBERS], at: usize) -> bool
    requires { (at + must_be_zero < rule_numbers) × (p ≤ most_records) × (p * known_bytes + known_bytes ≤ length known.now) }
    ensures { result ≡ badge_within rules.now at (badge_in known.now p) }
{
    let badge = u32::from(known[p * KNOWN_BYTES + KIND_AT]) * BADGES_EACH
        + u32::from(known[p * KNOWN_BYTES + CLASS_AT]);
    (u32::from(rules[at + BADGE_FROM]) <= badge) & (badge <= u32::from(rules[at + BADGE_TO]))
}

// One more reference to the record in slot p: 1 after 0, and 2 or more after that.
fn count_one(known: &mut [u8], p: usize)
    requires { (p ≤ most_records) × (p * known_bytes + known_bytes ≤ length known.old) }
    ensures { known.new ≡ set known.old (p * known_bytes + slot_count) ((get_or known.old (p * known_bytes + slot_count) 0 + 3) / 2) }
{
    let count = u32::from(known[p * KNOWN_BYTES + COUNT_AT]);
    known[p * KNOWN_BYTES + COUNT_AT] = ((count + 3) / 2) as u8;
}

// Slot 0, of no depth. Its count matters to nobody: it begins anew, so that no record waits for those before it, and the four bytes are one word.
fn put_own(known: &mut [u8], class: u8, k: u8)
    requires { known_bytes ≤ length known.old }
    ensures { Owned known.old known.new }
{
    known[DEPTH_AT] = 0;
    known[COUNT_AT] = 0;
    known[CLASS_AT] = class;
    known[KIND_AT] = k;
}

// What a record must be aside from what it refers to, by the row of its kind.
fn form_ok(
    tree: &[u8],
    bytes: usize,
    r: usize,
    k: u8,
    words: Words,
    rules: &[u8; RULE_NUMBERS],
) -> bool
    requires { (r * record_bytes + record_bytes ≤ length tree.now) × (k < rule_rows) }
    ensures { result ≡ true → PlainForm tree.now bytes r k words rules.now }
{
    let row = k as usize * ROW_NUMBERS;
    let a = index(words.a);
    let b = index(words.b);
    let c = index(words.c);
    let za = scaled(a, rules[row + MUST_BE_ZERO]);
    let zb = scaled(b, rules[row + ZERO_OF_B]);
    let zc = scaled(c, rules[row + ZERO_OF_C]);
    let zero = za + zb + zc + index(words.d) + index(words.e) + index(pad(tree, r));
    let text = scaled(a + b, rules[row + TEXT_RULE]);
    let found = detail(tree, r);
    if zero != 0 {
        return false;
    }
    if text > bytes {
        return false;
    }
    if found >= rules[row + LIMIT_RULE] {
        return false;
    }
    otherwise_ok(k, found, words.c)
}

// Which list the record a of kind k may stand in.
fn item_of(tree: &[u8], a: usize, k: u8, rules: &[u8; RULE_NUMBERS]) -> u8
    requires { (a * record_bytes + record_bytes ≤ length tree.now) × (k ≡ kind_of tree.now a) × (rules.now ≡ plain_rules) }
    ensures { result ≡ item_class tree.now a }
{
    if k > KIND_FUNCTION {
        return MIXED;
    }
    if k == KIND_VARIABLE {
        if word(tree, a, WORD_C) == NONE {
            return MIXED;
        }
        return PARAMETERS;
    }
    rules[k as usize * ROW_NUMBERS + ITEM_RULE]
}

// What the list holds whose first cell is a record of kind k with the word a, where A and B lead to the slots pa and pb; 0 where it is no cell.
fn class_of(
    tree: &[u8],
    k: u8,
    a: u32,
    pa: usize,
    pb: usize,
    known: &[u8],
    rules: &[u8; RULE_NUMBERS],
) -> u8
    requires { Cells tree.now k a pa pb known.now rules.now }
    ensures { (r b : ℕ) → r < most_records → (k ≡ kind_list → a < r) → Place r (row_of k).b b pb → result ≡ class_at tree.now (class_in known.now) r k a b }
{
    if k != KIND_LIST {
        return MIXED;
    }
    let item = item_of(tree, index(a), known[pa * KNOWN_BYTES + KIND_AT], rules);
    let rest = known[pb * KNOWN_BYTES + CLASS_AT];
    if (pb != 0) & (rest != item) {
        return MIXED;
    }
    item
}

// Record r, right aside from what it refers to, whose words A, B and C lead to the slots pa, pb and pc: taken, if what it refers to is right.
fn take_slots(
    tree: &[u8],
    r: usize,
    k: u8,
    words: Words,
    pa: usize,
    pb: usize,
    pc: usize,
    known: &mut [u8],
    rules: &[u8; RULE_NUMBERS],
) -> Told
    requires { WordSlots tree.now r k words pa pb pc known.old rules.now }
    ensures { TookSlots tree.now r k words rules.now known.old known.new result.ok result.depth }
{
    let row = k as usize * ROW_NUMBERS;
    put_own(known, rules[row + OWN_CLASS], rules[row + OWN_KIND]);
    let badges = badge_ok(known, pa, rules, row)
        & badge_ok(known, pb, rules, row + RULE_OF_B)
        & badge_ok(known, pc, rules, row + RULE_OF_C);
    let deeper = known[pb * KNOWN_BYTES + DEPTH_AT].max(known[pc * KNOWN_BYTES + DEPTH_AT]);
    let below = known[pa * KNOWN_BYTES + DEPTH_AT].max(deeper);
    if !(badges & (below <= DEEPEST_BELOW)) {
        return Told {
            ok: false,
            depth: 0,
        };
    }
    count_one(known, pa);
    count_one(known, pb);
    count_one(known, pc);
    let class = class_of(tree, k, words.a, pa, pb, known, rules);
    let depth = depth_over(k, below);
    put_known(known, r, class, depth, k);
    Told { ok: true, depth }
}

// Record r of kind k, if it is right and uses A, B and C alone: then it is taken. Else only slot 0 was written, if at all.
pub(crate) fn take_plain(
    tree: &[u8],
    bytes: usize,
    r: usize,
    k: u8,
    known: &mut [u8],
    rules: &[u8; RULE_NUMBERS],
) -> Told
    requires { PlainReady tree.now r k known.old rules.now }
    ensures { TookPlain tree.now bytes r known.old known.new result.ok result.depth }
{
    let row = k as usize * ROW_NUMBERS;
    let words = five_words(tree, r);
    let pa = place_of(words.a, rules, row);
    let pb = place_of(words.b, rules, row + RULE_OF_B);
    let pc = place_of(words.c, rules, row + RULE_OF_C);
    let form = form_ok(tree, bytes, r, k, words, rules);
    let placed = place_ok(pa, r, rules, row)
        & place_ok(pb, r, rules, row + RULE_OF_B)
        & place_ok(pc, r, rules, row + RULE_OF_C);
    if !(form & placed) {
        return Told {
            ok: false,
            depth: 0,
        };
    }
    take_slots(tree, r, k, words, pa, pb, pc, known, rules)
}
