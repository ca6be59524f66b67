// The rules for one record, over what is known of the records below it.
ghost use Rattle.std.specs.Prelude.{◌≡◌, not, ◌&&◌, ◌||◌, ◌+◌, ◌*◌, ◌≤◌, eqb, leb, length};
ghost use Rattle.laws.specs.Fix.{below};
ghost use Rattle.records.specs.Layout.{known_bytes};
ghost use Rattle.records.specs.Words.{record_bytes, none};
ghost use Rattle.records.specs.Kinds.{kind_if, kind_function};
ghost use Rattle.judge.specs.Inner.{item_class, cell_class, class_at, class_in, low_badge, high_badge, none_ok, is_unused};

use records::layout::{KNOWN_BYTES, NEXT_CLASS};
use records::numbers::{
    KIND_CONTINUE, KIND_DECLARE, KIND_FUNCTION, KIND_IF, KIND_LIST, KIND_TYPE_ARGUMENT, KIND_VALUE,
    KIND_VARIABLE,
};
use records::shape::Role;
use records::words::{NONE, WORD_C, index, kind, word};

// What the items of a list are, all of them: the third of a cell's four bytes.
pub(crate) const MIXED: u8 = 0;

const ARGUMENTS: u8 = 1;

pub(crate) const PARAMETERS: u8 = 2;

const STATEMENTS: u8 = 3;

// A record's badge is four times its kind, and what its list holds.
pub(crate) const BADGES_EACH: u32 = 4;

// The badges of types, expressions, names, cells and variables, each from the lowest to the highest; those of the cells that begin one sort of list; and the
// highest of all.
const TYPE_LOW: u32 = 4;

const TYPE_HIGH: u32 = 7;

const EXPR_LOW: u32 = 8;

const EXPR_HIGH: u32 = 47;

const NAME_LOW: u32 = 24;

const NAME_HIGH: u32 = 27;

const CELL_LOW: u32 = 48;

const CELL_HIGH: u32 = 51;

const VARIABLE_LOW: u32 = 96;

const VARIABLE_HIGH: u32 = 99;

const ARGUMENTS_BADGE: u32 = 49;

const PARAMETERS_BADGE: u32 = 50;

const STATEMENTS_BADGE: u32 = 51;

const HIGHEST: u32 = 1023;

// What the lower list holds that a word refers to.
fn class_below(known: &[u8], r: usize, w: u32) -> u8
    requires { r * known_bytes + known_bytes ≤ length known.now }
    ensures { result ≡ below (class_in known.now) r w 0 }
{
    let i = index(w);
    if i < r {
        return known[i * KNOWN_BYTES + NEXT_CLASS];
    }
    MIXED
}

// Which list record a may stand in.
fn item_class(tree: &[u8], a: usize) -> u8
    requires { a * record_bytes + record_bytes ≤ length tree.now }
    ensures { result ≡ item_class tree.now a }
{
    let k = kind(tree, a);
    if (k == KIND_VALUE) | (k == KIND_TYPE_ARGUMENT) {
        return ARGUMENTS;
    }
    if (KIND_DECLARE <= k) & (k <= KIND_CONTINUE) {
        return STATEMENTS;
    }
    if k != KIND_VARIABLE {
        return MIXED;
    }
    if word(tree, a, WORD_C) == NONE {
        return MIXED;
    }
    PARAMETERS
}

// What the list holds whose first cell is record r, with the words a and b: its item, where the rest holds the same.
fn cell_class(tree: &[u8], r: usize, a: u32, b: u32, known: &[u8]) -> u8
    requires { (r * record_bytes ≤ length tree.now) × (r * known_bytes + known_bytes ≤ length known.now) }
    ensures { result ≡ cell_class tree.now (class_in known.now) r a b }
{
    let item = index(a);
    if item >= r {
        return MIXED;
    }
    let class = item_class(tree, item);
    if b == NONE {
        return class;
    }
    if class_below(known, r, b) != class {
        return MIXED;
    }
    class
}

// What the list holds whose first cell is record r; 0 where it is no cell.
pub(crate) fn class_at(tree: &[u8], r: usize, k: u8, a: u32, b: u32, known: &[u8]) -> u8
    requires { (r * record_bytes ≤ length tree.now) × (r * known_bytes + known_bytes ≤ length known.now) }
    ensures { result ≡ class_at tree.now (class_in known.now) r k a b }
{
    if k == KIND_LIST {
        return cell_class(tree, r, a, b, known);
    }
    MIXED
}

// The badges that a word of this role may refer to, from the lowest ..
pub(crate) fn low_badge(role: Role) -> u32
    ensures { result ≡ low_badge role }
{
    match role {
        Role::Unused => 0,
        Role::Number => 0,
        Role::Text => 0,
        Role::Length => 0,
        Role::Expr => EXPR_LOW,
        Role::TypeRef => TYPE_LOW,
        Role::TypeOrNone => TYPE_LOW,
        Role::Name => NAME_LOW,
        Role::Variable => VARIABLE_LOW,
        Role::Arguments => ARGUMENTS_BADGE,
        Role::Parameters => PARAMETERS_BADGE,
        Role::Body => STATEMENTS_BADGE,
        Role::Item => 0,
        Role::Rest => CELL_LOW,
    }
}

// .. to the highest.
pub(crate) fn high_badge(role: Role) -> u32
    ensures { result ≡ high_badge role }
{
    match role {
        Role::Unused => 0,
        Role::Number => 0,
        Role::Text => 0,
        Role::Length => 0,
        Role::Expr => EXPR_HIGH,
        Role::TypeRef => TYPE_HIGH,
        Role::TypeOrNone => TYPE_HIGH,
        Role::Name => NAME_HIGH,
        Role::Variable => VARIABLE_HIGH,
        Role::Arguments => ARGUMENTS_BADGE,
        Role::Parameters => PARAMETERS_BADGE,
        Role::Body => STATEMENTS_BADGE,
        Role::Item => HIGHEST,
        Role::Rest => CELL_HIGH,
    }
}

// A word of this role may refer to none.
pub(crate) fn none_ok(role: Role) -> bool
    ensures { result ≡ none_ok role }
{
    match role {
        Role::Unused => false,
        Role::Number => false,
        Role::Text => false,
        Role::Length => false,
        Role::Expr => false,
        Role::TypeRef => false,
        Role::TypeOrNone => true,
        Role::Name => false,
        Role::Variable => false,
        Role::Arguments => true,
        Role::Parameters => true,
        Role::Body => true,
        Role::Item => false,
        Role::Rest => true,
    }
}

// A word of this role is not used.
pub(crate) fn is_unused(role: Role) -> bool
    ensures { result ≡ is_unused role }
{
    match role {
        Role::Unused => true,
        Role::Number => false,
        Role::Text => false,
        Role::Length => false,
        Role::Expr => false,
        Role::TypeRef => false,
        Role::TypeOrNone => false,
        Role::Name => false,
        Role::Variable => false,
        Role::Arguments => false,
        Role::Parameters => false,
        Role::Body => false,
        Role::Item => false,
        Role::Rest => false,
    }
}

// An If without the mark has no otherwise (its word c). Few records are an If, so the others are not asked.
pub(crate) fn otherwise_ok(k: u8, found: u8, c: u32) -> bool
    ensures { result ≡ (not (eqb k kind_if) || eqb found 1 || eqb c none) }
{
    if k == KIND_IF {
        return (found == 1) | (c == NONE);
    }
    true
}

// The same, and a function without the flag has no body (its word e).
pub(crate) fn marks_ok(k: u8, found: u8, c: u32, e: u32) -> bool
    ensures { result ≡ ((not (eqb k kind_if) || eqb found 1 || eqb c none) && (not (eqb k kind_function) || leb 4 found || eqb e none)) }
{
    otherwise_ok(k, found, c) & ((k != KIND_FUNCTION) | (4 <= found) | (e == NONE))
}
