// The counters lent as ten words: each step stores the word that it changed (`add_function` four of them), and nothing is moved. What numbers reads
// the words into a struct first, takes its step by value, and stores what changed.
ghost use Rattle.std.specs.Prelude.{◌≡◌, ◌*◌, ◌≤◌, ◌<◌, length};
ghost use Rattle.conversion.specs.Ir.{float_bits};
ghost use Rattle.ir.specs.Arena.{HasSlot, Room};
ghost use Rattle.ir.specs.Counted.{counter_words, counted};
ghost use Rattle.ir.specs.Floats.{entry_of_float};
ghost use Rattle.ir.specs.Steps.{named, AddsVar, NumbersLabel, NumbersString, NumbersFloat, Closes, Next};

use crate::floats::FloatBits;
use crate::structs::{Counters, Label, TextId, VarId};
use crate::{pool, structs};

// Which word is which: the records of the tree, the entries of each table, and how many there were before the function at hand began.
pub const COUNT_RECORDS: usize = 0;

pub const COUNT_INSTRUCTIONS: usize = 1;

pub const COUNT_VARIABLES: usize = 2;

pub const COUNT_LABELS: usize = 3;

pub const COUNT_FUNCTIONS: usize = 4;

pub const COUNT_STRINGS: usize = 5;

pub const COUNT_FLOATS: usize = 6;

pub const COUNT_INSTRUCTIONS_BEFORE: usize = 7;

pub const COUNT_VARIABLES_BEFORE: usize = 8;

pub const COUNT_LABELS_BEFORE: usize = 9;

// How many there are.
pub const COUNTERS: usize = 10;

// The words as a struct.
pub fn counters_of(k: &[usize]) -> Counters
    requires { counter_words ≤ length k.now }
    ensures { result ≡ counted k.now }
{
    Counters {
        records: k[COUNT_RECORDS],
        instructions: k[COUNT_INSTRUCTIONS],
        variables: k[COUNT_VARIABLES],
        labels: k[COUNT_LABELS],
        functions: k[COUNT_FUNCTIONS],
        strings: k[COUNT_STRINGS],
        floats: k[COUNT_FLOATS],
        instructions_before: k[COUNT_INSTRUCTIONS_BEFORE],
        variables_before: k[COUNT_VARIABLES_BEFORE],
        labels_before: k[COUNT_LABELS_BEFORE],
    }
}

// The four that number differ in the step and in the word that they store: one function for them would take the step as a closure, and each clause would have to
// speak of what that closure ensures.

// A new variable of this type.
pub fn new_var(arena: &mut [u8], k: &mut [usize], ty: u32) -> VarId
    requires { Room (counted k.old) arena.old × ((counted k.old).variables < 3 * (counted k.old).records) }
    ensures { AddsVar ty (counted k.old) arena.old (record { value = result; counters = counted k.new }) arena.new }
{
    let c = counters_of(k);
    let made = structs::new_var(arena, c, ty);
    k[COUNT_VARIABLES] = made.counters.variables;
    made.value
}

// The label of this kind that this record opens.
pub fn label_id(arena: &mut [u8], k: &mut [usize], kind: u32, opener: u32) -> Label
    requires { Room (counted k.old) arena.old × ((counted k.old).labels < 3 * (counted k.old).records) × HasSlot (counted k.old).records (named kind opener) }
    ensures { NumbersLabel kind opener (counted k.old) arena.old (record { value = result; counters = counted k.new }) arena.new }
{
    let c = counters_of(k);
    let found = structs::label_id(arena, c, kind, opener);
    k[COUNT_LABELS] = found.counters.labels;
    found.value
}

// The string with this text.
pub fn string_id(arena: &mut [u8], k: &mut [usize], text: TextId) -> u32
    requires { Room (counted k.old) arena.old × ((counted k.old).strings < (counted k.old).records) × (text.number < (counted k.old).records) }
    ensures { NumbersString text.number text.offset text.len (counted k.old) arena.old (record { value = result; counters = counted k.new }) arena.new }
{
    let c = counters_of(k);
    let found = pool::string_id(arena, c, text);
    k[COUNT_STRINGS] = found.counters.strings;
    found.value
}

// The float with these bits and this mark.
pub fn float_id(arena: &mut [u8], k: &mut [usize], f: FloatBits) -> u32
    requires { Room (counted k.old) arena.old × ((counted k.old).floats < 2 * (counted k.old).records) }
    ensures { NumbersFloat (entry_of_float f) (counted k.old) arena.old (record { value = result; counters = counted k.new }) arena.new }
{
    let c = counters_of(k);
    let found = pool::float_id(arena, c, f);
    k[COUNT_FLOATS] = found.counters.floats;
    found.value
}

// The bits of a float that was numbered; 0 for a number that none has.
pub fn float_bits(arena: &[u8], k: &[usize], i: u32) -> u64
    requires { Room (counted k.now) arena.now }
    ensures { Next (float_bits i) (counted k.now) arena.now result (counted k.now) arena.now }
{
    pool::float_bits(arena, counters_of(k), i)
}

// The function at hand is done: its entry, and the next one begins.
pub fn add_function(arena: &mut [u8], k: &mut [usize], owner: u32, body: bool)
    requires { Room (counted k.old) arena.old × ((counted k.old).functions < (counted k.old).records) }
    ensures { Closes owner body (counted k.old) arena.old (counted k.new) arena.new }
{
    let c = counters_of(k);
    let next = structs::add_function(arena, c, owner, body);
    k[COUNT_FUNCTIONS] = next.functions;
    k[COUNT_INSTRUCTIONS_BEFORE] = next.instructions_before;
    k[COUNT_VARIABLES_BEFORE] = next.variables_before;
    k[COUNT_LABELS_BEFORE] = next.labels_before;
}
