// The numbering of a function's variables and labels: each step is done by value, and the thin functions at the end change the
// counters that are lent to them.
ghost use Rattle.std.specs.Prelude.{◌≡◌, ◌-◌, ◌*◌, ◌^◌, ◌<◌};
ghost use Rattle.ir.specs.Arena.{arena_each, HasSlot, label_slot, Room};
ghost use Rattle.ir.specs.Search.{label_is};
ghost use Rattle.ir.specs.Steps.{named, AddsVar, LabelAdded, NumbersLabel};

use crate::arena::{
    LABEL_BYTES, LABEL_SLOT_BYTES, LABEL_SLOTS, LABELS, SEARCH_BYTES, VARIABLE_BYTES, VARIABLES,
};
use crate::search::is_label_at;
use crate::structs::{Counters, Label, VarId, WithCounters};
use records::words::{index, load, put_pair, put_word};

// A new variable of this type: its number is its index among its function's variables.
fn add_var(arena: &mut [u8], k: Counters, ty: u32) -> WithCounters<VarId>
    requires { Room k arena.old × (k.variables < 3 * k.records) }
    ensures { AddsVar ty k arena.old result arena.new }
{
    let v = k.variables;
    let var = VarId((v - k.variables_before) as u32, ty);
    put_word(arena, VARIABLES * k.records + VARIABLE_BYTES * v, ty);
    WithCounters {
        value: var,
        counters: Counters {
            variables: v + 1,
            ..k
        },
    }
}

// Where the number of the label of this kind that this record opens stands, in the tables of n records.
fn label_slot(n: usize, kind: u32, opener: u32) -> usize
    requires { (arena_each * n < 2 ^ 32) × HasSlot n (named kind opener) }
    ensures { result ≡ label_slot n (named kind opener) }
{
    LABEL_SLOTS * n + LABEL_SLOT_BYTES * index(opener) + SEARCH_BYTES * index(kind - 1)
}

// A label more: its number at its slot, and its entry at the end.
fn add_label(arena: &mut [u8], k: Counters, kind: u32, opener: u32) -> WithCounters<Label>
    requires { Room k arena.old × (k.labels < 3 * k.records) × HasSlot k.records (named kind opener) }
    ensures { (result.value.0 ≡ k.labels - k.labels_before) × LabelAdded kind opener k arena.old result.counters arena.new }
{
    let v = k.labels;
    let number = (v - k.labels_before) as u32;
    let slot = label_slot(k.records, kind, opener);
    put_word(arena, slot, number);
    put_pair(arena, LABELS * k.records + LABEL_BYTES * v, kind, opener);
    WithCounters {
        value: Label(number),
        counters: Counters { labels: v + 1, ..k },
    }
}

// Whether the function at hand has a label of this number, and it is of this kind and opened by this record.
fn is_label(arena: &[u8], k: Counters, number: u32, kind: u32, opener: u32) -> bool
    requires { Room k arena.now }
    ensures { result ≡ label_is arena.now k kind opener number }
{
    let i = index(number);
    if i >= k.labels - k.labels_before {
        return false;
    }
    is_label_at(
        arena,
        LABELS * k.records + LABEL_BYTES * k.labels_before,
        i,
        kind,
        opener,
    )
}

// The label of this kind that this record opens: its number is its index among its function's labels, added the first time it is asked. Its slot
// has the number, or what another function or nobody wrote there: the label that stands under the number tells.
fn number_label(arena: &mut [u8], k: Counters, kind: u32, opener: u32) -> WithCounters<Label>
    requires { Room k arena.old × (k.labels < 3 * k.records) × HasSlot k.records (named kind opener) }
    ensures { NumbersLabel kind opener k arena.old result arena.new }
{
    let number = load(arena, label_slot(k.records, kind, opener));
    if is_label(arena, k, number, kind, opener) {
        return WithCounters {
            value: Label(number),
            counters: k,
        };
    }
    add_label(arena, k, kind, opener)
}

// `new_var`, on the counters that are lent.
pub fn new_var(arena: &mut [u8], k: &mut Counters, ty: u32) -> VarId
    requires { Room k.old arena.old × (k.old.variables < 3 * k.old.records) }
    ensures { AddsVar ty k.old arena.old (record { value = result; counters = k.new }) arena.new }
{
    let made = add_var(arena, *k, ty);
    *k = made.counters;
    made.value
}

// `label_id`, on the counters that are lent.
pub fn label_id(arena: &mut [u8], k: &mut Counters, kind: u32, opener: u32) -> Label
    requires { Room k.old arena.old × (k.old.labels < 3 * k.old.records) × HasSlot k.old.records (named kind opener) }
    ensures { NumbersLabel kind opener k.old arena.old (record { value = result; counters = k.new }) arena.new }
{
    let found = number_label(arena, *k, kind, opener);
    *k = found.counters;
    found.value
}
