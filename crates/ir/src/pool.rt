// The program's strings and floats: `string_id` and `float_id`. An entry's number is its index.
ghost use Rattle.std.specs.Prelude.{◌≡◌, ◌++◌, ◌+◌, ◌*◌, ◌≤◌, ◌<◌, length};
ghost use Rattle.laws.specs.Splice.{splice};
ghost use Rattle.conversion.specs.Ir.{float_bits};
ghost use Rattle.conversion.specs.Written.{word};
ghost use Rattle.ir.specs.Arena.{float_bucket, Room};
ghost use Rattle.ir.specs.Floats.{entry_of_float};
ghost use Rattle.ir.specs.Search.{string_is, float_head};
ghost use Rattle.ir.specs.Steps.{StringAdded, FloatAdded, NumbersString, NumbersFloat, Next};

use crate::arena::{
    FLOAT_BYTES, FLOAT_HEADS, FLOAT_LINKS, FLOATS, SEARCH_BYTES, STRING_BYTES, STRING_NUMBERS,
    STRING_SLOTS, STRINGS,
};
use crate::floats::{FloatBits, entry_bits};
use crate::search::walk_float;
use crate::structs::{Counters, TextId, WithCounters};
use records::words::{
    Four, SECOND_WORD, THIRD_WORD, high, index, load, low, put_four, put_pair, put_word,
};

// Whether there is a string i, and its text has the number o.
fn has_number(arena: &[u8], k: Counters, i: usize, o: usize) -> bool
    requires { Room k arena.now }
    ensures { result ≡ string_is arena.now k o i }
{
    if i >= k.strings {
        return false;
    }
    index(load(arena, STRING_NUMBERS * k.records + SEARCH_BYTES * i)) == o
}

// A string more, with this text: its own number goes to the slot of the text's.
fn add_string(arena: &mut [u8], k: Counters, text: TextId) -> WithCounters<u32>
    requires { Room k arena.old × (k.strings < k.records) × (text.number < k.records) }
    ensures { (result.value ≡ k.strings) × StringAdded text.number text.offset text.len k arena.old result.counters arena.new }
{
    let v = k.strings;
    let number = v as u32;
    put_pair(
        arena,
        STRINGS * k.records + STRING_BYTES * v,
        text.offset,
        text.len,
    );
    put_word(
        arena,
        STRING_NUMBERS * k.records + SEARCH_BYTES * v,
        text.number as u32,
    );
    put_word(
        arena,
        STRING_SLOTS * k.records + SEARCH_BYTES * text.number,
        number,
    );
    WithCounters {
        value: number,
        counters: Counters {
            strings: v + 1,
            ..k
        },
    }
}

// The string with this text, its entry the place of its first use. The slot of the text's number has the string, or what nobody wrote there: the number
// beside the string tells. So no text is read.
pub fn string_id(arena: &mut [u8], k: Counters, text: TextId) -> WithCounters<u32>
    requires { Room k arena.old × (k.strings < k.records) × (text.number < k.records) }
    ensures { NumbersString text.number text.offset text.len k arena.old result arena.new }
{
    let number = load(arena, STRING_SLOTS * k.records + SEARCH_BYTES * text.number);
    if has_number(arena, k, index(number), text.number) {
        return WithCounters {
            value: number,
            counters: k,
        };
    }
    add_string(arena, k, text)
}

// An entry's link, and its number at the head of its bucket.
fn put_link(arena: &mut [u8], link: usize, last: u32, head: usize, number: u32)
    requires { (link + 4 ≤ length arena.old) × (head + 4 ≤ length arena.old) }
    ensures { arena.new ≡ splice (splice arena.old link (word last)) head (word number) }
{
    put_word(arena, link, last);
    put_word(arena, head, number);
}

// Which of n buckets a float with these words is in.
fn float_bucket(n: usize, w: Four) -> usize
    requires { 0 < n }
    ensures { (result ≡ float_bucket n w.0 w.1 w.2) × (result < n) }
{
    let d = w.0 as u64 * 1640531527 + w.1 as u64 * 1013904223 + w.2 as u64;
    (d / 4294967296) as usize % n
}

// Where a walk through bucket b begins: one past the number of its last float, or 0. The head of a bucket without floats may have anything: it counts where the float
// under the number is one of this bucket.
fn float_head(arena: &[u8], k: Counters, b: usize) -> usize
    requires { Room k arena.now × (b < k.records) }
    ensures { (result ≡ float_head arena.now k.records k.floats b) × (result ≤ k.floats) }
{
    let n = k.records;
    let i = index(load(arena, FLOAT_HEADS * n + SEARCH_BYTES * b));
    if i >= k.floats {
        return 0;
    }
    let at = FLOATS * n + FLOAT_BYTES * i;
    let w = Four(
        load(arena, at),
        load(arena, at + SECOND_WORD),
        load(arena, at + THIRD_WORD),
        0,
    );
    if float_bucket(n, w) != b {
        return 0;
    }
    i + 1
}

// A float more, before the others of its bucket b, of which `last` is one past the last.
fn add_float(arena: &mut [u8], k: Counters, w: Four, b: usize, last: usize) -> WithCounters<u32>
    requires { Room k arena.old × (k.floats < 2 * k.records) × (b < k.records) × (last ≤ k.floats) }
    ensures { (result.value ≡ k.floats) × FloatAdded (word w.0 ++ word w.1 ++ word w.2 ++ word w.3) b last k arena.old result.counters arena.new }
{
    let v = k.floats;
    let number = v as u32;
    put_four(arena, FLOATS * k.records + FLOAT_BYTES * v, w);
    put_link(
        arena,
        FLOAT_LINKS * k.records + SEARCH_BYTES * v,
        last as u32,
        FLOAT_HEADS * k.records + SEARCH_BYTES * b,
        number,
    );
    WithCounters {
        value: number,
        counters: Counters { floats: v + 1, ..k },
    }
}

// The float with these bits and this mark, looked for among those of its bucket.
pub fn float_id(arena: &mut [u8], k: Counters, f: FloatBits) -> WithCounters<u32>
    requires { Room k arena.old × (k.floats < 2 * k.records) }
    ensures { NumbersFloat (entry_of_float f) k arena.old result arena.new }
{
    let e = entry_bits(f);
    let w = Four(low(e.bits), high(e.bits), u32::from(e.short), 0);
    let b = float_bucket(k.records, w);
    let last = float_head(arena, k, b);
    match walk_float(arena, FLOATS * k.records, FLOAT_LINKS * k.records, last, w) {
        Some(i) => WithCounters {
            value: i as u32,
            counters: k,
        },
        None => add_float(arena, k, w, b, last),
    }
}

// The bits of a float that was numbered; 0 for a number that none has.
pub fn float_bits(arena: &[u8], k: Counters, i: u32) -> u64
    requires { Room k arena.now }
    ensures { Next (float_bits i) k arena.now result k arena.now }
{
    let n = k.records;
    let j = i as usize;
    if j >= k.floats {
        return 0;
    }
    let x = load(arena, FLOATS * n + FLOAT_BYTES * j);
    let y = load(arena, FLOATS * n + FLOAT_BYTES * j + SECOND_WORD);
    x as u64 + y as u64 * 4294967296
}
