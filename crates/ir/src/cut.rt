// The end of a conversion: each table goes from the arena into its own lent buffer, and what is behind it is zero.
ghost use Rattle.std.specs.Prelude.{◌≡◌, ◌++◌, ◌+◌, ◌*◌, ◌≤◌, length, drop};
ghost use Rattle.ir.specs.Arena as Arena;
ghost use Rattle.ir.specs.Arena.{Room};
ghost use Rattle.laws.specs.Splice.{part, filled};
ghost use Rattle.ir.specs.Cut.{FiveLong, ThreeLong, FunctionsCut, PoolCut, Cut};

use crate::arena::{
    FLOAT_BYTES, FLOATS, FUNCTION_BYTES, FUNCTIONS, INSTRUCTION_BYTES, LABEL_BYTES, LABELS,
    STRING_BYTES, STRINGS, VARIABLE_BYTES, VARIABLES,
};
use crate::structs::Counters;

// `len` bytes from byte `from` on, to the start of `out`: by a loop, since the library's copy would have the archive need `memmove` from whoever links it.
fn copy(src: &[u8], from: usize, len: usize, out: &mut [u8])
    requires { (from + len ≤ length src.now) × (len ≤ length out.old) }
    ensures { out.new ≡ part src.now from len ++ drop len out.old }
{
    for i in 0..len {
        out[i] = src[from + i];
    }
}

// Zero from byte `at` on.
fn clear_from(out: &mut [u8], at: usize)
    requires { at ≤ length out.old }
    ensures { out.new ≡ filled (part out.old 0 at) (length out.old) }
{
    out[at..].fill(0);
}

// These bytes alone.
fn cut(src: &[u8], from: usize, len: usize, out: &mut [u8])
    requires { (from + len ≤ length src.now) × (len ≤ length out.old) }
    ensures { out.new ≡ filled (part src.now from len) (length out.new) }
{
    copy(src, from, len, out);
    clear_from(out, len);
}

// The functions' tables.
fn cut_functions(
    arena: &[u8],
    k: Counters,
    variables: &mut [u8],
    labels: &mut [u8],
    functions: &mut [u8],
)
    requires { Room k arena.now × ThreeLong k.records variables.old labels.old functions.old }
    ensures { FunctionsCut k arena.now variables.new labels.new functions.new }
{
    let n = k.records;
    cut(
        arena,
        VARIABLES * n,
        VARIABLE_BYTES * k.variables,
        variables,
    );
    cut(arena, LABELS * n, LABEL_BYTES * k.labels, labels);
    cut(
        arena,
        FUNCTIONS * n,
        FUNCTION_BYTES * k.functions,
        functions,
    );
}

// The program's tables.
fn cut_pool(arena: &[u8], k: Counters, strings: &mut [u8], floats: &mut [u8])
    requires { Room k arena.now × ((Arena.strings).each * k.records ≤ length strings.old) × ((Arena.floats).each * k.records ≤ length floats.old) }
    ensures { PoolCut k arena.now strings.new floats.new }
{
    let n = k.records;
    cut(arena, STRINGS * n, STRING_BYTES * k.strings, strings);
    cut(arena, FLOATS * n, FLOAT_BYTES * k.floats, floats);
}

// The five tables cut out; the instructions stay, alone.
pub fn cut_tables(
    arena: &mut [u8],
    k: Counters,
    variables: &mut [u8],
    labels: &mut [u8],
    functions: &mut [u8],
    strings: &mut [u8],
    floats: &mut [u8],
)
    requires { Room k arena.old × FiveLong k.records variables.old labels.old functions.old strings.old floats.old }
    ensures { Cut k arena.old arena.new variables.new labels.new functions.new strings.new floats.new }
{
    let end = INSTRUCTION_BYTES * k.instructions;
    cut_functions(arena, k, variables, labels, functions);
    cut_pool(arena, k, strings, floats);
    clear_from(arena, end);
}
