// The call: a tree of any bytes is judged, and a good one is converted. Krc's converter/converter.rs.
#![tactic(auto)]

ghost use Rattle.std.specs.Prelude.{◌≡◌, ◌*◌, ◌≤◌, ◌<◌, length};
ghost use Rattle.records.specs.Layout.{scratch_each};
ghost use Rattle.records.specs.Words.{records};
ghost use Rattle.records.specs.Good.{Good};
ghost use Rattle.ir.specs.Arena.{arena_each};
ghost use Rattle.ir.specs.Counted.{counted};
ghost use Rattle.keys.specs.Keys.{function_places, Keyed};
ghost use Rattle.statements.specs.Lent.{finished_with};
ghost use Rattle.statements.specs.Turns.{Turns};
ghost use Rattle.judge.specs.Judge.{buffers};
ghost use Rattle.demands.specs.Demands.{AsTheRust};
ghost use Rattle.converter.specs.Convert.{AllConvertTo, ProgramConvertsTo, empty_counters, counts_in, answer_from, outputs, SevenLong, CutAfforded, FinishesIn, Promised};

use functions::bodies::convert_func;
use functions::functions::{check_main, get_all_functions};
use ir::cut::cut_tables;
use ir::lent::{COUNT_RECORDS, COUNTERS, counters_of};
use ir::structs::Counters;
use judge::{clear, clear_outputs, has_place, judge_rows, lengths_of};
use keys::keys::{chain_functions, function_at};
use records::convert_error::ConvertError;
use records::words::RECORD_BYTES;
use texts::number_texts;

// How many entries each table has, and how often the type of an expression was worked out.
#[derive(Clone, Copy)]
pub struct Counts {
    pub functions: usize,
    pub instructions: usize,
    pub variables: usize,
    pub labels: usize,
    pub strings: usize,
    pub floats: usize,
    pub visits: usize,
}

fn counts_of(k: Counters, visits: usize) -> Counts
    ensures { result ≡ counts_in k visits }
{
    Counts {
        functions: k.functions,
        instructions: k.instructions,
        variables: k.variables,
        labels: k.labels,
        strings: k.strings,
        floats: k.floats,
        visits,
    }
}

// The functions in their order, the first `count` words of scratch; nothing is in the tables, and no visit was made yet.
fn convert_all(
    tree: &[u8],
    text: &[u8],
    arena: &mut [u8],
    scratch: &mut [u8],
    k: &mut [usize],
    count: usize,
) -> Result<(), ConvertError>
    requires keyed { Keyed tree.now text.now scratch.old × (count ≡ length (function_places tree.now)) × (arena_each * records tree.now ≤ length arena.old) }
    requires turns { Turns tree.now scratch.old (empty_counters (records tree.now)) × (counted k.old ≡ empty_counters (records tree.now)) }
    ensures { AllConvertTo tree.now text.now arena.old scratch.old (finished_with k.new result) arena.new scratch.new }
{
    for j in 0..count {
        let f = function_at(tree, scratch, j);
        convert_func(tree, text, arena, scratch, k, f)?;
    }
    Ok(())
}

// A good tree, whose tables stand in the arena afterwards. Its texts are numbered first, so that names are told apart without them. What scratch holds of
// types is forgotten before the first body.
fn convert_program(
    tree: &[u8],
    text: &[u8],
    needs_main: bool,
    arena: &mut [u8],
    scratch: &mut [u8],
    k: &mut [usize],
) -> Result<(), ConvertError>
    requires good { Good tree.now text.now × (arena_each * records tree.now ≤ length arena.old) × (scratch_each * records tree.now ≤ length scratch.old) × (0 < records tree.now) }
    requires k_value { counted k.old ≡ empty_counters (records tree.now) }
    ensures { ProgramConvertsTo tree.now text.now needs_main arena.old scratch.old (finished_with k.new result) arena.new scratch.new }
{
    number_texts(tree, text, scratch);
    let count = get_all_functions(tree, text, scratch)?;
    check_main(tree, text, scratch, count, needs_main)?;
    chain_functions(tree, text, scratch, count);
    expressions::turns::forget(tree, scratch);
    convert_all(tree, text, arena, scratch, k, count)
}

// What is left in the outputs: each table in its own, or zero everywhere.
fn finish(
    done: Result<(), ConvertError>,
    k: &[usize],
    visits: usize,
    instructions: &mut [u8],
    variables: &mut [u8],
    labels: &mut [u8],
    functions: &mut [u8],
    strings: &mut [u8],
    floats: &mut [u8],
) -> Result<Counts, ConvertError>
    requires { CutAfforded (finished_with k.now done) (outputs instructions.old variables.old labels.old functions.old strings.old floats.old) }
    ensures { FinishesIn (finished_with k.now done) visits result (outputs instructions.old variables.old labels.old functions.old strings.old floats.old) (outputs instructions.new variables.new labels.new functions.new strings.new floats.new) }
{
    match done {
        Err(e) => {
            clear_outputs(instructions, variables, labels, functions, strings, floats);
            Err(e)
        }
        Ok(()) => {
            let c = counters_of(k);
            cut_tables(
                instructions,
                c,
                variables,
                labels,
                functions,
                strings,
                floats,
            );
            Ok(counts_of(c, visits))
        }
    }
}

// A good tree, whose tables are empty at first: they are cut out of the arena, which is the instructions' buffer, and scratch is left zero once its visits are read.
fn convert_good(
    tree: &[u8],
    text: &[u8],
    needs_main: bool,
    instructions: &mut [u8],
    variables: &mut [u8],
    labels: &mut [u8],
    functions: &mut [u8],
    strings: &mut [u8],
    floats: &mut [u8],
    scratch: &mut [u8],
) -> Result<Counts, ConvertError>
    requires good { Good tree.now text.now × (0 < records tree.now) }
    requires seven_long { SevenLong (records tree.now) (buffers instructions.old variables.old labels.old functions.old strings.old floats.old scratch.old) }
    ensures { AsTheRust tree.now text.now needs_main (buffers instructions.old variables.old labels.old functions.old strings.old floats.old scratch.old) (answer_from tree.now result) (buffers instructions.new variables.new labels.new functions.new strings.new floats.new scratch.new) }
{
    let mut k = [0; COUNTERS];
    k[COUNT_RECORDS] = tree.len() / RECORD_BYTES;
    let done = convert_program(tree, text, needs_main, instructions, scratch, &mut k);
    let visits = expressions::turns::visits(tree, scratch);
    clear(scratch);
    finish(
        done,
        &k,
        visits,
        instructions,
        variables,
        labels,
        functions,
        strings,
        floats,
    )
}

// Converts a tree. A refusal by lengths or buffers writes nothing, any other leaves every buffer zero; a converted tree leaves each table
// at the start of its buffer and zero everywhere else. An accepted tree leaves the judge's own bytes in scratch: the conversion writes it before it
// reads it, and clears it at the end.
pub fn convert(
    tree: &[u8],
    text: &[u8],
    needs_main: bool,
    instructions: &mut [u8],
    variables: &mut [u8],
    labels: &mut [u8],
    functions: &mut [u8],
    strings: &mut [u8],
    floats: &mut [u8],
    scratch: &mut [u8],
) -> Result<Counts, ConvertError>
    ensures { Promised tree.now text.now needs_main (buffers instructions.old variables.old labels.old functions.old strings.old floats.old scratch.old) result (buffers instructions.new variables.new labels.new functions.new strings.new floats.new scratch.new) }
{
    let l = lengths_of(instructions, variables, labels, functions, strings, floats);
    let judged = judge_rows(tree, text, l, scratch);
    if let Err(e) = judged {
        if has_place(judged) {
            clear_outputs(instructions, variables, labels, functions, strings, floats);
            clear(scratch);
        }
        return Err(e);
    }
    convert_good(
        tree,
        text,
        needs_main,
        instructions,
        variables,
        labels,
        functions,
        strings,
        floats,
        scratch,
    )
}
