// A tree of any bytes is judged, exactly as document 01's rows 'lengths', 'buffers', 'records' and 'nesting' say.
#![tactic(auto)]

ghost use Rattle.std.specs.Prelude.{◌≡◌, ◌*◌, ◌≤◌, [], length};
ghost use Rattle.records.specs.Layout.{scratch_each};
ghost use Rattle.records.specs.Words.{record_bytes, most_records};
ghost use Rattle.judge.specs.Keeps.{JudgeKeeps, placed};
ghost use Rattle.judge.specs.Judge.{lengths_ok, buffers_ok, buffers, lengths_of, records_verdict, verdict, judged_by, judged, judged_in, scratch_after, judge_leaves, cleared};

use records::convert_error::{ConvertError, ConvertErrorKind};
use records::layout::SCRATCH;
use records::words::{FEWEST_RECORDS, MOST_RECORDS, NONE, RECORD_BYTES};

mod equal;
mod nesting;
mod pass;
mod plain;
mod references;
mod rules;
mod types;

// So many bytes a record the outputs need.
const INSTRUCTIONS_EACH: usize = 320;

const VARIABLES_EACH: usize = 12;

const LABELS_EACH: usize = 24;

const FUNCTIONS_EACH: usize = 32;

const STRINGS_EACH: usize = 8;

const FLOATS_EACH: usize = 32;

// How long the lent outputs are.
#[derive(Clone, Copy)]
pub struct Lengths {
    pub instructions: usize,
    pub variables: usize,
    pub labels: usize,
    pub functions: usize,
    pub strings: usize,
    pub floats: usize,
}

pub(crate) fn refuse_tree(kind: ConvertErrorKind, place: u32) -> Result<(), ConvertError>
    ensures { result ≡ Err (record { kind = kind; place = place }) }
{
    Err(ConvertError { kind, place })
}

// Zero in every byte.
pub fn clear(buffer: &mut [u8])
    ensures { buffer.new ≡ cleared buffer.old }
{
    buffer.fill(0);
}

// Row 'lengths'.
fn lengths_ok(bytes: usize) -> bool
    ensures { result ≡ lengths_ok bytes }
{
    (bytes % RECORD_BYTES == 0)
        & (FEWEST_RECORDS * RECORD_BYTES <= bytes)
        & (bytes <= MOST_RECORDS * RECORD_BYTES)
}

// Row 'buffers'. The lengths are divided: a product could wrap where row 'lengths' was not asked first.
fn buffers_ok(n: usize, l: Lengths, scratch: usize) -> bool
    ensures { result ≡ buffers_ok n l scratch }
{
    (n <= l.instructions / INSTRUCTIONS_EACH)
        & (n <= l.variables / VARIABLES_EACH)
        & (n <= l.labels / LABELS_EACH)
        & (n <= l.functions / FUNCTIONS_EACH)
        & (n <= l.strings / STRINGS_EACH)
        & (n <= l.floats / FLOATS_EACH)
        & (n <= scratch / SCRATCH)
}

// Rows 'records' and 'nesting'; the bytes of scratch are the pass's own.
fn judge_records(tree: &[u8], text: &[u8], n: usize, scratch: &mut [u8]) -> Result<(), ConvertError>
    requires { (n * record_bytes ≡ length tree.now) × (n ≤ most_records) × (scratch_each * n ≤ length scratch.old) }
    ensures { (result ≡ judged_by (records_verdict tree.now text.now)) × (length scratch.new ≡ length scratch.old) }
{
    let lowest = pass::lowest_records(tree, text, n, scratch);
    let fault = lowest.fault;
    let deep = lowest.deep;
    if fault < n {
        return refuse_tree(ConvertErrorKind::BadTree, fault as u32);
    }
    if deep < n {
        return refuse_tree(ConvertErrorKind::TooDeep, deep as u32);
    }
    Ok(())
}

// Judges a tree, given how long the outputs are. Rows one and two leave scratch as found; past them its bytes are the judge's own.
pub fn judge_rows(
    tree: &[u8],
    text: &[u8],
    l: Lengths,
    scratch: &mut [u8],
) -> Result<(), ConvertError>
    ensures value { result ≡ judged tree.now text.now l (length scratch.old) }
    ensures judge_keeps { JudgeKeeps (verdict tree.now text.now l (length scratch.old)) scratch.old scratch.new }
{
    let n = tree.len() / RECORD_BYTES;
    let lengths = lengths_ok(tree.len());
    let buffers = buffers_ok(n, l, scratch.len());
    if !lengths {
        return refuse_tree(ConvertErrorKind::BadTree, NONE);
    }
    if !buffers {
        return refuse_tree(ConvertErrorKind::ShortBuffer, NONE);
    }
    judge_records(tree, text, n, scratch)
}

// The answer is a refusal with a place. Of the rows judged here one and two have none, the others have one.
pub fn has_place(answer: Result<(), ConvertError>) -> bool
    ensures { result ≡ placed answer }
{
    answer.is_err_and(|e| e.place != NONE)
}

// The core: judges a tree, given how long the outputs are. Rows one and two leave scratch as found, the others leave it zero.
pub fn judge_tree(
    tree: &[u8],
    text: &[u8],
    l: Lengths,
    scratch: &mut [u8],
) -> Result<(), ConvertError>
    ensures value { result ≡ judged tree.now text.now l (length scratch.old) }
    ensures scratch_after { scratch.new ≡ scratch_after (verdict tree.now text.now l (length scratch.old)) scratch.old }
{
    let answer = judge_rows(tree, text, l, scratch);
    let nothing_written = answer.is_err_and(|e| e.place == NONE);
    if !nothing_written {
        clear(scratch);
    }
    answer
}

// Zero in every byte of the six outputs.
pub fn clear_outputs(
    instructions: &mut [u8],
    variables: &mut [u8],
    labels: &mut [u8],
    functions: &mut [u8],
    strings: &mut [u8],
    floats: &mut [u8],
)
    ensures instructions { instructions.new ≡ cleared instructions.old }
    ensures variables { variables.new ≡ cleared variables.old }
    ensures labels { labels.new ≡ cleared labels.old }
    ensures functions { functions.new ≡ cleared functions.old }
    ensures strings { strings.new ≡ cleared strings.old }
    ensures floats { floats.new ≡ cleared floats.old }
{
    clear(instructions);
    clear(variables);
    clear(labels);
    clear(functions);
    clear(strings);
    clear(floats);
}

// How long the six outputs are.
pub fn lengths_of(
    instructions: &[u8],
    variables: &[u8],
    labels: &[u8],
    functions: &[u8],
    strings: &[u8],
    floats: &[u8],
) -> Lengths
    ensures { result ≡ lengths_of (buffers instructions.now variables.now labels.now functions.now strings.now floats.now []) }
{
    Lengths {
        instructions: instructions.len(),
        variables: variables.len(),
        labels: labels.len(),
        functions: functions.len(),
        strings: strings.len(),
        floats: floats.len(),
    }
}

// Judges a tree. Rows one and two leave every buffer as found, the others leave all of them zero; an accepted tree leaves the
// outputs as found and scratch zero.
pub fn judge(
    tree: &[u8],
    text: &[u8],
    instructions: &mut [u8],
    variables: &mut [u8],
    labels: &mut [u8],
    functions: &mut [u8],
    strings: &mut [u8],
    floats: &mut [u8],
    scratch: &mut [u8],
) -> Result<(), ConvertError>
    ensures value { result ≡ judged_in tree.now text.now (buffers instructions.old variables.old labels.old functions.old strings.old floats.old scratch.old) }
    ensures scratch_after { buffers instructions.new variables.new labels.new functions.new strings.new floats.new scratch.new ≡ judge_leaves tree.now text.now (buffers instructions.old variables.old labels.old functions.old strings.old floats.old scratch.old) }
{
    let l = lengths_of(instructions, variables, labels, functions, strings, floats);
    let answer = judge_tree(tree, text, l, scratch);
    if has_place(answer) {
        clear_outputs(instructions, variables, labels, functions, strings, floats);
    }
    answer
}
