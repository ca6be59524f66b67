// The boundary for C and Rust, which `rudderplum_c` exports: each call lends its buffers, and the answer comes back as words in a buffer too.
#![tactic(auto)]

ghost use Rattle.std.specs.Prelude.{◌≡◌, ◌++◌, ◌%◌, ◌≤◌, length};
ghost use Rattle.laws.specs.Splice.{splice};
ghost use Rattle.records.specs.Answer.{words_of};
ghost use Rattle.records.specs.Words.{word};
ghost use Rattle.demands.specs.Call as Call;
ghost use Rattle.converter.specs.Convert.{counts_from, answer_from};
ghost use Rattle.rudderplum.specs.Boundary.{four_words, eight_words, answer_bytes, judged_words, returned, lent, judge_call, conversion_bytes, returned_eight, asks_main, call_converted};

use converter::Counts;
use records::convert_error::{AnswerWords, ConvertError};
use records::words::{Four, NONE, put_four};

// How many bytes an answer's words take.
const FOUR_WORDS: usize = 16;

const EIGHT_WORDS: usize = 32;

// Writes the four words of an answer to the start of the buffer.
fn put_answer(buffer: &mut [u8], a: AnswerWords)
    requires { four_words ≤ length buffer.old }
    ensures { buffer.new ≡ splice buffer.old 0 (answer_bytes a) }
{
    put_four(buffer, 0, Four(a.number, a.place, a.start, a.end));
}

// A judged tree in document 01's words; an accepted one has number 0 and no place.
pub fn answer_words(tree: &[u8], judged: Result<(), ConvertError>) -> AnswerWords
    ensures { result ≡ judged_words tree.now judged }
{
    match judged {
        Ok(()) => AnswerWords {
            number: 0,
            place: NONE,
            start: 0,
            end: 0,
        },
        Err(e) => records::convert_error::words_of(tree, e),
    }
}

// Judges a tree. The answer's buffer takes 16 bytes: the words number (0 for accepted), place (FFFFFFFF for none), span
// start and span end. Returns 1; where that buffer is shorter, returns 0 and writes nothing anywhere.
pub fn rudderplum_judge(
    tree: &[u8],
    text: &[u8],
    instructions: &mut [u8],
    variables: &mut [u8],
    labels: &mut [u8],
    functions: &mut [u8],
    strings: &mut [u8],
    floats: &mut [u8],
    scratch: &mut [u8],
    answer: &mut [u8],
) -> u32
    ensures value { result ≡ returned answer.old }
    ensures answer_after { lent instructions.new variables.new labels.new functions.new strings.new floats.new scratch.new answer.new ≡ judge_call tree.now text.now (lent instructions.old variables.old labels.old functions.old strings.old floats.old scratch.old answer.old) }
{
    if answer.len() < FOUR_WORDS {
        return 0;
    }
    let judged = judge::judge(
        tree,
        text,
        instructions,
        variables,
        labels,
        functions,
        strings,
        floats,
        scratch,
    );
    put_answer(answer, answer_words(tree, judged));
    1
}

// A count as a word: a table has at most four entries for each record of the tree, and a record is visited at most once, so nothing is cut off: the sizes
// that suffice and `different-most` in laws/proofs/DifferentLaws.antt say so, not this contract.
fn count_word(n: usize) -> u32
    ensures { result ≡ n % 4294967296 }
{
    (n % 4294967296) as u32
}

// Writes a converted tree's eight words: 0, the six counts, and the visits.
fn put_counts(buffer: &mut [u8], c: Counts)
    requires { eight_words ≤ length buffer.old }
    ensures { buffer.new ≡ splice buffer.old 0 (conversion_bytes (Call.Counted (counts_from c) c.visits)) }
{
    let functions = count_word(c.functions);
    let instructions = count_word(c.instructions);
    let variables = count_word(c.variables);
    let labels = count_word(c.labels);
    let strings = count_word(c.strings);
    let floats = count_word(c.floats);
    let visits = count_word(c.visits);
    put_four(buffer, 0, Four(0, functions, instructions, variables));
    put_four(buffer, FOUR_WORDS, Four(labels, strings, floats, visits));
}

// Writes a refusal's eight words: number, place, span start, span end, and zeros.
fn put_refusal(buffer: &mut [u8], a: AnswerWords)
    requires { eight_words ≤ length buffer.old }
    ensures { buffer.new ≡ splice buffer.old 0 (conversion_bytes (Call.Refusal a)) }
{
    put_answer(buffer, a);
    put_four(buffer, FOUR_WORDS, Four(0, 0, 0, 0));
}

// Writes the eight words of a conversion's answer to the start of the buffer.
fn put_conversion(buffer: &mut [u8], tree: &[u8], a: Result<Counts, ConvertError>)
    requires { eight_words ≤ length buffer.old }
    ensures { buffer.new ≡ splice buffer.old 0 (conversion_bytes (answer_from tree.now a)) }
{
    match a {
        Ok(c) => put_counts(buffer, c),
        Err(e) => put_refusal(buffer, records::convert_error::words_of(tree, e)),
    }
}

// Converts a tree; a `main` is needed unless `needs_main` is 0. The answer's buffer takes 32 bytes: the words 0, functions, instructions,
// variables, labels, strings, floats and visits; or number, place (FFFFFFFF for none), span start, span end and zeros. Returns 1; where
// that buffer is shorter, returns 0 and writes nothing anywhere.
pub fn rudderplum_convert(
    tree: &[u8],
    text: &[u8],
    needs_main: u32,
    instructions: &mut [u8],
    variables: &mut [u8],
    labels: &mut [u8],
    functions: &mut [u8],
    strings: &mut [u8],
    floats: &mut [u8],
    scratch: &mut [u8],
    answer: &mut [u8],
) -> u32
    ensures value { result ≡ returned_eight answer.old }
    ensures answer_after { lent instructions.new variables.new labels.new functions.new strings.new floats.new scratch.new answer.new ≡ call_converted tree.now text.now (asks_main needs_main) (lent instructions.old variables.old labels.old functions.old strings.old floats.old scratch.old answer.old) }
{
    if answer.len() < EIGHT_WORDS {
        return 0;
    }
    let converted = converter::convert(
        tree,
        text,
        needs_main != 0,
        instructions,
        variables,
        labels,
        functions,
        strings,
        floats,
        scratch,
    );
    put_conversion(answer, tree, converted);
    1
}
