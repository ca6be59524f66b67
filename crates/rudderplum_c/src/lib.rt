// The archive that C and Rust link: the two calls of the boundary under their C names, with its clauses.
#![tactic(auto)]

ghost use Rattle.std.specs.Prelude.{◌≡◌};
ghost use Rattle.rudderplum.specs.Boundary.{returned, lent, judge_call, returned_eight, asks_main, call_converted};

// Judges a tree. The answer's buffer takes 16 bytes: the words number (0 for accepted), place (FFFFFFFF for none), span
// start and span end. Returns 1; where that buffer is shorter, returns 0 and writes nothing anywhere.
#[unsafe(no_mangle)]
pub extern "C" fn rudderplum_judge(
    tree: &[u8],
    text: &[u8],
    instructions: &mut [u8],
    variables: &mut [u8],
    labels: &mut [u8],
    functions: &mut [u8],
    strings: &mut [u8],
    floats: &mut [u8],
    scratch: &mut [u8],
    answer: &mut [u8],
) -> u32
    ensures value { result ≡ returned answer.old }
    ensures answer_after { lent instructions.new variables.new labels.new functions.new strings.new floats.new scratch.new answer.new ≡ judge_call tree.now text.now (lent instructions.old variables.old labels.old functions.old strings.old floats.old scratch.old answer.old) }
{
    rudderplum::rudderplum_judge(
        tree,
        text,
        instructions,
        variables,
        labels,
        functions,
        strings,
        floats,
        scratch,
        answer,
    )
}

// Converts a tree; a `main` is needed unless `needs_main` is 0. The answer's buffer takes 32 bytes: the words 0, functions, instructions,
// variables, labels, strings, floats and visits; or number, place (FFFFFFFF for none), span start, span end and zeros. Returns 1; where
// that buffer is shorter, returns 0 and writes nothing anywhere.
#[unsafe(no_mangle)]
pub extern "C" fn rudderplum_convert(
    tree: &[u8],
    text: &[u8],
    needs_main: u32,
    instructions: &mut [u8],
    variables: &mut [u8],
    labels: &mut [u8],
    functions: &mut [u8],
    strings: &mut [u8],
    floats: &mut [u8],
    scratch: &mut [u8],
    answer: &mut [u8],
) -> u32
    ensures value { result ≡ returned_eight answer.old }
    ensures answer_after { lent instructions.new variables.new labels.new functions.new strings.new floats.new scratch.new answer.new ≡ call_converted tree.now text.now (asks_main needs_main) (lent instructions.old variables.old labels.old functions.old strings.old floats.old scratch.old answer.old) }
{
    rudderplum::rudderplum_convert(
        tree,
        text,
        needs_main,
        instructions,
        variables,
        labels,
        functions,
        strings,
        floats,
        scratch,
        answer,
    )
}
