// Replays stored trees through the conversion call as C and Rust make it, each with what the oracle answered, and compares the answer and every
// byte of the seven buffers.
//
// A case in the list: 26 words (length of the tree, length of the text, 1 if `main` is needed; how many bytes of each of the seven buffers are lent;
// the byte that fills them before the call, and the byte behind the tables afterwards; the eight words of the answer; the lengths of the six tables),
// then the bytes of the tree, of the text and of the tables. Where nothing is converted the tables are empty.
#![tactic(auto)]

ghost use Rattle.std.specs.Prelude.{◌≡◌, ◌+◌, ◌*◌, ◌≤◌, ◌<◌, length, IfOk};

use records::words::load;
use rudderplum::rudderplum_convert;
use std::fs::File;
use std::io;
use std::io::Read;

// Bytes of a case's head, and where its words stand.
const HEAD: usize = 104;

const LENT: usize = 12;

const FILL: usize = 40;

const REST: usize = 44;

const ANSWER: usize = 48;

const TABLES: usize = 80;

// Room for a case's tree, text and tables.
const BODY_ROOM: usize = 620000;

// No list has as many cases.
const MOST_CASES: usize = 1000000;

// What came of the next case: whether it came out the same; or there was none, or it was not whole.
#[derive(Clone, Copy)]
enum Came {
    Case { same: bool },
    Ended,
    BreaksOff,
}

#[derive(Clone, Copy)]
struct Tally {
    cases: usize,
    differ: usize,
    whole: bool,
}

// The buffer holds `len` bytes of the tables, from byte `from` on, and `rest` everywhere behind them.
fn left(buffer: &[u8], tables: &[u8], from: usize, len: usize, rest: u8) -> bool {
    if tables.len() < from {
        return false;
    }
    let tables = &tables[from..];
    if (tables.len() < len) | (buffer.len() < len) {
        return false;
    }
    let (table, behind) = buffer.split_at(len);
    (table == &tables[..len]) && behind.iter().all(|b| *b == rest)
}

// How many bytes of buffer k are lent.
fn lent(head: &[u8], k: usize) -> usize
    requires { (length head.now ≡ 104) × (k < 7) }
{
    load(head, LENT + 4 * k) as usize
}

// How many bytes table k has. Scratch, buffer 6, holds no table.
fn table(head: &[u8], k: usize) -> usize
    requires { (length head.now ≡ 104) × (k < 7) }
    ensures { result < 4294967296 }
{
    if 5 < k {
        return 0;
    }
    load(head, TABLES + 4 * k) as usize
}

// Where table k begins: the tables before it stand one behind the other.
fn table_from(head: &[u8], k: usize) -> usize
    requires { (length head.now ≡ 104) × (k < 7) }
    ensures { result ≤ k * 4294967296 }
{
    let mut from = 0;
    for j in 0..k {
        from += table(head, j);
    }
    from
}

// Buffer k is as long as it was to be lent, and table k stands at its start, with the byte for what is behind everywhere else.
fn buffer_left(head: &[u8], tables: &[u8], k: usize, buffer: &[u8]) -> bool
    requires { (length head.now ≡ 104) × (k < 7) }
{
    if buffer.len() != lent(head, k) {
        return false;
    }
    left(
        buffer,
        tables,
        table_from(head, k),
        table(head, k),
        head[REST],
    )
}

// One call over buffers of the lent lengths: true if the answer and every byte of the buffers are the stored ones.
fn replay_lent(
    head: &[u8],
    tree: &[u8],
    text: &[u8],
    tables: &[u8],
    instructions: &mut [u8],
    variables: &mut [u8],
    labels: &mut [u8],
    functions: &mut [u8],
    strings: &mut [u8],
    floats: &mut [u8],
    scratch: &mut [u8],
) -> bool
    requires { length head.now ≡ 104 }
{
    let mut answer = [255u8; 32];
    let done = rudderplum_convert(
        tree,
        text,
        load(head, 8),
        instructions,
        variables,
        labels,
        functions,
        strings,
        floats,
        scratch,
        &mut answer,
    );
    (done == 1)
        & left(&answer, head, ANSWER, 32, 0)
        & buffer_left(head, tables, 0, instructions)
        & buffer_left(head, tables, 1, variables)
        & buffer_left(head, tables, 2, labels)
        & buffer_left(head, tables, 3, functions)
        & buffer_left(head, tables, 4, strings)
        & buffer_left(head, tables, 5, floats)
        & buffer_left(head, tables, 6, scratch)
}

// How much of a buffer is lent as buffer k: as many bytes as the head says, or all of a shorter one, which then differs.
fn lent_of(head: &[u8], k: usize, buffer: &[u8]) -> usize
    requires { (length head.now ≡ 104) × (k < 7) }
    ensures { result ≤ length buffer.now }
{
    lent(head, k).min(buffer.len())
}

// One case, over buffers that may be longer than what is lent of them. True if nothing differs.
fn replay_room(
    head: &[u8],
    tree: &[u8],
    text: &[u8],
    tables: &[u8],
    instructions: &mut [u8],
    variables: &mut [u8],
    labels: &mut [u8],
    functions: &mut [u8],
    strings: &mut [u8],
    floats: &mut [u8],
    scratch: &mut [u8],
) -> bool
    requires { length head.now ≡ 104 }
{
    let a = lent_of(head, 0, instructions);
    let b = lent_of(head, 1, variables);
    let c = lent_of(head, 2, labels);
    let d = lent_of(head, 3, functions);
    let e = lent_of(head, 4, strings);
    let f = lent_of(head, 5, floats);
    let g = lent_of(head, 6, scratch);
    replay_lent(
        head,
        tree,
        text,
        tables,
        &mut instructions[..a],
        &mut variables[..b],
        &mut labels[..c],
        &mut functions[..d],
        &mut strings[..e],
        &mut floats[..f],
        &mut scratch[..g],
    )
}

// One case, over buffers with room for 2,049 records; a longer tree is there only if it is refused for its length or its buffers. True if nothing differs.
fn replay_case(head: &[u8], tree: &[u8], text: &[u8], tables: &[u8]) -> bool
    requires { length head.now ≡ 104 }
{
    let byte = head[FILL];
    let mut instructions = [byte; 655800];
    let mut variables = [byte; 24700];
    let mut labels = [byte; 49300];
    let mut functions = [byte; 65700];
    let mut strings = [byte; 16500];
    let mut floats = [byte; 65700];
    let mut scratch = [byte; 147700];
    replay_room(
        head,
        tree,
        text,
        tables,
        &mut instructions,
        &mut variables,
        &mut labels,
        &mut functions,
        &mut strings,
        &mut floats,
        &mut scratch,
    )
}

// One case, from its bytes behind the head: the tree, the text and the tables.
fn replay_body(head: &[u8], body: &[u8]) -> bool
    requires { length head.now ≡ 104 }
{
    let a = load(head, 0) as usize;
    let t = a + load(head, 4) as usize;
    if body.len() < t {
        return false;
    }
    replay_case(head, &body[..a], &body[a..t], &body[t..])
}

// How many bytes follow a case's head.
fn body_len(head: &[u8]) -> usize
    requires { length head.now ≡ 104 }
{
    load(head, 0) as usize + load(head, 4) as usize + table_from(head, 6)
}

// Reads until the buffer is full or the file ends; says how many bytes there were.
fn read_full(file: &mut File, buffer: &mut [u8]) -> io::Result<usize>
    ensures { IfOk result (λ n. n ≤ length buffer.new) }
{
    let mut n = 0;
    for _ in 0..u64::MAX {
        let m = file.read(&mut buffer[n..])?;
        if m == 0 {
            break;
        }
        n += m;
    }
    Ok(n)
}

// Reads the next case and replays it.
fn next_case(file: &mut File, head: &mut [u8], body: &mut [u8]) -> io::Result<Came>
    requires { length head.old ≡ 104 }
{
    let n = read_full(file, head)?;
    if n == 0 {
        return Ok(Came::Ended);
    }
    let len = body_len(head);
    if n < HEAD || body.len() < len {
        return Ok(Came::BreaksOff);
    }
    let m = read_full(file, &mut body[..len])?;
    if m < len {
        return Ok(Came::BreaksOff);
    }
    let same = replay_body(head, &body[..len]);
    Ok(Came::Case { same })
}

// Replays each case of the list.
fn replay(file: &mut File) -> io::Result<Tally> {
    let mut head = [0u8; HEAD];
    let mut body = [0u8; BODY_ROOM];
    let mut differ = 0;
    for cases in 0..MOST_CASES {
        match next_case(file, &mut head, &mut body)? {
            Came::Case { same: true } => {}
            Came::Case { same: false } => differ += 1,
            Came::Ended => return Ok(Tally {
                cases,
                differ,
                whole: true,
            }),
            Came::BreaksOff => return Ok(Tally {
                cases,
                differ,
                whole: false,
            }),
        }
    }
    Ok(Tally {
        cases: MOST_CASES,
        differ,
        whole: false,
    })
}

fn report(rt: &impl Print, t: Tally) -> io::Result<()> {
    if !t.whole {
        print!(rt; "the list breaks off after ")?;
    }
    let cases = t.cases;
    let differ = t.differ;
    println!(rt; "{cases} cases, {differ} differ")
}

fn main(rt: HostRuntime) -> io::Result<()> {
    let mut file = File::open(&rt, "cases.bin")?;
    report(&rt, replay(&mut file)?)
}
