// Converts tree.bin and text.bin of its folder, no `main` needed, and prints the answer as one line.
#![tactic(auto)]

ghost use Rattle.std.specs.Prelude.{◌≤◌, length, IfOk};

use converter::Counts;
use records::convert_error::{AnswerWords, words_of};
use std::fs::File;
use std::io;
use std::io::Read;

// Room for the largest tree that this program takes, and one byte by which a longer one shows.
const TREE_ROOM: usize = 6401;

const TEXT_ROOM: usize = 4097;

// Writes a number and one byte after it.
fn print_number(rt: &impl Print, n: u64, after: char) -> io::Result<()> {
    print!(rt; "{n}{after}")
}

// Writes 0 and the six counts; the visits are not printed.
fn print_counts(rt: &impl Print, c: Counts) -> io::Result<()> {
    print_number(rt, 0, ' ')?;
    print_number(rt, c.functions as u64, ' ')?;
    print_number(rt, c.instructions as u64, ' ')?;
    print_number(rt, c.variables as u64, ' ')?;
    print_number(rt, c.labels as u64, ' ')?;
    print_number(rt, c.strings as u64, ' ')?;
    print_number(rt, c.floats as u64, '\n')
}

// Writes number, place, span start and span end.
fn print_refusal(rt: &impl Print, a: AnswerWords) -> io::Result<()> {
    print_number(rt, a.number as u64, ' ')?;
    print_number(rt, a.place as u64, ' ')?;
    print_number(rt, a.start as u64, ' ')?;
    print_number(rt, a.end as u64, '\n')
}

// Converts with buffers that suffice for 200 records, which is as many as the program takes.
fn convert_and_print(rt: &impl Print, tree: &[u8], text: &[u8]) -> io::Result<()> {
    let mut instructions = [0u8; 64000];
    let mut variables = [0u8; 2400];
    let mut labels = [0u8; 4800];
    let mut functions = [0u8; 6400];
    let mut strings = [0u8; 1600];
    let mut floats = [0u8; 6400];
    let mut scratch = [0u8; 14400];
    let answer = converter::convert(
        tree,
        text,
        false,
        &mut instructions,
        &mut variables,
        &mut labels,
        &mut functions,
        &mut strings,
        &mut floats,
        &mut scratch,
    );
    match answer {
        Ok(c) => print_counts(rt, c),
        Err(e) => print_refusal(rt, words_of(tree, e)),
    }
}

// Reads until the buffer is full or the file ends; says how many bytes there were.
fn read_full(file: &mut File, buffer: &mut [u8]) -> io::Result<usize>
    ensures { IfOk result (λ n. n ≤ length buffer.new) }
{
    let mut n = 0;
    for _ in 0..u64::MAX {
        let m = file.read(&mut buffer[n..])?;
        if m == 0 {
            break;
        }
        n += m;
    }
    Ok(n)
}

fn read_and_convert(rt: &impl Print, tree_file: &mut File, text_file: &mut File) -> io::Result<()> {
    let mut tree = [0u8; TREE_ROOM];
    let mut text = [0u8; TEXT_ROOM];
    let n = read_full(tree_file, &mut tree)?;
    let m = read_full(text_file, &mut text)?;
    if (n == TREE_ROOM) | (m == TEXT_ROOM) {
        return println!(rt; "toolong");
    }
    convert_and_print(rt, &tree[..n], &text[..m])
}

fn main(rt: HostRuntime) -> io::Result<()> {
    let mut tree_file = File::open(&rt, "tree.bin")?;
    let mut text_file = File::open(&rt, "text.bin")?;
    read_and_convert(&rt, &mut tree_file, &mut text_file)
}
