// Runs the cases of standard input through int128. A case is a line: the operation, and the halves of two numbers as 16 hexadecimal digits
// each. For each it writes a line: 1 and the halves of the answer, or 0. The file stdout has what Rust's i128 answers.
#![tactic(auto)]

ghost use Rattle.std.specs.Prelude.{◌<◌};

use int128::Int128;
use std::io;
use std::io::{ErrorKind, Read};

fn hex_digit(b: u8) -> u64
    ensures { result < 16 }
{
    match b {
        b'0'..=b'9' => (b - b'0') as u64,
        b'a'..=b'f' => (b - b'a' + 10) as u64,
        _ => 0,
    }
}

// The number that 16 digits spell.
fn hex_word(digits: &[u8]) -> u64 {
    let mut value: u64 = 0;
    for digit in digits {
        value = value % 0x1000_0000_0000_0000 * 16 + hex_digit(*digit);
    }
    value
}

fn flag(b: bool) -> Option<Int128> {
    b.then_some(Int128 { hi: 0, lo: 1 })
}

fn apply(op: u8, a: Int128, b: Int128) -> Option<Int128> {
    match op {
        b'+' => a.checked_add(b),
        b'-' => a.checked_sub(b),
        b'*' => a.checked_mul(b),
        b'/' => a.checked_div(b),
        b'%' => a.checked_rem(b),
        b'<' => a.checked_shl_by(b),
        b'>' => a.checked_shr_by(b),
        b'&' => Some(a & b),
        b'|' => Some(a | b),
        b'^' => Some(a ^ b),
        b'~' => Some(!a),
        b'n' => a.checked_neg(),
        b'l' => flag(a < b),
        b'i' => flag(int128::int_fits(a, true, false)),
        b'u' => flag(int128::int_fits(a, true, true)),
        b'I' => flag(int128::int_fits(a, false, false)),
        b'U' => flag(int128::int_fits(a, false, true)),
        _ => None,
    }
}

fn print_checked(rt: &impl Print, answer: Option<Int128>) -> io::Result<()> {
    match answer {
        Some(x) => {
            let hi = x.hi;
            let lo = x.lo;
            println!(rt; "1 {hi:016x} {lo:016x}")
        }
        None => println!(rt; "0"),
    }
}

fn run(rt: &impl Print, line: &[u8; 66]) -> io::Result<()> {
    let op = line[0];
    let a = Int128 {
        hi: hex_word(&line[1..17]),
        lo: hex_word(&line[17..33]),
    };
    let b = Int128 {
        hi: hex_word(&line[33..49]),
        lo: hex_word(&line[49..65]),
    };
    print_checked(rt, apply(op, a, b))
}

// One case; false where none is left.
fn next_line<R: Read>(rt: &impl Print, input: &mut R) -> io::Result<bool> {
    let mut line = [0u8; 66];
    if let Err(e) = input.read_exact(&mut line) {
        if e.kind() == ErrorKind::UnexpectedEof {
            return Ok(false);
        }
        return Err(e);
    }
    run(rt, &line)?;
    Ok(true)
}

fn main(rt: HostRuntime) -> io::Result<()> {
    let mut input = rt.reader();
    for _ in 0..100_000 {
        if !next_line(&rt, &mut input)? {
            break;
        }
    }
    Ok(())
}
