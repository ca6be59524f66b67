// What is answered where neither an Option nor a Result says it. specs/Answers.antt says what each case stands for, those of the Results too.
ghost use Rattle.std.specs.Prelude.{◌≡◌, ◌<◌, Err};

use records::convert_error::{ConvertError, ConvertErrorKind};

// What a call runs: the Rust's Callee.
#[derive(Clone, Copy)]
pub enum Callee {
    Function(usize),
    Cast(usize),
}

// The functions that fit a call.
#[derive(Clone, Copy)]
pub enum Candidates {
    Nobody,
    One(usize),
    Several,
}

// A refusal at a record, whatever was asked for.
pub(crate) fn refuse<T>(kind: ConvertErrorKind, place: usize) -> Result<T, ConvertError>
    requires { place < 4294967296 }
    ensures { result ≡ Err (record { kind = kind; place = place }) }
{
    Err(ConvertError {
        kind,
        place: place as u32,
    })
}
