// What everything that converts takes beside what is lent. Only what changed is answered: an expression answers its operand, the arguments of a call
// how many values were put on the stack, a statement the scope for what follows it, and a block nothing.
ghost use Rattle.std.specs.Prelude.{◌≡◌, ◌<◌};

use ir::structs::VarId;
use records::convert_error::{ConvertError, ConvertErrorKind};
use scope::Scope;

// The names known, how many operands wait in scratch for the calls around (the values of the call at hand stand behind them), and the turn in which
// types are remembered. How far the tables are written is lent beside it, as words.
#[derive(Clone, Copy)]
pub struct Converter {
    pub scope: Scope,
    pub operands: usize,
    pub turn: u32,
}

// The variable of a For, and the scope of its body.
#[derive(Clone, Copy)]
pub(crate) struct ForVariable {
    pub var: VarId,
    pub scope: Scope,
}

// A value of a call: the parameter at its position, and the arguments behind it. Each is a cell, or END.
#[derive(Clone, Copy)]
pub(crate) struct AtValue {
    pub parameter: usize,
    pub rest: usize,
}

pub(crate) fn error_at(kind: ConvertErrorKind, place: usize) -> ConvertError
    requires { place < 4294967296 }
    ensures { result ≡ record { kind = kind; place = place } }
{
    ConvertError {
        kind,
        place: place as u32,
    }
}
