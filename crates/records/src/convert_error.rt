// What is refused, and where: the kinds of Krc's ConvertErrorKind in their declared order, then document 01's own four.
ghost use Rattle.std.specs.Prelude.{◌≡◌, ◌<◌};
ghost use Rattle.records.specs.Answer.{number_of, span_word, words_of};

use crate::words::{RECORD_BYTES, SPAN_END, SPAN_START, word};

#[derive(Clone, Copy, Debug, PartialEq, Eq)]
pub enum ConvertErrorKind {
    SameSignature = 1,
    SameSymbol,
    AlreadyDeclared,
    UnknownVariable,
    UnknownFunction,
    AssignToConstant,
    ReturnWithoutType,
    NoValue,
    MissingReturn,
    NoMain,
    MainNotInteger,
    WrongReturnType,
    WrongAssignType,
    WrongOperands,
    AmbiguousCall,
    LiteralOutOfRange,
    InvalidCast,
    NotBool,
    NotInteger,
    BreakOutOfLoop,
    ContinueOutOfLoop,
    LatinCharInNonLibCFunction,
    ExternNotLatin,
    BadTree,
    TooDeep,
    ShortBuffer,
    WouldPanic,
}

// The numbers that come without a span: NoMain, and from BadTree to ShortBuffer.
const NO_MAIN: u32 = ConvertErrorKind::NoMain as u32;

const BAD_TREE: u32 = ConvertErrorKind::BadTree as u32;

const SHORT_BUFFER: u32 = ConvertErrorKind::ShortBuffer as u32;

// A refusal and the record where it happened, NONE where it has no place.
#[derive(Clone, Copy, Debug, PartialEq, Eq)]
pub struct ConvertError {
    pub kind: ConvertErrorKind,
    pub place: u32,
}

// An answer in document 01's words.
#[derive(Clone, Copy, Debug, PartialEq, Eq)]
pub struct AnswerWords {
    pub number: u32,
    pub place: u32,
    pub start: u32,
    pub end: u32,
}

// Document 01's number of a refusal.
pub fn number(kind: ConvertErrorKind) -> u32
    ensures { result ≡ number_of kind }
{
    kind as u32
}

// Word k of the place's span, where the place is a record and the number comes with a span.
#[tactic(auto, unfolding(crate::specs::Answer::span_word, crate::specs::Answer::has_span, laws::specs::Fix::pick))]
fn span_word(tree: &[u8], number: u32, place: u32, k: usize) -> u32
    requires { k < 7 }
    ensures { result ≡ span_word tree.now number place k }
{
    let r = place as usize;
    if r >= tree.len() / RECORD_BYTES || matches!(number, NO_MAIN | BAD_TREE..=SHORT_BUFFER) {
        return 0;
    }
    word(tree, r, k)
}

// A refusal of this tree in document 01's words.
pub fn words_of(tree: &[u8], e: ConvertError) -> AnswerWords
    ensures { result ≡ words_of tree.now e }
{
    let number = number(e.kind);
    AnswerWords {
        number,
        place: e.place,
        start: span_word(tree, number, e.place, SPAN_START),
        end: span_word(tree, number, e.place, SPAN_END),
    }
}
