// Document 01's numbers for labels, and its tags as words of the stack.
use ir::structs::Tag;

// Kinds of labels, with their numbers.
#[derive(Clone, Copy, Debug, PartialEq, Eq)]
pub(crate) enum LabelKind {
    LoopStart = 1,
    LoopEnd,
    LoopCheck,
    Otherwise,
    ConditionEnd,
    LogicRhs,
    LogicEnd,
}

// Tags of operands as words; an Int's is 1 more where it is short, 2 more where it is unsigned.
pub(crate) const TAG_VARIABLE: u32 = Tag::Variable as u32;

pub(crate) const TAG_INT: u32 = Tag::Int as u32;

pub(crate) const TAG_UNSIGNED: u32 = Tag::Unsigned as u32;

pub(crate) const TAG_FLOAT: u32 = Tag::Float as u32;

pub(crate) const TAG_BOOL: u32 = Tag::Bool as u32;

pub(crate) const TAG_STRING: u32 = Tag::String as u32;

pub(crate) const TAG_NULL: u32 = Tag::Null as u32;
