// ir/structs.rs: operands, instructions, and the numbering of a function's variables and labels. The tables stand as regions of one
// lent buffer, the arena; how many entries each has is lent as words, or goes in and comes back by value.
ghost use Rattle.std.specs.Prelude.{◌≡◌, ◌+◌, ◌*◌, ◌≤◌, ◌<◌, length, get_or};
ghost use Rattle.std.proofs.Math.Option.{none, some};
ghost use Rattle.laws.specs.Splice.{splice};
ghost use Rattle.syntax.specs.Syntax.{unary_ops, binary_ops, unary_number, binary_number, Neg, Or};
ghost use Rattle.conversion.specs.Ir as Ir;
ghost use Rattle.conversion.specs.Written.{tag, operand_value, encode_instr, instruction_bytes};
ghost use Rattle.ir.specs.Instructions.{var_of, operand_of, kind_number, tag_number, field_bytes, one_bytes, none_bytes, two_bytes};
ghost use Rattle.ir.specs.Arena.{HasSlot, Room};
ghost use Rattle.ir.specs.Counted.{counted};
ghost use Rattle.ir.specs.Steps.{named, Emits, AddsVar, NumbersLabel, Closes};

use crate::arena::{FUNCTION_BYTES, FUNCTIONS, INSTRUCTION_BYTES};
use crate::counter;
use crate::lent::COUNT_INSTRUCTIONS;
use records::numbers::{BINARY_OPS, NEG, OR, UNARY_OPS};
use records::words::{Four, NONE, high, low, put_four};

// Kinds of instructions.
#[derive(Clone, Copy, Debug, PartialEq, Eq)]
pub enum InstructionKind {
    Copy = 1,
    Unary,
    Binary,
    Cast,
    Zero,
    Arg,
    Call,
    Label,
    Jump,
    JumpIfNot,
    Return,
    Comment,
}

// Tags of operands.
#[derive(Clone, Copy, Debug, PartialEq, Eq)]
pub enum Tag {
    Nothing = 0,
    Variable,
    Int,
    IntShort,
    Unsigned,
    UnsignedShort,
    Float,
    Bool,
    String,
    Null,
}

// An instruction, and a function's entry, are eight words: where the second four begin.
const SECOND_FOUR: usize = 16;

// Where a kind has no operator.
const NO_OPERATOR: u8 = 0;

// A label's number in its function.
#[derive(Clone, Copy)]
pub struct Label(pub u32);

// A variable: its number in its function, and its type's record.
#[derive(Clone, Copy)]
pub struct VarId(pub u32, pub u32);

// A text of the tree: its number, which is the lowest record with it, and where it stands, in the two words of a record with it.
#[derive(Clone, Copy, Debug, PartialEq, Eq)]
pub struct TextId {
    pub number: usize,
    pub offset: u32,
    pub len: u32,
}

#[derive(Clone, Copy)]
pub enum Operand {
    Var(VarId),
    // The 64 bits, short, unsigned.
    Int(u64, bool, bool),
    // Its number among the floats.
    Float(u32),
    Bool(bool),
    // Its number among the strings.
    DataAddress(u32),
    Null,
}

// An operand as it is written.
#[derive(Clone, Copy)]
pub struct WrittenOperand {
    pub tag: Tag,
    pub value: u64,
}

// An instruction as it is written; the last of its bytes are zero.
#[derive(Clone, Copy)]
pub struct Fields {
    pub kind: InstructionKind,
    pub operator: u8,
    pub first: WrittenOperand,
    pub second: WrittenOperand,
    pub target: u32,
    pub owner: u32,
}

// How many entries each table has, for a tree of so many records, and how many instructions, variables and labels there were before
// the function at hand began.
#[derive(Clone, Copy)]
pub struct Counters {
    pub records: usize,
    pub instructions: usize,
    pub variables: usize,
    pub labels: usize,
    pub functions: usize,
    pub strings: usize,
    pub floats: usize,
    pub instructions_before: usize,
    pub variables_before: usize,
    pub labels_before: usize,
}

// What a step numbered, and the counters that count it.
#[derive(Clone, Copy)]
pub struct WithCounters<T> {
    pub value: T,
    pub counters: Counters,
}

fn tag_of(o: Operand) -> Tag
    ensures { tag_number result ≡ tag (operand_of o) }
{
    match o {
        Operand::Var(_) => Tag::Variable,
        Operand::Int(_, short, unsigned) => match (short, unsigned) {
            (true, true) => Tag::UnsignedShort,
            (true, false) => Tag::IntShort,
            (false, true) => Tag::Unsigned,
            (false, false) => Tag::Int,
        },
        Operand::Float(_) => Tag::Float,
        Operand::Bool(_) => Tag::Bool,
        Operand::DataAddress(_) => Tag::String,
        Operand::Null => Tag::Null,
    }
}

fn value_of(o: Operand) -> u64
    ensures { result ≡ operand_value (operand_of o) }
{
    match o {
        Operand::Var(v) => v.0 as u64,
        Operand::Int(bits, _, _) => bits,
        Operand::Float(i) => i as u64,
        Operand::Bool(b) => b as u64,
        Operand::DataAddress(i) => i as u64,
        Operand::Null => 0,
    }
}

fn part_of(o: Operand) -> WrittenOperand
    ensures { (tag_number result.tag ≡ tag (operand_of o)) × (result.value ≡ operand_value (operand_of o)) }
{
    WrittenOperand {
        tag: tag_of(o),
        value: value_of(o),
    }
}

// A number that names no operator stands for the first.
fn unary_number(op: u8) -> u8
    ensures { result ≡ unary_number (get_or unary_ops op Neg) }
{
    if op < UNARY_OPS { op } else { NEG }
}

fn binary_number(op: u8) -> u8
    ensures { result ≡ binary_number (get_or binary_ops op Or) }
{
    if op < BINARY_OPS { op } else { OR }
}

// Nothing in an operand's place.
fn no_part() -> WrittenOperand
    ensures { (tag_number result.tag ≡ 0) × (result.value ≡ 0) }
{
    WrittenOperand {
        tag: Tag::Nothing,
        value: 0,
    }
}

// An instruction with one operand.
fn with_one(kind: InstructionKind, operator: u8, target: u32, o: Operand) -> Fields
    ensures { field_bytes result ≡ one_bytes (kind_number kind) operator target (operand_of o) }
{
    Fields {
        kind,
        operator,
        first: part_of(o),
        second: no_part(),
        target,
        owner: 0,
    }
}

// An instruction with none.
fn with_none(kind: InstructionKind, target: u32, owner: u32) -> Fields
    ensures { field_bytes result ≡ none_bytes (kind_number kind) target owner }
{
    Fields {
        kind,
        operator: NO_OPERATOR,
        first: no_part(),
        second: no_part(),
        target,
        owner,
    }
}

fn with_two(operator: u8, target: u32, o: Operand, p: Operand) -> Fields
    ensures { field_bytes result ≡ two_bytes operator target (operand_of o) (operand_of p) }
{
    Fields {
        kind: InstructionKind::Binary,
        operator,
        first: part_of(o),
        second: part_of(p),
        target,
        owner: 0,
    }
}

// A kind's number, as it is written.
fn number_of_kind(kind: InstructionKind) -> u32
    ensures { (result ≡ kind_number kind) × (result < 256) }
{
    kind as u32
}

// A tag's.
fn number_of_tag(tag: Tag) -> u32
    ensures { (result ≡ tag_number tag) × (result < 256) }
{
    tag as u32
}

// The bytes of an instruction.
fn put_fields(arena: &mut [u8], at: usize, f: Fields)
    requires { at + instruction_bytes ≤ length arena.old }
    ensures { arena.new ≡ splice arena.old at (field_bytes f) }
{
    let one = f.first;
    let two = f.second;
    let head = number_of_kind(f.kind)
        + u32::from(f.operator) * 256
        + number_of_tag(one.tag) * 65536
        + number_of_tag(two.tag) * 16777216;
    let back = at + SECOND_FOUR;
    let a = Four(head, f.target, low(one.value), high(one.value));
    let b = Four(low(two.value), high(two.value), f.owner, 0);
    put_four(arena, at, a);
    put_four(arena, back, b);
}

// `instrs.push` of the instruction that is written so.
fn push(arena: &mut [u8], k: &mut [usize], f: Fields)
    requires { Room (counted k.old) arena.old × ((counted k.old).instructions < 4 * (counted k.old).records) }
    ensures { (i : Ir.Instr) → field_bytes f ≡ encode_instr i → Emits i (counted k.old) arena.old (counted k.new) arena.new }
{
    let n = k[COUNT_INSTRUCTIONS];
    k[COUNT_INSTRUCTIONS] = n + 1;
    put_fields(arena, INSTRUCTION_BYTES * n, f);
}

// `instrs.push(Instr::..)`, a function for each kind: where one is called its kind is known, so that no `Instr` is made and taken apart again.
pub fn emit_copy(arena: &mut [u8], k: &mut [usize], dest: VarId, src: Operand)
    requires { Room (counted k.old) arena.old × ((counted k.old).instructions < 4 * (counted k.old).records) }
    ensures { Emits (Ir.Copy (var_of dest) (operand_of src)) (counted k.old) arena.old (counted k.new) arena.new }
{
    push(
        arena,
        k,
        with_one(InstructionKind::Copy, NO_OPERATOR, dest.0, src),
    );
}

// An operator is its number.
pub fn emit_unary(arena: &mut [u8], k: &mut [usize], dest: VarId, op: u8, src: Operand)
    requires { Room (counted k.old) arena.old × ((counted k.old).instructions < 4 * (counted k.old).records) }
    ensures { Emits (Ir.Unary (var_of dest) (get_or unary_ops op Neg) (operand_of src)) (counted k.old) arena.old (counted k.new) arena.new }
{
    push(
        arena,
        k,
        with_one(InstructionKind::Unary, unary_number(op), dest.0, src),
    );
}

pub fn emit_binary(
    arena: &mut [u8],
    k: &mut [usize],
    dest: VarId,
    op: u8,
    left: Operand,
    right: Operand,
)
    requires { Room (counted k.old) arena.old × ((counted k.old).instructions < 4 * (counted k.old).records) }
    ensures { Emits (Ir.Binary (var_of dest) (get_or binary_ops op Or) (operand_of left) (operand_of right)) (counted k.old) arena.old (counted k.new) arena.new }
{
    push(arena, k, with_two(binary_number(op), dest.0, left, right));
}

pub fn emit_cast(arena: &mut [u8], k: &mut [usize], dest: VarId, src: Operand)
    requires { Room (counted k.old) arena.old × ((counted k.old).instructions < 4 * (counted k.old).records) }
    ensures { Emits (Ir.Cast (var_of dest) (operand_of src)) (counted k.old) arena.old (counted k.new) arena.new }
{
    push(
        arena,
        k,
        with_one(InstructionKind::Cast, NO_OPERATOR, dest.0, src),
    );
}

pub fn emit_zero(arena: &mut [u8], k: &mut [usize], dest: VarId)
    requires { Room (counted k.old) arena.old × ((counted k.old).instructions < 4 * (counted k.old).records) }
    ensures { Emits (Ir.Zero (var_of dest)) (counted k.old) arena.old (counted k.new) arena.new }
{
    push(arena, k, with_none(InstructionKind::Zero, dest.0, 0));
}

pub fn emit_arg(arena: &mut [u8], k: &mut [usize], arg: Operand)
    requires { Room (counted k.old) arena.old × ((counted k.old).instructions < 4 * (counted k.old).records) }
    ensures { Emits (Ir.Arg (operand_of arg)) (counted k.old) arena.old (counted k.new) arena.new }
{
    push(
        arena,
        k,
        with_one(InstructionKind::Arg, NO_OPERATOR, 0, arg),
    );
}

// A call names its function's record.
pub fn emit_call(arena: &mut [u8], k: &mut [usize], dest: VarId, func: u32)
    requires { Room (counted k.old) arena.old × ((counted k.old).instructions < 4 * (counted k.old).records) }
    ensures { Emits (Ir.Call (some (var_of dest)) func) (counted k.old) arena.old (counted k.new) arena.new }
{
    push(arena, k, with_none(InstructionKind::Call, dest.0, func));
}

// A call whose value nothing takes.
pub fn emit_call_only(arena: &mut [u8], k: &mut [usize], func: u32)
    requires { Room (counted k.old) arena.old × ((counted k.old).instructions < 4 * (counted k.old).records) }
    ensures { Emits (Ir.Call none func) (counted k.old) arena.old (counted k.new) arena.new }
{
    push(arena, k, with_none(InstructionKind::Call, NONE, func));
}

pub fn emit_label(arena: &mut [u8], k: &mut [usize], here: Label)
    requires { Room (counted k.old) arena.old × ((counted k.old).instructions < 4 * (counted k.old).records) }
    ensures { Emits (Ir.Label here.0) (counted k.old) arena.old (counted k.new) arena.new }
{
    push(arena, k, with_none(InstructionKind::Label, here.0, 0));
}

pub fn emit_jump(arena: &mut [u8], k: &mut [usize], target: Label)
    requires { Room (counted k.old) arena.old × ((counted k.old).instructions < 4 * (counted k.old).records) }
    ensures { Emits (Ir.Jump target.0) (counted k.old) arena.old (counted k.new) arena.new }
{
    push(arena, k, with_none(InstructionKind::Jump, target.0, 0));
}

pub fn emit_jump_if_not(arena: &mut [u8], k: &mut [usize], cond: Operand, target: Label)
    requires { Room (counted k.old) arena.old × ((counted k.old).instructions < 4 * (counted k.old).records) }
    ensures { Emits (Ir.JumpIfNot (operand_of cond) target.0) (counted k.old) arena.old (counted k.new) arena.new }
{
    push(
        arena,
        k,
        with_one(InstructionKind::JumpIfNot, NO_OPERATOR, target.0, cond),
    );
}

pub fn emit_return(arena: &mut [u8], k: &mut [usize], value: Operand)
    requires { Room (counted k.old) arena.old × ((counted k.old).instructions < 4 * (counted k.old).records) }
    ensures { Emits (Ir.Return (operand_of value)) (counted k.old) arena.old (counted k.new) arena.new }
{
    push(
        arena,
        k,
        with_one(InstructionKind::Return, NO_OPERATOR, 0, value),
    );
}

// A comment names its statement's record.
pub fn emit_comment(arena: &mut [u8], k: &mut [usize], statement: u32)
    requires { Room (counted k.old) arena.old × ((counted k.old).instructions < 4 * (counted k.old).records) }
    ensures { Emits (Ir.Comment statement) (counted k.old) arena.old (counted k.new) arena.new }
{
    push(arena, k, with_none(InstructionKind::Comment, 0, statement));
}

// A new variable of this type: its number is its index among its function's variables.
pub fn new_var(arena: &mut [u8], k: Counters, ty: u32) -> WithCounters<VarId>
    requires { Room k arena.old × (k.variables < 3 * k.records) }
    ensures { AddsVar ty k arena.old result arena.new }
{
    let mut f = k;
    let value = counter::new_var(arena, &mut f, ty);
    WithCounters { value, counters: f }
}

// The label of this kind that this record opens: its number is its index among its function's labels, added the first time it is asked.
pub fn label_id(arena: &mut [u8], k: Counters, kind: u32, opener: u32) -> WithCounters<Label>
    requires { Room k arena.old × (k.labels < 3 * k.records) × HasSlot k.records (named kind opener) }
    ensures { NumbersLabel kind opener k arena.old result arena.new }
{
    let mut f = k;
    let value = counter::label_id(arena, &mut f, kind, opener);
    WithCounters { value, counters: f }
}

// The function at hand is done: its entry, and the next one begins.
pub fn add_function(arena: &mut [u8], k: Counters, owner: u32, body: bool) -> Counters
    requires { Room k arena.old × (k.functions < k.records) }
    ensures { Closes owner body k arena.old result arena.new }
{
    let n = k.functions;
    let at = FUNCTIONS * k.records + FUNCTION_BYTES * n;
    let back = at + SECOND_FOUR;
    let a = Four(
        owner,
        u32::from(body),
        k.instructions_before as u32,
        (k.instructions - k.instructions_before) as u32,
    );
    let b = Four(
        k.variables_before as u32,
        (k.variables - k.variables_before) as u32,
        k.labels_before as u32,
        (k.labels - k.labels_before) as u32,
    );
    put_four(arena, at, a);
    put_four(arena, back, b);
    Counters {
        functions: n + 1,
        instructions_before: k.instructions,
        variables_before: k.variables,
        labels_before: k.labels,
        ..k
    }
}
