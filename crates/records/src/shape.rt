// The table of document 01: what each word of each kind of record is for.
ghost use Rattle.std.specs.Prelude.{◌≡◌, ◌<◌};
ghost use Rattle.records.specs.Shapes.{shape_of, row_of, refers, role_of, plain_type, type_shape};
ghost use Rattle.records.specs.Packed.{unpacked};

use crate::numbers::{
    FORM_ADDRESS, FORM_ARRAY, FORM_BOOL, FORM_BYTE, FORM_CHAR, FORM_CUSTOM, FORM_FLOAT, FORM_INT,
    FORM_NULL, FORM_SHORT_FLOAT, FORM_SHORT_INT, FORM_SHORT_UNSIGNED, FORM_UNSIGNED, KIND_FUNCTION,
    KIND_TYPE,
};

// What a word of a record is for. Text is an offset and Length the length beside it; from Expr on a word refers to a record.
#[derive(Clone, Copy, Debug, PartialEq, Eq)]
pub enum Role {
    Unused,
    Number,
    Text,
    Length,
    Expr,
    TypeRef,
    TypeOrNone,
    Name,
    Variable,
    Arguments,
    Parameters,
    Body,
    Item,
    Rest,
}

// A row of the table: details stay below `limit`, and what the words A to E are for.
#[derive(Clone, Copy, Debug, PartialEq, Eq)]
pub struct Row {
    pub limit: u8,
    pub a: Role,
    pub b: Role,
    pub c: Role,
    pub d: Role,
    pub e: Role,
}

// The roles by number, as the packed rows have them.
#[tactic(auto, unfolding(crate::specs::Shapes::role_of))]
fn role_of(n: u32) -> Role
    ensures { result ≡ role_of n }
{
    match n {
        1 => Role::Number,
        2 => Role::Text,
        3 => Role::Length,
        4 => Role::Expr,
        5 => Role::TypeRef,
        6 => Role::TypeOrNone,
        7 => Role::Name,
        8 => Role::Variable,
        9 => Role::Arguments,
        10 => Role::Parameters,
        11 => Role::Body,
        12 => Role::Item,
        13 => Role::Rest,
        _ => Role::Unused,
    }
}

// The row of a shape in one number: two hexadecimal digits for the limit, above them one for the role of each word, A's lowest. The types
// that have words of their own (Address, Array, Custom) stand behind the kinds. A match is a look-up that builds nothing.
#[tactic(auto, unfolding(crate::specs::Packed::unpacked, crate::specs::Shapes::row_of))]
fn packed(shape: usize) -> u32
    requires { shape < 29 }
    ensures { unpacked result ≡ row_of shape }
{
    match shape {
        0 => 0x0000000,
        1 => 0x3200040,
        2 => 0x0001104,
        3 => 0x0001102,
        4 => 0x0003201,
        5 => 0x0000002,
        6 => 0x0003201,
        7 => 0x0000001,
        8 => 0x0000501,
        9 => 0x0000403,
        10 => 0x0004412,
        11 => 0x0093201,
        12 => 0x000dc01,
        13 => 0x0000401,
        14 => 0x0000501,
        15 => 0x0053201,
        16 => 0x0043202,
        17 => 0x0000401,
        18 => 0x0000401,
        19 => 0x00bb402,
        20 => 0x000b401,
        21 => 0x0b44801,
        22 => 0x0000001,
        23 => 0x0000001,
        24 => 0x0063201,
        25 => 0xb6a7708,
        26 => 0x3200540,
        27 => 0x3211540,
        _ => 0x3203240,
    }
}

pub fn row_of(shape: usize) -> Row
    requires { shape < 29 }
    ensures { result ≡ row_of shape }
{
    let p = packed(shape);
    let a = role_of(p / 256 % 16);
    let b = role_of(p / 4096 % 16);
    let c = role_of(p / 65536 % 16);
    let d = role_of(p / 1048576 % 16);
    let e = role_of(p / 16777216 % 16);
    Row {
        limit: (p % 256) as u8,
        a,
        b,
        c,
        d,
        e,
    }
}

// Int, Float, Bool, Char, Byte and Null have no words of their own.
#[tactic(auto, unfolding(crate::specs::Shapes::plain_type))]
fn plain_type(d: u8) -> bool
    ensures { result ≡ plain_type d }
{
    matches!(
        d,
        FORM_INT
            | FORM_SHORT_INT
            | FORM_UNSIGNED
            | FORM_SHORT_UNSIGNED
            | FORM_FLOAT
            | FORM_SHORT_FLOAT
            | FORM_BOOL
            | FORM_CHAR
            | FORM_BYTE
            | FORM_NULL
    )
}

#[tactic(auto, unfolding(crate::specs::Shapes::type_shape, laws::specs::Fix::pick))]
fn type_shape(detail: u8) -> usize
    ensures { (result ≡ type_shape detail) × (result < 29) }
{
    match detail {
        FORM_ADDRESS => 26,
        FORM_ARRAY => 27,
        FORM_CUSTOM => 28,
        _ if plain_type(detail) => 1,
        _ => 0,
    }
}

// The row for a kind and a detail; 0 for an unknown kind and for a type of unknown detail.
#[tactic(auto, unfolding(crate::specs::Shapes::shape_of, laws::specs::Fix::pick))]
pub fn shape_of(kind: u8, detail: u8) -> usize
    ensures { (result ≡ shape_of kind detail) × (result < 29) }
{
    if kind == KIND_TYPE {
        return type_shape(detail);
    }
    if kind <= KIND_FUNCTION {
        return kind as usize;
    }
    0
}

// Whether a word of this role refers to a record, where it is not none.
pub fn refers_to(role: Role) -> bool
    ensures { result ≡ refers role }
{
    !matches!(
        role,
        Role::Unused | Role::Number | Role::Text | Role::Length
    )
}
