// Document 01's numbers by name.

// Kinds of records.
pub const KIND_TYPE: u8 = 1;

pub const KIND_INT: u8 = 2;

pub const KIND_FLOAT: u8 = 3;

pub const KIND_STR: u8 = 4;

pub const KIND_BOOL: u8 = 5;

pub const KIND_NAME: u8 = 6;

pub const KIND_NULL: u8 = 7;

pub const KIND_SIZE_OF: u8 = 8;

pub const KIND_UNARY: u8 = 9;

pub const KIND_BINARY: u8 = 10;

pub const KIND_CALL: u8 = 11;

pub const KIND_LIST: u8 = 12;

pub const KIND_VALUE: u8 = 13;

pub const KIND_TYPE_ARGUMENT: u8 = 14;

pub const KIND_DECLARE: u8 = 15;

pub const KIND_INIT: u8 = 16;

pub const KIND_RETURN: u8 = 17;

pub const KIND_CALL_STATEMENT: u8 = 18;

pub const KIND_IF: u8 = 19;

pub const KIND_WHILE: u8 = 20;

pub const KIND_FOR: u8 = 21;

pub const KIND_BREAK: u8 = 22;

pub const KIND_CONTINUE: u8 = 23;

pub const KIND_VARIABLE: u8 = 24;

pub const KIND_FUNCTION: u8 = 25;

// Forms of types: the detail of a type without its marks.
pub const FORM_INT: u8 = 1;

pub const FORM_FLOAT: u8 = 2;

pub const FORM_BOOL: u8 = 3;

pub const FORM_CHAR: u8 = 4;

pub const FORM_BYTE: u8 = 5;

pub const FORM_ADDRESS: u8 = 6;

pub const FORM_ARRAY: u8 = 7;

pub const FORM_CUSTOM: u8 = 8;

pub const FORM_NULL: u8 = 9;

// Those with marks: 16 short, 32 unsigned.
pub const FORM_SHORT_INT: u8 = 17;

pub const FORM_UNSIGNED: u8 = 33;

pub const FORM_SHORT_UNSIGNED: u8 = 49;

pub const FORM_SHORT_FLOAT: u8 = 18;

// The types that every tree begins with, each by its record.
pub const INT_LONG: usize = 0;

pub const INT_SHORT: usize = 1;

pub const UNSIGNED_LONG: usize = 2;

pub const UNSIGNED_SHORT: usize = 3;

pub const FLOAT_LONG: usize = 4;

pub const FLOAT_SHORT: usize = 5;

pub const BOOL_TYPE: usize = 6;

pub const CHAR_TYPE: usize = 7;

pub const BYTE_TYPE: usize = 8;

pub const NULL_TYPE: usize = 9;

pub const ADDRESS_OF_CHAR: usize = 10;

pub const ADDRESS_OF_NULL: usize = 11;

// Operators, in the order of UnaryOp.
pub const NEG: u8 = 0;

pub const BIT_NOT: u8 = 1;

pub const NOT: u8 = 2;

pub const UNARY_OPS: u8 = 3;

// Operators, in the order of BinaryOp.
pub const OR: u8 = 0;

pub const AND: u8 = 1;

pub const BIT_OR: u8 = 2;

pub const BIT_XOR: u8 = 3;

pub const BIT_AND: u8 = 4;

pub const EQ: u8 = 5;

pub const NOT_EQ: u8 = 6;

pub const LT: u8 = 7;

pub const LE: u8 = 8;

pub const GT: u8 = 9;

pub const GE: u8 = 10;

pub const SHL: u8 = 11;

pub const SHR: u8 = 12;

pub const ADD: u8 = 13;

pub const SUB: u8 = 14;

pub const MUL: u8 = 15;

pub const DIV: u8 = 16;

pub const REM: u8 = 17;

pub const BINARY_OPS: u8 = 18;
