// Where each table begins in the arena, in bytes a record, and how long an entry of it is; the instructions' own begins at 0.
pub const INSTRUCTION_BYTES: usize = 32;

pub const VARIABLES: usize = 128;

pub const VARIABLE_BYTES: usize = 4;

pub const LABELS: usize = 140;

pub const LABEL_BYTES: usize = 8;

pub const FUNCTIONS: usize = 164;

pub const FUNCTION_BYTES: usize = 32;

pub const STRINGS: usize = 196;

pub const STRING_BYTES: usize = 8;

pub const FLOATS: usize = 204;

pub const FLOAT_BYTES: usize = 16;

// A number in what they are searched by.
pub const SEARCH_BYTES: usize = 4;

// Behind the tables: the numbers of the strings' texts.
pub const STRING_NUMBERS: usize = 236;

// And the numbers of the function's labels, a word for each of the seven kinds at each record.
pub const LABEL_SLOTS: usize = 240;

pub const LABEL_SLOT_BYTES: usize = 28;

// And the floats' links, and the heads of their buckets.
pub const FLOAT_LINKS: usize = 268;

pub const FLOAT_HEADS: usize = 276;

// And the slots of those numbers, each with the string that has the text.
pub const STRING_SLOTS: usize = 280;
