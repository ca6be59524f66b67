// Where the regions of scratch begin, in bytes a record, and how long an entry of each is: `records/specs/Layout.antt`.

// What the judge knows of a record: four bytes in a slot. The first slot belongs to none, that of record r is slot r + 1.
pub const KNOWN_BYTES: usize = 4;

// Within a slot: how deep the record is, how often it is referred to, what its list holds, its kind.
pub const DEPTH_AT: usize = 0;

pub const COUNT_AT: usize = 1;

pub const CLASS_AT: usize = 2;

pub const KIND_AT: usize = 3;

// The same in the slot behind.
pub const NEXT_DEPTH: usize = 4;

pub const NEXT_COUNT: usize = 5;

pub const NEXT_CLASS: usize = 6;

pub const NEXT_KIND: usize = 7;

// The heads of a chain's buckets stand first, then an entry for each number: while equal types and equal texts are looked for (`records/specs/Chains.antt`,
// `records/specs/Order.antt`).
pub const CHAIN_HEAD_BYTES: usize = 4;

pub const CHAIN_ENTRY_BYTES: usize = 8;

// Heads and entries together.
pub const CHAIN_EACH: usize = 12;

// A sample of the text: two words, the digest and the power (`records/specs/Samples.antt`).
pub const SAMPLE_BYTES: usize = 8;

pub const SAMPLE_POWER: usize = 4;

// The functions' records, from byte 0 on.
pub const LISTED_BYTES: usize = 4;

// The types of expressions, a word each.
pub const TYPE_SLOTS: usize = 4;

pub const TYPE_SLOT_BYTES: usize = 4;

// The open names.
pub const OPEN_NAMES: usize = 8;

pub const OPEN_NAME_BYTES: usize = 16;

// The operands that wait.
pub const OPERANDS: usize = 24;

pub const OPERAND_BYTES: usize = 16;

// The numbers of the texts.
pub const ORIGINALS: usize = 40;

pub const ORIGINAL_BYTES: usize = 4;

// The functions by key.
pub const KEY_SLOTS: usize = 44;

pub const KEY_SLOT_BYTES: usize = 4;

// The last function in each bucket of digests.
pub const KEY_HEADS: usize = 48;

pub const KEY_HEAD_BYTES: usize = 4;

// The digests of the texts.
pub const TEXT_DIGESTS: usize = 52;

pub const TEXT_DIGEST_BYTES: usize = 4;

// The last mangled function of each name, by the name's number.
pub const NAME_HEADS: usize = 56;

pub const NAME_HEAD_BYTES: usize = 4;

// Where the open name with each text was put last, by the text's number.
pub const NAME_SLOTS: usize = 60;

pub const NAME_SLOT_BYTES: usize = 4;

// The turns in which the types of expressions were worked out, a word each.
pub const TURNS: usize = 64;

pub const TURN_BYTES: usize = 4;

// What is kept beside the types of expressions, a word each; in the first word how many visits were made.
pub const BESIDES: usize = 68;

pub const BESIDE_BYTES: usize = 4;

// All regions together.
pub const SCRATCH: usize = 72;
