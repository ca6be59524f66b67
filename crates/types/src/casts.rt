// can_cast: by class of source against class of target.
ghost use Rattle.std.specs.Prelude.{◌≡◌, List, ℕ, ◌+◌, ◌*◌, ◌≤◌, length};
ghost use Rattle.records.specs.Words.{record_bytes};
ghost use Rattle.syntax.specs.Decode.{type_at};
ghost use Rattle.conversion.specs.Types.{cast_class, can_cast};
ghost use Rattle.types.specs.Casts.{cast_class_number};

use crate::form::{form, is_short};
use records::numbers::{
    FORM_ADDRESS, FORM_ARRAY, FORM_BOOL, FORM_BYTE, FORM_CHAR, FORM_CUSTOM, FORM_FLOAT, FORM_INT,
};

// Classes of types.
#[derive(Clone, Copy)]
enum CastClass {
    OtherScalar,
    LongInt,
    Address,
    Null,
    Rest,
}

// A row for each source, an entry for each target, in the order of the classes.
const CASTS: [[bool; 5]; 5] = [
    [true, true, false, false, false],
    [true, true, true, false, false],
    [false, true, true, false, false],
    [false, true, true, false, false],
    [false, false, false, false, false],
];

fn cast_class(tree: &[u8], ty: usize) -> CastClass
    requires { ty * record_bytes + record_bytes ≤ length tree.now }
    ensures { (text : List ℕ) → cast_class_number result ≡ cast_class (type_at tree.now text ty) }
{
    match form(tree, ty) {
        FORM_INT if !is_short(tree, ty) => CastClass::LongInt,
        FORM_INT | FORM_FLOAT | FORM_BOOL | FORM_CHAR | FORM_BYTE => CastClass::OtherScalar,
        FORM_ADDRESS => CastClass::Address,
        FORM_ARRAY | FORM_CUSTOM => CastClass::Rest,
        _ => CastClass::Null,
    }
}

// Which row of the table, and which entry.
fn index_of(class: CastClass) -> usize
    ensures { result ≡ cast_class_number class }
{
    class as usize
}

pub fn can_cast(tree: &[u8], from: usize, to: usize) -> bool
    requires record_bytes_in_bounds { from * record_bytes + record_bytes ≤ length tree.now }
    requires record_bytes_in_bounds_2 { to * record_bytes + record_bytes ≤ length tree.now }
    ensures { (text : List ℕ) → result ≡ can_cast (type_at tree.now text) from to }
{
    if from == to {
        return true;
    }
    let a = index_of(cast_class(tree, from));
    let b = index_of(cast_class(tree, to));
    CASTS[a][b]
}
