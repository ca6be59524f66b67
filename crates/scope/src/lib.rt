// scope.rs: the names that are known at a place. They stand in scratch, the innermost last; the scope is a cursor by value that says how
// many are open. Leaving a block is going on with the scope from before it. Names are told apart by two words, offset and length: callers take
// those of the lowest record with the text, so no text is compared. The number of that record has a slot, which says where the text was declared
// last, so no name is searched for.
#![tactic(auto)]

ghost use Rattle.std.specs.Prelude.{◌≡◌, ◌+◌, ◌*◌, ◌≤◌, ◌<◌, length};
ghost use Rattle.records.specs.Layout.{open_names, scratch_each};
ghost use Rattle.ir.specs.Search.{found_of};
ghost use Rattle.scope.specs.Open.{open_name_at, words_are, open_at, NamesRoom, VariableAt, FindsTold, NameAfforded, DeclaresTold, within, loop_number, loop_of};

use ir::structs::{TextId, VarId};
use records::layout::{NAME_SLOT_BYTES, NAME_SLOTS, OPEN_NAME_BYTES, OPEN_NAMES};
use records::words::{
    FOURTH_WORD, Four, NONE, SECOND_WORD, THIRD_WORD, index, load, put_four, put_word,
};

// For a tree of so many records: how many names are open, the record of the innermost loop (or NONE), and the function's record.
#[derive(Clone, Copy)]
pub struct Scope {
    pub records: usize,
    pub names: usize,
    pub inner: u32,
    pub function: u32,
}

// A variable that is known, and whether it is constant.
#[derive(Clone, Copy)]
pub struct Known {
    pub var: VarId,
    pub constant: bool,
}

// Whether the name of entry j is said by the two words of this one.
fn entry_is(scratch: &[u8], records: usize, j: usize, name: TextId) -> bool
    requires { open_name_at records j + open_names.each ≤ length scratch.now }
    ensures { result ≡ words_are scratch.now records name.offset name.len j }
{
    let a = load(scratch, OPEN_NAMES * records + OPEN_NAME_BYTES * j);
    let n = load(
        scratch,
        OPEN_NAMES * records + OPEN_NAME_BYTES * j + SECOND_WORD,
    );
    (name.offset == a) & (name.len == n)
}

// The one of `count` open names that the two words of this one say: it stands where the slot says that the text was declared last. A
// slot outlives its name's block and is never cleared, so the entry there is held against the count and the words.
fn open_at(scratch: &[u8], records: usize, count: usize, name: TextId) -> Option<usize>
    requires { (scratch_each * records ≤ length scratch.now) × (count ≤ records) × (name.number < records) }
    ensures { result ≡ found_of (open_at scratch.now records count name.number name.offset name.len) }
{
    let j = index(load(
        scratch,
        NAME_SLOTS * records + NAME_SLOT_BYTES * name.number,
    ));
    (j < count && entry_is(scratch, records, j, name)).then_some(j)
}

fn variable_at(scratch: &[u8], records: usize, j: usize) -> Known
    requires { open_name_at records j + open_names.each ≤ length scratch.now }
    ensures { VariableAt scratch.now (open_name_at records j) result }
{
    let id = load(
        scratch,
        OPEN_NAMES * records + OPEN_NAME_BYTES * j + THIRD_WORD,
    );
    let w = load(
        scratch,
        OPEN_NAMES * records + OPEN_NAME_BYTES * j + FOURTH_WORD,
    );
    Known {
        var: VarId(id, w / 2),
        constant: w % 2 == 1,
    }
}

impl Scope {
    // The variable of this name, in this block or those around it, in any text where the two words tell it from the open ones, and where the slot of its
    // number says where it stands.
    pub fn find_variable(self, scratch: &[u8], name: TextId) -> Option<Known>
        requires names_room { NamesRoom self scratch.now }
        requires o_lt_records { name.number < self.records }
        ensures { FindsTold scratch.now self name.number name.offset name.len result }
    {
        let n = self.records;
        let count = self.names;
        let j = open_at(scratch, n, count, name)?;
        Some(variable_at(scratch, n, j))
    }

    // The scope with one name more, where no variable of this block or those around it has the name, in any text as above; where one has it, it is
    // declared already and nothing is answered. Room for the name is afforded: each name has a record of its own.
    pub fn declare(
        self,
        scratch: &mut [u8],
        name: TextId,
        v: VarId,
        constant: bool,
    ) -> Option<Scope>
        requires names_room { NamesRoom self scratch.old }
        requires name_afforded { NameAfforded self v }
        requires o_lt_records { name.number < self.records }
        ensures { DeclaresTold name.number name.offset name.len v constant self scratch.old scratch.new result }
    {
        let n = self.records;
        let count = self.names;
        let ty = v.1;
        if open_at(scratch, n, count, name).is_some() {
            return None;
        }
        let w = Four(name.offset, name.len, v.0, 2 * ty + u32::from(constant));
        put_four(scratch, OPEN_NAMES * n + OPEN_NAME_BYTES * count, w);
        put_word(
            scratch,
            NAME_SLOTS * n + NAME_SLOT_BYTES * name.number,
            count as u32,
        );
        Some(Scope {
            names: count + 1,
            ..self
        })
    }

    // Inside the loop of this record.
    pub fn with_loop(self, r: u32) -> Scope
        ensures { result ≡ within r self }
    {
        Scope { inner: r, ..self }
    }

    // The innermost loop around this place, if there is one.
    pub fn in_loop(self) -> Option<u32>
        ensures { loop_of result ≡ loop_number self.inner }
    {
        (self.inner != NONE).then_some(self.inner)
    }
}
