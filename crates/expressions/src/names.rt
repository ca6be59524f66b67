// The name of a record, looked for and declared in the scope by the words of the lowest record with the text.
ghost use Rattle.std.specs.Prelude.{◌≡◌};
ghost use Rattle.records.specs.Words as Words;
ghost use Rattle.records.specs.Words.{word_at, word_of};
ghost use Rattle.syntax.specs.Decode.{text_of};
ghost use Rattle.texts.specs.Texts.{original_at};
ghost use Rattle.scope.specs.Open.{NameAfforded, FindMeets};
ghost use Rattle.expressions.specs.Slots.{Asked, NameDeclared};

use ir::structs::{TextId, VarId};
use records::words::{WORD_A, WORD_B, word};
use scope::{Known, Scope};
use texts::original;

// The name in words A and B of record r, by the lowest record with its text.
fn name_of(tree: &[u8], text: &[u8], scratch: &[u8], scope: Scope, r: usize) -> TextId
    requires { Asked tree.now text.now scratch.now scope r }
    ensures { (result.number ≡ word_at scratch.now (original_at scope.records r)) × (result.offset ≡ word_of tree.now result.number Words.A) × (result.len ≡ word_of tree.now result.number Words.B) }
{
    let number = original(scratch, scope.records, r);
    TextId {
        number,
        offset: word(tree, number, WORD_A),
        len: word(tree, number, WORD_B),
    }
}

// The variable of the name in words A and B of record r.
pub fn find_name(tree: &[u8], text: &[u8], scratch: &[u8], scope: Scope, r: usize) -> Option<Known>
    requires { Asked tree.now text.now scratch.now scope r }
    ensures { FindMeets text.now scratch.now scope (text_of tree.now text.now r Words.A) result }
{
    scope.find_variable(scratch, name_of(tree, text, scratch, scope, r))
}

// The name in words A and B of record r, declared.
pub fn declare_name(
    tree: &[u8],
    text: &[u8],
    scratch: &mut [u8],
    scope: Scope,
    r: usize,
    v: VarId,
    constant: bool,
) -> Option<Scope>
    requires { Asked tree.now text.now scratch.old scope r × NameAfforded scope v }
    ensures { NameDeclared tree.now text.now r v constant scope scratch.old scratch.new result }
{
    let name = name_of(tree, text, scratch, scope, r);
    scope.declare(scratch, name, v, constant)
}
