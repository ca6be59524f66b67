// functions.rs, `always_returns`: whether every path through a block ends with a Return. A loop may run zero times, so that only an If
// whose two blocks return counts.
ghost use Rattle.std.specs.Prelude.{◌≡◌};
ghost use Rattle.records.specs.Good.{Good};
ghost use Rattle.syntax.specs.Places.{IsStatement, BodyAt, statement_at, block_at};
ghost use Rattle.conversion.specs.Functions.{statement_returns, always_returns};

use expressions::arguments::{END, next_cell};
use records::numbers::{KIND_IF, KIND_RETURN};
use records::words::{WORD_A, WORD_B, WORD_C, detail, kind, reference};

// The statement r is a Return, or an If whose two blocks return.
#[cycle(always_returns_statement_returns)]
fn statement_returns(tree: &[u8], text: &[u8], r: usize) -> bool
    requires { Good tree.now text.now × IsStatement tree.now r }
    ensures { result ≡ statement_returns (statement_at tree.now text.now r) }
{
    let node = kind(tree, r);
    if node == KIND_RETURN {
        return true;
    }
    if node != KIND_IF {
        return false;
    }
    if detail(tree, r) != 1 {
        return false;
    }
    if always_returns(tree, text, reference(tree, r, WORD_B)) {
        return always_returns(tree, text, reference(tree, r, WORD_C));
    }
    false
}

// The block whose first cell this is.
#[cycle(always_returns_statement_returns)]
pub fn always_returns(tree: &[u8], text: &[u8], first: usize) -> bool
    requires { Good tree.now text.now × BodyAt tree.now first }
    ensures { result ≡ always_returns (block_at tree.now text.now first) }
{
    let mut cell = first;
    while cell != END {
        if statement_returns(tree, text, reference(tree, cell, WORD_A)) {
            return true;
        }
        cell = next_cell(tree, cell);
    }
    false
}
