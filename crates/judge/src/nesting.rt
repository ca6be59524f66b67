// How deep a record is.
ghost use Rattle.std.specs.Prelude.{◌≡◌, ◌+◌, ◌≤◌, eqb};
ghost use Rattle.laws.specs.Fix.{pick};
ghost use Rattle.records.specs.Kinds.{kind_list};
ghost use Rattle.judge.specs.Inner.{capped, too_deep};

use records::numbers::KIND_LIST;

// Deeper than this is all the same.
const TOO_DEEP: u8 = 65;

// How deep a record of this kind is, given the deepest that it refers to.
pub(crate) fn depth_over(k: u8, below: u8) -> u8
    requires { below ≤ too_deep }
    ensures { result ≡ pick (eqb k kind_list) below (capped too_deep (below + 1)) }
{
    if k == KIND_LIST {
        return below;
    }
    if below >= TOO_DEEP {
        return TOO_DEEP;
    }
    below + 1
}
