// Jumps to labels and labels placed: a label is asked for by its kind and the record that opens it, and then written.
ghost use Rattle.std.specs.Prelude.{◌<◌};
ghost use Rattle.ir.specs.Amounts.{amount};
ghost use Rattle.ir.specs.Counted.{counted};
ghost use Rattle.ir.specs.Instructions.{operand_of};
ghost use Rattle.ir.specs.Steps.{named, NumbersLabel};
ghost use Rattle.statements.specs.Converting.{RoomFor};
ghost use Rattle.statements.specs.Labels.{label_number};
ghost use Rattle.statements.specs.Meets.{Adds};
ghost use Rattle.statements.specs.Parts.{place_label, emit_jump, jump_if_not};

use crate::numbers::LabelKind;
use ir::lent::label_id;
use ir::structs::{Label, Operand, emit_jump, emit_jump_if_not, emit_label};

// The label of this kind that the record opens.
pub(crate) fn label(arena: &mut [u8], k: &mut [usize], kind: LabelKind, opener: usize) -> Label
    requires { RoomFor (counted k.old) arena.old (amount 0 0 1 0 0) × (opener < (counted k.old).records) }
    ensures { NumbersLabel (label_number kind) opener (counted k.old) arena.old (record { value = result; counters = counted k.new }) arena.new }
{
    label_id(arena, k, kind as u32, opener as u32)
}

pub(crate) fn jump(arena: &mut [u8], k: &mut [usize], kind: LabelKind, opener: usize)
    requires { RoomFor (counted k.old) arena.old (amount 1 0 1 0 0) × (opener < (counted k.old).records) }
    ensures { Adds (emit_jump (named (label_number kind) opener)) (amount 1 0 1 0 0) (counted k.old) arena.old tt (counted k.new) arena.new }
{
    let target = label(arena, k, kind, opener);
    emit_jump(arena, k, target);
}

pub(crate) fn jump_if_not(
    arena: &mut [u8],
    k: &mut [usize],
    cond: Operand,
    kind: LabelKind,
    opener: usize,
)
    requires { RoomFor (counted k.old) arena.old (amount 1 0 1 0 0) × (opener < (counted k.old).records) }
    ensures { Adds (jump_if_not (operand_of cond) (named (label_number kind) opener)) (amount 1 0 1 0 0) (counted k.old) arena.old tt (counted k.new) arena.new }
{
    let target = label(arena, k, kind, opener);
    emit_jump_if_not(arena, k, cond, target);
}

// The label stands here.
pub(crate) fn place_label(arena: &mut [u8], k: &mut [usize], kind: LabelKind, opener: usize)
    requires { RoomFor (counted k.old) arena.old (amount 1 0 1 0 0) × (opener < (counted k.old).records) }
    ensures { Adds (place_label (named (label_number kind) opener)) (amount 1 0 1 0 0) (counted k.old) arena.old tt (counted k.new) arena.new }
{
    let here = label(arena, k, kind, opener);
    emit_label(arena, k, here);
}
