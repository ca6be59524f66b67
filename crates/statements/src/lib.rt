// Statements and expressions become instructions: Krc's converter/statements.rs. A tree is judged before; what is written goes through the emitter into
// the arena, and the operands of a call wait on a stack in scratch until the call is written. Every function takes and leaves the same (`answers`,
// specs/Converting.antt); expressions are in `exprs` with what they need, statements without a block in `statements`, what stands around blocks in
// `loops`, and statements with blocks in `blocks`.
#![tactic(auto)]

pub mod answers;
pub mod blocks;
mod exprs;
mod fits;
mod jumps;
mod loops;
mod numbers;
mod operands;
mod parts;
mod statements;
