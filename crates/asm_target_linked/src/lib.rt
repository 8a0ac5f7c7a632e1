//! A few instructions of a made-up processor with a link register, as a target. It has a saving and a restoring sequence of one
//! instruction and of three, a sequence that has the stack grow, a branch of short reach with a long form, and one mnemonic. It shows
//! that the laws of `asm_target` can be met where frames are made by sequences.
#![tactic(auto)]

mod aiming;
mod decode;
mod frames;
mod instr;
mod linked;
mod make;
mod select;

pub use instr::{FrameOp, Instr, Op};
pub use linked::Linked;
