//! The amd64 instruction list as data: the types of its instructions, what each of them does, and its text.
//!
//! Instructions are grouped by shape, which is the list of their operands. `fits` is the test that an instruction
//! is listed as far as its type leaves that open, `effect` what it does and `show` its text. The public source is the
//! Intel 64 and IA-32 Architectures Software Developer's Manual, volume 2; names, operand order and texts are those of
//! Go's assembler.
//!
//! What the shapes do stands in three modules, and their spellings are cut in the same way:
//! - `moves`: RegRm, MemReg, StoreLow, Extend, LoadLong, LoadQuad, StoreConst, StoreByte, Lea, MoveCc, LoadWide,
//!   StoreWide, LoadTls;
//! - `computation`: ArithmeticReg, ArithmeticConst, CompareConst, Unary, MulDiv, RmReg, ShiftConst, ShiftCx, Exchange,
//!   Atomic, SetCc, SwapBytes, XorWide;
//! - `control`: Stack, Short, Near, Indirect, Plain.
#![tactic(auto)]

mod computation;
mod condition;
mod control;
mod effects;
mod forms;
mod instr;
mod laws;
mod listed;
mod memory;
mod mnemonic;
mod moves;
mod op;
mod operand;
mod reg;
mod stems;
mod text;
mod values;
mod width;
mod xmm;

pub use condition::Cc;
pub use effects::effect;
pub use instr::Instr;
pub use listed::fits;
pub use memory::{Mem, Rm, Scale};
pub use mnemonic::{Mnemonic, mnemonic_of};
pub use op::{
    Arithmetic, Atomic, Extend, Indirect, MemReg, MulDiv, Near, Plain, RegRm, RmReg, ShiftOp,
    Stack, StoreSize, Unary,
};
pub use operand::{Operand, is_locked, operands_of};
pub use reg::Reg;
pub use text::show;
pub use width::Width;
pub use xmm::Xmm;
