use crate::register::Register;

/// One of the six instructions.
#[derive(Clone, Copy, Debug, Default, PartialEq, Eq)]
pub enum Instr {
    /// NOP.
    #[default]
    Nop,
    /// MOVQ from, to: a copy.
    Move { from: Register, to: Register },
    /// PUSHQ: the register goes onto the stack.
    Push(Register),
    /// ADDQ $c, SP: the stack pointer rises by a constant.
    AddSp(i8),
    /// JMP: to the place this far behind the instruction's end.
    Jump(i32),
    /// RET.
    Return,
}
