// The stems of the names that tell an operation.
ghost use Rattle.std.specs.Prelude.{◌≡◌};
ghost use Rattle.amd64_table.specs.Mnemonics as spec;

use crate::op::{Arithmetic, Extend, MulDiv, Plain, RmReg, ShiftOp, Unary};

impl Arithmetic {
    #[tactic(auto, unfolding(crate::specs::Mnemonics::arithmetic_stem))]
    pub fn stem(self) -> &'static [u8]
        ensures { result.now ≡ spec.arithmetic_stem self }
    {
        match self {
            Arithmetic::Add => b"ADD",
            Arithmetic::Or => b"OR",
            Arithmetic::Adc => b"ADC",
            Arithmetic::Sbb => b"SBB",
            Arithmetic::And => b"AND",
            Arithmetic::Sub => b"SUB",
            Arithmetic::Xor => b"XOR",
        }
    }
}

impl Extend {
    #[tactic(auto, unfolding(crate::specs::Mnemonics::extend_stem))]
    pub fn stem(self) -> &'static [u8]
        ensures { result.now ≡ spec.extend_stem self }
    {
        match self {
            Extend::ByteZero => b"MOVBLZX",
            Extend::WordZero => b"MOVWLZX",
            Extend::ByteSign => b"MOVBQSX",
            Extend::WordSign => b"MOVWQSX",
            Extend::LongSign => b"MOVLQSX",
        }
    }
}

impl Unary {
    #[tactic(auto, unfolding(crate::specs::Mnemonics::unary_stem))]
    pub fn stem(self) -> &'static [u8]
        ensures { result.now ≡ spec.unary_stem self }
    {
        match self {
            Unary::Inc => b"INC",
            Unary::Dec => b"DEC",
            Unary::Not => b"NOT",
            Unary::Neg => b"NEG",
        }
    }
}

impl MulDiv {
    #[tactic(auto, unfolding(crate::specs::Mnemonics::mul_div_stem))]
    pub fn stem(self) -> &'static [u8]
        ensures { result.now ≡ spec.mul_div_stem self }
    {
        match self {
            MulDiv::Mul => b"MUL",
            MulDiv::Div => b"DIV",
            MulDiv::Idiv => b"IDIV",
        }
    }
}

impl RmReg {
    #[tactic(auto, unfolding(crate::specs::Mnemonics::rm_reg_stem))]
    pub fn stem(self) -> &'static [u8]
        ensures { result.now ≡ spec.rm_reg_stem self }
    {
        match self {
            RmReg::Imul => b"IMUL",
            RmReg::Bsf => b"BSF",
            RmReg::Bsr => b"BSR",
            RmReg::Popcnt => b"POPCNT",
        }
    }
}

impl ShiftOp {
    #[tactic(auto, unfolding(crate::specs::Mnemonics::shift_stem))]
    pub fn stem(self) -> &'static [u8]
        ensures { result.now ≡ spec.shift_stem self }
    {
        match self {
            ShiftOp::Shl => b"SHL",
            ShiftOp::Shr => b"SHR",
            ShiftOp::Sar => b"SAR",
            ShiftOp::Rol => b"ROL",
        }
    }
}

impl Plain {
    #[tactic(auto, unfolding(crate::specs::Mnemonics::plain_stem))]
    pub fn stem(self) -> &'static [u8]
        ensures { result.now ≡ spec.plain_stem self }
    {
        match self {
            Plain::Pause => b"PAUSE",
            Plain::Mfence => b"MFENCE",
            Plain::Cdq => b"CDQ",
            Plain::Cqo => b"CQO",
            Plain::Ret => b"RET",
            Plain::Syscall => b"SYSCALL",
            Plain::Cpuid => b"CPUID",
            Plain::Rdtsc => b"RDTSC",
            Plain::Undef => b"UNDEF",
        }
    }
}
