ghost use Rattle.std.specs.Prelude.{◌≡◌, ◌<◌};
ghost use Rattle.amd64_table.specs.Registers.{number_of, low_bits, is_high, is_byte_high, reg_text};
ghost use Rattle.amd64_table.specs.declared.reg.Reg.{Reg};

/// A general register. As an operand of one byte it has the same name.
#[derive(Clone, Copy, Debug, Default, PartialEq, Eq)]
pub enum Reg {
    #[default]
    Ax,
    Cx,
    Dx,
    Bx,
    /// The stack pointer.
    Sp,
    Bp,
    Si,
    Di,
    R8,
    R9,
    R10,
    R11,
    R12,
    R13,
    R14,
    R15,
}

impl Reg {
    /// The register's number in spellings and in the state of a machine.
    #[tactic(auto, unfolding(crate::specs::Registers::number_of))]
    pub fn number(self) -> u8
        ensures number { result ≡ number_of self }
        ensures below { result < 16 }
    {
        self as u8
    }

    /// The register of this number.
    #[tactic(auto, unfolding(crate::specs::Registers::number_of))]
    pub fn numbered(number: u8) -> Reg
        requires { number < 16 }
        ensures number { number_of result ≡ number }
        ensures sole { (reg : Reg) → number_of reg ≡ number → result ≡ reg }
    {
        match number {
            0 => Reg::Ax,
            1 => Reg::Cx,
            2 => Reg::Dx,
            3 => Reg::Bx,
            4 => Reg::Sp,
            5 => Reg::Bp,
            6 => Reg::Si,
            7 => Reg::Di,
            8 => Reg::R8,
            9 => Reg::R9,
            10 => Reg::R10,
            11 => Reg::R11,
            12 => Reg::R12,
            13 => Reg::R13,
            14 => Reg::R14,
            _ => Reg::R15,
        }
    }

    /// The low three bits of the number, which stand in ModRM, SIB or the opcode.
    pub fn low(self) -> u8
        ensures low { result ≡ low_bits self }
        ensures below { result < 8 }
    {
        self.number() % 8
    }

    /// The fourth bit of the number, which stands in REX.
    pub fn is_high(self) -> bool
        ensures { result ≡ is_high self }
    {
        self.number() >= 8
    }

    /// Whether an operand of one byte needs REX: without it the numbers from SP on name other bytes.
    pub fn is_byte_high(self) -> bool
        ensures { result ≡ is_byte_high self }
    {
        self.number() >= 4
    }

    /// The register with this fourth bit and these low bits.
    #[tactic(auto, using(crate::proofs::RegisterLemmas::reg_high, crate::proofs::RegisterLemmas::reg_low))]
    pub fn joined(high: bool, low: u8) -> Reg
        requires { low < 8 }
        ensures high { is_high result ≡ high }
        ensures low { low_bits result ≡ low }
        ensures sole { (reg : Reg) → is_high reg ≡ high → low_bits reg ≡ low → result ≡ reg }
    {
        if high {
            Reg::numbered(low + 8)
        } else {
            Reg::numbered(low)
        }
    }

    /// The register's name in Go's assembler.
    #[tactic(auto, unfolding(crate::specs::Registers::reg_text))]
    pub fn name(self) -> &'static [u8]
        ensures { result.now ≡ reg_text self }
    {
        match self {
            Reg::Ax => b"AX",
            Reg::Cx => b"CX",
            Reg::Dx => b"DX",
            Reg::Bx => b"BX",
            Reg::Sp => b"SP",
            Reg::Bp => b"BP",
            Reg::Si => b"SI",
            Reg::Di => b"DI",
            Reg::R8 => b"R8",
            Reg::R9 => b"R9",
            Reg::R10 => b"R10",
            Reg::R11 => b"R11",
            Reg::R12 => b"R12",
            Reg::R13 => b"R13",
            Reg::R14 => b"R14",
            Reg::R15 => b"R15",
        }
    }
}
