ghost use Rattle.std.specs.Prelude.{◌≡◌, ◌<◌};
ghost use Rattle.amd64_table.specs.Registers.{xmm_number, low_bits_xmm, is_high_xmm, xmm_text};
ghost use Rattle.amd64_table.specs.declared.xmm.Xmm.{Xmm};

/// A register of 16 bytes, XMM0 to XMM15 of the manual.
#[derive(Clone, Copy, Debug, Default, PartialEq, Eq)]
pub enum Xmm {
    #[default]
    X0,
    X1,
    X2,
    X3,
    X4,
    X5,
    X6,
    X7,
    X8,
    X9,
    X10,
    X11,
    X12,
    X13,
    X14,
    X15,
}

impl Xmm {
    /// The register's number in spellings and in the state of a machine.
    #[tactic(auto, unfolding(crate::specs::Registers::xmm_number))]
    pub fn number(self) -> u8
        ensures number { result ≡ xmm_number self }
        ensures below { result < 16 }
    {
        self as u8
    }

    /// The register of this number.
    #[tactic(auto, unfolding(crate::specs::Registers::xmm_number))]
    pub fn numbered(number: u8) -> Xmm
        requires { number < 16 }
        ensures number { xmm_number result ≡ number }
        ensures sole { (xmm : Xmm) → xmm_number xmm ≡ number → result ≡ xmm }
    {
        match number {
            0 => Xmm::X0,
            1 => Xmm::X1,
            2 => Xmm::X2,
            3 => Xmm::X3,
            4 => Xmm::X4,
            5 => Xmm::X5,
            6 => Xmm::X6,
            7 => Xmm::X7,
            8 => Xmm::X8,
            9 => Xmm::X9,
            10 => Xmm::X10,
            11 => Xmm::X11,
            12 => Xmm::X12,
            13 => Xmm::X13,
            14 => Xmm::X14,
            _ => Xmm::X15,
        }
    }

    /// The low three bits of the number, which stand in ModRM, SIB or the opcode.
    pub fn low(self) -> u8
        ensures low { result ≡ low_bits_xmm self }
        ensures below { result < 8 }
    {
        self.number() % 8
    }

    /// The fourth bit of the number, which stands in REX.
    pub fn is_high(self) -> bool
        ensures { result ≡ is_high_xmm self }
    {
        self.number() >= 8
    }

    /// The register with this fourth bit and these low bits.
    #[tactic(auto, using(crate::proofs::RegisterLemmas::xmm_high, crate::proofs::RegisterLemmas::xmm_low))]
    pub fn joined(high: bool, low: u8) -> Xmm
        requires { low < 8 }
        ensures high { is_high_xmm result ≡ high }
        ensures low { low_bits_xmm result ≡ low }
        ensures sole { (xmm : Xmm) → is_high_xmm xmm ≡ high → low_bits_xmm xmm ≡ low → result ≡ xmm }
    {
        if high {
            Xmm::numbered(low + 8)
        } else {
            Xmm::numbered(low)
        }
    }

    /// The register's name in Go's assembler.
    #[tactic(auto, unfolding(crate::specs::Registers::xmm_text))]
    pub fn name(self) -> &'static [u8]
        ensures { result.now ≡ xmm_text self }
    {
        match self {
            Xmm::X0 => b"X0",
            Xmm::X1 => b"X1",
            Xmm::X2 => b"X2",
            Xmm::X3 => b"X3",
            Xmm::X4 => b"X4",
            Xmm::X5 => b"X5",
            Xmm::X6 => b"X6",
            Xmm::X7 => b"X7",
            Xmm::X8 => b"X8",
            Xmm::X9 => b"X9",
            Xmm::X10 => b"X10",
            Xmm::X11 => b"X11",
            Xmm::X12 => b"X12",
            Xmm::X13 => b"X13",
            Xmm::X14 => b"X14",
            Xmm::X15 => b"X15",
        }
    }
}
