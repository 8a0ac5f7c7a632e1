ghost use Rattle.std.specs.Prelude.{◌≡◌};
ghost use Rattle.amd64_table.specs.Operands.{bits_of, bytes_of, is_quad};

/// The width of an operation, by the last letter of its name.
#[derive(Clone, Copy, Debug, Default, PartialEq, Eq)]
pub enum Width {
    /// 64 bits.
    #[default]
    Q,
    /// 32 bits. A write of a register clears its upper half.
    L,
}

impl Width {
    /// The width in bits.
    #[tactic(auto, unfolding(crate::specs::Operands::bits_of))]
    pub fn bits(self) -> u8
        ensures { result ≡ bits_of self }
    {
        match self {
            Width::Q => 64,
            Width::L => 32,
        }
    }

    /// The width in bytes.
    #[tactic(auto, unfolding(crate::specs::Operands::bytes_of))]
    pub fn bytes(self) -> u8
        ensures { result ≡ bytes_of self }
    {
        match self {
            Width::Q => 8,
            Width::L => 4,
        }
    }

    /// Whether it is 64 bits, for which REX has its bit W.
    pub fn is_quad(self) -> bool
        ensures { result ≡ is_quad self }
    {
        matches!(self, Width::Q)
    }
}
