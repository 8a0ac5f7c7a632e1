ghost use Rattle.std.specs.Prelude.{◌≡◌, ◌<◌, ◌≤◌};
ghost use Rattle.amd64_table.specs.Operands.{factor_of};

use crate::reg::Reg;

/// By what an index is multiplied.
#[derive(Clone, Copy, Debug, Default, PartialEq, Eq)]
pub enum Scale {
    #[default]
    One,
    Two,
    Four,
    Eight,
}

impl Scale {
    /// The factor.
    #[tactic(auto, unfolding(crate::specs::Operands::factor_of))]
    pub fn factor(self) -> u8
        ensures factor { result ≡ factor_of self }
        ensures most { result ≤ 8 }
    {
        match self {
            Scale::One => 1,
            Scale::Two => 2,
            Scale::Four => 4,
            Scale::Eight => 8,
        }
    }
}

/// A place in memory.
#[derive(Clone, Copy, Debug, PartialEq, Eq)]
pub enum Mem {
    /// `disp(base)`: the base plus the displacement.
    Base {
        base: Reg,
        disp: i32,
    },
    /// `disp(base)(index*scale)`: the base plus the index times the scale plus the displacement. The index isn't SP.
    Indexed {
        base: Reg,
        index: Reg,
        scale: Scale,
        disp: i32,
    },
    /// `ADDRESS(SB)`: the place of a symbol, this far above the instruction's end.
    Symbol {
        distance: i32,
    },
}

/// A register or a place in memory: what ModRM's fields mod and rm name.
#[derive(Clone, Copy, Debug, PartialEq, Eq)]
pub enum Rm {
    /// A register.
    Reg(Reg),
    /// A place in memory.
    Mem(Mem),
}
