ghost use Rattle.std.specs.Prelude.{◌≡◌, ◌<◌};
ghost use Rattle.amd64_table.specs.Conditions.{cc_number, cc_text, cond_of};
ghost use Rattle.amd64_table.specs.declared.condition.Cc.{Cc};

use machine_effect::Cond;

/// A condition code, in the order of its numbers. Each speaks of the flags.
#[derive(Clone, Copy, Debug, Default, PartialEq, Eq)]
pub enum Cc {
    /// OS: over is set.
    #[default]
    Over,
    /// OC: over is clear.
    NotOver,
    /// CS: carry is set; sources may write LO.
    Carry,
    /// CC: carry is clear; sources may write HS.
    NotCarry,
    /// EQ: zero is set.
    Zero,
    /// NE: zero is clear.
    NotZero,
    /// LS: carry or zero is set.
    CarryOrZero,
    /// HI: neither carry nor zero is set.
    NeitherCarryNorZero,
    /// MI: sign is set.
    Negative,
    /// PL: sign is clear.
    NotNegative,
    /// PS: parity is set.
    ParityEven,
    /// PC: parity is clear.
    ParityOdd,
    /// LT: sign and over differ.
    Less,
    /// GE: sign and over agree.
    GreaterOrEqual,
    /// LE: zero is set, or sign and over differ.
    LessOrEqual,
    /// GT: zero is clear, and sign and over agree.
    Greater,
}

impl Cc {
    /// The condition's number in spellings.
    #[tactic(auto, unfolding(crate::specs::Conditions::cc_number))]
    pub fn number(self) -> u8
        ensures number { result ≡ cc_number self }
        ensures below { result < 16 }
    {
        self as u8
    }

    /// The condition of this number.
    #[tactic(auto, unfolding(crate::specs::Conditions::cc_number))]
    pub fn numbered(number: u8) -> Cc
        requires { number < 16 }
        ensures number { cc_number result ≡ number }
        ensures sole { (code : Cc) → cc_number code ≡ number → result ≡ code }
    {
        match number {
            0 => Cc::Over,
            1 => Cc::NotOver,
            2 => Cc::Carry,
            3 => Cc::NotCarry,
            4 => Cc::Zero,
            5 => Cc::NotZero,
            6 => Cc::CarryOrZero,
            7 => Cc::NeitherCarryNorZero,
            8 => Cc::Negative,
            9 => Cc::NotNegative,
            10 => Cc::ParityEven,
            11 => Cc::ParityOdd,
            12 => Cc::Less,
            13 => Cc::GreaterOrEqual,
            14 => Cc::LessOrEqual,
            _ => Cc::Greater,
        }
    }

    /// The condition's name in Go's assembler.
    #[tactic(auto, unfolding(crate::specs::Conditions::cc_text))]
    pub fn name(self) -> &'static [u8]
        ensures { result.now ≡ cc_text self }
    {
        match self {
            Cc::Over => b"OS",
            Cc::NotOver => b"OC",
            Cc::Carry => b"CS",
            Cc::NotCarry => b"CC",
            Cc::Zero => b"EQ",
            Cc::NotZero => b"NE",
            Cc::CarryOrZero => b"LS",
            Cc::NeitherCarryNorZero => b"HI",
            Cc::Negative => b"MI",
            Cc::NotNegative => b"PL",
            Cc::ParityEven => b"PS",
            Cc::ParityOdd => b"PC",
            Cc::Less => b"LT",
            Cc::GreaterOrEqual => b"GE",
            Cc::LessOrEqual => b"LE",
            Cc::Greater => b"GT",
        }
    }

    /// When it holds.
    #[tactic(auto, unfolding(crate::specs::Conditions::cond_of))]
    pub fn cond(self) -> Cond
        ensures { result ≡ cond_of self }
    {
        match self {
            Cc::Over => Cond::Over,
            Cc::NotOver => Cond::NotOver,
            Cc::Carry => Cond::Carry,
            Cc::NotCarry => Cond::NoCarry,
            Cc::Zero => Cond::Zero,
            Cc::NotZero => Cond::NotZero,
            Cc::CarryOrZero => Cond::CarryOrZero,
            Cc::NeitherCarryNorZero => Cond::NeitherCarryNorZero,
            Cc::Negative => Cond::Negative,
            Cc::NotNegative => Cond::NotNegative,
            Cc::ParityEven => Cond::ParityEven,
            Cc::ParityOdd => Cond::ParityOdd,
            Cc::Less => Cond::Less,
            Cc::GreaterOrEqual => Cond::GreaterOrEqual,
            Cc::LessOrEqual => Cond::LessOrEqual,
            Cc::Greater => Cond::Greater,
        }
    }
}
