ghost use Rattle.std.specs.Prelude.{◌≡◌, ◌<◌};
ghost use Rattle.asm_target_sample.specs.Register as spec;

/// One of the eight registers that an instruction names without a REX prefix.
#[derive(Clone, Copy, Debug, Default, PartialEq, Eq)]
pub enum Register {
    #[default]
    Ax,
    Cx,
    Dx,
    Bx,
    Sp,
    Bp,
    Si,
    Di,
}

impl Register {
    /// The number that the machine gives the register.
    pub fn number(self) -> u8
        ensures { result ≡ spec.number_of self }
    {
        match self {
            Register::Ax => 0,
            Register::Cx => 1,
            Register::Dx => 2,
            Register::Bx => 3,
            Register::Sp => 4,
            Register::Bp => 5,
            Register::Si => 6,
            Register::Di => 7,
        }
    }

    /// The register of this number.
    pub fn numbered(number: u8) -> Register
        requires { number < 8 }
        ensures { result ≡ spec.register_of number }
    {
        match number {
            0 => Register::Ax,
            1 => Register::Cx,
            2 => Register::Dx,
            3 => Register::Bx,
            4 => Register::Sp,
            5 => Register::Bp,
            6 => Register::Si,
            _ => Register::Di,
        }
    }

    /// How an instruction's text names the register.
    pub fn name(self) -> &'static [u8]
        ensures { result.now ≡ spec.name_of self }
    {
        match self {
            Register::Ax => b"AX",
            Register::Cx => b"CX",
            Register::Dx => b"DX",
            Register::Bx => b"BX",
            Register::Sp => b"SP",
            Register::Bp => b"BP",
            Register::Si => b"SI",
            Register::Di => b"DI",
        }
    }
}
