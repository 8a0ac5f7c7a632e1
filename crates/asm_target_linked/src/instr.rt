ghost use Rattle.std.specs.Prelude.{◌≡◌};
ghost use Rattle.asm_target_linked.specs.Instr as spec;

/// An instruction without numbers. Register 31 is a scratch register.
#[derive(Clone, Copy, Debug, Default, PartialEq, Eq)]
pub enum Op {
    /// Nothing.
    #[default]
    Nop,
    /// The link register is stored where the scratch register points.
    SaveAt,
    /// The stack pointer becomes the scratch register.
    SetSp,
    /// The link register is loaded from the stack pointer.
    LoadLink,
    /// Register 7 becomes the stack's limit, which the scheduler keeps.
    Limit,
    /// A return.
    Return,
}

/// An instruction with a number of bytes.
#[derive(Clone, Copy, Debug, Default, PartialEq, Eq)]
pub enum FrameOp {
    /// The link register is stored this far below the stack pointer, which goes there.
    #[default]
    Save,
    /// The link register is loaded from the stack pointer, which then rises by this.
    Load,
    /// The scratch register becomes what lies this far below the stack pointer.
    Below,
    /// The scratch register becomes what lies this far above the stack pointer.
    Above,
}

/// One of the instructions. Distances are counted in bytes from the instruction's own address.
#[derive(Clone, Copy, Debug, PartialEq, Eq)]
pub enum Instr {
    Plain(Op),
    Frame { op: FrameOp, bytes: u32 },
    /// A branch where the stack pointer is below register 7, or where it isn't.
    Near { held: bool, distance: i8 },
    /// A jump, or a call that links through register 5.
    Far { call: bool, distance: i16 },
}

impl Default for Instr {
    fn default() -> Self
        ensures { result ≡ Instr.Plain Op.Nop }
    {
        Instr::Plain(Op::Nop)
    }
}

impl Op {
    /// The first byte of the spelling.
    pub fn code(self) -> u8
        ensures { result ≡ spec.code_of self }
    {
        match self {
            Op::Nop => 1,
            Op::SaveAt => 2,
            Op::SetSp => 3,
            Op::LoadLink => 4,
            Op::Limit => 5,
            Op::Return => 6,
        }
    }

    /// The instruction with this first byte.
    pub fn coded(code: u8) -> Op
        ensures { result ≡ spec.op_of code }
    {
        match code {
            2 => Op::SaveAt,
            3 => Op::SetSp,
            4 => Op::LoadLink,
            5 => Op::Limit,
            6 => Op::Return,
            _ => Op::Nop,
        }
    }

    /// The instruction's text.
    pub fn name(self) -> &'static [u8]
        ensures { result.now ≡ spec.name_of self }
    {
        match self {
            Op::Nop => b"NOP",
            Op::SaveAt => b"SAVEAT",
            Op::SetSp => b"SETSP",
            Op::LoadLink => b"LOADLINK",
            Op::Limit => b"LIMIT",
            Op::Return => b"RET",
        }
    }
}

impl FrameOp {
    /// The first byte of the spelling.
    pub fn code(self) -> u8
        ensures { result ≡ spec.frame_code self }
    {
        match self {
            FrameOp::Save => 32,
            FrameOp::Load => 33,
            FrameOp::Below => 34,
            FrameOp::Above => 35,
        }
    }

    /// The mnemonic.
    pub fn name(self) -> &'static [u8]
        ensures { result.now ≡ spec.frame_name self }
    {
        match self {
            FrameOp::Save => b"SAVE $",
            FrameOp::Load => b"LOAD $",
            FrameOp::Below => b"BELOW $",
            FrameOp::Above => b"ABOVE $",
        }
    }
}
