ghost use Rattle.std.specs.Prelude.{◌≡◌, ◌≤◌, ◌<◌, ◌+◌, ◌++◌, length};
ghost use Rattle.arrayvec.specs.ArrayVec.{array_vec_len};
ghost use Rattle.amd64_code.specs.Heads as heads;
ghost use Rattle.amd64_code.specs.ModRm.{rm_bytes};
ghost use Rattle.amd64_code.specs.Spelling as spec;

use crate::modrm::push_rm;
use crate::rex::Rex;
use amd64_table::Rm;
use arrayvec::ArrayVec;
use asm_target::Spelled;

/// A prefix between LOCK and REX.
#[derive(Clone, Copy, Debug, Default, PartialEq, Eq)]
pub enum Legacy {
    #[default]
    Absent,
    /// 66: operands of two bytes, or a part of the opcode.
    OperandSize,
    /// F3: a part of the opcode.
    Repeat,
    /// 64: memory lies in the segment of thread-local storage.
    Fs,
}

/// One byte, or 0F and one byte.
#[derive(Clone, Copy, Debug, PartialEq, Eq)]
pub enum Opcode {
    One(u8),
    Two(u8),
}

/// What stands before ModRM: LOCK (F0), a prefix, REX and the opcode.
#[derive(Clone, Copy, Debug, PartialEq, Eq)]
pub struct Head {
    pub lock: bool,
    pub legacy: Legacy,
    /// REX stands also where none of its bits is set.
    pub bare: bool,
    pub rex: Rex,
    pub opcode: Opcode,
}

impl Head {
    /// A head without prefixes but REX.
    pub fn plain(rex: Rex, opcode: Opcode) -> Head
        ensures { result ≡ spec.plain_head rex opcode }
    {
        Head {
            lock: false,
            legacy: Legacy::Absent,
            bare: false,
            rex,
            opcode,
        }
    }

    /// A head that may have LOCK.
    pub fn locked(lock: bool, rex: Rex, opcode: Opcode) -> Head
        ensures { result ≡ spec.locked_head lock rex opcode }
    {
        Head {
            lock,
            ..Head::plain(rex, opcode)
        }
    }

    /// A head with a prefix between LOCK and REX.
    pub fn prefixed(legacy: Legacy, rex: Rex, opcode: Opcode) -> Head
        ensures { result ≡ spec.prefixed_head legacy rex opcode }
    {
        Head {
            legacy,
            ..Head::plain(rex, opcode)
        }
    }

    /// A head for an operand of one byte.
    pub fn byte(bare: bool, rex: Rex, opcode: Opcode) -> Head
        ensures { result ≡ spec.byte_head bare rex opcode }
    {
        Head {
            bare,
            ..Head::plain(rex, opcode)
        }
    }

    /// The bytes.
    #[tactic(auto, unfolding(crate::specs::Heads::head_bytes))]
    pub fn bytes(&self) -> Spelled
        ensures bytes { result.items ≡ heads.head_bytes self.now }
        ensures most { array_vec_len result ≤ 5 }
    {
        let mut bytes = ArrayVec::new();
        if self.lock {
            bytes.push(0xf0);
        }
        push_legacy(&mut bytes, self.legacy);
        push_rex(&mut bytes, self.bare, self.rex);
        push_opcode(&mut bytes, self.opcode);
        bytes
    }

    /// The bytes, and behind them a register or memory, with this in ModRM's field reg.
    pub fn with_rm(&self, field: u8, rm: Rm) -> Spelled
        requires { field < 8 }
        ensures bytes { result.items ≡ heads.head_bytes self.now ++ rm_bytes field rm }
        ensures most { array_vec_len result ≤ 11 }
    {
        let mut bytes = self.bytes();
        push_rm(&mut bytes, field, rm);
        bytes
    }
}

fn push_legacy(bytes: &mut Spelled, legacy: Legacy)
    requires { array_vec_len bytes.old < 15 }
    ensures bytes { bytes.new.items ≡ bytes.old.items ++ heads.legacy_bytes legacy }
    ensures most { array_vec_len bytes.new ≤ array_vec_len bytes.old + 1 }
{
    match legacy {
        Legacy::Absent => {}
        Legacy::OperandSize => bytes.push(0x66),
        Legacy::Repeat => bytes.push(0xf3),
        Legacy::Fs => bytes.push(0x64),
    }
}

#[tactic(auto, unfolding(crate::specs::Heads::rex_bytes))]
fn push_rex(bytes: &mut Spelled, bare: bool, rex: Rex)
    requires { array_vec_len bytes.old < 15 }
    ensures bytes { bytes.new.items ≡ bytes.old.items ++ heads.rex_bytes bare rex }
    ensures most { array_vec_len bytes.new ≤ array_vec_len bytes.old + 1 }
{
    if bare || rex.w || rex.r || rex.x || rex.b {
        bytes.push(rex.byte());
    }
}

fn push_opcode(bytes: &mut Spelled, opcode: Opcode)
    requires { array_vec_len bytes.old < 14 }
    ensures bytes { bytes.new.items ≡ bytes.old.items ++ heads.opcode_bytes opcode }
    ensures most { array_vec_len bytes.new ≤ array_vec_len bytes.old + 2 }
{
    match opcode {
        Opcode::One(opcode) => bytes.push(opcode),
        Opcode::Two(opcode) => {
            bytes.push(0x0f);
            bytes.push(opcode);
        }
    }
}
