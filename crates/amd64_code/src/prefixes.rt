//! What bytes begin with before ModRM, part by part: LOCK, a prefix, REX, the opcode. Each part has a function that reads it
//! and one that gives what is behind it.
ghost use Rattle.std.specs.Prelude.{◌≡◌};
ghost use Rattle.amd64_code.specs.Heads as spec;

use crate::constants::byte_at;
use crate::head::{Legacy, Opcode};
use crate::rex::Rex;
use goasm_base::behind_or_empty;

/// Whether the bytes begin with LOCK.
pub fn lock_in(bytes: &[u8]) -> bool
    ensures { result ≡ spec.lock_in bytes.now }
{
    byte_at(bytes, 0) == 0xf0
}

/// What is behind LOCK.
pub fn behind_lock(bytes: &[u8]) -> &[u8]
    ensures { result.now ≡ spec.behind_lock bytes.now }
{
    if byte_at(bytes, 0) == 0xf0 {
        behind_or_empty(bytes, 1)
    } else {
        bytes
    }
}

/// The prefix between LOCK and REX.
#[tactic(auto, unfolding(crate::specs::Heads::legacy_in))]
pub fn legacy_in(bytes: &[u8]) -> Legacy
    ensures { result ≡ spec.legacy_in bytes.now }
{
    match byte_at(bytes, 0) {
        0x66 => Legacy::OperandSize,
        0xf3 => Legacy::Repeat,
        0x64 => Legacy::Fs,
        _ => Legacy::Absent,
    }
}

/// What is behind that prefix.
pub fn behind_legacy(bytes: &[u8]) -> &[u8]
    ensures { result.now ≡ spec.behind_legacy bytes.now }
{
    match byte_at(bytes, 0) {
        0x66 | 0xf3 | 0x64 => behind_or_empty(bytes, 1),
        _ => bytes,
    }
}

/// The bits of REX, none where it's left out.
#[tactic(auto, unfolding(crate::specs::Heads::rex_in))]
pub fn rex_in(bytes: &[u8]) -> Rex
    ensures { result ≡ spec.rex_in bytes.now }
{
    let byte = byte_at(bytes, 0);
    if byte / 16 == 4 {
        Rex {
            w: byte / 8 % 2 == 1,
            r: byte / 4 % 2 == 1,
            x: byte / 2 % 2 == 1,
            b: byte % 2 == 1,
        }
    } else {
        Rex {
            w: false,
            r: false,
            x: false,
            b: false,
        }
    }
}

/// What is behind REX.
pub fn behind_rex(bytes: &[u8]) -> &[u8]
    ensures { result.now ≡ spec.behind_rex bytes.now }
{
    if byte_at(bytes, 0) / 16 == 4 {
        behind_or_empty(bytes, 1)
    } else {
        bytes
    }
}

/// The opcode: one byte, or 0F and one.
pub fn opcode_in(bytes: &[u8]) -> Opcode
    ensures { result ≡ spec.opcode_in bytes.now }
{
    let byte = byte_at(bytes, 0);
    if byte == 0x0f {
        Opcode::Two(byte_at(bytes, 1))
    } else {
        Opcode::One(byte)
    }
}

/// What is behind the opcode.
pub fn behind_opcode(bytes: &[u8]) -> &[u8]
    ensures { result.now ≡ spec.behind_opcode bytes.now }
{
    if byte_at(bytes, 0) == 0x0f {
        behind_or_empty(bytes, 2)
    } else {
        behind_or_empty(bytes, 1)
    }
}
