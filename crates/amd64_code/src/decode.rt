ghost use Rattle.std.specs.Prelude.{◌≡◌};
ghost use Rattle.amd64_code.specs.Reading as spec;

use crate::fields::Fields;
use crate::head::Opcode;
use crate::one_byte::one_byte;
use crate::prefixes::{
    behind_legacy, behind_lock, behind_opcode, behind_rex, legacy_in, lock_in, opcode_in, rex_in,
};
use crate::two_bytes::two_bytes;
use amd64_table::Instr;

/// The instruction whose fields the bytes have, whether or not they are its spelling: that is left to the caller.
#[tactic(auto, unfolding(crate::specs::Reading::reading))]
pub fn decode(bytes: &[u8]) -> Instr
    ensures { result ≡ spec.reading bytes.now }
{
    let unlocked = behind_lock(bytes);
    let unprefixed = behind_legacy(unlocked);
    let at_opcode = behind_rex(unprefixed);
    let fields = Fields {
        lock: lock_in(bytes),
        legacy: legacy_in(unlocked),
        rex: rex_in(unprefixed),
        tail: behind_opcode(at_opcode),
    };
    match opcode_in(at_opcode) {
        Opcode::One(opcode) => one_byte(&fields, opcode),
        Opcode::Two(opcode) => two_bytes(&fields, opcode),
    }
}
