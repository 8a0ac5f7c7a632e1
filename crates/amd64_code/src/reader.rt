ghost use Rattle.std.specs.Prelude.{◌≡◌, ℕ, IfSome, Some};
ghost use Rattle.asm_target.specs.InstructionSet.{IsFirst};
ghost use Rattle.amd64_table.specs.declared.instr.Instr.{Instr};
ghost use Rattle.amd64_code.specs.InstructionSet.{amd64, Fits};

use crate::decode::decode;
use crate::spelling::spell;
use amd64_table::{Instr, fits};
use asm_target::begins_with;

/// The listed instruction whose spelling the bytes begin with, and the spelling's length in bytes; `None` exactly where
/// they begin with the spelling of no listed instruction. What follows the spelling doesn't matter.
///
/// The fields are decoded, spelled again and compared, so no second spelling is read: neither the other opcode of a move
/// between registers, nor REX, SIB or a displacement that isn't needed, nor a long constant where a short one does. Nor is
/// LOCK before what doesn't write memory (Intel 64 manual, volume 2, "Instruction Format").
#[tactic(auto, using(crate::proofs::Laws::begins_read))]
pub fn read(bytes: &[u8]) -> Option<(Instr, usize)>
    ensures found { IfSome result (λ found. IsFirst amd64 Fits bytes.now found.0 found.1) }
    ensures only { (i : Instr) (n : ℕ) → IsFirst amd64 Fits bytes.now i n → result ≡ Some (i, n) }
{
    let instr = decode(bytes);
    let spelled = spell(&instr);
    if fits(&instr) && begins_with(bytes, spelled.as_slice()) {
        Some((instr, spelled.len()))
    } else {
        None
    }
}
