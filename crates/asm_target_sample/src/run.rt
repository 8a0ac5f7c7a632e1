// What generic code can say of any processor, by the laws alone.
ghost use Rattle.std.specs.Prelude.{◌≡◌, ℕ, List, pos, ◌-ℤ◌, count_by, IfOk, IsTrue};
ghost use Rattle.std.specs.List.{flat_map};
ghost use Rattle.machine_effect.specs.Flow.{flow_of};
ghost use Rattle.machine_effect.specs.Shapes.{IsStackDistance};
ghost use Rattle.asm_target.specs.InstructionSet.{IsListing};
ghost use Rattle.asm_target_sample.specs.Run.{moves_sp, depth_behind};

use asm_target::{Processor, first_instr, flow_at};
use machine_effect::SpMove;
use std::alloc::{AllocError, Global};

/// The instructions that the bytes begin with, up to a place where none is spelled.
pub fn read_all<T: Processor>(alloc: Global, bytes: &[u8]) -> Result<Vec<T::Instr>, AllocError>
    ensures { IfOk result (λ code. (rest : List ℕ) × IsListing T.instructions T.fits bytes.now code.items rest) }
{
    let mut code = Vec::new(alloc);
    let mut rest = bytes;
    while let Some((instr, len)) = first_instr::<T>(rest) {
        code.push(instr)?;
        rest = &rest[len..];
    }
    Ok(code)
}

/// The bytes of the instructions, one behind the other.
pub fn spell_all<T: Processor>(alloc: Global, code: &[T::Instr]) -> Result<Vec<u8>, AllocError>
    ensures { IfOk result (λ bytes. bytes.items ≡ flat_map T.instructions.spelling code.now) }
{
    let mut bytes = Vec::new(alloc);
    for instr in code {
        bytes.extend_from_slice(T::spell(instr).as_slice())?;
    }
    Ok(bytes)
}

/// How many of the instructions change the stack pointer, each at the address `pc`.
pub fn count_moves<T: Processor>(code: &[T::Instr], pc: u64) -> usize
    ensures { result ≡ count_by (moves_sp T.instructions T.SHAPE pc) code.now }
{
    code.iter().filter(|instr| moves::<T>(instr, pc)).count()
}

fn moves<T: Processor>(instr: &T::Instr, pc: u64) -> bool
    ensures { result ≡ moves_sp T.instructions T.SHAPE pc instr.now }
{
    flow_at::<T>(instr, pc).sp != SpMove::Keep
}

/// The stack depth behind an instruction that stands at this depth and the address `pc`: by how many bytes the
/// stack pointer lies below its value at the function's entry. `None` where the stack pointer is written
/// otherwise than by adding a constant.
pub fn depth_after<T: Processor>(depth: u32, instr: &T::Instr, pc: u64) -> Option<i64>
    ensures { result ≡ depth_behind depth (flow_of (T.instructions.effect instr.now pc) T.SHAPE).sp }
{
    match flow_at::<T>(instr, pc).sp {
        SpMove::Keep => Some(i64::from(depth)),
        SpMove::By(distance) => Some(less(depth, distance)),
        SpMove::Other => None,
    }
}

fn less(depth: u32, distance: i64) -> i64
    requires { IsStackDistance distance }
    ensures { result ≡ pos depth -ℤ distance }
{
    i64::from(depth) - distance
}
