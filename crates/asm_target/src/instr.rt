ghost use Rattle.std.specs.Prelude.{◌≡◌, ℤ, ◌≤◌, length, IsTrue, ◌↔◌, IfSome, None};
ghost use Rattle.machine_effect.specs.declared.flow.SpMove.TheVariants.{Keep, By};
ghost use Rattle.machine_effect.specs.declared.next.Next.TheVariants.{Fall};
ghost use Rattle.machine_effect.specs.Flow.{flow_of};
ghost use Rattle.machine_effect.specs.Shapes.{IsStackDistance};
ghost use Rattle.asm_target.specs.InstructionSet.{Begins, IsFirst};
ghost use Rattle.asm_target.specs.Laws.{IsLength};

use crate::compare::is_equal;
use crate::processor::Processor;
use machine_effect::{Flow, effect_flow};

/// The instruction that the bytes begin with, and its length in bytes, as `read` gives them; with them the
/// bounds of that length.
pub fn first_instr<T: Processor>(bytes: &[u8]) -> Option<(T::Instr, usize)>
    ensures some { IfSome result (λ found. IsFirst T.instructions T.fits bytes.now found.0 found.1) }
    ensures none { result ≡ None → (i : T.Instr) → T.fits i → ¬ Begins T.instructions bytes.now i }
    ensures len { IfSome result (λ found. IsLength T.QUANTUM found.1) }
    ensures within { IfSome result (λ found. found.1 ≤ length bytes.now) }
{
    T::read(bytes)
}

/// Whether two instructions are the same. They are compared by their spellings.
pub fn same<T: Processor>(a: &T::Instr, b: &T::Instr) -> bool
    ensures { IsTrue result ↔ (a.now ≡ b.now) }
{
    let first = T::spell(a);
    let second = T::spell(b);
    is_equal(first.as_slice(), second.as_slice())
}

/// What the instruction does to the stack pointer and the link register at the address `pc`, and where the
/// machine goes on. Where that isn't behind the instruction, the stack pointer stays.
pub fn flow_at<T: Processor>(instr: &T::Instr, pc: u64) -> Flow
    ensures exact { result ≡ flow_of (T.instructions.effect instr.now pc) T.SHAPE }
    ensures small { (k : ℤ) → result.sp ≡ By k → IsStackDistance k }
    ensures stays { ¬ (result.next ≡ Fall) → result.sp ≡ Keep }
{
    effect_flow(&T::effect(instr, pc), &T::SHAPE)
}
