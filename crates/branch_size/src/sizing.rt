ghost use Rattle.std.specs.Prelude.{◌≡◌, ℕ, ◌^◌, ◌<◌, IfOk, length};
ghost use Rattle.std.specs.List.{slice_get};
ghost use Rattle.goasm_base.specs.declared.pos.Pos.{Pos};
ghost use Rattle.asm_target.specs.declared.body.Line.{Line};
ghost use Rattle.asm_target.specs.Frames.{IsFrame};
ghost use Rattle.least_forms.specs.declared.sizes.Sizes.{Sizes};
ghost use Rattle.least_forms.specs.Assignment.{IsLeast};
ghost use Rattle.branch_size.specs.declared.size_no.SizeNo.TheVariants.{B1};
ghost use Rattle.asm_target.specs.Goals.{IsBody, longest};
ghost use Rattle.branch_size.specs.Sizing.{branches_of, IsSized, IsOutOfReach};

use crate::code::Code;
use crate::rows::make_rows;
use crate::size_no::SizeNo;
use asm_target::{Body, Target};
use goasm_base::Pos;
use least_forms::{FormsNo, Sizes, least_sizes};
use std::alloc::Global;

/// The least assignment of forms in which every branch inside the function reaches its goal, the places of the
/// function's instructions, in bytes from the first, and their length. A branch out of the function has its long form.
///
/// The instructions can hold what they refer to, what they refer to inside the function is an instruction of it, and
/// with every branch in its long form they have fewer than 2^32 bytes.
///
/// `B1` comes exactly where, in that assignment, a branch in its long form doesn't reach: for the first such
/// instruction, with its distance to the goal. `Memory` comes only for want of memory.
pub fn size<T: Target>(alloc: Global, body: &Body<T::Instr>) -> Result<Sizes, SizeNo>
    requires frame { IsFrame T.MACHINE body.now.frame }
    requires body { IsBody T.fits T.aiming (T.check body.now.frame) body.now.code }
    requires room { longest T.instructions T.aiming body.now.code < 2 ^ 32 }
    ensures sized { IfOk result
        (IsSized (branches_of T.instructions T.fits T.aiming T.QUANTUM (T.check body.now.frame) body.now.code)) }
    ensures out_of_reach { (pos : Pos) (distance : ℕ) → result ≡ Err (B1 pos distance)
        → IsOutOfReach (branches_of T.instructions T.fits T.aiming T.QUANTUM (T.check body.now.frame) body.now.code)
        body.now.code pos distance }
{
    let code = Code::<T> {
        rows: make_rows::<T>(alloc, body)?,
    };
    match least_sizes(alloc, &code) {
        Ok(sizes) => Ok(sizes),
        Err(FormsNo::Lost(line, distance)) => Err(SizeNo::B1(
            pos_of(body, line),
            u64::from(distance),
        )),
        Err(FormsNo::Memory) => Err(SizeNo::Memory),
    }
}

// Where the line stands in the sources.
fn pos_of<I: Copy>(body: &Body<I>, line: usize) -> Pos
    requires { line < length body.now.code }
    ensures { (item : Line I) → slice_get body.now.code line ≡ Some item → item.pos ≡ result }
{
    body.code.as_slice()[line].pos
}

/// A function has one answer: two least assignments are the same, and there are sizes only where no branch is out of
/// reach.
pub fn one_size<T: Target>(body: &Body<T::Instr>)
    requires body { IsBody T.fits T.aiming (T.check body.now.frame) body.now.code }
    ensures one_least { (one other : ℕ → ℕ)
        → IsLeast (branches_of T.instructions T.fits T.aiming T.QUANTUM (T.check body.now.frame) body.now.code) one
        → IsLeast (branches_of T.instructions T.fits T.aiming T.QUANTUM (T.check body.now.frame) body.now.code) other
        → (line : ℕ) → line < length body.now.code → one line ≡ other line }
    ensures not_both { (sizes : Sizes) (pos : Pos) (distance : ℕ)
        → IsSized (branches_of T.instructions T.fits T.aiming T.QUANTUM (T.check body.now.frame) body.now.code) sizes
        → ¬ IsOutOfReach (branches_of T.instructions T.fits T.aiming T.QUANTUM (T.check body.now.frame) body.now.code)
        body.now.code pos distance }
{
    let _code = body.code.as_slice();
}
