//! Branches that reach in their short form, in their long form, and in none.
ghost use Rattle.std.specs.Prelude.{◌≡◌, ◌^◌, ◌<◌, ◌≤◌, [], ◌∷◌, ◌++◌, replicate, true, IfOk};
ghost use Rattle.asm_target.specs.Frames.{IsFrame};
ghost use Rattle.asm_target.specs.Goals.{IsBody, longest};
ghost use Rattle.asm_target_linked.specs.Forms.{aiming, is_directed};
ghost use Rattle.asm_target_linked.specs.Frames.{check};
ghost use Rattle.asm_target_linked.specs.Instr.{linked, Fits};

use asm_target::{Body, FrameShape, Line, Part, Refer, To};
use asm_target_linked::{Instr, Linked, Op};
use branch_size::{SizeNo, size};
use goasm_base::{List, Memory, Pos};
use std::alloc::Global;
use std::process::Abort;

// A branch under a condition, or a jump.
fn branch(held: bool) -> Instr
    ensures fits { Fits result }
    ensures directed { is_directed result ≡ true }
{
    if held {
        Instr::Near { held, distance: 0 }
    } else {
        Instr::Far {
            call: false,
            distance: 0,
        }
    }
}

const PLACE: Pos = Pos { file: 3, line: 9 };

// The first line so many times, and then the last.
fn lines_of(
    alloc: Global,
    count: usize,
    first: Line<Instr>,
    last: Line<Instr>,
) -> Result<List<Line<Instr>>, Memory>
    ensures { IfOk result (λ lines. lines ≡ replicate count first ++ last ∷ []) }
{
    let mut lines = vec![in alloc; first; count]?;
    lines.push(last)?;
    Ok(List::new(lines))
}

// So many lines that do nothing, and a branch to the first of them.
#[tactic(auto, using(crate::proofs::ReachLemmas::is_body, crate::proofs::ReachLemmas::has_room))]
fn body_of(alloc: Global, count: usize, held: bool) -> Result<Body<Instr>, Memory>
    requires { count ≤ 10000 }
    ensures frame { IfOk result (λ body. IsFrame 243 body.frame) }
    ensures body { IfOk result (λ body. IsBody Fits aiming (check body.frame) body.code) }
    ensures room { IfOk result (λ body. longest linked aiming body.code < 2 ^ 32) }
{
    let idle = Line {
        instr: Instr::Plain(Op::Nop),
        refer: None,
        pos: Pos { file: 0, line: 0 },
        depth: 0,
        stmt: None,
    };
    let last = Line {
        instr: branch(held),
        refer: Some(Refer {
            to: To::Entry,
            part: Part::Whole,
        }),
        pos: PLACE,
        ..idle
    };
    Ok(Body {
        frame: FrameShape::default(),
        code: lines_of(alloc, count, idle, last)?,
    })
}

// How many lines of four bytes stand before the branch, whether it has a condition, and the whole length, or the distance that no form
// goes over. Under a condition the short form, of four bytes, goes back 128 bytes, and the long form, of twelve, has its jump behind four.
// A jump has eight bytes and goes back 32,768.
const REACHES: [(usize, bool, Result<u32, u64>); 10] = [
    (0, true, Ok(4)),
    (32, true, Ok(132)),
    (33, true, Ok(144)),
    (8191, true, Ok(32776)),
    (8192, true, Err(32768)),
    (10000, true, Err(40000)),
    (0, false, Ok(8)),
    (33, false, Ok(140)),
    (8192, false, Ok(32776)),
    (8193, false, Err(32772)),
];

// The length of the lines, or the distance of the branch that reaches in no form.
fn told<R: Abort>(
    rt: &R,
    alloc: Global,
    count: usize,
    held: bool,
) -> Result<Result<u32, u64>, Memory>
    requires { count ≤ 10000 }
{
    let body = body_of(alloc, count, held)?;
    match size::<Linked>(alloc, &body) {
        Ok(sizes) => Ok(Ok(sizes.length)),
        Err(SizeNo::B1(pos, distance)) => {
            assert_eq!(rt; pos, PLACE);
            Ok(Err(distance))
        }
        Err(SizeNo::Memory) => Err(Memory),
    }
}

#[test]
fn branches_reach_up_to_their_borders(rt: HostRuntime) -> Result<(), Memory> {
    for (count, held, wanted) in REACHES {
        if count <= 10000 {
            assert!(rt; told(&rt, rt.alloc(), count, held)? == wanted, "{count}");
        }
    }
    Ok(())
}
