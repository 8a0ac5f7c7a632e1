//! The lines of a function that references lead to.
ghost use Rattle.std.specs.Prelude.{◌≡◌, IfOk};
ghost use Rattle.asm_target.specs.Frames.{IsFrameless};

use amd64_select::Amd64;
use asm_target::{Body, FrameShape, Line, Target, To};
use asm_target_linked::Linked;
use branch_size::{Goals, find_goals};
use goasm_base::{List, Memory};
use std::alloc::Global;
use std::test::Fail;

// The number of the statement of each line. Those of number 1, 3 and 4 have no line.
const STATEMENTS: [Option<u32>; 10] = [
    None,
    None,
    None,
    None,
    Some(0),
    Some(0),
    Some(2),
    Some(5),
    None,
    None,
];

// Lines of these statements.
fn body_of<T: Target>(alloc: Global) -> Result<Body<T::Instr>, Memory>
    ensures { IfOk result (λ body. IsFrameless body.frame) }
{
    let mut code = Vec::new(alloc);
    for stmt in STATEMENTS {
        code.push(Line {
            stmt,
            ..Line::default()
        })?;
    }
    Ok(Body {
        frame: FrameShape::default(),
        code: List::new(code),
    })
}

// What a reference leads to on a target whose block ends the function, and on one where it stands behind the check.
const GOALS: [(To, Option<usize>, Option<usize>); 13] = [
    (To::Entry, Some(0), Some(0)),
    (To::Stmt(0), Some(4), Some(4)),
    (To::Stmt(1), Some(6), Some(6)),
    (To::Stmt(2), Some(6), Some(6)),
    (To::Stmt(3), Some(7), Some(7)),
    (To::Stmt(5), Some(7), Some(7)),
    (To::Stmt(6), None, None),
    (To::Stmt(0xffff_ffff), None, None),
    (To::Block, Some(8), Some(2)),
    (To::Past, Some(10), Some(4)),
    (To::Grow, None, None),
    (To::Symbol(0, 0), None, None),
    (To::Symbol(5, -8), None, None),
];

fn goals_of<T: Target>(alloc: Global) -> Result<Goals, Memory> {
    let body = body_of::<T>(alloc)?;
    find_goals::<T>(alloc, &body)
}

#[test]
fn references_lead_to_lines(rt: HostRuntime) -> Result<(), Fail> {
    let ends = goals_of::<Amd64>(rt.alloc())?;
    let behind = goals_of::<Linked>(rt.alloc())?;
    for (to, last, second) in GOALS {
        assert_eq!(rt; ends.line(to), last, "{to:?}");
        assert_eq!(rt; behind.line(to), second, "{to:?}");
    }
    Ok(())
}
