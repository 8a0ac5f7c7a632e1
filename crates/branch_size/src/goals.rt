ghost use Rattle.std.specs.Prelude.{◌≡◌, ◌+◌, ◌<◌, IfOk, length};
ghost use Rattle.std.specs.List.{slice_get};
ghost use Rattle.asm_target.specs.declared.body.Line.{Line};
ghost use Rattle.asm_target.specs.Frames.{IsFrame};
ghost use Rattle.asm_target.specs.Goals.{block_of, goal_of};
ghost use Rattle.branch_size.specs.Tables.{HasGoals, line_in};

use crate::first_lines::firsts;
use asm_target::{Body, Guard, Part, Target, To};
use goasm_base::Memory;
use std::alloc::Global;

/// The lines of a function that its references lead to.
#[derive(Drop)]
pub struct Goals {
    /// For each number of a statement the first line whose statement has that number or a greater one.
    pub firsts: Vec<usize>,
    /// The first line of the block that has the stack grow.
    pub block: usize,
    /// The line behind that block.
    pub past: usize,
}

impl Goals {
    /// The line that a reference leads to, if it's one of the function.
    pub fn line(&self, to: To) -> Option<usize>
        ensures { result ≡ line_in self.now to }
    {
        match to {
            To::Stmt(number) => self.firsts.get(number as usize).copied(),
            To::Entry => Some(0),
            To::Block => Some(self.block),
            To::Past => Some(self.past),
            To::Symbol(..) | To::Grow => None,
        }
    }
}

/// Finds the lines that the references of a function's instructions lead to.
pub fn find_goals<T: Target>(alloc: Global, body: &Body<T::Instr>) -> Result<Goals, Memory>
    requires { IsFrame T.MACHINE body.now.frame }
    ensures { IfOk result (HasGoals (T.check body.now.frame) body.now.code) }
{
    let code = body.code.as_slice();
    let firsts = firsts(alloc, code)?;
    let (block, past) = block_lines(&T::guard(body.frame), code.len());
    Ok(Goals {
        firsts,
        block,
        past,
    })
}

// The first line of the block, and the one behind its last.
fn block_lines<I: Copy + Default>(guard: &Guard<I>, count: usize) -> (usize, usize)
    ensures block { result.0 ≡ block_of guard.now count }
    ensures past { result.1 ≡ block_of guard.now count + length guard.now.block }
{
    let len = guard.block.len();
    let first = if guard.in_place {
        guard.head.len()
    } else {
        count.saturating_sub(len)
    };
    (first, first + len)
}

/// The line that a line refers to, if it's one of the function.
#[tactic(auto, using(crate::proofs::GoalLemmas::same_line))]
pub fn goal<T: Target>(body: &Body<T::Instr>, goals: &Goals, line: usize) -> Option<usize>
    requires line { line < length body.now.code }
    requires goals { HasGoals (T.check body.now.frame) body.now.code goals.now }
    ensures { (item : Line T.Instr) → slice_get body.now.code line ≡ Some item
        → result ≡ goal_of (T.check body.now.frame) body.now.code item }
{
    let item = body.code.as_slice()[line];
    let refer = item.refer?;
    match refer.part {
        Part::Whole => goals.line(refer.to),
        Part::High | Part::Low => None,
    }
}
