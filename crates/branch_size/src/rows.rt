ghost use Rattle.std.specs.Prelude.{◌≡◌, ◌<◌, IfOk, length};
ghost use Rattle.std.specs.List.{slice_get};
ghost use Rattle.asm_target.specs.declared.body.Line.{Line};
ghost use Rattle.asm_target.specs.Frames.{IsFrame};
ghost use Rattle.branch_size.specs.Tables.{HasGoals};
ghost use Rattle.branch_size.specs.Rows.{row_of, rows_of};

use crate::forms::form_len;
use crate::goals::{Goals, find_goals, goal};
use asm_target::{Body, Target};
use goasm_base::Memory;
use std::alloc::Global;

/// What is asked again and again of a line.
#[derive(Clone, Copy, Debug, Default, PartialEq, Eq)]
pub struct Row<I> {
    pub instr: I,
    /// The line that it refers to, if it's one of the function.
    pub goal: Option<usize>,
    /// How many bytes its short form has.
    pub short: u32,
    /// How many bytes its long form has.
    pub long: u32,
}

/// The rows of a function's lines.
pub fn make_rows<T: Target>(
    alloc: Global,
    body: &Body<T::Instr>,
) -> Result<Vec<Row<T::Instr>>, Memory>
    requires { IsFrame T.MACHINE body.now.frame }
    ensures { IfOk result (λ rows.
        rows.items ≡ rows_of T.instructions T.aiming (T.check body.now.frame) body.now.code) }
{
    let goals = find_goals::<T>(alloc, body)?;
    let mut rows = Vec::new(alloc);
    for line in 0..body.code.as_slice().len() {
        rows.push(make_row::<T>(body, &goals, line))?;
    }
    Ok(rows)
}

// The row of one line.
fn make_row<T: Target>(body: &Body<T::Instr>, goals: &Goals, line: usize) -> Row<T::Instr>
    requires line { line < length body.now.code }
    requires goals { HasGoals (T.check body.now.frame) body.now.code goals.now }
    ensures { (item : Line T.Instr) → slice_get body.now.code line ≡ Some item
        → result ≡ row_of T.instructions T.aiming (T.check body.now.frame) body.now.code item }
{
    let instr = body.code.as_slice()[line].instr;
    Row {
        instr,
        goal: goal::<T>(body, goals, line),
        short: form_len::<T>(&T::forms(&instr, 0)),
        long: form_len::<T>(&T::forms(&instr, 1)),
    }
}
