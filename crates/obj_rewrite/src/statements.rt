ghost use Rattle.std.specs.Prelude.{◌≡◌, ℕ, ◌≤◌, length, false, OnOk};
ghost use Rattle.std.specs.List.{slice_index_or};
ghost use Rattle.asm_target.specs.Frames.{IsFrame};
ghost use Rattle.goasm_base.specs.Statements.{most_statements};
ghost use Rattle.obj_rewrite.specs.Draft.{IsDraft, written};
ghost use Rattle.obj_rewrite.specs.Rewriting.{IsStep, Refuses, Rewrites, rules_of};

use crate::draft::{Draft, add_all};
use crate::rewrite_no::RewriteNo;
use crate::words::is_return;
use asm_target::{FrameShape, SelectNo, Site, Target};
use goasm_base::{Pos, Stmt};
use std::alloc::Global;

/// Adds the instructions of a statement. `goal` tells whether a jump goes to it.
pub fn add_stmt<T: Target>(
    alloc: Global,
    draft: &mut Draft<T::Instr>,
    stmt: &Stmt,
    number: u32,
    goal: bool,
    frame: FrameShape,
) -> Result<(), RewriteNo>
    requires draft { IsDraft draft.old }
    requires frame { IsFrame T.MACHINE frame }
    ensures draft { OnOk result (IsDraft draft.new) }
    ensures step { OnOk result (IsStep (rules_of T.instructions T.SHAPE T.begins T.selection frame) goal stmt.now number
        (written draft.old) (written draft.new)) }
    ensures refused { (place : Pos) (why : SelectNo) → result ≡ Err (RewriteNo.Select place why)
        → (rules_of T.instructions T.SHAPE T.begins T.selection frame).refuses stmt.now draft.old.depth why × (place ≡ stmt.now.pos) }
    ensures fits { (place : Pos) (total : ℕ) → ¬ (result ≡ Err (RewriteNo.RW1 place total)) }
{
    let depth = draft.depth;
    let picks = match T::select(alloc, stmt, Site { depth, frame }) {
        Ok(picks) => picks,
        Err(SelectNo::Memory) => return Err(RewriteNo::Memory),
        Err(why) => return Err(RewriteNo::Select(stmt.pos, why)),
    };
    draft.awaited = draft.awaited || goal;
    add_all::<T>(draft, picks.as_slice(), stmt.pos, Some(number))?;
    if is_return(stmt) {
        draft.depth = depth;
    }
    Ok(())
}

/// Adds the instructions of a function's statements. `goals` tells to which of them a jump goes.
pub fn add_stmts<T: Target>(
    alloc: Global,
    draft: &mut Draft<T::Instr>,
    stmts: &[Stmt],
    goals: &[bool],
    frame: FrameShape,
) -> Result<(), RewriteNo>
    requires draft { IsDraft draft.old }
    requires frame { IsFrame T.MACHINE frame }
    requires goals { length goals.now ≡ length stmts.now }
    requires count { length stmts.now ≤ most_statements }
    ensures draft { OnOk result (IsDraft draft.new) }
    ensures rewrites { OnOk result (Rewrites (rules_of T.instructions T.SHAPE T.begins T.selection frame)
        (λ number. slice_index_or goals.now number false) stmts.now 0 (written draft.old) (written draft.new)) }
    ensures refused { (place : Pos) (why : SelectNo) → result ≡ Err (RewriteNo.Select place why)
        → Refuses (rules_of T.instructions T.SHAPE T.begins T.selection frame) (λ number. slice_index_or goals.now number false)
        stmts.now 0 (written draft.old) place why }
    ensures fits { (place : Pos) (total : ℕ) → ¬ (result ≡ Err (RewriteNo.RW1 place total)) }
{
    for number in 0..stmts.len() {
        add_stmt::<T>(
            alloc,
            draft,
            &stmts[number],
            number as u32,
            goals[number],
            frame,
        )?;
    }
    Ok(())
}
