ghost use Rattle.std.specs.Prelude.{◌≡◌, ℕ, ◌++◌, ◌^◌, ◌<◌, length, map, false, None, IfOk, OnOk};
ghost use Rattle.asm_target.specs.Frames.{IsFrame};
ghost use Rattle.asm_target.specs.Goals.{IsBody, longest};
ghost use Rattle.goasm_base.specs.Statements.{IsValidFunction};
ghost use Rattle.stack_split.specs.FrameSizes.{frame_for};
ghost use Rattle.obj_rewrite.specs.Draft.{IsDraft, written};
ghost use Rattle.obj_rewrite.specs.Rewriting.{Refuses, Rewrites, line_of, rules_of};
ghost use Rattle.obj_rewrite.specs.Rewritten as spec;

use crate::draft::{Draft, add_few, empty};
use crate::goals::goals_of;
use crate::rewrite_no::RewriteNo;
use crate::statements::{add_stmt, add_stmts};
use crate::words::runs_on;
use asm_target::{Body, Few, FrameShape, Line, Picked, SelectNo, Target};
use goasm_base::{Function, List, Memory, Name, Operand, Pos, Stmt};
use stack_split::{checked, frame_of, prologue};
use std::alloc::Global;

/// The instructions of a function, not placed yet.
///
/// They are the check whether the stack has room, where one is due, what enters the frame, each statement's instructions at the
/// depth behind those before it, and a jump to itself where the last statement is no RET, JMP or B. The block that has the stack
/// grow stands behind the check or ends the function, as the target has it. Depths are in bytes; behind a RET the depth is again
/// the one before what leaves the frame.
///
/// Each instruction can hold what it refers to, which is an instruction of the function or outside of it, and with every branch in its
/// long form all have fewer than 2^32 bytes.
///
/// `RW1` comes exactly where the frame would have more than 1,048,576 bytes. Otherwise `Select` comes exactly where a statement
/// becomes no instructions, for the first such one; `Memory` comes only for want of memory.
pub fn rewrite<T: Target>(alloc: Global, func: &Function) -> Result<Body<T::Instr>, RewriteNo>
    requires { (symbols : ℕ) × IsValidFunction symbols func.now }
    ensures body { let frame = frame_for T.MACHINE func.now in
        IfOk result (λ body. spec.IsRewritten (rules_of T.instructions T.SHAPE T.begins T.selection frame) func.now frame
        (T.check frame) (T.entry frame) body) }
    ensures frame { IfOk result (λ body. IsFrame T.MACHINE body.frame) }
    ensures lines { IfOk result (λ body. IsBody T.fits T.aiming (T.check body.frame) body.code) }
    ensures room { IfOk result (λ body. longest T.instructions T.aiming body.code < 2 ^ 32) }
    ensures large { (place : Pos) (total : ℕ) → result ≡ Err (RewriteNo.RW1 place total)
        → spec.IsTooLarge T.MACHINE func.now place total }
    ensures refused { let frame = frame_for T.MACHINE func.now in
        (place : Pos) (why : SelectNo) → result ≡ Err (RewriteNo.Select place why)
        → spec.IsRefusedAt (rules_of T.instructions T.SHAPE T.begins T.selection frame) func.now frame
        (T.check frame) (T.entry frame) place why }
{
    match frame_of::<T>(func) {
        Ok(frame) => rewrite_in::<T>(alloc, func, frame),
        Err(total) => Err(RewriteNo::RW1(func.pos, total)),
    }
}

// The instructions of a function with this frame.
fn rewrite_in<T: Target>(
    alloc: Global,
    func: &Function,
    frame: FrameShape,
) -> Result<Body<T::Instr>, RewriteNo>
    requires valid { (symbols : ℕ) × IsValidFunction symbols func.now }
    requires frame { IsFrame T.MACHINE frame }
    ensures body { IfOk result (λ body. spec.IsRewritten (rules_of T.instructions T.SHAPE T.begins T.selection frame) func.now
        frame (T.check frame) (T.entry frame) body) }
    ensures frame { IfOk result (λ body. IsFrame T.MACHINE body.frame) }
    ensures lines { IfOk result (λ body. IsBody T.fits T.aiming (T.check body.frame) body.code) }
    ensures room { IfOk result (λ body. longest T.instructions T.aiming body.code < 2 ^ 32) }
    ensures refused { (place : Pos) (why : SelectNo) → result ≡ Err (RewriteNo.Select place why)
        → spec.IsRefusedAt (rules_of T.instructions T.SHAPE T.begins T.selection frame) func.now frame (T.check frame)
        (T.entry frame) place why }
    ensures fits { (place : Pos) (total : ℕ) → ¬ (result ≡ Err (RewriteNo.RW1 place total)) }
{
    let check = checked(func, frame);
    let mut draft = empty(alloc);
    add_few::<T>(&mut draft, &prologue::<T>(frame, check), func.pos)?;
    add_function::<T>(alloc, &mut draft, func, frame)?;
    let mut lines = draft.lines;
    add_closing::<T>(&mut lines, frame, check, func.pos)?;
    Ok(Body {
        frame,
        code: List::new(lines),
    })
}

// Adds the instructions of a function's statements, and those of the jump to itself.
fn add_function<T: Target>(
    alloc: Global,
    draft: &mut Draft<T::Instr>,
    func: &Function,
    frame: FrameShape,
) -> Result<(), RewriteNo>
    requires valid { (symbols : ℕ) × IsValidFunction symbols func.now }
    requires draft { IsDraft draft.old }
    requires frame { IsFrame T.MACHINE frame }
    ensures written { OnOk result (spec.IsWritten (rules_of T.instructions T.SHAPE T.begins T.selection frame) func.now
        (written draft.old) (written draft.new)) }
    ensures refused { (place : Pos) (why : SelectNo) → result ≡ Err (RewriteNo.Select place why)
        → spec.IsUnwritten (rules_of T.instructions T.SHAPE T.begins T.selection frame) func.now (written draft.old) place why }
    ensures fits { (place : Pos) (total : ℕ) → ¬ (result ≡ Err (RewriteNo.RW1 place total)) }
{
    let stmts = func.stmts.as_slice();
    let goals = goals_of(alloc, stmts)?;
    add_stmts::<T>(alloc, draft, stmts, goals.as_slice(), frame)?;
    add_jump::<T>(alloc, draft, func, frame)
}

// Adds the instructions of the jump to itself, where one is appended.
fn add_jump<T: Target>(
    alloc: Global,
    draft: &mut Draft<T::Instr>,
    func: &Function,
    frame: FrameShape,
) -> Result<(), RewriteNo>
    requires valid { (symbols : ℕ) × IsValidFunction symbols func.now }
    requires draft { IsDraft draft.old }
    requires frame { IsFrame T.MACHINE frame }
    ensures rewrites { OnOk result (Rewrites (rules_of T.instructions T.SHAPE T.begins T.selection frame) (λ number. false)
        (spec.appended func.now) (length func.now.stmts) (written draft.old) (written draft.new)) }
    ensures refused { (place : Pos) (why : SelectNo) → result ≡ Err (RewriteNo.Select place why)
        → Refuses (rules_of T.instructions T.SHAPE T.begins T.selection frame) (λ number. false)
        (spec.appended func.now) (length func.now.stmts) (written draft.old) place why }
    ensures fits { (place : Pos) (total : ℕ) → ¬ (result ≡ Err (RewriteNo.RW1 place total)) }
{
    let stmts = func.stmts.as_slice();
    if !runs_on(stmts) {
        return Ok(());
    }
    let jump = self_jump(alloc, func)?;
    add_stmt::<T>(alloc, draft, &jump, stmts.len() as u32, false, frame)
}

// A jump to itself, as a statement behind the others.
fn self_jump(alloc: Global, func: &Function) -> Result<Stmt, Memory>
    requires { (symbols : ℕ) × IsValidFunction symbols func.now }
    ensures { IfOk result (λ stmt. stmt ≡ spec.self_jump func.now) }
{
    let mut operands = Vec::new(alloc);
    operands.push(Operand::Label(func.stmts.as_slice().len() as u32))?;
    Ok(Stmt {
        pos: func.pos,
        lock: false,
        op: Name::from_slice(alloc, b"JMP")?,
        suffix: None,
        operands: List::new(operands),
    })
}

// Adds the block that has the stack grow, where it ends the function.
fn add_closing<T: Target>(
    lines: &mut Vec<Line<T::Instr>>,
    frame: FrameShape,
    check: bool,
    pos: Pos,
) -> Result<(), Memory>
    requires { IsFrame T.MACHINE frame }
    ensures { OnOk result (lines.new.items ≡ lines.old.items
        ++ map (λ pick. line_of pick pos 0 None) (spec.closing check (T.check frame))) }
{
    let guard = T::guard(frame);
    if check && !guard.in_place {
        add_block(lines, &guard.block, pos)?;
    }
    Ok(())
}

fn add_block<I: Copy + Default>(
    lines: &mut Vec<Line<I>>,
    block: &Few<Picked<I>>,
    pos: Pos,
) -> Result<(), Memory>
    ensures { OnOk result (lines.new.items ≡ lines.old.items ++ map (λ pick. line_of pick pos 0 None) block.now) }
{
    for number in 0..block.len() {
        let pick = block.get(number);
        lines.push(Line {
            instr: pick.instr,
            refer: pick.refer,
            pos,
            depth: 0,
            stmt: None,
        })?;
    }
    Ok(())
}
