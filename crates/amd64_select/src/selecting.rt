ghost use Rattle.std.specs.Prelude.{◌≡◌, ◌↔◌, ℕ, List, All, map, Option, Some, None, IfOk, IfErr, IfSome, IsTrue, MatchResult};
ghost use Rattle.goasm_base.specs.declared.statement.Operand.{Operand};
ghost use Rattle.asm_target.specs.declared.frame.Site.{Site};
ghost use Rattle.asm_target.specs.declared.refer.Picked.{Picked};
ghost use Rattle.asm_target.specs.declared.refer.Refer.{Refer};
ghost use Rattle.asm_target.specs.declared.select_no.SelectNo.TheVariants as no;
ghost use Rattle.asm_target.specs.Frames.{IsFrame};
ghost use Rattle.asm_target.specs.Selection.{IsRefused, IsSelected, CouldBe, NamesWords};
ghost use Rattle.amd64_table.specs.declared.instr.Instr.{Instr};
ghost use Rattle.amd64_forms.specs.declared.rows.Resolved.{Resolved};
ghost use Rattle.amd64_forms.specs.declared.rows.Spoken.{Spoken};
ghost use Rattle.amd64_forms.specs.declared.rows.Spoken.TheVariants as spoken;
ghost use Rattle.amd64_forms.specs.Words.{Says, IsRegister};
ghost use Rattle.amd64_select.specs.Operands as operand_spec;
ghost use Rattle.amd64_select.specs.Selecting as spec;

use crate::frames::{release, restore};
use crate::listed::Listed;
use crate::operands::taken;
use amd64_forms::{Resolved, Spoken, chosen, is_register, is_word, spoken};
use amd64_table::{Instr, Plain};
use asm_target::{FrameShape, Part, Picked, Refer, SelectNo, Site, To};
use goasm_base::{Memory, Operand, Stmt};
use std::alloc::Global;

/// The instructions that a statement becomes at its site. `S1` to `S4` come exactly where they stand and no lower one does;
/// `Memory` comes only for want of memory.
pub fn select(alloc: Global, stmt: &Stmt, site: Site) -> Result<Vec<Picked<Listed>>, SelectNo>
    requires { IsFrame 62 site.frame }
    ensures picked { IfOk result (λ code. spec.Becomes stmt.now site code.items) }
    ensures only { (code : List (Picked Instr)) → spec.Becomes stmt.now site code
        → MatchResult result (λ found. found.items ≡ code) (λ no. no ≡ SelectNo.Memory) }
    ensures refused { IfErr result (λ no. IsRefused spec.selection stmt.now site no) }
{
    let Some(spoken) = known(stmt) else {
        return Err(SelectNo::S1);
    };
    if let Spoken::Nothing = spoken {
        if stmt.lock {
            Err(refusal(spoken, stmt, site))
        } else {
            Ok(Vec::new(alloc))
        }
    } else {
        match picked(false, spoken, stmt.lock, site, stmt.operands.as_slice()) {
            Some(instr) => Ok(code_of(alloc, instr, refers(stmt.operands.as_slice()), site.frame)?),
            None => Err(refusal(spoken, stmt, site)),
        }
    }
}

// What a statement's mnemonic says; a suffix makes it unknown.
fn known(stmt: &Stmt) -> Option<Spoken>
    ensures found { IfSome result (λ spoken. (stmt.now.suffix ≡ None) × Says stmt.now.op spoken) }
    ensures only { (spoken : Spoken) → stmt.now.suffix ≡ None → Says stmt.now.op spoken → result ≡ Some spoken }
{
    if stmt.suffix.is_some() {
        None
    } else {
        spoken(stmt.op.as_slice())
    }
}

// The instruction that a name with operands is, as they stand or with eased numbers.
fn picked(
    ease: bool,
    spoken: Spoken,
    lock: bool,
    site: Site,
    operands: &[Operand],
) -> Option<Listed>
    ensures found { IfSome result (λ i. spec.Picks spoken lock site (map (operand_spec.taken ease site) operands.now) i) }
    ensures only { (i : Instr) → spec.Picks spoken lock site (map (operand_spec.taken ease site) operands.now) i → result ≡ Some i }
{
    let (first, second) = resolved(ease, spoken, site, operands)?;
    Listed::chosen(chosen(spoken, lock, first, second))
}

fn resolved(
    ease: bool,
    spoken: Spoken,
    site: Site,
    operands: &[Operand],
) -> Option<(Option<Resolved>, Option<Resolved>)>
    ensures found { IfSome result (λ two. spec.ResolveAll spoken site (map (operand_spec.taken ease site) operands.now) two.0 two.1) }
    ensures only { (first second : Option Resolved) → spec.ResolveAll spoken site (map (operand_spec.taken ease site) operands.now) first second
        → result ≡ Some (first, second) }
{
    match operands {
        [] => Some((None, None)),
        [one] => Some((Some(taken(ease, spoken, site, one)?), None)),
        [one, other] => Some((
            Some(taken(ease, spoken, site, one)?),
            Some(taken(ease, spoken, site, other)?),
        )),
        _ => None,
    }
}

// What the first operand that refers to something refers to.
fn refers(operands: &[Operand]) -> Option<Refer>
    ensures { result ≡ spec.refers operands.now }
{
    match operands {
        [] => None,
        [one, more @ ..] => refer_of(one).or(refers(more)),
    }
}

fn refer_of(operand: &Operand) -> Option<Refer>
    ensures { result ≡ operand_spec.refer_of operand.now }
{
    let to = match operand {
        Operand::Sym { sym, off, .. } => To::Symbol(*sym, *off),
        Operand::Label(statement) => To::Stmt(*statement),
        _ => return None,
    };
    Some(Refer {
        to,
        part: Part::Whole,
    })
}

// The instruction, and before RET those by which the function leaves its frame.
fn code_of(
    alloc: Global,
    instr: Listed,
    refer: Option<Refer>,
    frame: FrameShape,
) -> Result<Vec<Picked<Listed>>, Memory>
    requires { IsFrame 62 frame }
    ensures { IfOk result (λ code. code.items ≡ spec.code_of instr refer frame) }
{
    let mut code = before(alloc, &instr, frame)?;
    code.push(Picked { instr, refer })?;
    Ok(code)
}

fn before(alloc: Global, instr: &Listed, frame: FrameShape) -> Result<Vec<Picked<Listed>>, Memory>
    requires { IsFrame 62 frame }
    ensures { IfOk result (λ code. code.items ≡ map spec.alone (spec.before instr.now frame)) }
{
    let mut code = Vec::new(alloc);
    if let Instr::Plain { op: Plain::Ret } = *instr.instr()
        && frame.total > 0
    {
        code.push(Picked {
            instr: restore(frame),
            refer: None,
        })?;
        code.push(Picked {
            instr: release(frame),
            refer: None,
        })?;
    }
    Ok(code)
}

// The cause for which a statement becomes nothing.
fn refusal(spoken: Spoken, stmt: &Stmt, site: Site) -> SelectNo
    requires plain { stmt.now.suffix ≡ None }
    requires says { Says stmt.now.op spoken }
    requires unselected { ¬ IsSelected spec.selection stmt.now site }
    ensures { IsRefused spec.selection stmt.now site result }
{
    if !names_words(stmt.operands.as_slice()) {
        SelectNo::S2
    } else if could_be(spoken, stmt, site) {
        SelectNo::S4
    } else {
        SelectNo::S3
    }
}

// Whether the statement becomes instructions with other numbers in its operands.
fn could_be(spoken: Spoken, stmt: &Stmt, site: Site) -> bool
    requires plain { stmt.now.suffix ≡ None }
    requires says { Says stmt.now.op spoken }
    requires unselected { ¬ IsSelected spec.selection stmt.now site }
    ensures { IsTrue result ↔ CouldBe spec.selection stmt.now site }
{
    match picked(true, spoken, stmt.lock, site, stmt.operands.as_slice()) {
        Some(_) => true,
        None => false,
    }
}

// Whether whole operands are words, and other names registers.
fn names_words(operands: &[Operand]) -> bool
    ensures { IsTrue result ↔ All (NamesWords spec.selection) operands.now }
{
    match operands {
        [] => true,
        [one, more @ ..] => operand_names_words(one) && names_words(more),
    }
}

fn operand_names_words(operand: &Operand) -> bool
    ensures { IsTrue result ↔ NamesWords spec.selection operand.now }
{
    match operand {
        Operand::Word(name) => is_word(name.as_slice()),
        Operand::Mem {
            base,
            index: None,
            ..
        } => is_register(base.as_slice()),
        Operand::Mem {
            base,
            index: Some((index, _)),
            ..
        } => { are_registers(base.as_slice(), index.as_slice()) }
        Operand::Pair(first, second) => are_registers(first.as_slice(), second.as_slice()),
        Operand::Shifted { reg, .. } => is_register(reg.as_slice()),
        _ => true,
    }
}

fn are_registers(one: &[u8], other: &[u8]) -> bool
    ensures { IsTrue result ↔ (IsRegister one.now × IsRegister other.now) }
{
    is_register(one) && is_register(other)
}
