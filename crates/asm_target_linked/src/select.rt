ghost use Rattle.std.specs.Prelude.{◌≡◌, ◌∷◌, ◌⊎◌, [], ℕ, IfOk, IfErr, Some, None, bytes_eq};
ghost use Rattle.std.specs.List.{list_all};
ghost use Rattle.asm_target_linked.specs.declared.instr.Instr.TheVariants.{Frame};
ghost use Rattle.asm_target_linked.specs.declared.instr.FrameOp.TheVariants.{Above};
ghost use Rattle.asm_target_linked.specs.Frames.{plain};
ghost use Rattle.asm_target_linked.specs.Selecting as spec;

use crate::instr::{FrameOp, Instr};
use asm_target::{Picked, SelectNo};
use goasm_base::{Name, Operand, Stmt};
use std::alloc::Global;

/// Whether the name is a word: SP or T.
pub fn is_word(name: &[u8]) -> bool
    ensures { result ≡ spec.is_word name.now }
{
    is_name(name, b"SP") || is_name(name, b"T")
}

fn is_register(name: &[u8]) -> bool
    ensures { result ≡ spec.is_register name.now }
{
    is_name(name, b"SP")
}

fn is_name(name: &[u8], other: &[u8]) -> bool
    ensures { result ≡ bytes_eq name.now other.now }
{
    name == other
}

/// The instructions that a statement becomes: `ABOVE $c` alone becomes one.
pub fn select(alloc: Global, stmt: &Stmt) -> Result<Vec<Picked<Instr>>, SelectNo>
    ensures picked { IfOk result (λ code. (c : ℕ) × (spec.selected_of stmt.now ≡ Some c) × (code.items ≡ plain (Frame Above c) ∷ [])) }
    ensures refused { IfErr result (λ no. (no ≡ SelectNo.Memory) ⊎ ((spec.selected_of stmt.now ≡ None) × (no ≡ spec.refusal_of stmt.now))) }
{
    match selected(stmt) {
        Some(bytes) => made(alloc, bytes),
        None => Err(refusal(stmt)),
    }
}

fn made(alloc: Global, bytes: u32) -> Result<Vec<Picked<Instr>>, SelectNo>
    ensures picked { IfOk result (λ code. code.items ≡ plain (Frame Above bytes) ∷ []) }
    ensures memory { IfErr result (λ no. no ≡ SelectNo.Memory) }
{
    let above = Instr::Frame {
        op: FrameOp::Above,
        bytes,
    };
    let pick = Picked {
        instr: above,
        refer: None,
    };
    let mut code = Vec::new(alloc);
    match code.push(pick) {
        Ok(()) => Ok(code),
        Err(_) => Err(SelectNo::Memory),
    }
}

fn selected(stmt: &Stmt) -> Option<u32>
    ensures { result ≡ spec.selected_of stmt.now }
{
    if !is_known(stmt) {
        return None;
    }
    match constant(stmt) {
        Some(constant) => low(constant),
        None => None,
    }
}

fn low(constant: u64) -> Option<u32>
    ensures { result ≡ spec.low_of (Some constant) }
{
    if constant < 4_294_967_296 {
        Some(constant as u32)
    } else {
        None
    }
}

fn constant(stmt: &Stmt) -> Option<u64>
    ensures { result ≡ spec.constant_of stmt.now }
{
    if stmt.lock {
        return None;
    }
    match stmt.operands.as_slice() {
        [Operand::Imm(constant)] => Some(*constant),
        _ => None,
    }
}

fn is_known(stmt: &Stmt) -> bool
    ensures { result ≡ spec.is_known stmt.now }
{
    is_name(stmt.op.as_slice(), b"ABOVE") && stmt.suffix.is_none()
}

fn refusal(stmt: &Stmt) -> SelectNo
    ensures { result ≡ spec.refusal_of stmt.now }
{
    if !is_known(stmt) {
        SelectNo::S1
    } else if !names_words(stmt.operands.as_slice()) {
        SelectNo::S2
    } else if constant(stmt).is_some() {
        SelectNo::S4
    } else {
        SelectNo::S3
    }
}

fn names_words(operands: &[Operand]) -> bool
    ensures { result ≡ list_all spec.names_word operands.now }
{
    operands.iter().all(|operand| names_word(operand))
}

fn names_word(operand: &Operand) -> bool
    ensures { result ≡ spec.names_word operand.now }
{
    match operand {
        Operand::Word(name) => is_word(name.as_slice()),
        Operand::Mem { base, index, .. } => is_register(base.as_slice()) && names_index(index),
        Operand::Pair(first, second) => {
            is_register(first.as_slice()) && is_register(second.as_slice())
        }
        Operand::Shifted { reg, .. } => is_register(reg.as_slice()),
        _ => true,
    }
}

fn names_index(index: &Option<(Name, u8)>) -> bool
    ensures { result ≡ spec.names_index index.now }
{
    match index {
        Some((name, _)) => is_register(name.as_slice()),
        None => true,
    }
}
