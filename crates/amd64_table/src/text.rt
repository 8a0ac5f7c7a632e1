ghost use Rattle.std.specs.Prelude.{◌≡◌, ◌++◌, IfOk, OnOk};
ghost use Rattle.amd64_table.specs.Texts as spec;
ghost use Rattle.amd64_table.specs.Texts.{text_of};

use crate::instr::Instr;
use crate::memory::{Mem, Scale};
use crate::mnemonic::mnemonic_of;
use crate::operand::{Operand, is_locked, operands_of};
use crate::values::moved_by;
use goasm_base::{Bytes, Memory, Text};
use std::alloc::Global;

/// The text of an instruction that ends at `end`, the address just behind it, as Go's assembler writes it: `LOCK; ` where
/// it is locked, the name, a space and the operands with `, ` between.
///
/// Memory is `off(R)` or `off(R)(I*s)` with a decimal offset that is left out where it's 0, and a symbol's is its
/// address and `(SB)`. A constant is `$` and a decimal number; that of MOVL to a register has no sign. A goal is an
/// address. Addresses are `0x` and sixteen hexadecimal digits. `Memory` comes only for want of memory.
#[tactic(auto, unfolding(crate::specs::Texts::text_of))]
pub fn show(alloc: Global, instr: &Instr, end: u64) -> Result<Bytes, Memory>
    ensures { IfOk result (λ text. text ≡ text_of instr.now end) }
{
    let (first, second) = operands_of(instr);
    let mut text = Text::new(alloc);
    text.push(lock_text(is_locked(instr)))?;
    mnemonic_of(instr).push_to(&mut text)?;
    push_behind(&mut text, b" ", end, first)?;
    push_behind(&mut text, b", ", end, second)?;
    Ok(text.finish())
}

#[tactic(auto, unfolding(crate::specs::Texts::lock_text))]
fn lock_text(lock: bool) -> &'static [u8]
    ensures { result.now ≡ spec.lock_text lock }
{
    if lock { b"LOCK; " } else { b"" }
}

#[tactic(auto, unfolding(crate::specs::Texts::scale_text))]
fn scale_text(scale: Scale) -> &'static [u8]
    ensures { result.now ≡ spec.scale_text scale }
{
    match scale {
        Scale::One => b"*1)",
        Scale::Two => b"*2)",
        Scale::Four => b"*4)",
        Scale::Eight => b"*8)",
    }
}

// Appends an operand behind what stands before it, where there is one.
#[tactic(auto, unfolding(crate::specs::Texts::behind))]
fn push_behind(
    text: &mut Text,
    before: &[u8],
    end: u64,
    operand: Option<Operand>,
) -> Result<(), Memory>
    ensures { OnOk result (text.new ≡ text.old ++ spec.behind before.now end operand) }
{
    match operand {
        None => Ok(()),
        Some(operand) => {
            text.push(before)?;
            push_operand(text, end, operand)
        }
    }
}

#[tactic(auto, unfolding(crate::specs::Texts::operand_text))]
fn push_operand(text: &mut Text, end: u64, operand: Operand) -> Result<(), Memory>
    ensures { OnOk result (text.new ≡ text.old ++ spec.operand_text end operand) }
{
    match operand {
        Operand::Reg(reg) => text.push(reg.name()),
        Operand::Wide(xmm) => text.push(xmm.name()),
        Operand::Mem(mem) => push_mem(text, end, mem),
        Operand::Const(constant) => {
            text.push(b"$")?;
            text.push_decimal(constant)
        }
        Operand::Goal(distance) => text.push_hex(moved_by(end, distance)),
        Operand::Tls => text.push(b"(TLS)"),
    }
}

#[tactic(auto, unfolding(crate::specs::Texts::mem_text))]
fn push_mem(text: &mut Text, end: u64, mem: Mem) -> Result<(), Memory>
    ensures { OnOk result (text.new ≡ text.old ++ spec.mem_text end mem) }
{
    match mem {
        Mem::Base { base, disp } => {
            push_disp(text, disp)?;
            text.push(b"(")?;
            text.push(base.name())?;
            text.push(b")")
        }
        Mem::Indexed {
            base,
            index,
            scale,
            disp,
        } => {
            push_disp(text, disp)?;
            text.push(b"(")?;
            text.push(base.name())?;
            text.push(b")(")?;
            text.push(index.name())?;
            text.push(scale_text(scale))
        }
        Mem::Symbol { distance } => {
            text.push_hex(moved_by(end, i64::from(distance)))?;
            text.push(b"(SB)")
        }
    }
}

#[tactic(auto, unfolding(crate::specs::Texts::disp_text))]
fn push_disp(text: &mut Text, disp: i32) -> Result<(), Memory>
    ensures { OnOk result (text.new ≡ text.old ++ spec.disp_text disp) }
{
    if disp == 0 {
        Ok(())
    } else {
        text.push_decimal(i64::from(disp))
    }
}
