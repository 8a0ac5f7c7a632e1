ghost use Rattle.std.specs.Prelude.{◌≡◌, Some, None, IfSome, IsTrue};
ghost use Rattle.amd64_table.specs.declared.instr.Instr.{Instr};
ghost use Rattle.amd64_table.specs.Fits.{fits};
ghost use Rattle.amd64_table.specs.Texts.{is_locked};
ghost use Rattle.amd64_forms.specs.Listed.{Shows, Writes};

use crate::{computation, control, moves};
use amd64_table::{Instr, Mnemonic, Operand, fits, is_locked};

/// The listed instruction with this name and these operands, LOCK before it or not; `None` exactly where there is none.
/// Of a branch it's the long one, and its operand is a goal.
pub fn listed(
    mnemonic: Mnemonic,
    lock: bool,
    operands: (Option<Operand>, Option<Operand>),
) -> Option<Instr>
    ensures found { IfSome result (λ i. Writes mnemonic lock operands i) }
    ensures only { (i : Instr) → Writes mnemonic lock operands i → result ≡ Some i }
{
    let instr = shown(mnemonic, lock, operands)?;
    if fits(&instr) && is_locked(&instr) == lock {
        Some(instr)
    } else {
        None
    }
}

#[tactic(auto, unfolding(amd64_table::specs::Mnemonics::mnemonic_of, amd64_table::specs::Texts::operands_of, amd64_table::specs::Texts::reg_rm_operands, amd64_table::specs::Texts::mem_reg_operands, amd64_table::specs::Texts::is_locked, amd64_table::specs::Fits::fits, crate::specs::Listed::is_short))]
fn shown(
    mnemonic: Mnemonic,
    lock: bool,
    operands: (Option<Operand>, Option<Operand>),
) -> Option<Instr>
    ensures found { IfSome result (λ i. Shows mnemonic operands i) }
    ensures only { (i : Instr) → IsTrue (fits i) → Shows mnemonic operands i → is_locked i ≡ lock → result ≡ Some i }
{
    match operands {
        (Some(first), Some(second)) => of_two(mnemonic, lock, first, second),
        (Some(operand), None) => of_one(mnemonic, lock, operand),
        (None, None) => of_none(mnemonic),
        (None, Some(_)) => None,
    }
}

#[tactic(auto, unfolding(amd64_table::specs::Mnemonics::mnemonic_of, amd64_table::specs::Texts::operands_of, amd64_table::specs::Texts::reg_rm_operands, amd64_table::specs::Texts::mem_reg_operands, amd64_table::specs::Texts::is_locked, amd64_table::specs::Fits::fits, crate::specs::Listed::is_short))]
fn of_two(mnemonic: Mnemonic, lock: bool, first: Operand, second: Operand) -> Option<Instr>
    ensures found { IfSome result (λ i. Shows mnemonic (Some first, Some second) i) }
    ensures only { (i : Instr) → IsTrue (fits i) → Shows mnemonic (Some first, Some second) i → is_locked i ≡ lock → result ≡ Some i }
{
    match mnemonic {
        Mnemonic::Mov(width) => moves::mov(width, first, second),
        Mnemonic::StoreLow(size) => moves::store_low(size, first, second),
        Mnemonic::Extend(op) => moves::extend(op, first, second),
        Mnemonic::Lea => moves::lea(first, second),
        Mnemonic::MoveCc(width, code) => moves::move_cc(width, code, first, second),
        Mnemonic::MoveWide => moves::move_wide(first, second),
        Mnemonic::Arithmetic(op, width) => computation::arithmetic(op, width, lock, first, second),
        Mnemonic::Cmp(width) => computation::cmp(width, first, second),
        Mnemonic::Test(width) => computation::test(width, first, second),
        Mnemonic::RmReg(op, width) => computation::rm_reg(op, width, first, second),
        Mnemonic::Shift(op, width) => computation::shift(op, width, first, second),
        Mnemonic::Exchange(width) => computation::exchange(width, first, second),
        Mnemonic::Atomic(op, width) => computation::atomic(op, width, lock, first, second),
        Mnemonic::XorWide => computation::xor_wide(first, second),
        _ => None,
    }
}

#[tactic(auto, unfolding(amd64_table::specs::Mnemonics::mnemonic_of, amd64_table::specs::Texts::operands_of, amd64_table::specs::Texts::reg_rm_operands, amd64_table::specs::Texts::mem_reg_operands, amd64_table::specs::Texts::is_locked, amd64_table::specs::Fits::fits, crate::specs::Listed::is_short))]
fn of_one(mnemonic: Mnemonic, lock: bool, operand: Operand) -> Option<Instr>
    ensures found { IfSome result (λ i. Shows mnemonic (Some operand, None) i) }
    ensures only { (i : Instr) → IsTrue (fits i) → Shows mnemonic (Some operand, None) i → is_locked i ≡ lock → result ≡ Some i }
{
    match mnemonic {
        Mnemonic::Unary(op, width) => computation::unary(op, width, lock, operand),
        Mnemonic::MulDiv(op, width) => computation::mul_div(op, width, operand),
        Mnemonic::SetCc(code) => computation::set_cc(code, operand),
        Mnemonic::SwapBytes(width) => computation::swap_bytes(width, operand),
        Mnemonic::Stack(op) => control::stack(op, operand),
        Mnemonic::Jump => control::jump(operand),
        Mnemonic::JumpIf(code) => control::jump_if(code, operand),
        Mnemonic::Call => control::call(operand),
        _ => None,
    }
}

#[tactic(auto, unfolding(amd64_table::specs::Mnemonics::mnemonic_of, amd64_table::specs::Texts::operands_of, amd64_table::specs::Texts::reg_rm_operands, amd64_table::specs::Texts::mem_reg_operands, amd64_table::specs::Texts::is_locked, amd64_table::specs::Fits::fits, crate::specs::Listed::is_short))]
fn of_none(mnemonic: Mnemonic) -> Option<Instr>
    ensures found { IfSome result (λ i. Shows mnemonic (None, None) i) }
    ensures only { (i : Instr) → IsTrue (fits i) → Shows mnemonic (None, None) i → result ≡ Some i }
{
    match mnemonic {
        Mnemonic::Plain(op) => Some(Instr::Plain { op }),
        _ => None,
    }
}
