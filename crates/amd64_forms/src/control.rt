ghost use Rattle.std.specs.Prelude.{◌≡◌, Some, None, IfSome, IsTrue};
ghost use Rattle.amd64_table.specs.declared.instr.Instr.{Instr};
ghost use Rattle.amd64_table.specs.declared.mnemonic.Mnemonic.TheVariants as name;
ghost use Rattle.amd64_table.specs.Fits.{fits};
ghost use Rattle.amd64_forms.specs.Listed.{Shows};

use crate::operands::{long_of, rm_of};
use amd64_table::{Cc, Indirect, Instr, Near, Operand, Plain, Stack};

/// PUSHQ and POPQ.
#[tactic(auto, unfolding(amd64_table::specs::Mnemonics::mnemonic_of, amd64_table::specs::Texts::operands_of, amd64_table::specs::Texts::reg_rm_operands, amd64_table::specs::Texts::mem_reg_operands, amd64_table::specs::Texts::is_locked, amd64_table::specs::Fits::fits, crate::specs::Listed::is_short))]
pub fn stack(op: Stack, operand: Operand) -> Option<Instr>
    ensures found { IfSome result (λ i. Shows (name.Stack op) (Some operand, None) i) }
    ensures only { (i : Instr) → IsTrue (fits i) → Shows (name.Stack op) (Some operand, None) i → result ≡ Some i }
{
    match operand {
        Operand::Reg(reg) => Some(Instr::Stack { op, reg }),
        _ => None,
    }
}

/// JMP.
#[tactic(auto, unfolding(amd64_table::specs::Mnemonics::mnemonic_of, amd64_table::specs::Texts::operands_of, amd64_table::specs::Texts::reg_rm_operands, amd64_table::specs::Texts::mem_reg_operands, amd64_table::specs::Texts::is_locked, amd64_table::specs::Fits::fits, crate::specs::Listed::is_short))]
pub fn jump(operand: Operand) -> Option<Instr>
    ensures found { IfSome result (λ i. Shows (name.Jump) (Some operand, None) i) }
    ensures only { (i : Instr) → IsTrue (fits i) → Shows (name.Jump) (Some operand, None) i → result ≡ Some i }
{
    match operand {
        Operand::Goal(distance) => Some(Instr::Near {
            op: Near::Jmp,
            distance: long_of(distance)?,
        }),
        operand => Some(Instr::Indirect {
            op: Indirect::Jmp,
            rm: rm_of(operand)?,
        }),
    }
}

/// CALL.
#[tactic(auto, unfolding(amd64_table::specs::Mnemonics::mnemonic_of, amd64_table::specs::Texts::operands_of, amd64_table::specs::Texts::reg_rm_operands, amd64_table::specs::Texts::mem_reg_operands, amd64_table::specs::Texts::is_locked, amd64_table::specs::Fits::fits, crate::specs::Listed::is_short))]
pub fn call(operand: Operand) -> Option<Instr>
    ensures found { IfSome result (λ i. Shows (name.Call) (Some operand, None) i) }
    ensures only { (i : Instr) → IsTrue (fits i) → Shows (name.Call) (Some operand, None) i → result ≡ Some i }
{
    match operand {
        Operand::Goal(distance) => Some(Instr::Near {
            op: Near::Call,
            distance: long_of(distance)?,
        }),
        operand => Some(Instr::Indirect {
            op: Indirect::Call,
            rm: rm_of(operand)?,
        }),
    }
}

/// JEQ and its kin.
#[tactic(auto, unfolding(amd64_table::specs::Mnemonics::mnemonic_of, amd64_table::specs::Texts::operands_of, amd64_table::specs::Texts::reg_rm_operands, amd64_table::specs::Texts::mem_reg_operands, amd64_table::specs::Texts::is_locked, amd64_table::specs::Fits::fits, crate::specs::Listed::is_short))]
pub fn jump_if(code: Cc, operand: Operand) -> Option<Instr>
    ensures found { IfSome result (λ i. Shows (name.JumpIf code) (Some operand, None) i) }
    ensures only { (i : Instr) → IsTrue (fits i) → Shows (name.JumpIf code) (Some operand, None) i → result ≡ Some i }
{
    match operand {
        Operand::Goal(distance) => Some(Instr::Near {
            op: Near::If(code),
            distance: long_of(distance)?,
        }),
        _ => None,
    }
}
