ghost use Rattle.std.specs.Prelude.{◌≡◌, Some, IfSome};
ghost use Rattle.amd64_table.specs.declared.condition.Cc.{Cc};
ghost use Rattle.amd64_table.specs.declared.reg.Reg.{Reg};
ghost use Rattle.amd64_table.specs.declared.xmm.Xmm.{Xmm};
ghost use Rattle.amd64_table.specs.Conditions.{cc_text};
ghost use Rattle.amd64_table.specs.Registers.{reg_text, xmm_text};

use amd64_table::{Cc, Reg, Xmm};

/// The general register of this name; `None` exactly where there is none.
#[tactic(auto, unfolding(amd64_table::specs::Registers::reg_text))]
pub fn reg_named(name: &[u8]) -> Option<Reg>
    ensures found { IfSome result (λ reg. reg_text reg ≡ name.now) }
    ensures only { (reg : Reg) → reg_text reg ≡ name.now → result ≡ Some reg }
{
    let reg = match name {
        b"AX" => Reg::Ax,
        b"CX" => Reg::Cx,
        b"DX" => Reg::Dx,
        b"BX" => Reg::Bx,
        b"SP" => Reg::Sp,
        b"BP" => Reg::Bp,
        b"SI" => Reg::Si,
        b"DI" => Reg::Di,
        b"R8" => Reg::R8,
        b"R9" => Reg::R9,
        b"R10" => Reg::R10,
        b"R11" => Reg::R11,
        b"R12" => Reg::R12,
        b"R13" => Reg::R13,
        b"R14" => Reg::R14,
        b"R15" => Reg::R15,
        _ => return None,
    };
    Some(reg)
}

/// The X register of this name; `None` exactly where there is none.
#[tactic(auto, unfolding(amd64_table::specs::Registers::xmm_text))]
pub fn xmm_named(name: &[u8]) -> Option<Xmm>
    ensures found { IfSome result (λ xmm. xmm_text xmm ≡ name.now) }
    ensures only { (xmm : Xmm) → xmm_text xmm ≡ name.now → result ≡ Some xmm }
{
    let xmm = match name {
        b"X0" => Xmm::X0,
        b"X1" => Xmm::X1,
        b"X2" => Xmm::X2,
        b"X3" => Xmm::X3,
        b"X4" => Xmm::X4,
        b"X5" => Xmm::X5,
        b"X6" => Xmm::X6,
        b"X7" => Xmm::X7,
        b"X8" => Xmm::X8,
        b"X9" => Xmm::X9,
        b"X10" => Xmm::X10,
        b"X11" => Xmm::X11,
        b"X12" => Xmm::X12,
        b"X13" => Xmm::X13,
        b"X14" => Xmm::X14,
        b"X15" => Xmm::X15,
        _ => return None,
    };
    Some(xmm)
}

/// The condition of this name; `None` exactly where there is none.
#[tactic(auto, unfolding(amd64_table::specs::Conditions::cc_text))]
pub fn cc_named(name: &[u8]) -> Option<Cc>
    ensures found { IfSome result (λ code. cc_text code ≡ name.now) }
    ensures only { (code : Cc) → cc_text code ≡ name.now → result ≡ Some code }
{
    let code = match name {
        b"OS" => Cc::Over,
        b"OC" => Cc::NotOver,
        b"CS" => Cc::Carry,
        b"CC" => Cc::NotCarry,
        b"EQ" => Cc::Zero,
        b"NE" => Cc::NotZero,
        b"LS" => Cc::CarryOrZero,
        b"HI" => Cc::NeitherCarryNorZero,
        b"MI" => Cc::Negative,
        b"PL" => Cc::NotNegative,
        b"PS" => Cc::ParityEven,
        b"PC" => Cc::ParityOdd,
        b"LT" => Cc::Less,
        b"GE" => Cc::GreaterOrEqual,
        b"LE" => Cc::LessOrEqual,
        b"GT" => Cc::Greater,
        _ => return None,
    };
    Some(code)
}
