ghost use Rattle.std.specs.Prelude.{◌≡◌, ℕ, ℤ, pos, Some, None, IfSome, IsTrue};
ghost use Rattle.amd64_table.specs.declared.instr.Instr.{Instr};
ghost use Rattle.amd64_table.specs.Fits.{fits};
ghost use Rattle.amd64_forms.specs.Rows as spec;

use crate::alias::Alias;
use crate::listing::listed;
use crate::operands::long_of;
use amd64_table::{Arithmetic, Cc, Extend, Instr, Mem, Mnemonic, Near, Operand, Reg, Width};

/// What the name of a statement says.
#[derive(Clone, Copy, Debug, PartialEq, Eq)]
pub enum Spoken {
    /// An instruction of the list.
    Listed(Mnemonic),
    /// MOVL with the same operands.
    Widen,
    /// A jump to a label where the condition holds.
    ToLabel(Cc),
    /// A jump or a call to a label or a symbol.
    Direct(Near),
    /// A constant less in SP.
    Adjust,
    /// No instruction.
    Nothing,
}

/// An operand whose names and places are known.
#[derive(Clone, Copy, Debug, PartialEq, Eq)]
pub enum Resolved {
    /// An operand of an instruction. A symbol's place and a label's distance are 0 until the code is placed.
    Plain(Operand),
    /// The address of a place in memory.
    Address(Mem),
}

/// A name of the list and operands as an instruction's text has them.
pub type Written = (Mnemonic, (Option<Operand>, Option<Operand>));

/// What a name that isn't one of the list says.
#[tactic(auto, unfolding(crate::specs::Rows::meaning_of))]
pub fn meaning_of(alias: Alias) -> Spoken
    ensures { result ≡ spec.meaning_of alias }
{
    match alias {
        Alias::Movbqzx => Spoken::Listed(Mnemonic::Extend(Extend::ByteZero)),
        Alias::Movwqzx => Spoken::Listed(Mnemonic::Extend(Extend::WordZero)),
        Alias::Movlqzx => Spoken::Widen,
        Alias::Jlo => Spoken::Listed(Mnemonic::JumpIf(Cc::Carry)),
        Alias::Jhs => Spoken::Listed(Mnemonic::JumpIf(Cc::NotCarry)),
        Alias::Setlo => Spoken::Listed(Mnemonic::SetCc(Cc::Carry)),
        Alias::Seths => Spoken::Listed(Mnemonic::SetCc(Cc::NotCarry)),
        Alias::Cmovqlo => Spoken::Listed(Mnemonic::MoveCc(Width::Q, Cc::Carry)),
        Alias::Cmovqhs => Spoken::Listed(Mnemonic::MoveCc(Width::Q, Cc::NotCarry)),
        Alias::Cmovllo => Spoken::Listed(Mnemonic::MoveCc(Width::L, Cc::Carry)),
        Alias::Cmovlhs => Spoken::Listed(Mnemonic::MoveCc(Width::L, Cc::NotCarry)),
        Alias::Jz | Alias::Je => Spoken::ToLabel(Cc::Zero),
        Alias::Jnz => Spoken::ToLabel(Cc::NotZero),
        Alias::Jc | Alias::Jb => Spoken::ToLabel(Cc::Carry),
        Alias::Jnc | Alias::Jae => Spoken::ToLabel(Cc::NotCarry),
        Alias::Ja => Spoken::ToLabel(Cc::NeitherCarryNorZero),
        Alias::Jbe => Spoken::ToLabel(Cc::CarryOrZero),
        Alias::Jg => Spoken::ToLabel(Cc::Greater),
        Alias::Jl => Spoken::ToLabel(Cc::Less),
        Alias::Js => Spoken::ToLabel(Cc::Negative),
        Alias::Jns => Spoken::ToLabel(Cc::NotNegative),
        Alias::B => Spoken::Direct(Near::Jmp),
        Alias::Bl => Spoken::Direct(Near::Call),
        Alias::Adjsp => Spoken::Adjust,
        Alias::Nop | Alias::Pcdata | Alias::Funcdata => Spoken::Nothing,
    }
}

/// The instruction of the list for which a statement stands, by the rows for statements that aren't listed as they are.
#[tactic(auto, unfolding(crate::specs::Rows::stands))]
pub fn stands(spoken: Spoken, first: Option<Resolved>, second: Option<Resolved>) -> Option<Written>
    ensures { result ≡ spec.stands spoken first second }
{
    match (spoken, first, second) {
        (
            Spoken::Listed(Mnemonic::Mov(Width::L)),
            Some(Resolved::Plain(Operand::Const(constant))),
            Some(Resolved::Plain(Operand::Reg(to))),
        ) => Some((
            Mnemonic::Mov(Width::L),
            (
                Some(Operand::Const(wrapped(constant))),
                Some(Operand::Reg(to)),
            ),
        )),
        (
            Spoken::Listed(Mnemonic::Mov(Width::Q)),
            Some(Resolved::Plain(Operand::Const(constant))),
            Some(Resolved::Plain(Operand::Reg(to))),
        ) => Some((
            mov_of(constant),
            (Some(Operand::Const(constant)), Some(Operand::Reg(to))),
        )),
        (
            Spoken::Listed(Mnemonic::Mov(Width::Q)),
            Some(Resolved::Address(place)),
            Some(Resolved::Plain(Operand::Reg(to))),
        ) => Some((
            Mnemonic::Lea,
            (Some(Operand::Mem(place)), Some(Operand::Reg(to))),
        )),
        (Spoken::Listed(mnemonic), first, second) => itself(mnemonic, first, second),
        (Spoken::Widen, first, second) => itself(Mnemonic::Mov(Width::L), first, second),
        (Spoken::ToLabel(code), Some(Resolved::Plain(Operand::Goal(distance))), None) => {
            Some((
                Mnemonic::JumpIf(code),
                (Some(Operand::Goal(distance)), None),
            ))
        }
        (Spoken::Direct(near), Some(Resolved::Plain(Operand::Goal(distance))), None) => {
            Some((direct_of(near), (Some(Operand::Goal(distance)), None)))
        }
        (Spoken::Adjust, Some(Resolved::Plain(Operand::Const(constant))), None) => adjusted(
            constant,
        ),
        _ => None,
    }
}

// MOVL of a negative constant of 32 bits loads the number without sign that has the same bits.
fn wrapped(constant: i64) -> i64
    ensures { result ≡ spec.wrapped constant }
{
    if constant < 0 && constant >= -0x8000_0000 {
        constant + 0x1_0000_0000
    } else {
        constant
    }
}

// MOVQ of a constant that has 32 bits without a sign is MOVL.
fn mov_of(constant: i64) -> Mnemonic
    ensures { result ≡ spec.mov_of constant }
{
    if constant >= 0 && constant <= 0xffff_ffff {
        Mnemonic::Mov(Width::L)
    } else {
        Mnemonic::Mov(Width::Q)
    }
}

fn direct_of(near: Near) -> Mnemonic
    ensures { result ≡ spec.direct_of near }
{
    match near {
        Near::Jmp => Mnemonic::Jump,
        Near::Call => Mnemonic::Call,
        Near::If(code) => Mnemonic::JumpIf(code),
    }
}

// ADJSP takes the constant from SP.
fn adjusted(constant: i64) -> Option<Written>
    ensures { result ≡ spec.adjusted constant }
{
    if constant >= 0 {
        Some((
            Mnemonic::Arithmetic(Arithmetic::Sub, Width::Q),
            (Some(Operand::Const(constant)), Some(Operand::Reg(Reg::Sp))),
        ))
    } else {
        let negated = long_of(constant.checked_neg()?)?;
        Some((
            Mnemonic::Arithmetic(Arithmetic::Add, Width::Q),
            (
                Some(Operand::Const(i64::from(negated))),
                Some(Operand::Reg(Reg::Sp)),
            ),
        ))
    }
}

// The instruction of this name with the operands as they are.
fn itself(mnemonic: Mnemonic, first: Option<Resolved>, second: Option<Resolved>) -> Option<Written>
    ensures { result ≡ spec.itself mnemonic first second }
{
    match (first, second) {
        (None, None) => Some((mnemonic, (None, None))),
        (Some(Resolved::Plain(first)), None) => Some((mnemonic, (Some(first), None))),
        (Some(Resolved::Plain(first)), Some(Resolved::Plain(second))) => {
            Some((mnemonic, (Some(first), Some(second))))
        }
        _ => None,
    }
}

/// The instruction that a statement becomes; `None` exactly where it becomes none.
#[tactic(auto, unfolding(crate::specs::Rows::Becomes))]
pub fn chosen(
    spoken: Spoken,
    lock: bool,
    first: Option<Resolved>,
    second: Option<Resolved>,
) -> Option<Instr>
    ensures fits { IfSome result (λ i. IsTrue (fits i)) }
    ensures found { IfSome result (λ i. spec.Becomes spoken lock first second i) }
    ensures only { (i : Instr) → spec.Becomes spoken lock first second i → result ≡ Some i }
{
    let (mnemonic, operands) = stands(spoken, first, second)?;
    listed(mnemonic, lock, operands)
}
