ghost use Rattle.std.specs.Prelude.{◌≡◌, Some, IfSome, IsTrue, IsSome};
ghost use Rattle.amd64_table.specs.declared.mnemonic.Mnemonic.{Mnemonic};
ghost use Rattle.amd64_table.specs.Mnemonics.{mnemonic_text};
ghost use Rattle.amd64_forms.specs.Groups as group;

use crate::registers::cc_named;
use amd64_table::{
    Arithmetic, Atomic, Extend, Mnemonic, MulDiv, Plain, RmReg, ShiftOp, Stack, StoreSize, Unary,
    Width,
};

/// The name of the list that is written so; `None` exactly where none is.
#[tactic(auto, using(crate::proofs::NamesApart::groups))]
pub fn mnemonic_named(name: &[u8]) -> Option<Mnemonic>
    ensures found { IfSome result (λ m. mnemonic_text m ≡ name.now) }
    ensures only { (m : Mnemonic) → mnemonic_text m ≡ name.now → result ≡ Some m }
{
    if let Some(whole) = whole(name) {
        Some(whole)
    } else if let Some(computing) = computing(name) {
        Some(computing)
    } else if let Some(moving) = moving(name) {
        Some(moving)
    } else {
        conditional(name)
    }
}

// Names that tell neither a width nor a condition.
#[tactic(auto, unfolding(crate::specs::Groups::group_of, amd64_table::specs::Mnemonics::mnemonic_text, amd64_table::specs::Mnemonics::stem_of, amd64_table::specs::Mnemonics::width_of, amd64_table::specs::Mnemonics::cc_of, amd64_table::specs::Mnemonics::width_text, amd64_table::specs::Mnemonics::condition_text, amd64_table::specs::Mnemonics::extend_stem, amd64_table::specs::Mnemonics::plain_stem))]
fn whole(name: &[u8]) -> Option<Mnemonic>
    ensures found { IfSome result (λ m. mnemonic_text m ≡ name.now) }
    ensures only { (m : Mnemonic) → group.group_of m ≡ group.Whole → mnemonic_text m ≡ name.now → result ≡ Some m }
{
    let name = match name {
        b"MOVB" => Mnemonic::StoreLow(StoreSize::Byte),
        b"MOVW" => Mnemonic::StoreLow(StoreSize::Word),
        b"MOVBLZX" => Mnemonic::Extend(Extend::ByteZero),
        b"MOVWLZX" => Mnemonic::Extend(Extend::WordZero),
        b"MOVBQSX" => Mnemonic::Extend(Extend::ByteSign),
        b"MOVWQSX" => Mnemonic::Extend(Extend::WordSign),
        b"MOVLQSX" => Mnemonic::Extend(Extend::LongSign),
        b"LEAQ" => Mnemonic::Lea,
        b"PUSHQ" => Mnemonic::Stack(Stack::Push),
        b"POPQ" => Mnemonic::Stack(Stack::Pop),
        b"JMP" => Mnemonic::Jump,
        b"CALL" => Mnemonic::Call,
        b"MOVOU" => Mnemonic::MoveWide,
        b"PXOR" => Mnemonic::XorWide,
        b"PAUSE" => Mnemonic::Plain(Plain::Pause),
        b"MFENCE" => Mnemonic::Plain(Plain::Mfence),
        b"CDQ" => Mnemonic::Plain(Plain::Cdq),
        b"CQO" => Mnemonic::Plain(Plain::Cqo),
        b"RET" => Mnemonic::Plain(Plain::Ret),
        b"SYSCALL" => Mnemonic::Plain(Plain::Syscall),
        b"CPUID" => Mnemonic::Plain(Plain::Cpuid),
        b"RDTSC" => Mnemonic::Plain(Plain::Rdtsc),
        b"UNDEF" => Mnemonic::Plain(Plain::Undef),
        _ => return None,
    };
    Some(name)
}

// Names of computations that end in the letter of a width.
#[tactic(auto, unfolding(crate::specs::Groups::group_of, amd64_table::specs::Mnemonics::mnemonic_text, amd64_table::specs::Mnemonics::stem_of, amd64_table::specs::Mnemonics::width_of, amd64_table::specs::Mnemonics::cc_of, amd64_table::specs::Mnemonics::width_text, amd64_table::specs::Mnemonics::condition_text, amd64_table::specs::Mnemonics::arithmetic_stem, amd64_table::specs::Mnemonics::unary_stem, amd64_table::specs::Mnemonics::mul_div_stem))]
fn computing(name: &[u8]) -> Option<Mnemonic>
    ensures found { IfSome result (λ m. mnemonic_text m ≡ name.now) }
    ensures only { (m : Mnemonic) → group.group_of m ≡ group.Computing → mnemonic_text m ≡ name.now → result ≡ Some m }
{
    let name = match name {
        b"ADDQ" => Mnemonic::Arithmetic(Arithmetic::Add, Width::Q),
        b"ADDL" => Mnemonic::Arithmetic(Arithmetic::Add, Width::L),
        b"ORQ" => Mnemonic::Arithmetic(Arithmetic::Or, Width::Q),
        b"ORL" => Mnemonic::Arithmetic(Arithmetic::Or, Width::L),
        b"ADCQ" => Mnemonic::Arithmetic(Arithmetic::Adc, Width::Q),
        b"ADCL" => Mnemonic::Arithmetic(Arithmetic::Adc, Width::L),
        b"SBBQ" => Mnemonic::Arithmetic(Arithmetic::Sbb, Width::Q),
        b"SBBL" => Mnemonic::Arithmetic(Arithmetic::Sbb, Width::L),
        b"ANDQ" => Mnemonic::Arithmetic(Arithmetic::And, Width::Q),
        b"ANDL" => Mnemonic::Arithmetic(Arithmetic::And, Width::L),
        b"SUBQ" => Mnemonic::Arithmetic(Arithmetic::Sub, Width::Q),
        b"SUBL" => Mnemonic::Arithmetic(Arithmetic::Sub, Width::L),
        b"XORQ" => Mnemonic::Arithmetic(Arithmetic::Xor, Width::Q),
        b"XORL" => Mnemonic::Arithmetic(Arithmetic::Xor, Width::L),
        b"INCQ" => Mnemonic::Unary(Unary::Inc, Width::Q),
        b"INCL" => Mnemonic::Unary(Unary::Inc, Width::L),
        b"DECQ" => Mnemonic::Unary(Unary::Dec, Width::Q),
        b"DECL" => Mnemonic::Unary(Unary::Dec, Width::L),
        b"NOTQ" => Mnemonic::Unary(Unary::Not, Width::Q),
        b"NOTL" => Mnemonic::Unary(Unary::Not, Width::L),
        b"NEGQ" => Mnemonic::Unary(Unary::Neg, Width::Q),
        b"NEGL" => Mnemonic::Unary(Unary::Neg, Width::L),
        b"MULQ" => Mnemonic::MulDiv(MulDiv::Mul, Width::Q),
        b"MULL" => Mnemonic::MulDiv(MulDiv::Mul, Width::L),
        b"DIVQ" => Mnemonic::MulDiv(MulDiv::Div, Width::Q),
        b"DIVL" => Mnemonic::MulDiv(MulDiv::Div, Width::L),
        b"IDIVQ" => Mnemonic::MulDiv(MulDiv::Idiv, Width::Q),
        b"IDIVL" => Mnemonic::MulDiv(MulDiv::Idiv, Width::L),
        _ => return None,
    };
    Some(name)
}

// The other names that end in the letter of a width.
#[tactic(auto, unfolding(crate::specs::Groups::group_of, amd64_table::specs::Mnemonics::mnemonic_text, amd64_table::specs::Mnemonics::stem_of, amd64_table::specs::Mnemonics::width_of, amd64_table::specs::Mnemonics::cc_of, amd64_table::specs::Mnemonics::width_text, amd64_table::specs::Mnemonics::condition_text, amd64_table::specs::Mnemonics::rm_reg_stem, amd64_table::specs::Mnemonics::shift_stem))]
fn moving(name: &[u8]) -> Option<Mnemonic>
    ensures found { IfSome result (λ m. mnemonic_text m ≡ name.now) }
    ensures only { (m : Mnemonic) → group.group_of m ≡ group.Moving → mnemonic_text m ≡ name.now → result ≡ Some m }
{
    let name = match name {
        b"IMULQ" => Mnemonic::RmReg(RmReg::Imul, Width::Q),
        b"IMULL" => Mnemonic::RmReg(RmReg::Imul, Width::L),
        b"BSFQ" => Mnemonic::RmReg(RmReg::Bsf, Width::Q),
        b"BSFL" => Mnemonic::RmReg(RmReg::Bsf, Width::L),
        b"BSRQ" => Mnemonic::RmReg(RmReg::Bsr, Width::Q),
        b"BSRL" => Mnemonic::RmReg(RmReg::Bsr, Width::L),
        b"POPCNTQ" => Mnemonic::RmReg(RmReg::Popcnt, Width::Q),
        b"POPCNTL" => Mnemonic::RmReg(RmReg::Popcnt, Width::L),
        b"SHLQ" => Mnemonic::Shift(ShiftOp::Shl, Width::Q),
        b"SHLL" => Mnemonic::Shift(ShiftOp::Shl, Width::L),
        b"SHRQ" => Mnemonic::Shift(ShiftOp::Shr, Width::Q),
        b"SHRL" => Mnemonic::Shift(ShiftOp::Shr, Width::L),
        b"SARQ" => Mnemonic::Shift(ShiftOp::Sar, Width::Q),
        b"SARL" => Mnemonic::Shift(ShiftOp::Sar, Width::L),
        b"ROLQ" => Mnemonic::Shift(ShiftOp::Rol, Width::Q),
        b"ROLL" => Mnemonic::Shift(ShiftOp::Rol, Width::L),
        b"CMPXCHGQ" => Mnemonic::Atomic(Atomic::CompareExchange, Width::Q),
        b"CMPXCHGL" => Mnemonic::Atomic(Atomic::CompareExchange, Width::L),
        b"XADDQ" => Mnemonic::Atomic(Atomic::ExchangeAdd, Width::Q),
        b"XADDL" => Mnemonic::Atomic(Atomic::ExchangeAdd, Width::L),
        b"MOVQ" => Mnemonic::Mov(Width::Q),
        b"MOVL" => Mnemonic::Mov(Width::L),
        b"CMPQ" => Mnemonic::Cmp(Width::Q),
        b"CMPL" => Mnemonic::Cmp(Width::L),
        b"TESTQ" => Mnemonic::Test(Width::Q),
        b"TESTL" => Mnemonic::Test(Width::L),
        b"XCHGQ" => Mnemonic::Exchange(Width::Q),
        b"XCHGL" => Mnemonic::Exchange(Width::L),
        b"BSWAPQ" => Mnemonic::SwapBytes(Width::Q),
        b"BSWAPL" => Mnemonic::SwapBytes(Width::L),
        _ => return None,
    };
    Some(name)
}

// Names that end in a condition.
#[tactic(auto, unfolding(crate::specs::Groups::group_of, amd64_table::specs::Mnemonics::mnemonic_text, amd64_table::specs::Mnemonics::stem_of, amd64_table::specs::Mnemonics::width_of, amd64_table::specs::Mnemonics::cc_of, amd64_table::specs::Mnemonics::width_text, amd64_table::specs::Mnemonics::condition_text))]
fn conditional(name: &[u8]) -> Option<Mnemonic>
    ensures found { IfSome result (λ m. mnemonic_text m ≡ name.now) }
    ensures only { (m : Mnemonic) → group.group_of m ≡ group.Conditional → mnemonic_text m ≡ name.now → result ≡ Some m }
{
    if let Some(code) = name.strip_prefix(b"SET") {
        Some(Mnemonic::SetCc(cc_named(code)?))
    } else if let Some(code) = name.strip_prefix(b"CMOVQ") {
        Some(Mnemonic::MoveCc(Width::Q, cc_named(code)?))
    } else if let Some(code) = name.strip_prefix(b"CMOVL") {
        Some(Mnemonic::MoveCc(Width::L, cc_named(code)?))
    } else {
        Some(Mnemonic::JumpIf(cc_named(name.strip_prefix(b"J")?)?))
    }
}
