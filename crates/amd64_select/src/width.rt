ghost use Rattle.std.specs.Prelude.{◌≡◌};
ghost use Rattle.amd64_select.specs.Widths as spec;

use amd64_forms::{Spoken, spoken};
use amd64_table::{Extend, Mnemonic, StoreSize, Width as OperandWidth};
use asm_target::Width;

/// How many bytes of an operand in memory the mnemonic accesses.
pub fn width(op: &[u8]) -> Width
    ensures { result ≡ spec.width_of_text op.now }
{
    match spoken(op) {
        Some(spoken) => spoken_width(spoken),
        None => Width::Unknown,
    }
}

fn spoken_width(spoken: Spoken) -> Width
    ensures { result ≡ spec.spoken_width spoken }
{
    match spoken {
        Spoken::Listed(mnemonic) => width_of(mnemonic),
        Spoken::Widen => Width::Bytes(4),
        _ => Width::Unknown,
    }
}

#[tactic(auto, unfolding(crate::specs::Widths::width_of))]
fn width_of(mnemonic: Mnemonic) -> Width
    ensures { result ≡ spec.width_of mnemonic }
{
    match mnemonic {
        Mnemonic::Mov(width)
        | Mnemonic::Arithmetic(_, width)
        | Mnemonic::Cmp(width)
        | Mnemonic::Test(width)
        | Mnemonic::Unary(_, width)
        | Mnemonic::MulDiv(_, width)
        | Mnemonic::RmReg(_, width)
        | Mnemonic::Shift(_, width)
        | Mnemonic::Exchange(width)
        | Mnemonic::Atomic(_, width)
        | Mnemonic::MoveCc(width, _) => quad_or_long(width),
        Mnemonic::StoreLow(StoreSize::Byte)
        | Mnemonic::Extend(Extend::ByteZero | Extend::ByteSign)
        | Mnemonic::SetCc(_) => Width::Bytes(1),
        Mnemonic::StoreLow(StoreSize::Word)
        | Mnemonic::Extend(Extend::WordZero | Extend::WordSign) => { Width::Bytes(2) }
        Mnemonic::Extend(Extend::LongSign) => Width::Bytes(4),
        Mnemonic::Jump | Mnemonic::Call => Width::Bytes(8),
        Mnemonic::MoveWide => Width::Bytes(16),
        Mnemonic::Lea => Width::Address,
        Mnemonic::Stack(_)
        | Mnemonic::SwapBytes(_)
        | Mnemonic::JumpIf(_)
        | Mnemonic::XorWide
        | Mnemonic::Plain(_) => Width::Unknown,
    }
}

fn quad_or_long(width: OperandWidth) -> Width
    ensures { result ≡ spec.quad_or_long width }
{
    match width {
        OperandWidth::Q => Width::Bytes(8),
        OperandWidth::L => Width::Bytes(4),
    }
}
