//! The instructions whose opcode is 0F and one byte, by that byte.
ghost use Rattle.std.specs.Prelude.{◌≡◌};
ghost use Rattle.amd64_code.specs.Reading as spec;
ghost use Rattle.amd64_table.specs.declared.instr.Instr.TheVariants as instr;

use crate::constants::long_in;
use crate::fields::Fields;
use crate::registers::cc_at;
use amd64_table::{Atomic, Extend, Instr, Near, Plain, RmReg};

/// The instruction of an opcode that is 0F and this byte.
#[tactic(auto, unfolding(crate::specs::Reading::two_bytes))]
pub fn two_bytes(fields: &Fields<'_>, opcode: u8) -> Instr
    ensures { result ≡ spec.two_bytes fields.now.lock fields.now.rex opcode fields.now.tail.now }
{
    match opcode / 16 {
        0 => row_0f_0(opcode),
        3 => Instr::Plain { op: Plain::Rdtsc },
        4 => Instr::MoveCc {
            code: cc_at(opcode % 16),
            width: fields.width(),
            from: fields.rm(),
            to: fields.reg(),
        },
        6 => Instr::LoadWide {
            from: fields.mem(),
            to: fields.xmm(),
        },
        7 => Instr::StoreWide {
            from: fields.xmm(),
            to: fields.mem(),
        },
        8 => Instr::Near {
            op: Near::If(cc_at(opcode % 16)),
            distance: long_in(fields.tail),
        },
        9 => Instr::SetCc {
            code: cc_at(opcode % 16),
            to: fields.rm(),
        },
        10 => row_0f_a(fields, opcode),
        11 => row_0f_b(fields, opcode),
        12 => row_0f_c(fields, opcode),
        _ => Instr::XorWide {
            from: fields.low_xmm(),
            to: fields.xmm(),
        },
    }
}

#[tactic(auto, unfolding(crate::specs::Reading::row_0f_0))]
fn row_0f_0(opcode: u8) -> Instr
    ensures { result ≡ spec.row_0f_0 opcode }
{
    let op = if opcode == 0x05 {
        Plain::Syscall
    } else {
        Plain::Undef
    };
    Instr::Plain { op }
}

fn rm_reg(fields: &Fields<'_>, op: RmReg) -> Instr
    ensures { result ≡ instr.RmReg op (spec.width_in fields.now.rex) (spec.operand_in fields.now.rex fields.now.tail.now)
        (spec.reg_in fields.now.rex fields.now.tail.now) }
{
    Instr::RmReg {
        op,
        width: fields.width(),
        from: fields.rm(),
        to: fields.reg(),
    }
}

fn extend(fields: &Fields<'_>, op: Extend) -> Instr
    ensures { result ≡ instr.Extend op (spec.operand_in fields.now.rex fields.now.tail.now)
        (spec.reg_in fields.now.rex fields.now.tail.now) }
{
    Instr::Extend {
        op,
        from: fields.rm(),
        to: fields.reg(),
    }
}

fn atomic(fields: &Fields<'_>, op: Atomic) -> Instr
    ensures { result ≡ instr.Atomic op fields.now.lock (spec.width_in fields.now.rex)
        (spec.reg_in fields.now.rex fields.now.tail.now) (spec.memory_in fields.now.rex fields.now.tail.now) }
{
    Instr::Atomic {
        op,
        lock: fields.lock,
        width: fields.width(),
        reg: fields.reg(),
        mem: fields.mem(),
    }
}

#[tactic(auto, unfolding(crate::specs::Reading::row_0f_a))]
fn row_0f_a(fields: &Fields<'_>, opcode: u8) -> Instr
    ensures { result ≡ spec.row_0f_a fields.now.rex opcode fields.now.tail.now }
{
    match opcode {
        0xa2 => Instr::Plain { op: Plain::Cpuid },
        0xae => Instr::Plain { op: Plain::Mfence },
        _ => rm_reg(fields, RmReg::Imul),
    }
}

#[tactic(auto, unfolding(crate::specs::Reading::row_0f_b))]
fn row_0f_b(fields: &Fields<'_>, opcode: u8) -> Instr
    ensures { result ≡ spec.row_0f_b fields.now.lock fields.now.rex opcode fields.now.tail.now }
{
    match opcode {
        0xb1 => atomic(fields, Atomic::CompareExchange),
        0xb6 => extend(fields, Extend::ByteZero),
        0xb7 => extend(fields, Extend::WordZero),
        0xb8 => rm_reg(fields, RmReg::Popcnt),
        0xbc => rm_reg(fields, RmReg::Bsf),
        0xbd => rm_reg(fields, RmReg::Bsr),
        0xbe => extend(fields, Extend::ByteSign),
        _ => extend(fields, Extend::WordSign),
    }
}

#[tactic(auto, unfolding(crate::specs::Reading::row_0f_c))]
fn row_0f_c(fields: &Fields<'_>, opcode: u8) -> Instr
    ensures { result ≡ spec.row_0f_c fields.now.lock fields.now.rex opcode fields.now.tail.now }
{
    if opcode == 0xc1 {
        atomic(fields, Atomic::ExchangeAdd)
    } else {
        Instr::SwapBytes {
            width: fields.width(),
            reg: fields.opcode_reg(opcode),
        }
    }
}
