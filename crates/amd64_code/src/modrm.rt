//! ModRM, SIB and displacement of an operand, written and read.
ghost use Rattle.std.specs.Prelude.{◌≡◌, ◌<◌, ◌≤◌, ◌+◌, ◌++◌, ◌∷◌, [], length};
ghost use Rattle.arrayvec.specs.ArrayVec.{array_vec_len};
ghost use Rattle.amd64_code.specs.ModRm as spec;

use crate::constants::{byte_at, byte_in, is_byte, long_in, push_byte, push_long};
use crate::registers::reg_at;
use amd64_table::{Mem, Reg, Rm, Scale};
use asm_target::Spelled;
use goasm_base::behind_or_empty;

/// ModRM's field reg, or the index of SIB.
pub fn field_in(bytes: &[u8]) -> u8
    ensures field { result ≡ spec.field_in bytes.now }
    ensures below { result < 8 }
{
    byte_at(bytes, 0) / 8 % 8
}

/// ModRM's field rm, or the base of SIB.
pub fn low_in(bytes: &[u8]) -> u8
    ensures low { result ≡ spec.low_in bytes.now }
    ensures below { result < 8 }
{
    byte_at(bytes, 0) % 8
}

#[tactic(auto, unfolding(crate::specs::ModRm::disp_in))]
fn disp_in(mode: u8, bytes: &[u8]) -> i32
    ensures { result ≡ spec.disp_in mode bytes.now }
{
    match mode {
        0 => 0,
        1 => i32::from(byte_in(bytes)),
        _ => long_in(bytes),
    }
}

#[tactic(auto, unfolding(crate::specs::ModRm::scale_at))]
fn scale_at(bits: u8) -> Scale
    ensures { result ≡ spec.scale_at bits }
{
    match bits {
        0 => Scale::One,
        1 => Scale::Two,
        2 => Scale::Four,
        _ => Scale::Eight,
    }
}

#[tactic(auto, unfolding(crate::specs::ModRm::sib_in))]
fn sib_in(x: bool, b: bool, mode: u8, bytes: &[u8]) -> Mem
    ensures { result ≡ spec.sib_in x b mode bytes.now }
{
    let base = reg_at(b, low_in(bytes));
    let disp = disp_in(mode, behind_or_empty(bytes, 1));
    let index = field_in(bytes);
    if index == 4 && !x {
        Mem::Base { base, disp }
    } else {
        Mem::Indexed {
            base,
            index: reg_at(x, index),
            scale: scale_at(byte_at(bytes, 0) / 64 % 4),
            disp,
        }
    }
}

#[tactic(auto, unfolding(crate::specs::ModRm::mem_in))]
fn mem_in(x: bool, b: bool, bytes: &[u8]) -> Mem
    ensures { result ≡ spec.mem_in x b bytes.now }
{
    let mode = byte_at(bytes, 0) / 64;
    let low = low_in(bytes);
    let rest = behind_or_empty(bytes, 1);
    if mode == 0 && low == 5 {
        Mem::Symbol {
            distance: long_in(rest),
        }
    } else if low == 4 {
        sib_in(x, b, mode, rest)
    } else {
        Mem::Base {
            base: reg_at(b, low),
            disp: disp_in(mode, rest),
        }
    }
}

/// A register or a place in memory whose ModRM the bytes begin with, by REX's bits x and b.
#[tactic(auto, unfolding(crate::specs::ModRm::rm_in))]
pub fn rm_in(x: bool, b: bool, bytes: &[u8]) -> Rm
    ensures { result ≡ spec.rm_in x b bytes.now }
{
    if byte_at(bytes, 0) / 64 == 3 {
        Rm::Reg(reg_at(b, low_in(bytes)))
    } else {
        Rm::Mem(mem_in(x, b, bytes))
    }
}

/// How many bytes ModRM, SIB and displacement are.
#[tactic(auto, unfolding(crate::specs::ModRm::operand_size))]
pub fn operand_size(bytes: &[u8]) -> usize
    ensures { result ≡ spec.operand_size bytes.now }
{
    let mode = byte_at(bytes, 0) / 64;
    let low = low_in(bytes);
    if mode == 3 {
        1
    } else if mode == 0 && low == 5 {
        5
    } else {
        1 + usize::from(low == 4) + disp_size(mode)
    }
}

fn disp_size(mode: u8) -> usize
    ensures size { result ≡ spec.disp_size mode }
    ensures most { result ≤ 4 }
{
    match mode {
        0 => 0,
        1 => 1,
        _ => 4,
    }
}

/// The byte ModRM or SIB of its three fields.
pub fn fields(high: u8, middle: u8, low: u8) -> u8
    requires high { high < 4 }
    requires middle { middle < 8 }
    requires low { low < 8 }
    ensures { result ≡ spec.fields high middle low }
{
    64 * high + 8 * middle + low
}

// ModRM's field mod for a displacement: 0 where it is left out, 1 for one byte, 2 for four.
#[tactic(auto, unfolding(crate::specs::ModRm::mode_of))]
fn mode_of(base: Reg, disp: i32) -> u8
    ensures mode { result ≡ spec.mode_of base disp }
    ensures below { result < 3 }
{
    if disp == 0 && base.low() != 5 {
        0
    } else if is_byte(disp) {
        1
    } else {
        2
    }
}

#[tactic(auto, unfolding(crate::specs::ModRm::mode_of, crate::specs::ModRm::disp_bytes))]
fn push_disp(out: &mut Spelled, base: Reg, disp: i32)
    requires { array_vec_len out.old ≤ 11 }
    ensures bytes { out.new.items ≡ out.old.items ++ spec.disp_bytes (spec.mode_of base disp) disp }
    ensures most { array_vec_len out.new ≤ array_vec_len out.old + 4 }
{
    if disp == 0 && base.low() != 5 {
        return;
    }
    match i8::try_from(disp) {
        Ok(byte) => push_byte(out, byte),
        Err(_) => push_long(out, disp),
    }
}

fn scale_bits(scale: Scale) -> u8
    ensures bits { result ≡ spec.scale_bits scale }
    ensures below { result < 4 }
{
    match scale {
        Scale::One => 0,
        Scale::Two => 1,
        Scale::Four => 2,
        Scale::Eight => 3,
    }
}

fn push_bare_sib(out: &mut Spelled, base: Reg)
    requires { array_vec_len out.old < 15 }
    ensures bytes { out.new.items ≡ out.old.items ++ spec.bare_sib base }
    ensures most { array_vec_len out.new ≤ array_vec_len out.old + 1 }
{
    if base.low() == 4 {
        out.push(0x24);
    }
}

// `field` is what ModRM's field reg has.
#[tactic(auto, unfolding(crate::specs::ModRm::mem_bytes))]
fn push_mem(out: &mut Spelled, field: u8, mem: Mem)
    requires room { array_vec_len out.old ≤ 9 }
    requires field { field < 8 }
    ensures bytes { out.new.items ≡ out.old.items ++ spec.mem_bytes field mem }
    ensures most { array_vec_len out.new ≤ array_vec_len out.old + 6 }
{
    match mem {
        Mem::Base { base, disp } => {
            out.push(fields(mode_of(base, disp), field, base.low()));
            push_bare_sib(out, base);
            push_disp(out, base, disp);
        }
        Mem::Indexed {
            base,
            index,
            scale,
            disp,
        } => {
            out.push(fields(mode_of(base, disp), field, 4));
            out.push(fields(scale_bits(scale), index.low(), base.low()));
            push_disp(out, base, disp);
        }
        Mem::Symbol { distance } => {
            out.push(fields(0, field, 5));
            push_long(out, distance);
        }
    }
}

/// Appends ModRM, SIB and displacement of a register or a place in memory. `field` is what ModRM's field reg has.
#[tactic(auto, unfolding(crate::specs::ModRm::rm_bytes))]
pub fn push_rm(out: &mut Spelled, field: u8, rm: Rm)
    requires room { array_vec_len out.old ≤ 9 }
    requires field { field < 8 }
    ensures bytes { out.new.items ≡ out.old.items ++ spec.rm_bytes field rm }
    ensures most { array_vec_len out.new ≤ array_vec_len out.old + 6 }
{
    match rm {
        Rm::Reg(reg) => out.push(fields(3, field, reg.low())),
        Rm::Mem(mem) => push_mem(out, field, mem),
    }
}
