ghost use Rattle.std.specs.Prelude.{◌≡◌, ℤ, IsTrue};
ghost use Rattle.machine_effect.specs.declared.flow.SpMove.TheVariants.{By};
ghost use Rattle.machine_effect.specs.Flow.{flow_of};
ghost use Rattle.machine_effect.specs.Shapes.{amd64_shape, IsStackDistance};
ghost use Rattle.amd64_table.specs.Effects as effects;
ghost use Rattle.amd64_table.specs.Fits.{fits};
ghost use Rattle.amd64_table.specs.Flows.{move_of};

use crate::computation::{
    arithmetic_effect, atomic_effect, compare_const_effect, exchange_effect, mul_div_effect,
    rm_reg_effect, set_cc_effect, shift_effect, swap_bytes_effect, unary_effect, xor_wide_effect,
};
use crate::control::{indirect_effect, near_effect, plain_effect, short_effect, stack_effect};
use crate::forms::{loading, storing};
use crate::instr::Instr;
use crate::moves::{
    extend_effect, load_tls_effect, load_wide_effect, mem_reg_effect, move_cc_effect, place_of,
    reg_rm_effect, store_const_effect, store_low_effect, store_wide_effect,
};
use crate::reg::Reg;
use crate::values::{copy_of, reg_atom, signed_atom};
use machine_effect::{Atom, Effect};

/// What an instruction does that ends at `end`, the address just behind it. The return address that CALL pushes and RET
/// pops isn't in it: a machine's step adds that.
///
/// General registers have their numbers in spellings, and 16 is the base of thread-local storage. An L write of a
/// register clears its upper half. An address in the effect is `end` and a distance, modulo 2^64.
pub fn effect(instr: &Instr, end: u64) -> Effect
    ensures effect { result ≡ effects.effect_at instr.now end }

    // What that says of the stack pointer.
    ensures sp { IsTrue (fits instr.now) → (flow_of result amd64_shape).sp ≡ move_of instr.now }
    ensures near { IsTrue (fits instr.now) → (k : ℤ) → (flow_of result amd64_shape).sp ≡ By k → IsStackDistance k }
{
    effect_at(*instr, end)
}

#[tactic(auto, unfolding(crate::specs::Effects::effect_at))]
fn effect_at(instr: Instr, end: u64) -> Effect
    ensures { result ≡ effects.effect_at instr end }
{
    match instr {
        Instr::RegRm { op, width, reg, rm } => reg_rm_effect(op, width, reg, rm, end),
        Instr::ArithmeticReg {
            op,
            width,
            from,
            to,
            ..
        } => arithmetic_effect(op, width, reg_atom(from), to, end),
        Instr::MemReg {
            op,
            width,
            mem,
            reg,
        } => mem_reg_effect(op, width, mem, reg, end),
        Instr::ArithmeticConst {
            op,
            width,
            constant,
            to,
            ..
        } => arithmetic_effect(op, width, signed_atom(i64::from(constant)), to, end),
        Instr::CompareConst {
            width,
            rm,
            constant,
        } => compare_const_effect(width, rm, i64::from(constant), end),
        Instr::StoreLow { size, from, to } => store_low_effect(size, from, to, end),
        Instr::Extend { op, from, to } => extend_effect(op, from, to, end),
        Instr::LoadLong { constant, to } => {
            loading(to, copy_of(Atom::Const(u64::from(constant)), 32))
        }
        Instr::LoadQuad { constant, to } => loading(to, copy_of(signed_atom(constant), 64)),
        Instr::StoreConst {
            width,
            constant,
            to,
        } => store_const_effect(width, i64::from(constant), to, end),
        Instr::StoreByte { constant, to } => {
            storing(1, end, to, copy_of(signed_atom(i64::from(constant)), 8))
        }
        Instr::Lea { from, to } => loading(to, place_of(from, end)),
        Instr::Unary { op, width, rm, .. } => unary_effect(op, width, rm, end),
        Instr::MulDiv { op, width, rm } => mul_div_effect(op, width, rm, end),
        Instr::RmReg {
            op,
            width,
            from,
            to,
        } => rm_reg_effect(op, width, from, to, end),
        Instr::ShiftConst {
            op,
            width,
            count,
            rm,
        } => shift_effect(op, width, Atom::Const(u64::from(count)), rm, end),
        Instr::ShiftCx { op, width, rm } => shift_effect(op, width, reg_atom(Reg::Cx), rm, end),
        Instr::Stack { op, reg } => stack_effect(op, reg),
        Instr::Exchange { width, reg, mem } => exchange_effect(width, reg, mem, end),
        Instr::Atomic {
            op,
            width,
            reg,
            mem,
            ..
        } => atomic_effect(op, width, reg, mem, end),
        Instr::SetCc { code, to } => set_cc_effect(code, to, end),
        Instr::MoveCc {
            code,
            width,
            from,
            to,
        } => move_cc_effect(code, width, from, to, end),
        Instr::SwapBytes { width, reg } => swap_bytes_effect(width, reg),
        Instr::Short { code, distance } => short_effect(code, i64::from(distance), end),
        Instr::Near { op, distance } => near_effect(op, i64::from(distance), end),
        Instr::Indirect { op, rm } => indirect_effect(op, rm, end),
        Instr::LoadWide { from, to } => load_wide_effect(from, to, end),
        Instr::StoreWide { from, to } => store_wide_effect(from, to, end),
        Instr::XorWide { from, to } => xor_wide_effect(from, to),
        Instr::LoadTls { to } => load_tls_effect(to),
        Instr::Plain { op } => plain_effect(op),
    }
}
