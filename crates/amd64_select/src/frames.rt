ghost use Rattle.std.specs.Prelude.{◌≡◌, ◌<◌, ◌≤◌, ◌-◌, suc, pos, ℤ, ◌-ℤ◌};
ghost use Rattle.asm_target.specs.Frames.{IsFrame};
ghost use Rattle.asm_target.specs.declared.refer.To.{To};
ghost use Rattle.amd64_table.specs.declared.instr.Instr.TheVariants as instr;
ghost use Rattle.amd64_table.specs.declared.memory.Mem.TheVariants.{Base};
ghost use Rattle.amd64_table.specs.declared.memory.Rm.TheVariants as rms;
ghost use Rattle.amd64_table.specs.declared.op.Arithmetic.TheVariants.{Add, Sub};
ghost use Rattle.amd64_table.specs.declared.op.MemReg.TheVariants as mem_reg;
ghost use Rattle.amd64_table.specs.declared.op.RegRm.TheVariants as reg_rm;
ghost use Rattle.amd64_table.specs.declared.reg.Reg.TheVariants.{Sp, Bp};
ghost use Rattle.amd64_table.specs.declared.width.Width.TheVariants.{Q};
ghost use Rattle.amd64_select.specs.Frames as spec;

use crate::listed::Listed;
use amd64_table::{Arithmetic, Cc, Instr, Mem, MemReg, Near, Reg, RegRm, Rm, Width};
use asm_target::{Few, FrameShape, Guard, Part, Picked, Refer, To};

/// The instructions by which a function enters its frame: `SUBQ $n, SP; MOVQ BP, l(SP); LEAQ l(SP), BP`, where n is the frame's
/// size and l that of its locals.
pub fn enter(frame: FrameShape) -> Few<Listed>
    requires { IsFrame 62 frame }
    ensures { result ≡ spec.entry_of frame }
{
    let mut code = Few::new();
    if frame.total > 0 {
        code.push(by_constant(Arithmetic::Sub, frame.total, Reg::Sp));
        code.push(save(frame));
        code.push(point(frame));
    }
    code
}

/// The instructions by which it leaves it: `MOVQ l(SP), BP; ADDQ $n, SP`.
pub fn leave(frame: FrameShape) -> Few<Listed>
    requires { IsFrame 62 frame }
    ensures { result ≡ spec.exit_of frame }
{
    let mut code = Few::new();
    if frame.total > 0 {
        code.push(restore(frame));
        code.push(release(frame));
    }
    code
}

// The place above the locals, where the caller's BP is saved.
fn saved_at(frame: FrameShape) -> Mem
    requires { IsFrame 62 frame }
    ensures { result ≡ Base Sp (pos frame.locals) }
{
    Mem::Base {
        base: Reg::Sp,
        disp: frame.locals as i32,
    }
}

// MOVQ BP, l(SP)
fn save(frame: FrameShape) -> Listed
    requires { IsFrame 62 frame }
    ensures { result ≡ instr.RegRm reg_rm.Mov Q Bp (rms.Mem (Base Sp (pos frame.locals))) }
{
    Listed::known(Instr::RegRm {
        op: RegRm::Mov,
        width: Width::Q,
        reg: Reg::Bp,
        rm: Rm::Mem(saved_at(frame)),
    })
}

// LEAQ l(SP), BP
fn point(frame: FrameShape) -> Listed
    requires { IsFrame 62 frame }
    ensures { result ≡ instr.Lea (Base Sp (pos frame.locals)) Bp }
{
    Listed::known(Instr::Lea {
        from: saved_at(frame),
        to: Reg::Bp,
    })
}

/// `MOVQ l(SP), BP` loads the caller's BP.
pub fn restore(frame: FrameShape) -> Listed
    requires { IsFrame 62 frame }
    ensures { result ≡ instr.MemReg mem_reg.Mov Q (Base Sp (pos frame.locals)) Bp }
{
    Listed::known(Instr::MemReg {
        op: MemReg::Mov,
        width: Width::Q,
        mem: saved_at(frame),
        reg: Reg::Bp,
    })
}

/// `ADDQ $n, SP` gives the frame's bytes back.
pub fn release(frame: FrameShape) -> Listed
    requires { IsFrame 62 frame }
    ensures { result ≡ spec.by_constant Add frame.total Sp }
{
    by_constant(Arithmetic::Add, frame.total, Reg::Sp)
}

/// `ADDQ $n, reg` and its kin.
#[tactic(auto, using(crate::specs::FrameLaws::small), unfolding(amd64_table::specs::Fits::fits, amd64_table::specs::Fits::fits_rm, amd64_table::specs::Fits::fits_mem, amd64_table::specs::Fits::fits_lock))]
pub fn by_constant(op: Arithmetic, n: u32, reg: Reg) -> Listed
    requires { n ≤ 1048576 }
    ensures { result ≡ spec.by_constant op n reg }
{
    Listed::known(Instr::ArithmeticConst {
        op,
        lock: false,
        width: Width::Q,
        constant: n as i32,
        to: Rm::Reg(reg),
    })
}
