ghost use Rattle.std.specs.Prelude.{◌≡◌, ◌<◌, ◌%◌, ◌^◌, IfOk, IfErr, IsBitSet, bytes_eq};
ghost use Rattle.asm_target.specs.Frames as frames;
ghost use Rattle.asm_target.specs.Frames.{IsFrame, greatest_total};
ghost use Rattle.goasm_base.specs.Statements.{noframe};
ghost use Rattle.stack_split.specs.FrameSizes as spec;

use asm_target::{FrameShape, Target};
use goasm_base::{Function, Stmt};

/// The most bytes that a frame has: 1 MiB.
const GREATEST_TOTAL: u64 = 1_048_576;

/// The frame of a function. The error is the frame's size in bytes where that is above 1,048,576.
///
/// There is none, of 0 bytes, where the function is NOFRAME, or has no locals and either makes no call or, on amd64, is NOSPLIT.
/// Otherwise it has the locals and a word above them: for BP on amd64, and for the return address elsewhere. On arm64 its size
/// is rounded up to a multiple of 16.
pub fn frame_of<T: Target>(func: &Function) -> Result<FrameShape, u64>
    requires whole { func.now.locals % 8 ≡ 0 }
    requires frameless { IsBitSet func.now.flags noframe → func.now.locals ≡ 0 }
    ensures shape { IfOk result (λ frame. frame ≡ spec.frame_for T.MACHINE func.now) }
    ensures allowed { IfOk result (λ frame. IsFrame T.MACHINE frame) }
    ensures total { IfErr result (λ total. total ≡ spec.total_of T.MACHINE func.now) }
    ensures above { IfErr result (λ total. greatest_total < total) }
{
    if is_frameless(T::MACHINE, func) {
        return Ok(FrameShape {
            locals: func.locals,
            total: 0,
            saves_bp: false,
        });
    }
    let total = total_for(T::MACHINE, func.locals);
    if total > GREATEST_TOTAL {
        return Err(total);
    }
    Ok(FrameShape {
        locals: func.locals,
        total: total as u32,
        saves_bp: T::MACHINE == 62,
    })
}

/// Whether the function checks that the stack has room for this frame: it does unless it is NOSPLIT, or makes no call and
/// the frame has fewer than 128 bytes.
pub fn checked(func: &Function, frame: FrameShape) -> bool
    ensures { result ≡ spec.is_checked func.now frame }
{
    !is_nosplit(func) && (makes_call(func) || frame.total >= 128)
}

fn is_frameless(machine: u16, func: &Function) -> bool
    ensures { result ≡ spec.is_frameless machine func.now }
{
    is_noframe(func) || func.locals == 0 && (!makes_call(func) || machine == 62 && is_nosplit(func))
}

fn total_for(machine: u16, locals: u32) -> u64
    ensures { result ≡ frames.total_for machine locals }
{
    let needed = u64::from(locals) + 8;
    if machine == 183 {
        (needed + 15) / 16 * 16
    } else {
        needed
    }
}

fn is_noframe(func: &Function) -> bool
    ensures { result ≡ spec.is_noframe func.now }
{
    func.flags & 512 != 0
}

fn is_nosplit(func: &Function) -> bool
    ensures { result ≡ spec.is_nosplit func.now }
{
    func.flags & 4 != 0
}

fn makes_call(func: &Function) -> bool
    ensures { result ≡ spec.makes_call func.now }
{
    func.stmts.as_slice().iter().any(|stmt| is_call(stmt))
}

fn is_call(stmt: &Stmt) -> bool
    ensures { result ≡ spec.is_call stmt.now }
{
    stmt.suffix.is_none() && (is_named(stmt, b"CALL") || is_named(stmt, b"BL"))
}

fn is_named(stmt: &Stmt, name: &[u8]) -> bool
    ensures { result ≡ bytes_eq stmt.now.op name.now }
{
    stmt.op.as_slice() == name
}
