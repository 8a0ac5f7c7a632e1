ghost use Rattle.std.specs.Prelude.{◌≡◌, ◌<◌, ◌≤◌, ◌+◌, ◌-◌, length, [], ◌∷◌, ◌++◌};
ghost use Rattle.asm_target.specs.Frames.{IsFrame};
ghost use Rattle.amd64_code.specs.InstructionSet.{Fits};
ghost use Rattle.amd64_select.specs.Frames as spec;

use crate::frames::by_constant;
use crate::listed::Listed;
use amd64_table::{Arithmetic, Cc, Instr, Mem, MemReg, Near, Reg, RegRm, Rm, Width};
use asm_target::{Few, FrameShape, Guard, Part, Picked, Refer, To};

/// The check whether the stack has room for a frame, and the block that has it grow, which ends the function.
pub fn guard(frame: FrameShape) -> Guard<Listed>
    requires { IsFrame 62 frame }
    ensures { result ≡ spec.check_of frame }
{
    Guard {
        head: head(frame.total),
        block: block(),
        in_place: false,
    }
}

// A function may use 128 bytes below the stack's lowest address that its goroutine's record tells, 16 behind the record's start.
fn head(total: u32) -> Few<Picked<Listed>>
    requires { total ≤ 1048576 }
    ensures { result ≡ spec.checked total (total - 128) }
{
    if total <= 128 {
        let mut code = loaded();
        compare(&mut code, Reg::Sp);
        code
    } else if total <= 4096 {
        page_head(total - 128)
    } else {
        large_head(total - 128)
    }
}

// LEAQ -k(SP), AX
#[tactic(auto, unfolding(amd64_table::specs::Fits::fits, amd64_table::specs::Fits::fits_rm, amd64_table::specs::Fits::fits_mem, amd64_table::specs::Fits::fits_lock))]
fn page_head(k: u32) -> Few<Picked<Listed>>
    requires { k ≤ 1048576 }
    ensures { result ≡ spec.page_checked k }
{
    let mut code = loaded();
    code.push(simple(Instr::Lea {
        from: Mem::Base {
            base: Reg::Sp,
            disp: 0 - k as i32,
        },
        to: Reg::Ax,
    }));
    compare(&mut code, Reg::Ax);
    code
}

// MOVQ SP, AX; SUBQ $k, AX; JCS block
#[tactic(auto, unfolding(amd64_table::specs::Fits::fits, amd64_table::specs::Fits::fits_rm, amd64_table::specs::Fits::fits_mem, amd64_table::specs::Fits::fits_lock))]
fn large_head(k: u32) -> Few<Picked<Listed>>
    requires { k ≤ 1048576 }
    ensures { result ≡ spec.large_checked k }
{
    let mut code = loaded();
    code.push(simple(Instr::RegRm {
        op: RegRm::Mov,
        width: Width::Q,
        reg: Reg::Sp,
        rm: Rm::Reg(Reg::Ax),
    }));
    code.push(Picked {
        instr: by_constant(Arithmetic::Sub, k, Reg::Ax),
        refer: None,
    });
    code.push(going(Near::If(Cc::Carry), To::Block));
    compare(&mut code, Reg::Ax);
    code
}

// MOVQ (TLS), CX
#[tactic(auto, unfolding(amd64_table::specs::Fits::fits, amd64_table::specs::Fits::fits_rm, amd64_table::specs::Fits::fits_mem, amd64_table::specs::Fits::fits_lock))]
fn loaded() -> Few<Picked<Listed>>
    ensures { result ≡ spec.load_g ∷ [] }
{
    let mut code = Few::new();
    code.push(simple(Instr::LoadTls { to: Reg::Cx }));
    code
}

// CMPQ reg, 16(CX); JLS block
#[tactic(auto, unfolding(amd64_table::specs::Fits::fits, amd64_table::specs::Fits::fits_rm, amd64_table::specs::Fits::fits_mem, amd64_table::specs::Fits::fits_lock))]
fn compare(code: &mut Few<Picked<Listed>>, reg: Reg)
    requires { length code.old < 13 }
    ensures { code.new ≡ code.old ++ spec.compared reg }
{
    code.push(simple(Instr::MemReg {
        op: MemReg::Cmp,
        width: Width::Q,
        mem: Mem::Base {
            base: Reg::Cx,
            disp: 16,
        },
        reg,
    }));
    code.push(going(Near::If(Cc::CarryOrZero), To::Block));
}

// CALL growth; JMP entry
fn block() -> Few<Picked<Listed>>
    ensures { result ≡ spec.growing }
{
    let mut code = Few::new();
    code.push(going(Near::Call, To::Grow));
    code.push(going(Near::Jmp, To::Entry));
    code
}

// An instruction that refers to nothing.
fn simple(instr: Instr) -> Picked<Listed>
    requires { Fits instr }
    ensures { result ≡ spec.simple instr }
{
    Picked {
        instr: Listed::known(instr),
        refer: None,
    }
}

// A jump or a call.
#[tactic(auto, unfolding(amd64_table::specs::Fits::fits, amd64_table::specs::Fits::fits_rm, amd64_table::specs::Fits::fits_mem, amd64_table::specs::Fits::fits_lock))]
fn going(op: Near, to: To) -> Picked<Listed>
    ensures { result ≡ spec.going op to }
{
    Picked {
        instr: Listed::known(Instr::Near { op, distance: 0 }),
        refer: Some(Refer {
            to,
            part: Part::Whole,
        }),
    }
}
