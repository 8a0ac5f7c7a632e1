ghost use Rattle.std.specs.Prelude.{◌≡◌, ◌≤◌, ℤ, FitsSigned, IfSome, Some};
ghost use Rattle.std.specs.Int.{w8, w16, w64};
ghost use Rattle.asm_target.specs.Aiming.{Aims};
ghost use Rattle.asm_target_linked.specs.Forms as spec;
ghost use Rattle.asm_target_linked.specs.Instr.{linked, Fits, goal_of};

use crate::instr::Instr;
use asm_target::{Few, Part};

/// The short form of an instruction, for 0, or its long form, for 1.
pub fn forms(instr: &Instr, form: u8) -> Few<Instr>
    requires { form ≤ 1 }
    ensures { result ≡ spec.forms_of instr.now form }
{
    let mut code = Few::new();
    match *instr {
        Instr::Near { held, distance } => {
            if form == 0 {
                code.push(*instr);
            } else {
                code.push(Instr::Near {
                    held: !held,
                    distance: 12,
                });
                code.push(Instr::Far {
                    call: false,
                    distance: i16::from(distance),
                });
            }
        }
        _ => code.push(*instr),
    }
    code
}

/// The instruction with this goal in place of its own.
pub fn aim(instr: &Instr, part: Part, place: u64, goal: u64) -> Option<Instr>
    ensures found { IfSome result (λ aimed. Aims linked Fits spec.aiming instr.now part place goal aimed) }
    ensures only { (aimed : Instr) → Aims linked Fits spec.aiming instr.now part place goal aimed → result ≡ Some aimed }
{
    let distance = distance(place, goal);
    match (part, *instr) {
        (Part::Whole, Instr::Near { held, .. }) => near(held, distance),
        (Part::Whole, Instr::Far { call, .. }) => far(call, distance),
        _ => None,
    }
}

// How far the goal lies from the place, modulo 2^64.
fn distance(place: u64, goal: u64) -> i64
    ensures reaches { goal_of place result ≡ goal }
    ensures sole { (d : ℤ) → FitsSigned w64 d → goal_of place d ≡ goal → result ≡ d }
{
    goal.wrapping_sub(place).cast_signed()
}

fn near(held: bool, distance: i64) -> Option<Instr>
    ensures found { IfSome result (λ i. (i ≡ Instr.Near held distance) × FitsSigned w8 distance) }
    ensures only { FitsSigned w8 distance → result ≡ Some (Instr.Near held distance) }
{
    match i8::try_from(distance) {
        Ok(distance) => Some(Instr::Near { held, distance }),
        Err(_) => None,
    }
}

fn far(call: bool, distance: i64) -> Option<Instr>
    ensures found { IfSome result (λ i. (i ≡ Instr.Far call distance) × FitsSigned w16 distance) }
    ensures only { FitsSigned w16 distance → result ≡ Some (Instr.Far call distance) }
{
    match i16::try_from(distance) {
        Ok(distance) => Some(Instr::Far { call, distance }),
        Err(_) => None,
    }
}
