ghost use Rattle.std.specs.Prelude.{◌≡◌, ◌≤◌, ℕ, Some, IfSome};
ghost use Rattle.asm_target.specs.Aiming as aim;
ghost use Rattle.amd64_table.specs.declared.instr.Instr.{Instr};
ghost use Rattle.amd64_code.specs.InstructionSet.{amd64, Fits};
ghost use Rattle.amd64_forms.specs.Aiming.{forms_of, short_of, long_of};
ghost use Rattle.amd64_select.specs.Aims as spec;

use crate::listed::Listed;
use amd64_code::end_of;
use amd64_forms::{aimed, distance, long_form, short_form};
use asm_target::{Few, Part};

/// The short form of a jump, for 0, or its long form; another instruction is as it is.
#[tactic(auto, unfolding(amd64_forms::specs::Aiming::forms_of))]
pub fn forms(instr: &Listed, form: u8) -> Few<Listed>
    ensures { result ≡ forms_of instr.now form }
{
    let mut code = Few::new();
    if form == 0 {
        code.push(short(instr));
    } else {
        code.push(long(instr));
    }
    code
}

/// The instruction with the address `goal` in place of its own, where it stands at `place`.
pub fn aim(instr: &Listed, part: Part, place: u64, goal: u64) -> Option<Listed>
    ensures found { IfSome result (λ aimed. aim.Aims amd64 Fits spec.aiming instr.now part place goal aimed) }
    ensures only { (aimed : Instr) → aim.Aims amd64 Fits spec.aiming instr.now part place goal aimed → result ≡ Some aimed }
{
    match part {
        Part::Whole => {
            let distance = distance(end_of(instr.instr(), place), goal);
            Listed::chosen(aimed(*instr.instr(), distance))
        }
        Part::High | Part::Low => None,
    }
}

#[tactic(auto, using(crate::specs::JumpLaws::fits_short))]
fn short(instr: &Listed) -> Listed
    ensures { result ≡ short_of instr.now }
{
    Listed::known(short_form(*instr.instr()))
}

#[tactic(auto, using(crate::specs::JumpLaws::fits_long))]
fn long(instr: &Listed) -> Listed
    ensures { result ≡ long_of instr.now }
{
    Listed::known(long_form(*instr.instr()))
}
