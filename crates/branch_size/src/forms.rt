ghost use Rattle.std.specs.Prelude.{◌≡◌, ◌↔◌, ◌*◌, ◌^◌, ◌<◌, ◌≤◌, IsTrue, length};
ghost use Rattle.asm_target.specs.Aiming.{bytes_of};
ghost use Rattle.branch_size.specs.Rows.{Reaches};

use asm_target::{Few, Part, Target};

/// How many bytes the instructions have.
pub fn form_len<T: Target>(form: &Few<T::Instr>) -> u32
    ensures { result ≡ bytes_of T.instructions form.now }
{
    let mut len: u32 = 0;
    for index in 0..form.len() {
        len += T::spell(&form.get(index)).len() as u32;
    }
    len
}

/// Whether a form of an instruction, at this place, can be aimed at that goal: its last instruction holds it.
pub fn form_reaches<T: Target>(form: &Few<T::Instr>, place: u64, goal: u64) -> bool
    requires { place < 2 ^ 32 }
    ensures { IsTrue result ↔ Reaches T.instructions T.fits T.aiming form.now place goal }
{
    let mut at = place;
    for index in 0..form.len() {
        let instr = form.get(index);
        if index + 1 == form.len() {
            return T::aim(&instr, Part::Whole, at, goal).is_some();
        }
        at += T::spell(&instr).len() as u64;
    }
    false
}
