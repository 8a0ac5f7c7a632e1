ghost use Rattle.std.specs.Prelude.{◌≡◌, ◌^◌, ◌<◌, IfSome, None};
ghost use Rattle.machine_effect.specs.Numbers.{moved_by};
ghost use Rattle.branch_size.specs.Tables.{HasGoals};
ghost use Rattle.unit_listing.specs.Kit.{kit_of};
ghost use Rattle.link_code.specs.Code.{IsAimed, IsOnly};
ghost use Rattle.link_code.specs.Goals as goals;

use crate::site::Site;
use asm_target::{Refer, Target, To};
use unit_listing::{Laid, place_to, seen_from};

// So many bytes behind an address, or before it.
fn moved_by(address: u64, off: i64) -> u64
    ensures { result ≡ moved_by address off }
{
    address.wrapping_add_signed(off)
}

// The address that a reference leads to.
fn goal_of<T: Target>(laid: &Laid<T::Instr>, site: &Site<'_>, to: To) -> Option<u64>
    requires goals { HasGoals (T.check laid.now.body.frame) laid.now.body.code laid.now.goals }
    requires low { site.now.entry < 2 ^ 63 }
    ensures { let kit = kit_of T.instructions T.fits T.MACHINE T.QUANTUM T.SHAPE T.selection T.aiming T.entry T.check T.begins in
        result ≡ goals.goal_of kit site.now laid.now to }
{
    match to {
        To::Symbol(number, off) => {
            let address = *site.addresses.get(number as usize)?;
            Some(moved_by(address, off))
        }
        To::Grow => Some(site.growth),
        inside => {
            let place = place_to::<T>(laid, inside)?;
            Some(site.entry + place)
        }
    }
}

/// The instruction that stands for one of a line at the address `at`; `None` exactly where it can't hold the address that it refers
/// to. The line before begins at `back`.
pub fn aimed<T: Target>(
    laid: &Laid<T::Instr>,
    site: &Site<'_>,
    instr: &T::Instr,
    refer: Option<Refer>,
    back: u64,
    at: u64,
) -> Option<T::Instr>
    requires goals { HasGoals (T.check laid.now.body.frame) laid.now.body.code laid.now.goals }
    requires low { site.now.entry < 2 ^ 63 }
    ensures some { let kit = kit_of T.instructions T.fits T.MACHINE T.QUANTUM T.SHAPE T.selection T.aiming T.entry T.check T.begins in
        IfSome result (IsAimed kit (goals.goal_of kit site.now laid.now) refer back at instr.now) }
    ensures only { let kit = kit_of T.instructions T.fits T.MACHINE T.QUANTUM T.SHAPE T.selection T.aiming T.entry T.check T.begins in
        IfSome result (IsOnly kit (goals.goal_of kit site.now laid.now) refer back at instr.now) }
    ensures none { let kit = kit_of T.instructions T.fits T.MACHINE T.QUANTUM T.SHAPE T.selection T.aiming T.entry T.check T.begins in
        result ≡ None → (j : T.Instr) → ¬ IsAimed kit (goals.goal_of kit site.now laid.now) refer back at instr.now j }
{
    match refer {
        None => Some(*instr),
        Some(refer) => {
            let goal = goal_of::<T>(laid, site, refer.to)?;
            T::aim(instr, refer.part, seen_from(refer.part, back, at), goal)
        }
    }
}
