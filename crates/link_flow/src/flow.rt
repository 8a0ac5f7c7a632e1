ghost use Rattle.std.specs.Prelude.{◌≡◌, ◌^◌, ◌<◌, All, Err, OnOk, map};
ghost use Rattle.link_build.specs.declared.link_no.LinkNo.{LinkNo};
ghost use Rattle.link_build.specs.Functions.{seen};
ghost use Rattle.link_code.specs.Positions.{HasPos, IsNowhere};
ghost use Rattle.unit_listing.specs.Kit.{kit_of};
ghost use Rattle.link_flow.specs.Around.{IsOrdered};
ghost use Rattle.link_flow.specs.Codes.{AreCodesSomewhere, IsCodeSomewhere};
ghost use Rattle.link_flow.specs.Refusals as spec;

use crate::around::Around;
use asm_target::Target;
use flow_rules::flow_ok;
use goasm_base::Pos;
use link_build::{Func, LinkNo};
use link_code::{Code, pos_at};
use unit_listing::Laid;

/// Judges whether the functions of a build, which stand at their addresses, keep the flow rules F1 to F9.
///
/// `Flow` comes for the first function that breaks one, and tells its first breach, with where the instruction stands in the sources.
pub fn judge_flow<T: Target>(
    funcs: &[Func<'_, '_, T::Instr>],
    codes: &[Code<T::Instr>],
    around: &Around,
) -> Result<(), LinkNo>
    requires placed { let kit = kit_of T.instructions T.fits T.MACHINE T.QUANTUM T.SHAPE T.selection T.aiming T.entry T.check T.begins in
        AreCodesSomewhere kit (map seen funcs.now) codes.now }
    requires ordered { IsOrdered around.now }
    ensures kept { let kit = kit_of T.instructions T.fits T.MACHINE T.QUANTUM T.SHAPE T.selection T.aiming T.entry T.check T.begins in
        OnOk result (All (spec.KeepsRules kit around.now) codes.now) }
    ensures breach { let kit = kit_of T.instructions T.fits T.MACHINE T.QUANTUM T.SHAPE T.selection T.aiming T.entry T.check T.begins in
        (no : LinkNo) → result ≡ Err no
        → spec.IsFirst kit (spec.KeepsRules kit around.now) (spec.IsBreach kit around.now) (map seen funcs.now) codes.now no }
{
    for (number, code) in codes.iter().enumerate() {
        judge_func::<T>(&funcs[number], code, around)?;
    }
    Ok(())
}

// Judges whether a function keeps the flow rules.
fn judge_func<T: Target>(
    func: &Func<'_, '_, T::Instr>,
    code: &Code<T::Instr>,
    around: &Around,
) -> Result<(), LinkNo>
    requires placed { let kit = kit_of T.instructions T.fits T.MACHINE T.QUANTUM T.SHAPE T.selection T.aiming T.entry T.check T.begins in
        IsCodeSomewhere kit (seen func.now) code.now }
    requires ordered { IsOrdered around.now }
    ensures kept { let kit = kit_of T.instructions T.fits T.MACHINE T.QUANTUM T.SHAPE T.selection T.aiming T.entry T.check T.begins in
        OnOk result (spec.KeepsRules kit around.now code.now) }
    ensures breach { let kit = kit_of T.instructions T.fits T.MACHINE T.QUANTUM T.SHAPE T.selection T.aiming T.entry T.check T.begins in
        (no : LinkNo) → result ≡ Err no → spec.IsBreach kit around.now (seen func.now) code.now no }
{
    // So short a function ends below 2^64.
    let _length = length_of(&func.part.laid);
    let outside = around.outside();
    match flow_ok::<T>(code.placed.as_slice(), code.depths.as_slice(), &outside) {
        Ok(()) => Ok(()),
        Err(breach) => Err(LinkNo::Flow(pos_of::<T>(func, code, breach.at), breach)),
    }
}

// How many bytes a function has.
fn length_of<I>(laid: &Laid<I>) -> u32
    ensures same { result ≡ laid.now.sizes.length }
    ensures small { result < 2 ^ 32 }
{
    laid.sizes.length
}

// Where the instruction of a function that stands at this address stands in the sources.
fn pos_of<T: Target>(func: &Func<'_, '_, T::Instr>, code: &Code<T::Instr>, address: u64) -> Pos
    requires placed { let kit = kit_of T.instructions T.fits T.MACHINE T.QUANTUM T.SHAPE T.selection T.aiming T.entry T.check T.begins in
        IsCodeSomewhere kit (seen func.now) code.now }
    requires there { ¬ IsNowhere code.now.placed.items address }
    ensures { let kit = kit_of T.instructions T.fits T.MACHINE T.QUANTUM T.SHAPE T.selection T.aiming T.entry T.check T.begins in
        HasPos kit func.now.part.now.laid code.now.placed.items address result }
{
    pos_at::<T>(&func.part.laid, code.placed.as_slice(), address).unwrap()
}
