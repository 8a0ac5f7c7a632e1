ghost use Rattle.std.specs.Prelude.{◌≡◌, ◌≢◌, ℕ, List, ◌<◌, All, Err, OnOk, length, map};
ghost use Rattle.goasm_base.specs.declared.statement.Function.{Function};
ghost use Rattle.link_build.specs.declared.link_no.LinkNo.{LinkNo};
ghost use Rattle.link_build.specs.declared.link_no.LinkNo.TheVariants as numbers;
ghost use Rattle.link_build.specs.Functions.{seen};
ghost use Rattle.link_code.specs.Positions.{IsOfLine, count_before};
ghost use Rattle.unit_listing.specs.Kit.{kit_of};
ghost use Rattle.unit_listing.specs.Laid.{IsLaid};
ghost use Rattle.link_flow.specs.Around.{IsOrdered};
ghost use Rattle.link_flow.specs.Codes.{AreCodesSomewhere, IsCodeSomewhere};
ghost use Rattle.link_flow.specs.Named.{IsNamed};
ghost use Rattle.link_flow.specs.Refusals as spec;

use crate::around::Around;
use crate::named::name_at;
use asm_target::Target;
use link_build::{Func, LinkNo};
use link_code::{Code, find_astray, line_of};
use std::alloc::Global;

/// Judges whether the functions of a build, which stand at their addresses, go directly only into the text or to names outside: by a
/// call, a jump or a conditional branch.
///
/// `N7` comes for the first function that goes elsewhere, and tells the name that its first such instruction refers to. `Memory` comes
/// only for want of memory.
pub fn judge_goals<T: Target>(
    alloc: Global,
    funcs: &[Func<'_, '_, T::Instr>],
    codes: &[Code<T::Instr>],
    around: &Around,
) -> Result<(), LinkNo>
    requires placed { let kit = kit_of T.instructions T.fits T.MACHINE T.QUANTUM T.SHAPE T.selection T.aiming T.entry T.check T.begins in
        AreCodesSomewhere kit (map seen funcs.now) codes.now }
    requires ordered { IsOrdered around.now }
    ensures kept { let kit = kit_of T.instructions T.fits T.MACHINE T.QUANTUM T.SHAPE T.selection T.aiming T.entry T.check T.begins in
        OnOk result (All (spec.KeepsGoals kit around.now) codes.now) }
    ensures astray { let kit = kit_of T.instructions T.fits T.MACHINE T.QUANTUM T.SHAPE T.selection T.aiming T.entry T.check T.begins in
        (no : LinkNo) → result ≡ Err no → no ≢ numbers.Memory
        → spec.IsFirst kit (spec.KeepsGoals kit around.now) (spec.IsAstray kit around.now) (map seen funcs.now) codes.now no }
{
    for (number, code) in codes.iter().enumerate() {
        judge_func::<T>(alloc, &funcs[number], code, around)?;
    }
    Ok(())
}

// Judges where a function goes.
fn judge_func<T: Target>(
    alloc: Global,
    func: &Func<'_, '_, T::Instr>,
    code: &Code<T::Instr>,
    around: &Around,
) -> Result<(), LinkNo>
    requires placed { let kit = kit_of T.instructions T.fits T.MACHINE T.QUANTUM T.SHAPE T.selection T.aiming T.entry T.check T.begins in
        IsCodeSomewhere kit (seen func.now) code.now }
    requires ordered { IsOrdered around.now }
    ensures kept { let kit = kit_of T.instructions T.fits T.MACHINE T.QUANTUM T.SHAPE T.selection T.aiming T.entry T.check T.begins in
        OnOk result (spec.KeepsGoals kit around.now code.now) }
    ensures astray { let kit = kit_of T.instructions T.fits T.MACHINE T.QUANTUM T.SHAPE T.selection T.aiming T.entry T.check T.begins in
        (no : LinkNo) → result ≡ Err no → no ≢ numbers.Memory → spec.IsAstray kit around.now (seen func.now) code.now no }
{
    let symbols = around.symbols.as_slice();
    match find_astray::<T>(code.placed.as_slice(), around.text, symbols) {
        Some(number) => Err(astray::<T>(alloc, func, number)),
        None => Ok(()),
    }
}

// The refusal of a function whose instruction of this number goes to an unknown address.
fn astray<T: Target>(alloc: Global, func: &Func<'_, '_, T::Instr>, number: usize) -> LinkNo
    requires laid { let kit = kit_of T.instructions T.fits T.MACHINE T.QUANTUM T.SHAPE T.selection T.aiming T.entry T.check T.begins in
        (function : Function) × IsLaid kit function func.now.part.now.laid }
    requires within { let kit = kit_of T.instructions T.fits T.MACHINE T.QUANTUM T.SHAPE T.selection T.aiming T.entry T.check T.begins in
        number < count_before kit func.now.part.now.laid (length func.now.part.now.laid.body.code) }
    ensures { let kit = kit_of T.instructions T.fits T.MACHINE T.QUANTUM T.SHAPE T.selection T.aiming T.entry T.check T.begins in
        result ≢ numbers.Memory → (line : ℕ) × IsOfLine kit func.now.part.now.laid number line
        × (name : List ℕ) × (result ≡ numbers.N7 name) × IsNamed (seen func.now) line name }
{
    let line = line_of::<T>(&func.part.laid, number).unwrap();
    match name_at(alloc, func, line) {
        Ok(name) => LinkNo::N7(name),
        Err(no) => LinkNo::from(no),
    }
}
