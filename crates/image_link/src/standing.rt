ghost use Rattle.std.specs.Prelude.{◌≡◌, ◌≢◌, All, map, length, Err, IfOk, OnOk};
ghost use Rattle.link_build.specs.Functions.{functions_in, seen};
ghost use Rattle.link_build.specs.Resolved.{IsValidBuild};
ghost use Rattle.link_build.specs.declared.link_no.LinkNo.{LinkNo};
ghost use Rattle.link_build.specs.declared.link_no.LinkNo.TheVariants as numbers;
ghost use Rattle.link_flow.specs.Around.{IsOrdered};
ghost use Rattle.link_flow.specs.Codes.{AreCodesSomewhere};
ghost use Rattle.link_flow.specs.Refusals.{KeepsGoals, KeepsRules};
ghost use Rattle.link_plan.specs.Plan.{text_size};
ghost use Rattle.link_text.specs.Text.{image_text};
ghost use Rattle.unit_listing.specs.Kit.{kit_of};
ghost use Rattle.image_link.specs.Linked.{IsFit, IsPlaced};
ghost use Rattle.image_link.specs.Refusals.{IsFirstRefusal, IsUnkept};

use asm_target::Target;
use goasm_base::Bytes;
use link_build::{Build, Func, LinkNo, functions_are_sound};
use link_code::Code;
use link_flow::{Around, judge_flow, judge_goals, place_all, surround};
use link_functions::UnitCode;
use link_names::Names;
use link_parts::Fitted;
use link_text::{functions_stand, text_of};
use std::alloc::Global;

/// The functions of an image at their addresses.
#[derive(Drop)]
pub struct Standing<I> {
    /// The instructions of each.
    pub codes: Vec<Code<I>>,
    /// Their bytes, one function behind the other.
    pub text: Bytes,
    /// What surrounds each of them.
    pub around: Around,
}

/// The functions of a build at the addresses that are planned for them.
///
/// `N3` comes for the first that can't stand there. `Memory` comes only for want of memory.
pub fn stand<T: Target>(
    alloc: Global,
    build: &Build,
    names: &Names<'_>,
    code: &[UnitCode<'_, T::Instr>],
    funcs: &[Func<'_, '_, T::Instr>],
    fitted: &Fitted,
) -> Result<Standing<T::Instr>, LinkNo>
    requires valid { IsValidBuild build.now }
    requires fit { let kit = kit_of T.instructions T.fits T.MACHINE T.QUANTUM T.SHAPE T.selection T.aiming T.entry T.check T.begins in
        IsFit kit build.now names.now code.now fitted.now }
    requires functions { map seen funcs.now ≡ functions_in code.now }
    ensures placed { let kit = kit_of T.instructions T.fits T.MACHINE T.QUANTUM T.SHAPE T.selection T.aiming T.entry T.check T.begins in
        IfOk result (λ standing. IsPlaced kit build.now names.now code.now fitted.now standing.codes.items standing.around) }
    ensures text { let kit = kit_of T.instructions T.fits T.MACHINE T.QUANTUM T.SHAPE T.selection T.aiming T.entry T.check T.begins in
        IfOk result (λ standing. standing.text ≡ image_text kit T.GROWTH standing.codes.items) }
    ensures long { IfOk result (λ standing. length standing.text ≡ text_size code.now) }
    ensures refused { let kit = kit_of T.instructions T.fits T.MACHINE T.QUANTUM T.SHAPE T.selection T.aiming T.entry T.check T.begins in
        (no : LinkNo) → result ≡ Err no → no ≢ numbers.Memory → IsFirstRefusal kit build.now no }
{
    functions_are_sound::<T>();
    functions_stand::<T>();
    let at = fitted.plan.functions.at.as_slice();
    let codes = place_all::<T>(alloc, names, &fitted.addresses, funcs, at)?;
    let text = text_of::<T>(alloc, codes.as_slice())?;
    let text_len = text.as_slice().len() as u64;
    let around = surround(alloc, at, text_len, build.outside.as_slice())?;
    Ok(Standing {
        codes,
        text,
        around,
    })
}

/// Judges whether the functions of a build may stand where they do: first where each of them goes, then whether each keeps the flow
/// rules.
///
/// `N7` comes for the first that goes to an unknown address, and `Flow` for the first that breaks a rule. `Memory` comes only for want
/// of memory.
pub fn judge<T: Target>(
    alloc: Global,
    funcs: &[Func<'_, '_, T::Instr>],
    standing: &Standing<T::Instr>,
) -> Result<(), LinkNo>
    requires placed { let kit = kit_of T.instructions T.fits T.MACHINE T.QUANTUM T.SHAPE T.selection T.aiming T.entry T.check T.begins in
        AreCodesSomewhere kit (map seen funcs.now) standing.now.codes.items }
    requires ordered { IsOrdered standing.now.around }
    ensures goals { let kit = kit_of T.instructions T.fits T.MACHINE T.QUANTUM T.SHAPE T.selection T.aiming T.entry T.check T.begins in
        OnOk result (All (KeepsGoals kit standing.now.around) standing.now.codes.items) }
    ensures flow { let kit = kit_of T.instructions T.fits T.MACHINE T.QUANTUM T.SHAPE T.selection T.aiming T.entry T.check T.begins in
        OnOk result (All (KeepsRules kit standing.now.around) standing.now.codes.items) }
    ensures refused { let kit = kit_of T.instructions T.fits T.MACHINE T.QUANTUM T.SHAPE T.selection T.aiming T.entry T.check T.begins in
        (no : LinkNo) → result ≡ Err no → no ≢ numbers.Memory
        → IsUnkept kit standing.now.around (map seen funcs.now) standing.now.codes.items no }
{
    let codes = standing.codes.as_slice();
    judge_goals::<T>(alloc, funcs, codes, &standing.around)?;
    judge_flow::<T>(funcs, codes, &standing.around)
}
