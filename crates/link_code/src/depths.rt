ghost use Rattle.std.specs.Prelude.{◌≡◌, ◌++◌, ◌<◌, IfOk, OnOk, length, replicate};
ghost use Rattle.unit_listing.specs.Joined.{Appends};
ghost use Rattle.unit_listing.specs.Kit.{kit_of};
ghost use Rattle.unit_listing.specs.Laid.{IsTold};
ghost use Rattle.link_code.specs.Code as spec;

use asm_target::Target;
use goasm_base::Memory;
use std::alloc::Global;
use unit_listing::{Laid, form_at, line_at};

// Appends a depth so many times.
fn push_depth(depths: &mut Vec<u32>, depth: u32, count: usize) -> Result<(), Memory>
    ensures { OnOk result (depths.new.items ≡ depths.old.items ++ replicate count depth) }
{
    for _turn in 0..count {
        depths.push(depth)?;
    }
    Ok(())
}

// Appends the depths of a line's instructions.
fn push_depths<T: Target>(
    depths: &mut Vec<u32>,
    laid: &Laid<T::Instr>,
    number: usize,
) -> Result<(), Memory>
    requires told { let kit = kit_of T.instructions T.fits T.MACHINE T.QUANTUM T.SHAPE T.selection T.aiming T.entry T.check T.begins in IsTold kit laid.now }
    requires within { number < length laid.now.body.code }
    ensures { let kit = kit_of T.instructions T.fits T.MACHINE T.QUANTUM T.SHAPE T.selection T.aiming T.entry T.check T.begins in
        OnOk result (Appends (spec.HasDepth kit laid.now number) depths.old.items depths.new.items) }
{
    let line = line_at(laid, number);
    let form = T::forms(&line.instr, form_at(laid, number));
    push_depth(depths, line.depth, form.len())
}

/// The depths of a function's instructions: each line's, for each instruction of the form that it has.
pub fn list_depths<T: Target>(alloc: Global, laid: &Laid<T::Instr>) -> Result<Vec<u32>, Memory>
    requires { let kit = kit_of T.instructions T.fits T.MACHINE T.QUANTUM T.SHAPE T.selection T.aiming T.entry T.check T.begins in IsTold kit laid.now }
    ensures { let kit = kit_of T.instructions T.fits T.MACHINE T.QUANTUM T.SHAPE T.selection T.aiming T.entry T.check T.begins in
        IfOk result (λ depths. spec.HaveDepths kit laid.now depths.items) }
{
    let mut depths = Vec::new(alloc);
    for number in 0..laid.body.code.as_slice().len() {
        push_depths::<T>(&mut depths, laid, number)?;
    }
    Ok(depths)
}
