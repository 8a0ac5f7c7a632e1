ghost use Rattle.std.specs.Prelude.{◌≡◌, ◌∷◌, [], ◌++◌, ℕ, ◌+◌, ◌^◌, ◌<◌, Err, IfOk, OnOk, length};
ghost use Rattle.asm_target.specs.Aiming.{bytes_of};
ghost use Rattle.branch_size.specs.Tables.{HasGoals};
ghost use Rattle.unit_listing.specs.Kit.{kit_of};
ghost use Rattle.link_code.specs.Code as spec;
ghost use Rattle.link_code.specs.Goals.{goal_of};
ghost use Rattle.link_code.specs.Placed.{AreAdded};
ghost use Rattle.link_code.specs.declared.place_no.PlaceNo.TheVariants.{Unreached};

use crate::aimed::aimed;
use crate::depths::list_depths;
use crate::place_no::PlaceNo;
use crate::site::Site;
use asm_target::{Few, Placed, Refer, Target};
use goasm_base::Memory;
use std::alloc::Global;
use unit_listing::{Laid, form_at, line_at, place_at, refer_in};

/// A function's instructions at their addresses.
#[derive(Drop)]
pub struct Code<I> {
    /// In their order.
    pub placed: Vec<Placed<I>>,
    /// By how many bytes the stack pointer lies below its value at the function's entry, before each of them.
    pub depths: Vec<u32>,
}

/// A line that is placed.
#[derive(Clone, Copy, Debug, PartialEq, Eq)]
struct Spot {
    /// Its number.
    number: usize,
    /// What it refers to.
    refer: Option<Refer>,
    /// The address of the line before it.
    back: u64,
    /// Its own address.
    at: u64,
}

// Appends an instruction.
fn push_instr<I: Copy>(
    placed: &mut Vec<Placed<I>>,
    at: u64,
    len: u8,
    instr: I,
) -> Result<(), Memory>
    ensures { OnOk result (placed.new.items ≡ placed.old.items ++ record { at = at; len = len; instr = instr } ∷ []) }
{
    placed.push(Placed { at, len, instr })?;
    Ok(())
}

// Appends the instructions of a line in this form.
fn push_form<T: Target>(
    placed: &mut Vec<Placed<T::Instr>>,
    laid: &Laid<T::Instr>,
    site: &Site<'_>,
    spot: &Spot,
    form: &Few<T::Instr>,
) -> Result<(), PlaceNo>
    requires goals { HasGoals (T.check laid.now.body.frame) laid.now.body.code laid.now.goals }
    requires low { site.now.entry < 2 ^ 63 }
    requires near { spot.now.at < 2 ^ 63 + 2 ^ 32 }
    ensures ok { let kit = kit_of T.instructions T.fits T.MACHINE T.QUANTUM T.SHAPE T.selection T.aiming T.entry T.check T.begins in
        OnOk result (AreAdded T.instructions T.fits (spec.AreParts kit (goal_of kit site.now laid.now) spot.now.refer spot.now.back spot.now.at form.now)
        spot.now.at (spot.now.at + bytes_of T.instructions form.now) placed.old.items placed.new.items) }
    ensures beyond { let kit = kit_of T.instructions T.fits T.MACHINE T.QUANTUM T.SHAPE T.selection T.aiming T.entry T.check T.begins in
        (number : ℕ) → result ≡ Err (Unreached number)
        → (number ≡ spot.now.number) × spec.IsBeyond kit (goal_of kit site.now laid.now) spot.now.refer spot.now.back spot.now.at form.now }
{
    let mut at = spot.at;
    for number in 0..form.len() {
        let instr = form.get(number);
        let refer = refer_in(form.len(), number, spot.refer);
        let len = T::spell(&instr).len() as u8;
        match aimed::<T>(laid, site, &instr, refer, spot.back, at) {
            Some(instr) => push_instr(placed, at, len, instr)?,
            None => return Err(PlaceNo::Unreached(spot.number)),
        }
        at += u64::from(len);
    }
    Ok(())
}

// Appends the instructions of the line of this number.
fn push_line<T: Target>(
    placed: &mut Vec<Placed<T::Instr>>,
    laid: &Laid<T::Instr>,
    site: &Site<'_>,
    number: usize,
) -> Result<(), PlaceNo>
    requires ready { let kit = kit_of T.instructions T.fits T.MACHINE T.QUANTUM T.SHAPE T.selection T.aiming T.entry T.check T.begins in spec.IsReady kit site.now laid.now }
    requires within { number < length laid.now.body.code }
    requires low { site.now.entry < 2 ^ 63 }
    ensures ok { let kit = kit_of T.instructions T.fits T.MACHINE T.QUANTUM T.SHAPE T.selection T.aiming T.entry T.check T.begins in
        OnOk result (AreAdded T.instructions T.fits (spec.IsLine kit site.now laid.now number)
        (spec.begins_at kit site.now laid.now number) (spec.begins_at kit site.now laid.now (number + 1)) placed.old.items placed.new.items) }
    ensures far { let kit = kit_of T.instructions T.fits T.MACHINE T.QUANTUM T.SHAPE T.selection T.aiming T.entry T.check T.begins in
        (k : ℕ) → result ≡ Err (Unreached k) → (k ≡ number) × spec.IsTooFar kit site.now laid.now number }
{
    let line = line_at(laid, number);
    let form = T::forms(&line.instr, form_at(laid, number));
    let spot = Spot {
        number,
        refer: line.refer,
        back: site.entry + place_at(laid, number.saturating_sub(1)),
        at: site.entry + place_at(laid, number),
    };
    push_form::<T>(placed, laid, site, &spot, &form)
}

// The instructions of the lines.
fn place_lines<T: Target>(
    alloc: Global,
    laid: &Laid<T::Instr>,
    site: &Site<'_>,
) -> Result<Vec<Placed<T::Instr>>, PlaceNo>
    requires ready { let kit = kit_of T.instructions T.fits T.MACHINE T.QUANTUM T.SHAPE T.selection T.aiming T.entry T.check T.begins in spec.IsReady kit site.now laid.now }
    requires low { site.now.entry < 2 ^ 63 }
    ensures code { let kit = kit_of T.instructions T.fits T.MACHINE T.QUANTUM T.SHAPE T.selection T.aiming T.entry T.check T.begins in
        IfOk result (λ placed. spec.IsCode kit site.now laid.now placed.items) }
    ensures unreached { let kit = kit_of T.instructions T.fits T.MACHINE T.QUANTUM T.SHAPE T.selection T.aiming T.entry T.check T.begins in
        (number : ℕ) → result ≡ Err (Unreached number) → spec.IsUnreached kit site.now laid.now number }
{
    let mut placed = Vec::new(alloc);
    for number in 0..laid.body.code.as_slice().len() {
        push_line::<T>(&mut placed, laid, site, number)?;
    }
    Ok(placed)
}

/// The instructions of a function at its address. Each stands behind the one before it, in the form that its line has, and the last one
/// of a line holds the address that the line refers to: of a symbol, with its offset, of the routine that grows the stack, or of a line
/// of the function. An address is a number modulo 2^64.
///
/// The function is one of a unit that has as many symbols as the site has addresses.
///
/// `Unreached` comes exactly where a line can't hold that address, and tells the first such line; `Memory` comes only for want of
/// memory.
pub fn place<T: Target>(
    alloc: Global,
    laid: &Laid<T::Instr>,
    site: &Site<'_>,
) -> Result<Code<T::Instr>, PlaceNo>
    requires laid { let kit = kit_of T.instructions T.fits T.MACHINE T.QUANTUM T.SHAPE T.selection T.aiming T.entry T.check T.begins in
        spec.IsOfUnit kit (length site.now.addresses.now) laid.now }
    requires low { site.now.entry < 2 ^ 63 }
    ensures code { let kit = kit_of T.instructions T.fits T.MACHINE T.QUANTUM T.SHAPE T.selection T.aiming T.entry T.check T.begins in
        IfOk result (λ code. spec.IsCode kit site.now laid.now code.placed.items) }
    ensures depths { let kit = kit_of T.instructions T.fits T.MACHINE T.QUANTUM T.SHAPE T.selection T.aiming T.entry T.check T.begins in
        IfOk result (λ code. spec.HaveDepths kit laid.now code.depths.items) }
    ensures as_many { IfOk result (λ code. length code.depths.items ≡ length code.placed.items) }
    ensures unreached { let kit = kit_of T.instructions T.fits T.MACHINE T.QUANTUM T.SHAPE T.selection T.aiming T.entry T.check T.begins in
        (number : ℕ) → result ≡ Err (Unreached number) → spec.IsUnreached kit site.now laid.now number }
{
    let placed = place_lines::<T>(alloc, laid, site)?;
    let depths = list_depths::<T>(alloc, laid)?;
    Ok(Code { placed, depths })
}
