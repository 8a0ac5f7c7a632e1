ghost use Rattle.std.specs.Prelude.{◌≡◌, ◌≢◌, ◌++◌, ℕ, All, Err, IfErr, IfOk, OnOk};
ghost use Rattle.goasm_base.specs.Statements.{IsValidFunction};
ghost use Rattle.asm_parse.specs.Placed.{UnitIn};
ghost use Rattle.asm_parse.specs.Valid.{IsValidUnit};
ghost use Rattle.unit_listing.specs.Joined.{Appends};
ghost use Rattle.unit_listing.specs.Kit.{kit_of};
ghost use Rattle.unit_listing.specs.Listing as spec;
ghost use Rattle.unit_listing.specs.declared.listing_no.ListingNo.TheVariants as numbers;

use crate::laid::lay;
use crate::lines::{push_lines, push_name};
use crate::listing_no::ListingNo;
use asm_parse::{Symbol, Unit};
use asm_target::Target;
use goasm_base::{Bytes, Function, Memory, Text};
use std::alloc::Global;

/// The listing of a build's units: for each of their functions, in their order, a line `TEXT NAME` and then a line
/// `OFFSET DEPTH LINE TEXT` for each of its instructions.
///
/// The numbers are decimal: the offset from the function's first instruction and the depth of the stack before the instruction,
/// both in bytes, and the line in the sources. What an instruction refers to inside its function is shown as its offset, as if the
/// function stood at address 0. An instruction that refers to a symbol is shown as if both stood at 0, with ` ; NAME+OFF` behind it.
///
/// A refusal is that of the first function that has one: `RW1` and `Select` as rewriting tells them, and of a function that is
/// rewritten `B1`. `Memory` comes only for want of memory.
pub fn listing<T: Target>(alloc: Global, units: &[Unit]) -> Result<Bytes, ListingNo>
    requires valid { All IsValidUnit units.now }
    ensures text { let kit = kit_of T.instructions T.fits T.MACHINE T.QUANTUM T.SHAPE T.selection T.aiming T.entry T.check T.begins in
        IfOk result (λ text. spec.IsText kit units.now text) }
    ensures refused { let kit = kit_of T.instructions T.fits T.MACHINE T.QUANTUM T.SHAPE T.selection T.aiming T.entry T.check T.begins in
        (no : ListingNo) → result ≡ Err no → no ≢ numbers.Memory → spec.IsFirstRefusal kit units.now no }
    ensures placed { (count : ℕ) → All (UnitIn count) units.now → IfErr result (spec.NoIn count) }
{
    let mut text = Text::new(alloc);
    push_units::<T>(alloc, &mut text, units)?;
    Ok(text.finish())
}

// Appends the text of the units.
fn push_units<T: Target>(alloc: Global, text: &mut Text, units: &[Unit]) -> Result<(), ListingNo>
    requires valid { All IsValidUnit units.now }
    ensures text { let kit = kit_of T.instructions T.fits T.MACHINE T.QUANTUM T.SHAPE T.selection T.aiming T.entry T.check T.begins in
        OnOk result (Appends (spec.IsText kit units.now) text.old text.new) }
    ensures refused { let kit = kit_of T.instructions T.fits T.MACHINE T.QUANTUM T.SHAPE T.selection T.aiming T.entry T.check T.begins in
        (no : ListingNo) → result ≡ Err no → no ≢ numbers.Memory → spec.IsFirstRefusal kit units.now no }
{
    for unit in units {
        push_unit::<T>(alloc, text, unit)?;
    }
    Ok(())
}

// Appends the text of a unit.
fn push_unit<T: Target>(alloc: Global, text: &mut Text, unit: &Unit) -> Result<(), ListingNo>
    requires { IsValidUnit unit.now }
    ensures text { let kit = kit_of T.instructions T.fits T.MACHINE T.QUANTUM T.SHAPE T.selection T.aiming T.entry T.check T.begins in
        OnOk result (Appends (spec.IsUnitText kit unit.now) text.old text.new) }
    ensures refused { let kit = kit_of T.instructions T.fits T.MACHINE T.QUANTUM T.SHAPE T.selection T.aiming T.entry T.check T.begins in
        (no : ListingNo) → result ≡ Err no → no ≢ numbers.Memory → spec.IsUnitRefused kit unit.now no }
{
    let functions = unit.functions.as_slice();
    for func in functions {
        push_function::<T>(alloc, text, unit.symbols.as_slice(), func)?;
    }
    Ok(())
}

// Appends the text of a function.
fn push_function<T: Target>(
    alloc: Global,
    text: &mut Text,
    symbols: &[Symbol],
    func: &Function,
) -> Result<(), ListingNo>
    requires { (count : ℕ) × IsValidFunction count func.now }
    ensures text { let kit = kit_of T.instructions T.fits T.MACHINE T.QUANTUM T.SHAPE T.selection T.aiming T.entry T.check T.begins in
        OnOk result (Appends (spec.IsFunctionText kit symbols.now func.now) text.old text.new) }
    ensures refused { let kit = kit_of T.instructions T.fits T.MACHINE T.QUANTUM T.SHAPE T.selection T.aiming T.entry T.check T.begins in
        (no : ListingNo) → result ≡ Err no → no ≢ numbers.Memory → spec.IsRefused kit func.now no }
{
    let laid = lay::<T>(alloc, func)?;
    push_header(text, symbols, func)?;
    push_lines::<T>(alloc, text, symbols, &laid)?;
    Ok(())
}

// Appends the line that names a function.
fn push_header(text: &mut Text, symbols: &[Symbol], func: &Function) -> Result<(), Memory>
    ensures { OnOk result (text.new ≡ text.old ++ spec.header symbols.now func.now) }
{
    text.push(b"TEXT ")?;
    push_name(text, symbols, func.sym)?;
    text.push(b"\n")
}
