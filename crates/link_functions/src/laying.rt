ghost use Rattle.std.specs.Prelude.{◌≡◌, ◌≢◌, ◌++◌, ◌∷◌, [], ℕ, All, length, Err, IfOk, OnOk};
ghost use Rattle.goasm_base.specs.Statements.{IsValidFunction};
ghost use Rattle.asm_parse.specs.Valid.{IsValidUnit};
ghost use Rattle.unit_listing.specs.Kit.{kit_of};
ghost use Rattle.unit_listing.specs.Listing.{IsRefused};
ghost use Rattle.unit_listing.specs.declared.listing_no.ListingNo.TheVariants as numbers;
ghost use Rattle.link_functions.specs.Kept as kept;
ghost use Rattle.link_functions.specs.Code as spec;

use crate::code::{Part, UnitCode};
use asm_parse::{Symbol, Unit};
use asm_target::Target;
use goasm_base::{Function, Memory};
use link_names::{Meaning, Names};
use std::alloc::Global;
use unit_listing::{Laid, ListingNo, lay};

/// The instructions of the functions of a build that count, by the build's names: those for which their own symbols stand. Of two
/// functions of one name, with DUPOK, the first counts.
///
/// A refusal is that of the first function that counts and has one, by units, as `lay` tells it. `Memory` comes only for want of
/// memory.
pub fn lay_all<'a, T: Target>(
    alloc: Global,
    units: &'a [Unit],
    names: &Names<'_>,
) -> Result<Vec<UnitCode<'a, T::Instr>>, ListingNo>
    requires valid { All IsValidUnit units.now }
    ensures laid { let kit = kit_of T.instructions T.fits T.MACHINE T.QUANTUM T.SHAPE T.selection T.aiming T.entry T.check T.begins in
        IfOk result (λ code. spec.AreLaid kit names.now units.now code.items) }
    ensures valid { IfOk result (λ code. All spec.IsValidCode code.items) }
    ensures within { IfOk result (λ code. All spec.IsUnitWithin code.items) }
    ensures refused { let kit = kit_of T.instructions T.fits T.MACHINE T.QUANTUM T.SHAPE T.selection T.aiming T.entry T.check T.begins in
        (no : ListingNo) → result ≡ Err no → no ≢ numbers.Memory → spec.IsFirstUnlaid kit (kept.kept_of names.now units.now) no }
{
    let mut code = Vec::new(alloc);
    for (number, unit) in units.iter().enumerate() {
        push_unit::<T>(alloc, names, number, unit, &mut code)?;
    }
    Ok(code)
}

// Adds the functions of a unit that count.
fn push_unit<'a, T: Target>(
    alloc: Global,
    names: &Names<'_>,
    number: usize,
    unit: &'a Unit,
    code: &mut Vec<UnitCode<'a, T::Instr>>,
) -> Result<(), ListingNo>
    requires { IsValidUnit unit.now }
    ensures laid { let kit = kit_of T.instructions T.fits T.MACHINE T.QUANTUM T.SHAPE T.selection T.aiming T.entry T.check T.begins in
        OnOk result (spec.AddsUnit kit names.now number unit.now code.old.items code.new.items) }
    ensures refused { let kit = kit_of T.instructions T.fits T.MACHINE T.QUANTUM T.SHAPE T.selection T.aiming T.entry T.check T.begins in
        (no : ListingNo) → result ≡ Err no → no ≢ numbers.Memory → spec.IsFirstUnlaid kit (kept.kept_in names.now number unit.now) no }
{
    let parts = lay_unit::<T>(alloc, names, number, unit)?;
    push(code, UnitCode { unit, parts })?;
    Ok(())
}

// The functions of a unit that count.
fn lay_unit<'a, T: Target>(
    alloc: Global,
    names: &Names<'_>,
    number: usize,
    unit: &'a Unit,
) -> Result<Vec<Part<'a, T::Instr>>, ListingNo>
    requires { IsValidUnit unit.now }
    ensures laid { let kit = kit_of T.instructions T.fits T.MACHINE T.QUANTUM T.SHAPE T.selection T.aiming T.entry T.check T.begins in
        IfOk result (λ parts. spec.HasParts kit (length unit.now.symbols) (kept.kept_in names.now number unit.now) parts.items) }
    ensures refused { let kit = kit_of T.instructions T.fits T.MACHINE T.QUANTUM T.SHAPE T.selection T.aiming T.entry T.check T.begins in
        (no : ListingNo) → result ≡ Err no → no ≢ numbers.Memory → spec.IsFirstUnlaid kit (kept.kept_in names.now number unit.now) no }
{
    lay_functions::<T>(
        alloc,
        names,
        number,
        unit.symbols.as_slice(),
        unit.functions.as_slice(),
    )
}

fn lay_functions<'a, T: Target>(
    alloc: Global,
    names: &Names<'_>,
    unit: usize,
    symbols: &[Symbol],
    functions: &'a [Function],
) -> Result<Vec<Part<'a, T::Instr>>, ListingNo>
    requires { All (IsValidFunction (length symbols.now)) functions.now }
    ensures laid { let kit = kit_of T.instructions T.fits T.MACHINE T.QUANTUM T.SHAPE T.selection T.aiming T.entry T.check T.begins in
        IfOk result (λ parts. spec.HasParts kit (length symbols.now) (kept.kept_among names.now unit symbols.now functions.now) parts.items) }
    ensures refused { let kit = kit_of T.instructions T.fits T.MACHINE T.QUANTUM T.SHAPE T.selection T.aiming T.entry T.check T.begins in
        (no : ListingNo) → result ≡ Err no → no ≢ numbers.Memory
        → spec.IsFirstUnlaid kit (kept.kept_among names.now unit symbols.now functions.now) no }
{
    let mut parts = Vec::new(alloc);
    for (number, function) in functions.iter().enumerate() {
        push_part::<T>(alloc, names, unit, symbols, number, function, &mut parts)?;
    }
    Ok(parts)
}

// Adds a function, where it counts.
fn push_part<'a, T: Target>(
    alloc: Global,
    names: &Names<'_>,
    unit: usize,
    symbols: &[Symbol],
    number: usize,
    function: &'a Function,
    parts: &mut Vec<Part<'a, T::Instr>>,
) -> Result<(), ListingNo>
    requires { IsValidFunction (length symbols.now) function.now }
    ensures adds { let kit = kit_of T.instructions T.fits T.MACHINE T.QUANTUM T.SHAPE T.selection T.aiming T.entry T.check T.begins in
        OnOk result (spec.Adds kit (length symbols.now) parts.old.items (kept.kept names.now unit symbols.now number function.now)
        parts.new.items) }
    ensures refused { let kit = kit_of T.instructions T.fits T.MACHINE T.QUANTUM T.SHAPE T.selection T.aiming T.entry T.check T.begins in
        (no : ListingNo) → result ≡ Err no → no ≢ numbers.Memory
        → spec.IsFirstUnlaid kit (kept.kept names.now unit symbols.now number function.now) no }
{
    if is_kept(names, unit, symbols, number, function) {
        let laid = lay_function::<T>(alloc, symbols, function)?;
        push(
            parts,
            Part {
                number,
                function,
                laid,
            },
        )?;
    }
    Ok(())
}

// The instructions of a function.
fn lay_function<T: Target>(
    alloc: Global,
    symbols: &[Symbol],
    function: &Function,
) -> Result<Laid<T::Instr>, ListingNo>
    requires { IsValidFunction (length symbols.now) function.now }
    ensures laid { let kit = kit_of T.instructions T.fits T.MACHINE T.QUANTUM T.SHAPE T.selection T.aiming T.entry T.check T.begins in
        IfOk result (λ laid. spec.IsSoundLaid kit (length symbols.now) function.now laid) }
    ensures refused { let kit = kit_of T.instructions T.fits T.MACHINE T.QUANTUM T.SHAPE T.selection T.aiming T.entry T.check T.begins in
        (no : ListingNo) → result ≡ Err no → no ≢ numbers.Memory → IsRefused kit function.now no }
{
    lay::<T>(alloc, function)
}

// Whether a function counts.
fn is_kept(
    names: &Names<'_>,
    unit: usize,
    symbols: &[Symbol],
    number: usize,
    function: &Function,
) -> bool
    requires { IsValidFunction (length symbols.now) function.now }
    ensures { result ≡ kept.is_kept names.now unit symbols.now number function.now }
{
    let symbol = &symbols[function.sym as usize];
    is_function_at(unit, number, names.symbol(unit, symbol))
}

// Whether something is the function of this number in this unit.
fn is_function_at(unit: usize, number: usize, meaning: Option<Meaning>) -> bool
    ensures { result ≡ kept.is_function_at unit number meaning }
{
    match meaning {
        Some(
            Meaning::Function {
                unit: other,
                number: at,
            },
        ) => other == unit && at == number,
        _ => false,
    }
}

fn push<X: Drop>(items: &mut Vec<X>, item: X) -> Result<(), Memory>
    ensures { OnOk result (items.new.items ≡ items.old.items ++ item ∷ []) }
{
    items.push(item)?;
    Ok(())
}
