ghost use Rattle.std.specs.Prelude.{◌≡◌, ℕ, List, All, [], length, None, Some, Err, IfOk, IfSome};
ghost use Rattle.std.specs.List.{slice_get};
ghost use Rattle.link_names.specs.Data.{undefined};
ghost use Rattle.link_names.specs.declared.symbol_no.SymbolNo.TheVariants.{N2};
ghost use Rattle.unit_listing.specs.Lines.{growth_name};
ghost use Rattle.link_functions.specs.Code.{IsGoalWithin, IsLineWithin, IsPartWithin, IsUnitWithin, IsValidCode};
ghost use Rattle.link_functions.specs.References as spec;

use crate::code::{Part, UnitCode};
use asm_parse::Symbol;
use asm_target::{Line, Refer, To};
use goasm_base::Name;
use link_names::{Names, SymbolNo, judge_addresses, judge_symbol};
use std::alloc::Global;

/// The flag NEEDCTXT of Go's `textflag.h`: the function has a context register.
const NEEDCTXT: u32 = 64;

/// Judges whether each symbol stands for something to which the units of a build refer, by the build's names: in instructions of the
/// functions that count, or in data. The routine that grows the stack is `runtime.morestack_noctxt`, or `runtime.morestack` where the
/// function has the flag NEEDCTXT; a function whose stack is checked refers to it.
///
/// `N2` comes for the first that does not, by units, in a unit by functions and their lines, and then by `DATA`. `Memory` comes only
/// for want of memory.
pub fn judge_references<I>(
    alloc: Global,
    names: &Names<'_>,
    code: &[UnitCode<'_, I>],
) -> Result<(), SymbolNo>
    requires valid { All IsValidCode code.now }
    requires within { All IsUnitWithin code.now }
    ensures defined { IfOk result (λ _. spec.all_undefined names.now code.now ≡ []) }
    ensures first { (name : List ℕ) → result ≡ Err (N2 name) → slice_get (spec.all_undefined names.now code.now) 0 ≡ Some name }
{
    for (number, unit) in code.iter().enumerate() {
        judge_unit(alloc, names, number, unit)?;
    }
    Ok(())
}

// Judges the functions and the data of a unit.
fn judge_unit<I>(
    alloc: Global,
    names: &Names<'_>,
    number: usize,
    code: &UnitCode<'_, I>,
) -> Result<(), SymbolNo>
    requires valid { IsValidCode code.now }
    requires within { IsUnitWithin code.now }
    ensures defined { IfOk result (λ _. spec.code_undefined names.now number code.now ≡ []) }
    ensures first { (name : List ℕ) → result ≡ Err (N2 name) → slice_get (spec.code_undefined names.now number code.now) 0 ≡ Some name }
{
    judge_functions(alloc, names, number, code)?;
    judge_addresses(alloc, names, number, code.unit)?;
    Ok(())
}

// Judges the functions of a unit.
fn judge_functions<I>(
    alloc: Global,
    names: &Names<'_>,
    number: usize,
    code: &UnitCode<'_, I>,
) -> Result<(), SymbolNo>
    requires { IsUnitWithin code.now }
    ensures defined { IfOk result (λ _. spec.parts_undefined names.now number code.now.unit.now.symbols code.now.parts.items ≡ []) }
    ensures first { (name : List ℕ) → result ≡ Err (N2 name)
        → slice_get (spec.parts_undefined names.now number code.now.unit.now.symbols code.now.parts.items) 0 ≡ Some name }
{
    judge_parts(
        alloc,
        names,
        number,
        code.unit.symbols.as_slice(),
        code.parts.as_slice(),
    )
}

fn judge_parts<I>(
    alloc: Global,
    names: &Names<'_>,
    unit: usize,
    symbols: &[Symbol],
    parts: &[Part<'_, I>],
) -> Result<(), SymbolNo>
    requires { All (IsPartWithin (length symbols.now)) parts.now }
    ensures defined { IfOk result (λ _. spec.parts_undefined names.now unit symbols.now parts.now ≡ []) }
    ensures first { (name : List ℕ) → result ≡ Err (N2 name) → slice_get (spec.parts_undefined names.now unit symbols.now parts.now) 0 ≡ Some name }
{
    for part in parts {
        judge_part(alloc, names, unit, symbols, part)?;
    }
    Ok(())
}

// Judges the lines of a function.
fn judge_part<I>(
    alloc: Global,
    names: &Names<'_>,
    unit: usize,
    symbols: &[Symbol],
    part: &Part<'_, I>,
) -> Result<(), SymbolNo>
    requires { IsPartWithin (length symbols.now) part.now }
    ensures defined { (number : ℕ) → IfOk result (λ _. spec.part_undefined names.now unit symbols.now number part.now ≡ []) }
    ensures first { (number : ℕ) (name : List ℕ) → result ≡ Err (N2 name) → slice_get (spec.part_undefined names.now unit symbols.now number part.now) 0 ≡ Some name }
{
    judge_lines(
        alloc,
        names,
        unit,
        symbols,
        part.laid.flags,
        part.laid.body.code.as_slice(),
    )
}

fn judge_lines<I>(
    alloc: Global,
    names: &Names<'_>,
    unit: usize,
    symbols: &[Symbol],
    flags: u32,
    lines: &[Line<I>],
) -> Result<(), SymbolNo>
    requires { All (IsLineWithin (length symbols.now)) lines.now }
    ensures defined { IfOk result (λ _. spec.lines_undefined names.now unit symbols.now flags lines.now ≡ []) }
    ensures first { (name : List ℕ) → result ≡ Err (N2 name) → slice_get (spec.lines_undefined names.now unit symbols.now flags lines.now) 0 ≡ Some name }
{
    for line in lines {
        judge_refer(alloc, names, unit, symbols, flags, line.refer)?;
    }
    Ok(())
}

// Judges what an instruction refers to, if anything.
fn judge_refer(
    alloc: Global,
    names: &Names<'_>,
    unit: usize,
    symbols: &[Symbol],
    flags: u32,
    refer: Option<Refer>,
) -> Result<(), SymbolNo>
    requires { IfSome refer (λ refer. IsGoalWithin (length symbols.now) refer.to) }
    ensures defined { IfOk result (λ _. spec.refer_undefined names.now unit symbols.now flags refer ≡ []) }
    ensures first { (name : List ℕ) → result ≡ Err (N2 name) → slice_get (spec.refer_undefined names.now unit symbols.now flags refer) 0 ≡ Some name }
{
    match refer {
        Some(
            Refer {
                to: To::Symbol(sym, _),
                ..
            },
        ) => judge_symbol(alloc, names, unit, symbols, sym),
        Some(Refer { to: To::Grow, .. }) => judge_growth(alloc, names, flags),
        _ => Ok(()),
    }
}

// Judges the routine that grows the stack of a function with these flags.
fn judge_growth(alloc: Global, names: &Names<'_>, flags: u32) -> Result<(), SymbolNo>
    ensures defined { IfOk result (λ _. undefined names.now (growth_name flags, None) ≡ []) }
    ensures first { (name : List ℕ) → result ≡ Err (N2 name) → slice_get (undefined names.now (growth_name flags, None)) 0 ≡ Some name }
{
    let name = growth_of(flags);
    if names.global(name).is_some() {
        Ok(())
    } else {
        Err(SymbolNo::N2(Name::from_slice(alloc, name)?))
    }
}

/// The name of the routine that grows the stack of a function with these flags: `runtime.morestack_noctxt`, or `runtime.morestack`
/// where the function has the flag NEEDCTXT.
pub fn growth_of(flags: u32) -> &'static [u8]
    ensures { result.now ≡ growth_name flags }
{
    if flags & NEEDCTXT == 0 {
        b"runtime.morestack_noctxt"
    } else {
        b"runtime.morestack"
    }
}
