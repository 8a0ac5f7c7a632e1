ghost use Rattle.std.specs.Prelude.{◌≡◌, ◌≢◌, ℕ, List, [], ◌∷◌, ◌++◌, ◌^◌, ◌<◌, ◌≤◌, All, Err, IfOk, OnOk, Some, length, map};
ghost use Rattle.link_build.specs.declared.build.Build.{Build};
ghost use Rattle.link_build.specs.declared.link_no.LinkNo.{LinkNo};
ghost use Rattle.link_build.specs.declared.link_no.LinkNo.TheVariants as numbers;
ghost use Rattle.link_build.specs.Functions.{IsSound, seen};
ghost use Rattle.link_code.specs.declared.site.Site.{Site};
ghost use Rattle.link_code.specs.Code.{HaveDepths, IsCode, IsOfUnit};
ghost use Rattle.unit_listing.specs.Kit.{kit_of};
ghost use Rattle.link_flow.specs.Codes as codes_spec;
ghost use Rattle.link_flow.specs.Named.{IsNamed};
ghost use Rattle.link_flow.specs.Refusals as spec;

use crate::named::name_at;
use crate::symbols::{UnitSymbols, turn_to};
use asm_target::Target;
use goasm_base::Memory;
use link_build::{Func, LinkNo};
use link_code::{Code, PlaceNo, Site, place};
use link_names::Names;
use link_places::Addresses;
use link_plan::{TEXT_ADDRESS, growth_address};
use std::alloc::Global;

/// The instructions of the functions of a build at their addresses, each function at its place in the text, with what its symbols and
/// the routine that grows its stack have as addresses.
///
/// `N3` comes for the first function with an instruction that can't hold the address that it refers to, and tells the name that the
/// first such line refers to. `Memory` comes only for want of memory.
pub fn place_all<T: Target>(
    alloc: Global,
    names: &Names<'_>,
    addresses: &Addresses,
    funcs: &[Func<'_, '_, T::Instr>],
    at: &[u64],
) -> Result<Vec<Code<T::Instr>>, LinkNo>
    requires sound { let kit = kit_of T.instructions T.fits T.MACHINE T.QUANTUM T.SHAPE T.selection T.aiming T.entry T.check T.begins in
        (build : Build) × All (IsSound kit build) (map seen funcs.now) }
    requires near { All (λ place. place ≤ 2 ^ 24) at.now }
    requires as_many { length at.now ≡ length funcs.now }
    ensures placed { let kit = kit_of T.instructions T.fits T.MACHINE T.QUANTUM T.SHAPE T.selection T.aiming T.entry T.check T.begins in
        IfOk result (λ codes. codes_spec.AreCodes names.now addresses.now kit (map seen funcs.now) at.now codes.items) }
    ensures unplaced { let kit = kit_of T.instructions T.fits T.MACHINE T.QUANTUM T.SHAPE T.selection T.aiming T.entry T.check T.begins in
        (no : LinkNo) → result ≡ Err no → no ≢ numbers.Memory
        → spec.IsUnplaced kit names.now addresses.now (map seen funcs.now) at.now no }
{
    let mut symbols = UnitSymbols {
        unit: None,
        at: Vec::new(alloc),
    };
    let mut codes = Vec::new(alloc);
    for (number, func) in funcs.iter().enumerate() {
        let code = place_one::<T>(alloc, names, addresses, &mut symbols, func, at[number])?;
        push(&mut codes, code)?;
    }
    Ok(codes)
}

// The instructions of a function that stands at this place of the text. The addresses of its unit's symbols are found, unless they are
// those at hand.
fn place_one<T: Target>(
    alloc: Global,
    names: &Names<'_>,
    addresses: &Addresses,
    symbols: &mut UnitSymbols,
    func: &Func<'_, '_, T::Instr>,
    at: u64,
) -> Result<Code<T::Instr>, LinkNo>
    requires of_unit { let kit = kit_of T.instructions T.fits T.MACHINE T.QUANTUM T.SHAPE T.selection T.aiming T.entry T.check T.begins in
        IsOfUnit kit (length func.now.unit.now.symbols) func.now.part.now.laid }
    requires known { codes_spec.AreKnown names.now addresses.now symbols.old (seen func.now) }
    requires near { at ≤ 2 ^ 24 }
    ensures unit { IfOk result (λ _. symbols.new.unit ≡ Some func.now.number) }
    ensures found { IfOk result (λ _. symbols.new.at.items ≡ codes_spec.symbols_of names.now addresses.now (seen func.now)) }
    ensures code { let kit = kit_of T.instructions T.fits T.MACHINE T.QUANTUM T.SHAPE T.selection T.aiming T.entry T.check T.begins in
        IfOk result (codes_spec.IsCodeOf names.now addresses.now kit (seen func.now) at) }
    ensures far { let kit = kit_of T.instructions T.fits T.MACHINE T.QUANTUM T.SHAPE T.selection T.aiming T.entry T.check T.begins in
        (no : LinkNo) → result ≡ Err no → no ≢ numbers.Memory
        → (site : Site) × codes_spec.IsSiteOf names.now addresses.now (seen func.now) at site × spec.IsOutOfReach kit (seen func.now) site no }
{
    turn_to(alloc, symbols, names, addresses, func)?;
    let site = Site {
        entry: TEXT_ADDRESS + at,
        addresses: symbols.at.as_slice(),
        growth: growth_address(names, addresses, func.part.laid.flags),
    };
    place_func::<T>(alloc, func, &site)
}

// The instructions of a function that stands there.
fn place_func<T: Target>(
    alloc: Global,
    func: &Func<'_, '_, T::Instr>,
    site: &Site<'_>,
) -> Result<Code<T::Instr>, LinkNo>
    requires of_unit { let kit = kit_of T.instructions T.fits T.MACHINE T.QUANTUM T.SHAPE T.selection T.aiming T.entry T.check T.begins in
        IsOfUnit kit (length site.now.addresses.now) func.now.part.now.laid }
    requires low { site.now.entry < 2 ^ 63 }
    ensures code { let kit = kit_of T.instructions T.fits T.MACHINE T.QUANTUM T.SHAPE T.selection T.aiming T.entry T.check T.begins in
        IfOk result (λ code. IsCode kit site.now func.now.part.now.laid code.placed.items) }
    ensures depths { let kit = kit_of T.instructions T.fits T.MACHINE T.QUANTUM T.SHAPE T.selection T.aiming T.entry T.check T.begins in
        IfOk result (λ code. HaveDepths kit func.now.part.now.laid code.depths.items) }
    ensures far { let kit = kit_of T.instructions T.fits T.MACHINE T.QUANTUM T.SHAPE T.selection T.aiming T.entry T.check T.begins in
        (no : LinkNo) → result ≡ Err no → no ≢ numbers.Memory → spec.IsOutOfReach kit (seen func.now) site.now no }
{
    match place::<T>(alloc, &func.part.laid, site) {
        Ok(code) => Ok(code),
        Err(PlaceNo::Unreached(line)) => Err(out_of_reach(alloc, func, line)),
        Err(PlaceNo::Memory) => Err(LinkNo::Memory),
    }
}

// The refusal of a function whose line of this number can't hold the address that it refers to.
fn out_of_reach<I: Copy>(alloc: Global, func: &Func<'_, '_, I>, line: usize) -> LinkNo
    requires { line < length func.now.part.now.laid.body.code }
    ensures { result ≢ numbers.Memory → (name : List ℕ) × (result ≡ numbers.N3 name) × IsNamed (seen func.now) line name }
{
    match name_at(alloc, func, line) {
        Ok(name) => LinkNo::N3(name),
        Err(no) => LinkNo::from(no),
    }
}

fn push<X: Drop>(items: &mut Vec<X>, item: X) -> Result<(), Memory>
    ensures { OnOk result (items.new.items ≡ items.old.items ++ item ∷ []) }
{
    items.push(item)?;
    Ok(())
}
