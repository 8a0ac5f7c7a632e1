ghost use Rattle.std.specs.Prelude.{◌≡◌, ◌<◌, ℕ, List, All, [], ◌∷◌, true, false, length, None, Some, Err, IfOk, OnOk};
ghost use Rattle.std.specs.Option.{option_map};
ghost use Rattle.asm_parse.specs.Valid.{IsValidUnit};
ghost use Rattle.goasm_base.specs.Statements.{IsValidFunction};
ghost use Rattle.asm_parse.specs.Valid.{IsValidGlobal};
ghost use Rattle.link_names.specs.Definitions as spec;
ghost use Rattle.link_names.specs.Adding as adding;
ghost use Rattle.link_names.specs.declared.names_no.NamesNo.TheVariants.{N1};

use crate::definition::{Definition, Meaning};
use crate::names_no::NamesNo;
use asm_parse::{GlobalPart, Symbol, Unit};
use goasm_base::{Function, Memory, Name};
use indexmap::IndexMap;
use std::alloc::Global;
use std::marker::Model;

/// What the symbols of a build stand for. Contracts see it as the definitions that count, each with its symbol.
///
/// A symbol with `<>` is seen by its unit alone, and another unit may have one of that name.
#[derive(Drop)]
pub struct Names<'a> {
    // By the name, and the number of the unit that alone sees it.
    entries: IndexMap<(&'a [u8], Option<usize>), Definition>,
}

impl<'a> Model for Names<'a> {
    ghost use Rattle.std.specs.Prelude.{List, map};
    ghost use Rattle.link_names.specs.Adding.{entry_seen};
    ghost use Rattle.link_names.specs.Definitions.{Entry};

    ghost Value = { List Entry };

    ghost view = { λ n. map entry_seen n.entries.entries };
}

impl<'a> Names<'a> {
    /// The names of a build with these units and outside names, each of which has an address. Of two definitions with DUPOK the
    /// first counts.
    ///
    /// `N1` comes for the first definition that may not stand beside an earlier one, unit by unit: its `TEXT`s, then its
    /// `GLOBL`s; the outside names come last. `Memory` comes only for want of memory.
    pub fn new(
        alloc: Global,
        units: &'a [Unit],
        outside: &'a [(Name, u64)],
    ) -> Result<Self, NamesNo>
        requires valid { All IsValidUnit units.now }
        ensures allowed { IfOk result (λ _. spec.AreAllowed (spec.entries_of units.now outside.now)) }
        ensures means { IfOk result (λ names. spec.MeansAs names (spec.entries_of units.now outside.now)) }
        ensures twice { (name : List ℕ) → result ≡ Err (N1 name) → spec.IsFirstTwice (spec.entries_of units.now outside.now) name }
    {
        let mut names = Names::empty(alloc);
        names.add_units(alloc, units)?;
        names.add_outside(alloc, outside)?;
        Ok(names)
    }

    /// What a symbol of the unit of this number stands for.
    pub fn symbol(&self, unit: usize, symbol: &Symbol) -> Option<Meaning>
        ensures { result ≡ spec.meaning_in self.now (spec.key_of unit symbol.now) }
    {
        let definition = self.first(symbol.name.as_slice(), unit_of(unit, symbol))?;
        Some(definition.meaning)
    }

    /// What a name stands for that every unit sees.
    pub fn global(&self, name: &[u8]) -> Option<Meaning>
        ensures { result ≡ spec.meaning_in self.now (name.now, None) }
    {
        let definition = self.first(name, None)?;
        Some(definition.meaning)
    }

    // No names.
    fn empty(alloc: Global) -> Self
        ensures { result ≡ [] }
    {
        Names {
            entries: IndexMap::new(alloc),
        }
    }

    // The definition that counts of a symbol.
    fn first(&self, name: &[u8], unit: Option<usize>) -> Option<Definition>
        ensures { result ≡ adding.first_of self.now (name.now, unit) }
    {
        self.entries.get(&(name, unit)).copied()
    }

    // Adds a definition, and says whether it may stand beside the one that is kept.
    fn add(
        &mut self,
        name: &'a [u8],
        unit: Option<usize>,
        definition: Definition,
    ) -> Result<bool, Memory>
        ensures adds { OnOk result (self.new ≡ adding.with_entry self.old ((name.now, unit), definition)) }
        ensures allowed { IfOk result (λ allowed. allowed ≡ adding.is_allowed self.old ((name.now, unit), definition)) }
    {
        match self.first(name, unit) {
            Some(first) => Ok(first.dupok && definition.dupok),
            None => {
                self.entries.insert((name, unit), definition)?;
                Ok(true)
            }
        }
    }

    // Adds a definition.
    fn define(
        &mut self,
        alloc: Global,
        name: &'a [u8],
        unit: Option<usize>,
        definition: Definition,
    ) -> Result<(), NamesNo>
        ensures adds { OnOk result (adding.Adds self.old (((name.now, unit), definition) ∷ []) self.new) }
        ensures twice { (twice : List ℕ) → result ≡ Err (N1 twice) → adding.Breaks self.old (((name.now, unit), definition) ∷ []) twice }
    {
        if self.add(name, unit, definition)? {
            Ok(())
        } else {
            Err(twice(alloc, name))
        }
    }

    // Adds the definition of the symbol of this number, in the unit of this number.
    fn define_symbol(
        &mut self,
        alloc: Global,
        unit: usize,
        symbols: &'a [Symbol],
        sym: u32,
        definition: Definition,
    ) -> Result<(), NamesNo>
        requires { sym < length symbols.now }
        ensures adds { OnOk result (adding.Adds self.old ((spec.key_at unit symbols.now sym, definition) ∷ []) self.new) }
        ensures twice { (name : List ℕ) → result ≡ Err (N1 name) → adding.Breaks self.old ((spec.key_at unit symbols.now sym, definition) ∷ []) name }
    {
        let symbol = &symbols[sym as usize];
        self.define(
            alloc,
            symbol.name.as_slice(),
            unit_of(unit, symbol),
            definition,
        )
    }

    // Adds what a `TEXT` defines.
    fn add_function(
        &mut self,
        alloc: Global,
        unit: usize,
        symbols: &'a [Symbol],
        number: usize,
        function: &Function,
    ) -> Result<(), NamesNo>
        requires { IsValidFunction (length symbols.now) function.now }
        ensures adds { OnOk result (adding.Adds self.old (spec.function_entry unit symbols.now number function.now ∷ []) self.new) }
        ensures twice { (name : List ℕ) → result ≡ Err (N1 name) → adding.Breaks self.old (spec.function_entry unit symbols.now number function.now ∷ []) name }
    {
        let definition = Definition {
            dupok: has_dupok(function.flags),
            meaning: Meaning::Function { unit, number },
        };
        self.define_symbol(alloc, unit, symbols, function.sym, definition)
    }

    // Adds what a `GLOBL` defines.
    fn add_global(
        &mut self,
        alloc: Global,
        unit: usize,
        symbols: &'a [Symbol],
        number: usize,
        global: &GlobalPart,
    ) -> Result<(), NamesNo>
        requires { IsValidGlobal (length symbols.now) global.now }
        ensures adds { OnOk result (adding.Adds self.old (spec.value_entry unit symbols.now number global.now ∷ []) self.new) }
        ensures twice { (name : List ℕ) → result ≡ Err (N1 name) → adding.Breaks self.old (spec.value_entry unit symbols.now number global.now ∷ []) name }
    {
        let definition = Definition {
            dupok: has_dupok(global.flags),
            meaning: Meaning::Value { unit, number },
        };
        self.define_symbol(alloc, unit, symbols, global.sym, definition)
    }

    // Adds what the `TEXT`s of a unit define.
    fn add_functions(
        &mut self,
        alloc: Global,
        unit: usize,
        symbols: &'a [Symbol],
        functions: &[Function],
    ) -> Result<(), NamesNo>
        requires { All (IsValidFunction (length symbols.now)) functions.now }
        ensures adds { OnOk result (adding.Adds self.old (spec.function_entries unit symbols.now functions.now) self.new) }
        ensures twice { (name : List ℕ) → result ≡ Err (N1 name) → adding.Breaks self.old (spec.function_entries unit symbols.now functions.now) name }
    {
        for (number, function) in functions.iter().enumerate() {
            self.add_function(alloc, unit, symbols, number, function)?;
        }
        Ok(())
    }

    // Adds what the `GLOBL`s of a unit define.
    fn add_globals(
        &mut self,
        alloc: Global,
        unit: usize,
        symbols: &'a [Symbol],
        globals: &[GlobalPart],
    ) -> Result<(), NamesNo>
        requires { All (IsValidGlobal (length symbols.now)) globals.now }
        ensures adds { OnOk result (adding.Adds self.old (spec.value_entries unit symbols.now globals.now) self.new) }
        ensures twice { (name : List ℕ) → result ≡ Err (N1 name) → adding.Breaks self.old (spec.value_entries unit symbols.now globals.now) name }
    {
        for (number, global) in globals.iter().enumerate() {
            self.add_global(alloc, unit, symbols, number, global)?;
        }
        Ok(())
    }

    // Adds what a unit defines.
    fn add_unit(&mut self, alloc: Global, number: usize, unit: &'a Unit) -> Result<(), NamesNo>
        requires { IsValidUnit unit.now }
        ensures adds { OnOk result (adding.Adds self.old (spec.unit_entries number unit.now) self.new) }
        ensures twice { (name : List ℕ) → result ≡ Err (N1 name) → adding.Breaks self.old (spec.unit_entries number unit.now) name }
    {
        let symbols = unit.symbols.as_slice();
        self.add_functions(alloc, number, symbols, unit.functions.as_slice())?;
        self.add_globals(alloc, number, symbols, unit.globals.as_slice())?;
        Ok(())
    }

    // Adds what units define.
    fn add_units(&mut self, alloc: Global, units: &'a [Unit]) -> Result<(), NamesNo>
        requires { All IsValidUnit units.now }
        ensures adds { OnOk result (adding.Adds self.old (spec.each spec.unit_entries units.now) self.new) }
        ensures twice { (name : List ℕ) → result ≡ Err (N1 name) → adding.Breaks self.old (spec.each spec.unit_entries units.now) name }
    {
        for (number, unit) in units.iter().enumerate() {
            self.add_unit(alloc, number, unit)?;
        }
        Ok(())
    }

    // Adds an outside name.
    fn add_outside_name(
        &mut self,
        alloc: Global,
        number: usize,
        outside: &'a (Name, u64),
    ) -> Result<(), NamesNo>
        ensures adds { OnOk result (adding.Adds self.old (spec.outside_entry number outside.now ∷ []) self.new) }
        ensures twice { (name : List ℕ) → result ≡ Err (N1 name) → adding.Breaks self.old (spec.outside_entry number outside.now ∷ []) name }
    {
        let definition = Definition {
            dupok: false,
            meaning: Meaning::Outside(number),
        };
        self.define(alloc, outside.0.as_slice(), None, definition)
    }

    // Adds the outside names.
    fn add_outside(&mut self, alloc: Global, outside: &'a [(Name, u64)]) -> Result<(), NamesNo>
        ensures adds { OnOk result (adding.Adds self.old (spec.outside_entries outside.now) self.new) }
        ensures twice { (name : List ℕ) → result ≡ Err (N1 name) → adding.Breaks self.old (spec.outside_entries outside.now) name }
    {
        for (number, name) in outside.iter().enumerate() {
            self.add_outside_name(alloc, number, name)?;
        }
        Ok(())
    }
}

// The unit that alone sees a symbol of the unit of this number, if it's seen by one alone.
fn unit_of(unit: usize, symbol: &Symbol) -> Option<usize>
    ensures { (symbol.now.name, result) ≡ spec.key_of unit symbol.now }
{
    if symbol.fixed { Some(unit) } else { None }
}

// The refusal of a symbol that is defined twice.
fn twice(alloc: Global, name: &[u8]) -> NamesNo
    ensures { (twice : List ℕ) → result ≡ N1 twice → twice ≡ name.now }
{
    match Name::from_slice(alloc, name) {
        Ok(name) => NamesNo::N1(name),
        Err(no) => NamesNo::from(no),
    }
}

// Whether flags have DUPOK, as Go's `textflag.h` numbers it.
fn has_dupok(flags: u32) -> bool
    ensures { result ≡ spec.has_dupok flags }
{
    flags & 2 != 0
}
