ghost use Rattle.std.specs.Prelude.{◌≡◌, [], ◌∷◌, ◌++◌, Some, None, is_some, OnOk, OnErr};
ghost use Rattle.link_names.specs.Definitions.{key_of as symbol_key, meaning_in};
ghost use Rattle.link_places.specs.Addresses.{address_in, TellsAs};

use crate::key::{Key, key_of};
use asm_parse::Symbol;
use goasm_base::Memory;
use indexmap::IndexMap;
use link_names::{Meaning, Names};
use std::alloc::Global;
use std::marker::Model;

/// The addresses of what symbols stand for. Contracts see them as pairs of a meaning and its address; the first pair of a meaning
/// counts.
#[derive(Drop)]
pub struct Addresses {
    entries: IndexMap<Key, u64>,
}

impl Model for Addresses {
    ghost use Rattle.std.specs.Prelude.{ℕ, List, map};
    ghost use Rattle.link_names.specs.declared.definition.Meaning.{Meaning};
    ghost use Rattle.link_places.specs.Keys.{entry_seen};

    ghost Value = { List (Meaning × ℕ) };

    ghost view = { λ a. map entry_seen a.entries.entries };
}

impl Addresses {
    /// No addresses. It takes no memory.
    pub fn new(alloc: Global) -> Self
        ensures { result ≡ [] }
    {
        Addresses {
            entries: IndexMap::new(alloc),
        }
    }

    /// Tells the address of a meaning; one that was told before stays. Without memory nothing has changed.
    pub fn insert(&mut self, meaning: Meaning, address: u64) -> Result<(), Memory>
        ensures adds { OnOk result (TellsAs self.new (self.old ++ (meaning, address) ∷ [])) }
        ensures err { OnErr result (self.new ≡ self.old) }
    {
        if !self.has(meaning) {
            self.entries.insert(key_of(meaning), address)?;
        }
        Ok(())
    }

    // Whether the address of a meaning was told.
    fn has(&self, meaning: Meaning) -> bool
        ensures { result ≡ is_some (address_in self.now (Some meaning)) }
    {
        self.of_meaning(meaning).is_some()
    }

    /// The address of a meaning, where it was told.
    pub fn of_meaning(&self, meaning: Meaning) -> Option<u64>
        ensures { result ≡ address_in self.now (Some meaning) }
    {
        self.entries.get(&key_of(meaning)).copied()
    }

    /// The address of what a symbol of the unit of this number stands for, by the names of its build.
    pub fn of_symbol(&self, names: &Names<'_>, unit: usize, symbol: &Symbol) -> Option<u64>
        ensures { result ≡ address_in self.now (meaning_in names.now (symbol_key unit symbol.now)) }
    {
        self.of_meaning(names.symbol(unit, symbol)?)
    }

    /// The address of what a name stands for that every unit sees, by the names of its build.
    pub fn of_name(&self, names: &Names<'_>, name: &[u8]) -> Option<u64>
        ensures { result ≡ address_in self.now (meaning_in names.now (name.now, None)) }
    {
        self.of_meaning(names.global(name)?)
    }
}
