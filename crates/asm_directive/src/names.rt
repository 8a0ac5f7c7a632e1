ghost use Rattle.std.specs.Prelude.{◌≡◌, OnOk, Some, None, is_some, if◌then◌else◌};
ghost use Rattle.std.specs.Option.{option_copied};
ghost use Rattle.asm_directive.specs.Names.{nothing, with_name};
ghost use Rattle.asm_directive.specs.Views.{names_of};

use goasm_base::Memory;
use std::alloc::Global;
use std::collections::BTreeMap;

/// What names stand for.
#[derive(Drop)]
pub struct NameMap<'a, T> {
    map: BTreeMap<&'a [u8], T>,
}

impl<'a, T: Drop> NameMap<'a, T> {
    /// No name stands for anything. It takes no memory.
    pub fn new(alloc: Global) -> Self
        ensures { names_of result ≡ nothing }
    {
        NameMap {
            map: BTreeMap::new(alloc),
        }
    }

    /// What a name stands for.
    #[tactic(auto, unfolding(crate::specs::Views::names_of))]
    pub fn get(&self, name: &[u8]) -> Option<&T>
        ensures { option_copied result ≡ names_of self.now name.now }
    {
        self.map.get(name)
    }

    /// Whether a name stands for anything.
    pub fn has(&self, name: &[u8]) -> bool
        ensures { result ≡ is_some (names_of self.now name.now) }
    {
        self.get(name).is_some()
    }

    /// Lets a name stand for a value in place of what it stood for.
    pub fn put(&mut self, name: &'a [u8], value: T) -> Result<(), Memory>
        ensures { OnOk result (names_of self.new ≡ with_name (names_of self.old) name.now (Some value)) }
    {
        self.map.insert(name, value)?;
        Ok(())
    }

    /// Lets a name that stands for nothing stand for a value.
    pub fn put_new(&mut self, name: &'a [u8], value: T) -> Result<(), Memory>
        ensures { OnOk result (names_of self.new ≡ (if is_some (names_of self.old name.now) then names_of self.old
            else with_name (names_of self.old) name.now (Some value))) }
    {
        if self.has(name) {
            return Ok(());
        }
        self.put(name, value)
    }
}
