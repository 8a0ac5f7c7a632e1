ghost use Rattle.std.specs.Prelude.{◌≡◌, ◌<◌, [], length, IfOk, OnOk, OnErr};
ghost use Rattle.link_tables.specs.UsedNames as spec;

use goasm_base::{List, Memory, Name};
use indexmap::IndexSet;
use std::alloc::Global;
use std::marker::Model;

/// Names, each once, in the order of first use. Contracts see them as that list.
#[derive(Drop)]
pub struct UsedNames<'a> {
    names: IndexSet<&'a [u8]>,
}

impl<'a> Model for UsedNames<'a> {
    ghost use Rattle.std.specs.Prelude.{ℕ, List, map};

    ghost Value = { List (List ℕ) };

    ghost view = { λ used. map (λ name. name.now) used.names.keys };
}

impl<'a> UsedNames<'a> {
    /// No names. It takes no memory.
    pub fn new(alloc: Global) -> Self
        ensures { result ≡ [] }
    {
        UsedNames {
            names: IndexSet::new(alloc),
        }
    }

    /// The index of a name, which is added at its first use.
    pub fn add(&mut self, name: &'a [u8]) -> Result<usize, Memory>
        ensures names { OnOk result (self.new ≡ spec.with_name self.old name.now) }
        ensures place { IfOk result (λ index. index ≡ spec.place_of self.old name.now) }
        ensures within { IfOk result (λ index. index < length self.new) }
        ensures err { OnErr result (self.new ≡ self.old) }
    {
        let added = self.names.insert_full(name)?;
        Ok(added.0)
    }

    /// The names, as a list of their own.
    pub fn list(&self, alloc: Global) -> Result<List<Name>, Memory>
        ensures { IfOk result (λ list. list ≡ self.now) }
    {
        let mut list = Vec::new(alloc);
        while let Some(name) = self.names.get_index(list.len()) {
            list.push(Name::from_slice(alloc, name)?)?;
        }
        Ok(List::new(list))
    }
}
