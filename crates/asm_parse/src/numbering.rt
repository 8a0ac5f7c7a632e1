ghost use Rattle.std.specs.Prelude.{◌≡◌, ◌<◌, true, [], not, All, length, map, IfOk, OnOk, IfSome};
ghost use Rattle.asm_parse.specs.Numbering as spec;
ghost use Rattle.asm_parse.specs.Parse as parse;
ghost use Rattle.asm_parse.specs.Valid.{IsValidSymbol};

use crate::unit::Symbol;
use asm_grammar::name_of;
use goasm_base::{List, Memory};
use indexmap::IndexSet;
use std::alloc::Global;
use std::marker::Model;

/// Names, each once, in the order in which they came first; a name with `<>` is another one. Contracts see them as that
/// list.
#[derive(Drop)]
pub struct Numbering<'a> {
    names: IndexSet<(&'a [u8], bool)>,
}

impl<'a> Model for Numbering<'a> {
    ghost use Rattle.std.specs.Prelude.{List, map};
    ghost use Rattle.asm_parse.specs.Numbering.{Key, key_seen};

    ghost Value = { List Key };

    ghost view = { λ n. map key_seen n.names.keys };
}

impl<'a> Numbering<'a> {
    /// No names. It takes no memory.
    pub fn new(alloc: Global) -> Self
        ensures { result ≡ [] }
    {
        Numbering {
            names: IndexSet::new(alloc),
        }
    }

    /// The number of a name, which is added where it isn't there yet, and whether it wasn't.
    pub fn add(&mut self, name: &'a [u8], fixed: bool) -> Result<(usize, bool), Memory>
        ensures names { OnOk result (self.new ≡ spec.with_name self.old (name.now, fixed)) }
        ensures number { IfOk result (λ added. added.0 ≡ spec.place_of self.old (name.now, fixed)) }
        ensures added { IfOk result (λ added. added.1 ≡ not (spec.has_name self.old (name.now, fixed))) }
    {
        Ok(self.names.insert_full((name, fixed))?)
    }

    /// The number of a name, from 0.
    pub fn number(&self, name: &[u8], fixed: bool) -> Option<usize>
        ensures number { result ≡ spec.number_of self.now (name.now, fixed) }
        ensures within { IfSome result (λ number. number < length self.now) }
    {
        self.names.get_index_of(&(name, fixed))
    }

    /// The number of a name that is there.
    pub fn known_number(&self, name: &[u8], fixed: bool) -> usize
        requires { spec.has_name self.now (name.now, fixed) ≡ true }
        ensures number { result ≡ spec.place_of self.now (name.now, fixed) }
        ensures within { result < length self.now }
    {
        match self.number(name, fixed) {
            Some(number) => number,
            None => unreachable!(),
        }
    }

    /// The symbols with these names.
    pub fn symbols(&self, alloc: Global) -> Result<List<Symbol>, Memory>
        ensures exact { IfOk result (λ symbols. symbols ≡ map parse.symbol_of self.now) }
        ensures valid { IfOk result (λ symbols. All IsValidSymbol symbols) }
    {
        let mut symbols = Vec::new(alloc);
        while let Some(key) = self.names.get_index(symbols.len()) {
            symbols.push(Symbol {
                name: name_of(alloc, key.0)?,
                fixed: key.1,
            })?;
        }
        Ok(List::new(symbols))
    }
}
