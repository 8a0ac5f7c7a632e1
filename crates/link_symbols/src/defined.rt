ghost use Rattle.std.specs.Prelude.{◌≡◌, ◌≤◌, IfOk};
ghost use Rattle.elf_image.specs.Parts.{IsPart};
ghost use Rattle.link_symbols.specs.Table as spec;
ghost use Rattle.link_symbols.specs.Table.{IsName};

use elf_image::SymbolPart;
use goasm_base::{Memory, Name};
use std::alloc::Global;

/// A function or a value that an image has.
#[derive(Clone, Copy, Debug)]
pub struct Defined<'a> {
    /// Its name, without a zero byte.
    pub name: &'a [u8],
    /// Whether only this image sees it: in a source its name has `<>`.
    pub local: bool,
    /// Its address.
    pub at: u64,
    /// Its size in bytes: of a function the length of its code, without the padding behind it.
    pub size: u64,
}

impl Defined<'_> {
    // Whether it is among those that only the image sees, or among those that all see.
    pub fn is_among(&self, local: bool) -> bool
        ensures { result ≡ spec.is_among local self.now }
    {
        self.local == local
    }

    // Its symbol: of kind 0 for a function, 1 for a value.
    pub fn symbol(&self, alloc: Global, kind: u8) -> Result<SymbolPart, Memory>
        requires kind { kind ≤ 1 }
        requires name { IsName self.now.name.now }
        ensures symbol { IfOk result (λ symbol. symbol ≡ spec.symbol_of kind self.now) }
        ensures part { IfOk result IsPart }
    {
        Ok(SymbolPart {
            name: Name::from_slice(alloc, self.name)?,
            at: self.at,
            size: self.size,
            kind,
            local: self.local,
        })
    }
}
