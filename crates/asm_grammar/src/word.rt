ghost use Rattle.std.specs.Prelude.{◌≡◌, IfOk};

use goasm_base::{Memory, Name};
use std::alloc::Global;
use std::marker::Model;

/// A name as the source has it, lent from its token. Contracts see its bytes.
#[derive(Drop)]
pub struct Word<'a> {
    text: &'a [u8],
}

impl<'a> Model for Word<'a> {
    ghost use Rattle.std.specs.Prelude.{ℕ, List};

    ghost Value = { List ℕ };

    ghost view = { λ w. w.text.now };
}

impl<'a> Word<'a> {
    /// The name with these bytes.
    pub fn new(text: &'a [u8]) -> Self
        ensures { result ≡ text.now }
    {
        Word { text }
    }

    pub fn as_slice(&self) -> &'a [u8]
        ensures { result.now ≡ self.now }
    {
        self.text
    }

    /// An equal name of its own.
    pub fn owned(&self, alloc: Global) -> Result<Name, Memory>
        ensures { IfOk result (λ name. name ≡ self.now) }
    {
        Ok(Name::new(Vec::from_slice(alloc, self.text)?))
    }
}
