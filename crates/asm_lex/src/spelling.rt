ghost use Rattle.std.specs.Prelude.{◌≡◌};

use std::marker::Model;

/// The bytes of a token as they stand in its file, whose bytes it borrows. Contracts see it as their list.
#[derive(Debug, Drop)]
pub struct Spelling<'a> {
    bytes: &'a [u8],
}

impl<'a> Model for Spelling<'a> {
    ghost use Rattle.std.specs.Prelude.{ℕ, List};

    ghost Value = { List ℕ };

    ghost view = { λ s. s.bytes.now };
}

impl<'a> Spelling<'a> {
    /// The spelling that is these bytes.
    pub fn new(bytes: &'a [u8]) -> Self
        ensures { result ≡ bytes.now }
    {
        Spelling { bytes }
    }

    /// Its bytes.
    pub fn as_slice(&self) -> &'a [u8]
        ensures { result.now ≡ self.now }
    {
        self.bytes
    }

    /// The same bytes again. It takes no memory.
    pub fn copy(&self) -> Self
        ensures { result ≡ self.now }
    {
        Spelling { bytes: self.bytes }
    }
}
