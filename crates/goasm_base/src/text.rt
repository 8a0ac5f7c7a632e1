ghost use Rattle.std.specs.Prelude.{◌≡◌, pos, [], ◌++◌, OnOk, OnErr};
ghost use Rattle.goasm_base.specs.Numbers.{hex_text, decimal_text};

use crate::bytes::Bytes;
use crate::memory::Memory;
use crate::number::{show_decimal, show_hex};
use arrayvec::ArrayVec;
use std::alloc::Global;
use std::marker::Model;

/// A text that is being made, in one buffer that grows. Where memory is wanting it stays as it was.
#[derive(Debug, Drop)]
pub struct Text {
    bytes: Vec<u8>,
}

impl Model for Text {
    ghost use Rattle.std.specs.Prelude.{ℕ, List};

    ghost Value = { List ℕ };

    ghost view = { λ t. t.bytes.items };
}

impl Text {
    /// An empty text. It takes no memory.
    pub fn new(alloc: Global) -> Self
        ensures { result ≡ [] }
    {
        Text {
            bytes: Vec::new(alloc),
        }
    }

    /// Appends the bytes as they are.
    pub fn push(&mut self, bytes: &[u8]) -> Result<(), Memory>
        ensures ok { OnOk result (self.new ≡ self.old ++ bytes.now) }
        ensures err { OnErr result (self.new ≡ self.old) }
    {
        self.bytes.extend_from_slice(bytes)?;
        Ok(())
    }

    /// Appends `0x` and sixteen small hexadecimal digits.
    pub fn push_hex(&mut self, value: u64) -> Result<(), Memory>
        ensures ok { OnOk result (self.new ≡ self.old ++ hex_text value) }
        ensures err { OnErr result (self.new ≡ self.old) }
    {
        let mut digits = ArrayVec::new();
        show_hex(value, &mut digits);
        self.push(digits.as_slice())
    }

    /// Appends the value in decimal, with a `-` before a negative one.
    pub fn push_decimal(&mut self, value: i64) -> Result<(), Memory>
        ensures ok { OnOk result (self.new ≡ self.old ++ decimal_text value) }
        ensures err { OnErr result (self.new ≡ self.old) }
    {
        let mut digits = ArrayVec::new();
        show_decimal(value, &mut digits);
        self.push(digits.as_slice())
    }

    /// Appends a number without sign in decimal.
    pub fn push_unsigned(&mut self, value: u64) -> Result<(), Memory>
        ensures ok { OnOk result (self.new ≡ self.old ++ decimal_text (pos value)) }
        ensures err { OnErr result (self.new ≡ self.old) }
    {
        let mut buffer = itoa::Buffer::new();
        self.push(buffer.format(value).as_bytes())
    }

    /// The bytes of the text.
    pub fn finish(self) -> Bytes
        ensures { result ≡ self }
    {
        Bytes::new(self.bytes)
    }
}
