ghost use Rattle.std.specs.Prelude.{◌^◌, ◌<◌, length};

use elf_image::{ImageParts, SymbolPart, write};
use goasm_base::{Bytes, List, Memory, Name};
use std::alloc::Global;

// Writes the image of one function, `main.p` at the start of the text.
pub fn one_function(alloc: Global, code: &[u8], table: &[u8]) -> Result<Bytes, Memory>
    requires code { length code.now < 2 ^ 16 }
    requires table { length table.now < 2 ^ 16 }
{
    let part = SymbolPart {
        name: Name::from_slice(alloc, b"main.p")?,
        at: 0x40_0000,
        size: 24,
        kind: 0,
        local: false,
    };
    let mut symbols = Vec::new(alloc);
    symbols.push(part)?;
    let parts = ImageParts {
        machine: 62,
        entry: 0x40_0000,
        text: Bytes::from_slice(alloc, code)?,
        table: Bytes::from_slice(alloc, table)?,
        values: Bytes::new(Vec::new(alloc)),
        symbols: List::new(symbols),
    };
    write(alloc, &parts)
}
