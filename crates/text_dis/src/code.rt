ghost use Rattle.std.specs.Prelude.{IfOk};
ghost use Rattle.text_dis.specs.Raw.{IsRaw};

use crate::line::push_line;
use asm_target::Processor;
use goasm_base::{Bytes, Memory, Text, behind};
use std::alloc::Global;

/// The text of machine code that stands at address 0.
///
/// Where the bytes begin with an instruction, its line is `OFFSET HEX TEXT`: its offset in the bytes in decimal, its
/// bytes with two small hexadecimal digits each, and its text at the address `OFFSET`. Where they begin with none,
/// the line is `OFFSET HEX ?`, of one quantum of bytes or of all that are left. Then the bytes behind follow. Each
/// line ends in a newline. `Memory` comes only for want of memory.
pub fn raw<T: Processor>(alloc: Global, bytes: &[u8]) -> Result<Bytes, Memory>
    ensures { IfOk result (λ text. IsRaw T.instructions T.fits T.QUANTUM 0 bytes.now text) }
{
    let mut text = Text::new(alloc);
    let mut rest = bytes;
    while !rest.is_empty() {
        let offset = bytes.len() - rest.len();
        let len = push_line::<T>(alloc, &mut text, offset as u64, rest)?;
        rest = behind(rest, len);
    }
    Ok(text.finish())
}
