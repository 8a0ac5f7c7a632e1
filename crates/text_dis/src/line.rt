ghost use Rattle.std.specs.Prelude.{◌≡◌, ℕ, List, ◌++◌, ◌+◌, ◌*◌, ◌<◌, ◌≤◌, min, length, take, IfOk, OnOk};
ghost use Rattle.hex.specs.Hex.{encode_lower};
ghost use Rattle.text_dis.specs.Raw.{IsLine, line_text, said_text};

use asm_target::{Processor, first_instr};
use goasm_base::{Memory, Text};
use std::alloc::Global;

/// Appends the first line of bytes that stand at a place, and tells of how many bytes it is.
pub fn push_line<T: Processor>(
    alloc: Global,
    text: &mut Text,
    offset: u64,
    bytes: &[u8],
) -> Result<usize, Memory>
    requires { 0 < length bytes.now }
    ensures some { IfOk result (λ n. 0 < n) }
    ensures within { IfOk result (λ n. n ≤ length bytes.now) }
    ensures line { IfOk result (λ n. (line : List ℕ) × IsLine T.instructions T.fits T.QUANTUM offset bytes.now line n
        × (text.new ≡ text.old ++ line)) }
{
    match first_instr::<T>(bytes) {
        Some((instr, len)) => {
            let shown = T::show(alloc, &instr, offset)?;
            push_parts(text, offset, &bytes[..len], shown.as_slice())?;
            Ok(len)
        }
        None => {
            let len = unread_len::<T>(bytes);
            push_parts(text, offset, &bytes[..len], b"?")?;
            Ok(len)
        }
    }
}

// How many bytes are told in one line where they begin with no instruction.
fn unread_len<T: Processor>(bytes: &[u8]) -> usize
    requires { 0 < length bytes.now }
    ensures exact { result ≡ min T.QUANTUM (length bytes.now) }
    ensures some { 0 < result }
    ensures short { result ≤ 15 }
{
    bytes.len().min(usize::from(T::QUANTUM))
}

// Appends one line.
fn push_parts(text: &mut Text, offset: u64, bytes: &[u8], said: &[u8]) -> Result<(), Memory>
    requires { length bytes.now ≤ 15 }
    ensures { OnOk result (text.new ≡ text.old ++ line_text offset bytes.now said.now) }
{
    text.push_unsigned(offset)?;
    push_said(text, bytes, said)
}

/// Appends what stands behind the place in a line: the bytes, and what is said of them.
pub fn push_said(text: &mut Text, bytes: &[u8], said: &[u8]) -> Result<(), Memory>
    requires { length bytes.now ≤ 15 }
    ensures { OnOk result (text.new ≡ text.old ++ said_text bytes.now said.now) }
{
    text.push(b" ")?;
    push_hex_bytes(text, bytes)?;
    text.push(b" ")?;
    text.push(said)?;
    text.push(b"\n")
}

// Appends two small hexadecimal digits for each byte.
fn push_hex_bytes(text: &mut Text, bytes: &[u8]) -> Result<(), Memory>
    requires { length bytes.now ≤ 15 }
    ensures { OnOk result (text.new ≡ text.old ++ encode_lower bytes.now) }
{
    let mut digits = [0u8; 30];
    let digits = &mut digits[..2 * bytes.len()];
    hex::encode_to_slice(bytes, digits).unwrap();
    text.push(digits)
}
