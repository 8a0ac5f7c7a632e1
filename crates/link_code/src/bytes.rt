ghost use Rattle.std.specs.Prelude.{◌≡◌, ◌++◌, ◌+◌, ◌%◌, ◌<◌, OnOk, map, replicate};
ghost use Rattle.std.specs.List.{flat_map};
ghost use Rattle.image_rules.specs.Functions as functions;
ghost use Rattle.link_code.specs.Bytes.{IsPadded};

use asm_target::{Placed, Processor, Target};
use goasm_base::Memory;

/// Functions begin at multiples of this many bytes.
const ALIGNMENT: usize = 16;

/// Appends the bytes of a function's instructions, and then padding up to the next multiple of 16 bytes of the text: the byte CC of
/// amd64, 0 elsewhere.
pub fn push_code<T: Target>(text: &mut Vec<u8>, code: &[Placed<T::Instr>]) -> Result<(), Memory>
    ensures { OnOk result (IsPadded T.instructions T.MACHINE code.now text.old.items text.new.items) }
{
    push_spellings::<T>(text, code)?;
    let padding = padding_behind(text.len());
    push_byte(text, padding_byte::<T>(), padding)
}

// Appends the bytes of the instructions.
fn push_spellings<T: Target>(text: &mut Vec<u8>, code: &[Placed<T::Instr>]) -> Result<(), Memory>
    ensures { OnOk result (text.new.items ≡ text.old.items ++ flat_map T.instructions.spelling (map (λ one. one.instr) code.now)) }
{
    for number in 0..code.len() {
        text.extend_from_slice(T::spell(&code[number].instr).as_slice())?;
    }
    Ok(())
}

// Appends a byte so many times.
fn push_byte(text: &mut Vec<u8>, byte: u8, count: usize) -> Result<(), Memory>
    ensures { OnOk result (text.new.items ≡ text.old.items ++ replicate count byte) }
{
    for _turn in 0..count {
        text.push(byte)?;
    }
    Ok(())
}

// The byte that stands behind a function's instructions.
fn padding_byte<T: Processor>() -> u8
    ensures { result ≡ functions.padding_byte T.MACHINE }
{
    if T::MACHINE == 62 { 0xcc } else { 0 }
}

// How many bytes are missing up to the next multiple of 16.
fn padding_behind(len: usize) -> usize
    ensures short { result < 16 }
    ensures whole { (len + result) % 16 ≡ 0 }
{
    (ALIGNMENT - len % ALIGNMENT) % ALIGNMENT
}
