ghost use Rattle.std.specs.Prelude.{◌≡◌, ℕ, List, ◌++◌, ◌+◌, ◌-◌, ◌^◌, ◌<◌, ◌≤◌, codes, take, drop, length, IfOk, OnOk};
ghost use Rattle.std.specs.List.{flat_map};
ghost use Rattle.goasm_base.specs.Numbers.{hex_text};
ghost use Rattle.asm_target.specs.InstructionSet.{IsListing};
ghost use Rattle.image_model.specs.Listed.{Listed};
ghost use Rattle.image_rules.specs.Functions.{AreFunctionsOf, IsFunction, placed_from};
ghost use Rattle.image_rules.specs.Machine.{machine_of};
ghost use Rattle.image_rules.specs.Parts as parts;
ghost use Rattle.image_rules.specs.Parts.{count_in, entry_in};
ghost use Rattle.text_dis.specs.Listing.{IsText, function_name, function_text, functions_text, instr_text};
ghost use Rattle.text_dis.specs.Raw.{said_text};

use crate::line::push_said;
use asm_target::{Processor, Target, first_instr};
use goasm_base::{Bytes, Memory, Text, behind};
use image_check::Accepted;
use std::alloc::Global;

/// The text of an accepted image.
///
/// For each function in the order of addresses there is a line `TEXT NAME`, and then one for each of its instructions,
/// `ADDRESS HEX TEXT`: its address as `0x` and 16 digits, its bytes with two small hexadecimal digits each, and its text at
/// this address. Each line ends in a newline. `Memory` comes only for want of memory.
pub fn listing<T: Target>(alloc: Global, image: &Accepted<'_, T>) -> Result<Bytes, Memory>
    ensures exact { let machine = machine_of T.instructions T.fits T.MACHINE T.QUANTUM T.SHAPE T.GROWTH T.begins in
        IfOk result (λ text. (functions : ℕ → Listed T.Instr) → AreFunctionsOf machine image.now functions (count_in image.now)
        → text ≡ functions_text T.instructions image.now functions (count_in image.now)) }
    ensures some { let machine = machine_of T.instructions T.fits T.MACHINE T.QUANTUM T.SHAPE T.GROWTH T.begins in
        IfOk result (IsText machine image.now) }
{
    image.sound();
    let mut text = Text::new(alloc);
    for index in 0..image.count() {
        push_function(alloc, &mut text, image, index)?;
    }
    Ok(text.finish())
}

// Appends the text of the function of this number.
fn push_function<T: Target>(
    alloc: Global,
    text: &mut Text,
    image: &Accepted<'_, T>,
    index: u32,
) -> Result<(), Memory>
    requires { index < count_in image.now }
    ensures { let machine = machine_of T.instructions T.fits T.MACHINE T.QUANTUM T.SHAPE T.GROWTH T.begins in
        (listed : Listed T.Instr) → IsFunction machine image.now index listed
        → OnOk result (text.new ≡ text.old ++ function_text T.instructions (function_name image.now index) listed.code) }
{
    push_title(text, image.function(index).name())?;
    let (at, bytes) = own_bytes(image, index);
    push_code::<T>(alloc, text, at, bytes)
}

// Appends the line of a function's name.
fn push_title(text: &mut Text, name: &[u8]) -> Result<(), Memory>
    ensures { OnOk result (text.new ≡ text.old ++ (codes "TEXT " ++ name.now ++ codes "\n")) }
{
    text.push(b"TEXT ")?;
    text.push(name)?;
    text.push(b"\n")
}

// The address of the function of this number, and its bytes with its padding.
fn own_bytes<'a, T: Target>(image: &Accepted<'a, T>, index: u32) -> (u64, &'a [u8])
    requires { index < count_in image.now }
    ensures entry { result.0 ≡ entry_in image.now index }
    ensures bytes { result.1.now ≡ parts.own_bytes image.now index }
    ensures near { result.0 + length result.1.now < 2 ^ 64 }
{
    image.sound();
    let func = image.function(index);
    let (first, _) = image.text();
    let (entry, end) = (func.entry(), func.end());
    let bytes = between(
        image.image().text(),
        (entry - first) as usize,
        (end - first) as usize,
    );
    (entry, bytes)
}

// The bytes from one place up to another.
fn between(bytes: &[u8], start: usize, end: usize) -> &[u8]
    requires rises { start ≤ end }
    requires within { end ≤ length bytes.now }
    ensures { result.now ≡ take (end - start) (drop start bytes.now) }
{
    &bytes[start..end]
}

// Appends the line of each instruction of bytes that stand at an address, up to bytes that begin with none.
fn push_code<T: Processor>(
    alloc: Global,
    text: &mut Text,
    first: u64,
    bytes: &[u8],
) -> Result<(), Memory>
    requires { first + length bytes.now < 2 ^ 64 }
    ensures { (code : List T.Instr) (rest : List ℕ) → IsListing T.instructions T.fits bytes.now code rest
        → OnOk result (text.new ≡ text.old ++ flat_map (instr_text T.instructions) (placed_from T.instructions first code)) }
{
    let mut at = first;
    let mut rest = bytes;
    while let Some(found) = first_instr::<T>(rest) {
        push_instr::<T>(alloc, text, at, &found.0, &rest[..found.1])?;
        at += found.1 as u64;
        rest = behind(rest, found.1);
    }
    Ok(())
}

// Appends the line of an instruction with these bytes at an address.
fn push_instr<T: Processor>(
    alloc: Global,
    text: &mut Text,
    at: u64,
    instr: &T::Instr,
    bytes: &[u8],
) -> Result<(), Memory>
    requires { length bytes.now ≤ 15 }
    ensures { OnOk result (text.new ≡ text.old ++ (hex_text at ++ said_text bytes.now (T.instructions.text instr.now at))) }
{
    let said = T::show(alloc, instr, at)?;
    text.push_hex(at)?;
    push_said(text, bytes, said.as_slice())
}
