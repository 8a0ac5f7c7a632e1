ghost use Rattle.std.specs.Prelude.{◌≡◌, ◌<◌, ◌-◌, length, take, drop, slice_index, IfOk};
ghost use Rattle.asm_directive.specs.Texts as spec;

use asm_lex::Token;
use goasm_base::{Memory, Name, behind, digit_value};
use std::alloc::Global;

/// What a text stands for: the bytes between its quotes, each escape in it for one byte.
#[tactic(auto, unfolding(crate::specs::Texts::value_of))]
pub fn value_of(alloc: Global, token: &Token<'_>) -> Result<Name, Memory>
    ensures { IfOk result (λ value. value ≡ spec.value_of token.now) }
{
    Ok(Name::new(values(alloc, inside(token.text.as_slice()))?))
}

fn inside(text: &[u8]) -> &[u8]
    ensures { result.now ≡ take (length text.now - 2) (drop 1 text.now) }
{
    if text.len() < 2 {
        return &[];
    }
    &text[1..text.len() - 1]
}

#[tactic(auto, unfolding(crate::specs::Texts::values_from))]
fn values(alloc: Global, bytes: &[u8]) -> Result<Vec<u8>, Memory>
    ensures { IfOk result (λ values. values.items ≡ spec.values_from 0 bytes.now) }
{
    let mut values = Vec::new(alloc);
    let mut skip: usize = 0;
    for at in 0..bytes.len() {
        if skip > 0 {
            skip -= 1;
        } else if bytes[at] == b'\\' {
            let escape = behind(bytes, at + 1);
            values.push(escape_value(escape))?;
            skip = escape_len(escape);
        } else {
            values.push(bytes[at])?;
        }
    }
    Ok(values)
}

#[tactic(auto, unfolding(crate::specs::Texts::escape_value))]
fn escape_value(bytes: &[u8]) -> u8
    ensures { result ≡ spec.escape_value bytes.now }
{
    match byte_at(bytes, 0) {
        b'n' => b'\n',
        b't' => b'\t',
        b'x' => 16 * hex_value(byte_at(bytes, 1)) + hex_value(byte_at(bytes, 2)),
        byte => byte,
    }
}

#[tactic(auto, unfolding(crate::specs::Texts::escape_len))]
fn escape_len(bytes: &[u8]) -> usize
    ensures { result ≡ spec.escape_len bytes.now }
{
    if byte_at(bytes, 0) == b'x' { 3 } else { 1 }
}

// The byte at a place; 0 past the end.
fn byte_at(bytes: &[u8], place: usize) -> u8
    ensures { result ≡ slice_index bytes.now place }
{
    if place < bytes.len() { bytes[place] } else { 0 }
}

// The value of a hexadecimal digit; 0 for any other byte.
fn hex_value(byte: u8) -> u8
    ensures value { result ≡ spec.hex_value byte }
    ensures bound { result < 16 }
{
    match digit_value(16, byte) {
        Some(value) => value as u8,
        None => 0,
    }
}
