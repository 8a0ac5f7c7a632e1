ghost use Rattle.std.specs.Prelude.{◌≡◌, ◌<◌, ◌≤◌, length, IfOk};
ghost use Rattle.asm_grammar.specs.Texts as spec;

use goasm_base::{Bytes, Memory, behind_or_empty, digit_value};
use std::alloc::Global;

/// The bytes that a text stands for, which is given with its quotes: with what its escapes stand for.
#[tactic(auto, unfolding(crate::specs::Texts::bytes_of))]
pub fn bytes_of(alloc: Global, text: &[u8]) -> Result<Bytes, Memory>
    ensures { IfOk result (λ bytes. bytes ≡ spec.bytes_of text.now) }
{
    let mut bytes = Vec::new(alloc);
    let mut rest = inside(text);
    while !rest.is_empty() {
        bytes.push(first_byte(rest))?;
        rest = behind_or_empty(rest, first_len(rest));
    }
    Ok(Bytes::new(bytes))
}

// What stands between the quotes.
fn inside(text: &[u8]) -> &[u8]
    ensures { result.now ≡ spec.inside text.now }
{
    match text {
        [_, inside @ .., _] => inside,
        _ => &[],
    }
}

// The byte that a text begins with, or the escape at its front.
#[tactic(auto, unfolding(crate::specs::Texts::first_byte))]
fn first_byte(text: &[u8]) -> u8
    ensures { result ≡ spec.first_byte text.now }
{
    match text {
        [b'\\', b'n', ..] => b'\n',
        [b'\\', b't', ..] => b'\t',
        [b'\\', b'x', high, low, ..] => hex_byte(*high, *low),
        [b'\\', byte, ..] => *byte,
        [byte, ..] => *byte,
        [] => 0,
    }
}

// How many bytes that byte or escape takes.
#[tactic(auto, unfolding(crate::specs::Texts::first_len))]
fn first_len(text: &[u8]) -> usize
    ensures len { result ≡ spec.first_len text.now }
    ensures some { 0 < result }
{
    match text {
        [b'\\', b'x', _, _, ..] => 4,
        [b'\\', _, ..] => 2,
        _ => 1,
    }
}

fn hex_byte(high: u8, low: u8) -> u8
    ensures { result ≡ spec.hex_byte high low }
{
    (16 * hex_digit(high) + hex_digit(low)) as u8
}

fn hex_digit(glyph: u8) -> u32
    ensures value { result ≡ spec.hex_digit glyph }
    ensures small { result < 16 }
{
    match digit_value(16, glyph) {
        Some(value) => value,
        None => 0,
    }
}
