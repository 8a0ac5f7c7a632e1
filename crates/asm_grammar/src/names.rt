ghost use Rattle.std.specs.Prelude.{◌≡◌, IfOk};
ghost use Rattle.asm_grammar.specs.Names as spec;

use goasm_base::{Memory, Name};
use std::alloc::Global;

/// The name that a word stands for: with `.` for U+00B7 and `/` for U+2215, and in the package `main` where it begins
/// with U+00B7. It has no zero byte, as no source has one.
#[tactic(auto, unfolding(crate::specs::Names::name_of))]
pub fn name_of(alloc: Global, word: &[u8]) -> Result<Name, Memory>
    ensures exact { IfOk result (λ name. name ≡ spec.name_of word.now) }
    ensures no_zero { IfOk result spec.HasNoZero }
{
    let mut bytes = Vec::from_slice(alloc, package_of(word))?;
    for byte in word {
        if let Some(byte) = name_byte(*byte) {
            bytes.push(byte)?;
        }
    }
    Ok(Name::new(bytes))
}

fn package_of(word: &[u8]) -> &'static [u8]
    ensures { result.now ≡ spec.package_of word.now }
{
    if has_middle_dot(word) { b"main" } else { b"" }
}

fn has_middle_dot(word: &[u8]) -> bool
    ensures { result ≡ spec.has_middle_dot word.now }
{
    matches!(word, [0xC2, 0xB7, ..])
}

// The byte of a name that a byte of a word stands for. The only characters of a word outside ASCII are U+00B7, whose
// bytes are C2 and B7, and U+2215, whose bytes are E2, 88 and 95: the last one stands for the whole character. The lexer
// refuses a zero byte, so that leaving it out changes no name.
fn name_byte(byte: u8) -> Option<u8>
    ensures { result ≡ spec.name_byte byte }
{
    match byte {
        0xB7 => Some(b'.'),
        0x95 => Some(b'/'),
        0 | 0xC2 | 0xE2 | 0x88 => None,
        _ => Some(byte),
    }
}
