// What stands behind a function's instructions.
ghost use Rattle.std.specs.Prelude.{◌≡◌, ◌==◌, ◌≤◌, ◌↔◌, length, drop, IsTrue};
ghost use Rattle.std.specs.List.{list_all};
ghost use Rattle.image_check.specs.Code.{IsPadded, IsWhole};
ghost use Rattle.image_rules.specs.Functions as spec;

use crate::reading::Reading;
use asm_target::Processor;
use goasm_base::behind;

/// Functions begin at multiples of this many bytes.
const ALIGNMENT: usize = 16;

/// The byte that stands behind a function's instructions: INT3 of amd64, 0 elsewhere.
pub(crate) fn padding_byte<T: Processor>() -> u8
    ensures { result ≡ spec.padding_byte T.MACHINE }
{
    if T::MACHINE == 62 { 0xcc } else { 0 }
}

/// Whether a function has instructions, and its bytes are whole up to padding of this byte.
pub(crate) fn is_whole<I>(reading: &Reading<I>, own: &[u8], byte: u8) -> bool
    requires { reading.now.size ≤ length own.now }
    ensures { IsTrue result ↔ IsWhole byte (length reading.now.code.items) own.now (drop reading.now.size own.now) }
{
    if reading.code.is_empty() {
        return false;
    }
    is_padded(own, reading.size, byte)
}

// Whether the bytes of a function, whose instructions have so many, are whole up to padding of this byte.
fn is_padded(own: &[u8], size: usize, byte: u8) -> bool
    requires { size ≤ length own.now }
    ensures { IsTrue result ↔ IsPadded byte own.now (drop size own.now) }
{
    if own.len() % ALIGNMENT != 0 {
        return false;
    }
    let rest = behind(own, size);
    if rest.len() >= ALIGNMENT {
        return false;
    }
    is_filled(rest, byte)
}

// Whether each byte is this one.
fn is_filled(bytes: &[u8], byte: u8) -> bool
    ensures { result ≡ list_all (λ held. held == byte) bytes.now }
{
    bytes.iter().all(|held| *held == byte)
}
