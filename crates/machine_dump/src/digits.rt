ghost use Rattle.std.specs.Prelude.{◌≡◌, ◌+◌, ◌*◌, ◌^◌, ◌<◌, ◌≤◌, length};
ghost use Rattle.machine_effect.specs.Memory.{number_of};
ghost use Rattle.machine_dump.specs.Digits as spec;
ghost use Rattle.machine_dump.specs.Digits.{hex_after};

/// Whether each byte is a digit from 0 to 9 or from a to f.
pub fn are_small_hex(text: &[u8]) -> bool
    ensures { result ≡ spec.are_small_hex text.now }
{
    text.iter().all(|byte| is_small_hex(*byte))
}

fn is_small_hex(byte: u8) -> bool
    ensures { result ≡ spec.is_small_hex byte }
{
    byte.is_ascii_digit() || (b'a'..=b'f').contains(&byte)
}

// What a digit counts; 0 for any other byte.
fn digit_of(byte: u8) -> u8
    ensures value { result ≡ spec.digit_of byte }
    ensures small { result < 16 }
{
    if byte.is_ascii_digit() {
        byte - b'0'
    } else if (b'a'..=b'f').contains(&byte) {
        byte - b'a' + 10
    } else {
        0
    }
}

/// The number that digits spell, the highest one first.
pub fn number(digits: &[u8]) -> u64
    requires { length digits.now ≤ 16 }
    ensures { result ≡ hex_after 0 digits.now }
{
    let mut value: u64 = 0;
    for glyph in digits {
        value = 16 * value + u64::from(digit_of(*glyph));
    }
    value
}

/// The number that the text spells in sixteen small hexadecimal digits; `None` exactly for another text.
#[tactic(auto, unfolding(crate::specs::Digits::word_of))]
pub fn word(text: &[u8]) -> Option<u64>
    ensures { result ≡ spec.word_of text.now }
{
    if text.len() != 16 || !are_small_hex(text) {
        return None;
    }
    Some(number(text))
}

/// The number that bytes make, the lowest first, which digits spell, two a byte.
#[tactic(auto, unfolding(crate::specs::Digits::bytes_of, machine_effect::specs::Memory::number_of))]
pub fn little_number(digits: &[u8]) -> u64
    requires { length digits.now ≤ 16 }
    ensures value { result ≡ number_of (spec.bytes_of digits.now) }
    ensures small { result < 2 ^ (4 * length digits.now) }
{
    match digits {
        [high, low, rest @ ..] => byte_of(*high, *low) + 256 * little_number(rest),
        _ => 0,
    }
}

fn byte_of(high: u8, low: u8) -> u64
    ensures value { result ≡ 16 * spec.digit_of high + spec.digit_of low }
    ensures small { result < 256 }
{
    16 * u64::from(digit_of(high)) + u64::from(digit_of(low))
}
