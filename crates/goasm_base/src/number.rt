ghost use Rattle.std.specs.Prelude.{◌≡◌, ◌+◌, ◌*◌, ◌^◌, ◌<◌, ◌≤◌, ◌++◌, SomeIff};
ghost use Rattle.arrayvec.specs.ArrayVec.{array_vec_len};
ghost use Rattle.std.specs.Char.{digit_char, digit_value};
ghost use Rattle.goasm_base.specs.Numbers as numbers;
ghost use Rattle.goasm_base.specs.Numbers.{hex_text, hex_digits, decimal_text, number_of};

use arrayvec::ArrayVec;

/// Replaces the contents by `0x` and sixteen small hexadecimal digits.
pub fn show_hex(value: u64, to: &mut ArrayVec<u8, 18>)
    ensures { to.new.items ≡ hex_text value }
{
    to.clear();
    to.push(b'0');
    to.push(b'x');
    push_hex_digits(16, value, to);
}

// Appends the last `count` digits of the value in base 16.
#[tactic(auto, unfolding(crate::specs::Numbers::hex_digits))]
fn push_hex_digits(count: u8, value: u64, to: &mut ArrayVec<u8, 18>)
    requires { array_vec_len to.old + count ≤ 18 }
    ensures items { to.new.items ≡ to.old.items ++ hex_digits count value }
    ensures len { array_vec_len to.new ≡ array_vec_len to.old + count }
{
    if count > 0 {
        push_hex_digits(count - 1, value / 16, to);
        to.push(hex_glyph((value % 16) as u8));
    }
}

fn hex_glyph(digit: u8) -> u8
    requires { digit < 16 }
    ensures { result ≡ digit_char digit }
{
    if digit < 10 {
        b'0' + digit
    } else {
        b'a' - 10 + digit
    }
}

/// Replaces the contents by the value in decimal, with a `-` before a negative one.
pub fn show_decimal(value: i64, to: &mut ArrayVec<u8, 20>)
    ensures { to.new.items ≡ decimal_text value }
{
    let mut buffer = itoa::Buffer::new();
    to.clear();
    to.try_extend_from_slice(buffer.format(value).as_bytes())
        .unwrap();
}

/// The number that the text spells: decimal digits, or `0x` and 1 to 16 hexadecimal digits, small or
/// capital. `None` exactly for a text of another form, and for a value of 2^64 or more.
#[tactic(auto, unfolding(crate::specs::Numbers::number_of))]
pub fn read_number(text: &[u8]) -> Option<u64>
    ensures { result ≡ number_of text.now }
{
    match text {
        [b'0', b'x', digits @ ..] => {
            if digits.len() <= 16 {
                numeral(16, digits)
            } else {
                None
            }
        }
        _ => numeral(10, text),
    }
}

#[tactic(auto, using(crate::proofs::NumberLemmas::overflows))]
fn numeral(base: u32, digits: &[u8]) -> Option<u64>
    requires low { 2 ≤ base }
    requires high { base ≤ 16 }
    ensures { result ≡ numbers.numeral base digits.now }
{
    let mut value: u64 = 0;
    for glyph in digits {
        let digit = digit_value(base, *glyph)?;
        value = with_digit(base, value, digit)?;
    }
    if digits.is_empty() { None } else { Some(value) }
}

// The number with one more digit behind it.
fn with_digit(base: u32, value: u64, digit: u32) -> Option<u64>
    ensures { SomeIff result (base * value + digit < 2 ^ 64) (base * value + digit) }
{
    u64::from(base)
        .checked_mul(value)?
        .checked_add(u64::from(digit))
}

/// What a glyph counts as a digit of this base, small or capital; `None` where it is no such digit.
pub fn digit_value(base: u32, glyph: u8) -> Option<u32>
    requires low { 2 ≤ base }
    requires high { base ≤ 36 }
    ensures { SomeIff result (digit_value glyph < base) (digit_value glyph) }
{
    char::from(glyph).to_digit(base)
}
