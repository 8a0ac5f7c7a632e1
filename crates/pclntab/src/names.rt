ghost use Rattle.std.specs.Prelude.{◌≡◌, ◌<◌, ◌↔◌, length, position, IsTrue};
ghost use Rattle.std.specs.Option.{option_map};
ghost use Rattle.memchr.specs.Find.{IsLastByte, is_byte};
ghost use Rattle.pclntab.specs.Texts.{is_zero, text_in, text_at, ends_at};

use goasm_base::behind_or_empty;

/// The text at a place, up to its first zero byte. `None` where no zero byte ends it.
pub fn text_from(bytes: &[u8], at: usize) -> Option<&[u8]>
    ensures { option_map (λ text. text.now) result ≡ text_at bytes.now at }
{
    until_zero(behind_or_empty(bytes, at))
}

#[tactic(auto, unfolding(crate::specs::Texts::text_in))]
fn until_zero(bytes: &[u8]) -> Option<&[u8]>
    ensures { option_map (λ text. text.now) result ≡ text_in bytes.now }
{
    match first_zero(bytes) {
        Some(length) => Some(&bytes[..length]),
        None => None,
    }
}

fn first_zero(bytes: &[u8]) -> Option<usize>
    ensures { result ≡ position is_zero bytes.now }
{
    bytes.iter().position(|byte| *byte == 0)
}

/// Whether a zero byte ends the text at a place, told by the place of the last zero byte of all.
#[tactic(auto, using(crate::proofs::TextLemmas::ends_till, crate::proofs::TextLemmas::never_ends))]
pub fn ends_at(bytes: &[u8], at: usize, last_zero: Option<usize>) -> bool
    requires { IsLastByte (is_byte 0) bytes.now last_zero }
    ensures { IsTrue result ↔ IsTrue (ends_at bytes.now at) }
{
    match last_zero {
        Some(last) => at <= last,
        None => false,
    }
}
