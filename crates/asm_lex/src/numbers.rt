ghost use Rattle.std.specs.Prelude.{◌≡◌};
ghost use Rattle.asm_lex.specs.Numbers as spec;

use goasm_base::read_number;

/// The value that the text of a number has; `None` where it is none.
#[tactic(auto, unfolding(crate::specs::Numbers::number_value))]
pub fn number_value(text: &[u8]) -> Option<u64>
    ensures { result ≡ spec.number_value text.now }
{
    match text {
        [b'0', b'0'..=b'9', ..] => None,
        _ => read_number(text),
    }
}
