ghost use Rattle.std.specs.Prelude.{◌≡◌, ◌≤◌, false, length, IfSome};
ghost use Rattle.asm_lex.specs.Texts as spec;

use goasm_base::behind;

/// Where a text ends behind its closing quote, counted from behind its opening quote. `None` where its line ends
/// first.
#[tactic(auto, unfolding(crate::specs::Texts::text_end))]
pub fn text_end(bytes: &[u8]) -> Option<usize>
    ensures end { result ≡ spec.text_end 0 false bytes.now }
    ensures within { IfSome result (λ end. (1 ≤ end) × (end ≤ length bytes.now)) }
{
    let mut escaped = false;
    for (at, byte) in bytes.iter().enumerate() {
        if *byte == b'\n' {
            return None;
        }
        if !escaped && *byte == b'"' {
            return Some(at + 1);
        }
        escaped = !escaped && *byte == b'\\';
    }
    None
}

/// Whether each backslash between the quotes of a text begins an escape.
#[tactic(auto, unfolding(crate::specs::Texts::are_escapes), using(crate::proofs::LoopLemmas::escapes_within, crate::proofs::LoopLemmas::escapes_on, crate::proofs::LoopLemmas::escapes_past))]
pub fn are_escapes(bytes: &[u8]) -> bool
    ensures { result ≡ spec.are_escapes 0 bytes.now }
{
    let mut skip: usize = 0;
    for at in 0..bytes.len() {
        if skip > 0 {
            skip -= 1;
        } else if bytes[at] == b'\\' {
            skip = escape_len(behind(bytes, at + 1));
            if skip == 0 {
                return false;
            }
        }
    }
    true
}

// How many bytes the escape takes behind its backslash; 0 where there is none of a known form.
#[tactic(auto, unfolding(crate::specs::Texts::escape_len))]
fn escape_len(bytes: &[u8]) -> usize
    ensures { result ≡ spec.escape_len bytes.now }
{
    match bytes {
        [b'\\' | b'"' | b'n' | b't', ..] => 1,
        [b'x', high, low, ..] if high.is_ascii_hexdigit() && low.is_ascii_hexdigit() => 3,
        _ => 0,
    }
}
