ghost use Rattle.std.specs.Prelude.{◌≡◌, ◌≤◌, length, IsTrue};
ghost use Rattle.asm_lex.specs.Characters.{first};
ghost use Rattle.asm_lex.specs.Signs as spec;

/// How many bytes the sign at the front takes, the longest one; 0 where none stands there.
#[tactic(auto, unfolding(crate::specs::Signs::sign_len))]
pub fn sign_len(bytes: &[u8]) -> usize
    ensures len { result ≡ spec.sign_len bytes.now }
    ensures within { result ≤ length bytes.now }
{
    if is_long_sign(bytes) {
        2
    } else if is_short_sign(bytes) {
        1
    } else {
        0
    }
}

#[tactic(auto, unfolding(crate::specs::Signs::is_long_sign))]
fn is_long_sign(bytes: &[u8]) -> bool
    ensures sign { result ≡ spec.is_long_sign bytes.now }
    ensures within { IsTrue result → 2 ≤ length bytes.now }
{
    matches!(
        bytes,
        [b'<', b'<' | b'>', ..] | [b'>', b'>', ..] | [b'-', b'>', ..]
    )
}

#[tactic(auto, unfolding(crate::specs::Signs::is_short_sign))]
fn is_short_sign(bytes: &[u8]) -> bool
    ensures sign { result ≡ spec.is_short_sign (first bytes.now) }
    ensures within { IsTrue result → 1 ≤ length bytes.now }
{
    matches!(
        bytes,
        [
            b'#' | b'$'
                | b'+'
                | b'-'
                | b'*'
                | b'/'
                | b'%'
                | b'&'
                | b'|'
                | b'^'
                | b'~'
                | b'('
                | b')'
                | b','
                | b':'
                | b'.',
            ..
        ]
    )
}
