ghost use Rattle.std.specs.Prelude.{◌≡◌, ◌≢◌, ◌+◌, ◌<◌, ◌≤◌, length, IsTrue, IfSome};
ghost use Rattle.asm_lex.specs.Characters.{first, newline};
ghost use Rattle.asm_lex.specs.Comments as spec;

use goasm_base::behind;

/// How many bytes are left of the line, without its newline.
#[tactic(auto, unfolding(crate::specs::Comments::line_end), using(crate::proofs::LoopLemmas::line_goes_on))]
pub fn line_len(bytes: &[u8]) -> usize
    ensures len { result ≡ spec.line_len bytes.now }
    ensures some { 0 < length bytes.now → first bytes.now ≢ newline → 0 < result }
    ensures within { result ≤ length bytes.now }
{
    for (at, byte) in bytes.iter().enumerate() {
        if *byte == b'\n' {
            return at;
        }
    }
    bytes.len()
}

/// Where a comment ends behind its `*/`, counted from behind its `/*`; `None` where it is open.
#[tactic(auto, unfolding(crate::specs::Comments::comment_end), using(crate::proofs::LoopLemmas::comment_next))]
pub fn comment_end(bytes: &[u8]) -> Option<usize>
    ensures end { result ≡ spec.comment_end 0 bytes.now }
    ensures within { IfSome result (λ end. end ≤ length bytes.now) }
{
    for at in 0..bytes.len() {
        if closes(behind(bytes, at)) {
            return Some(at + 2);
        }
    }
    None
}

fn closes(bytes: &[u8]) -> bool
    ensures closes { result ≡ spec.closes bytes.now }
    ensures within { IsTrue result → 2 ≤ length bytes.now }
{
    matches!(bytes, [b'*', b'/', ..])
}
