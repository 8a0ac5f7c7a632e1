ghost use Rattle.std.specs.Prelude.{◌≡◌, ◌<◌, ◌≤◌, length, IsTrue};
ghost use Rattle.asm_lex.specs.Characters.{first, is_ascii_digit};
ghost use Rattle.asm_lex.specs.Words as spec;

use goasm_base::behind;

/// How many bytes at the front belong to characters that can stand in a word.
#[tactic(auto, unfolding(crate::specs::Words::run_end), using(crate::proofs::LoopLemmas::run_within, crate::proofs::LoopLemmas::run_on, crate::proofs::LoopLemmas::run_stops, crate::proofs::WordLemmas::digit_runs))]
pub fn run_len(bytes: &[u8]) -> usize
    ensures len { result ≡ spec.run_len bytes.now }
    ensures digit { IsTrue (is_ascii_digit (first bytes.now)) → 0 < result }
    ensures within { result ≤ length bytes.now }
{
    let mut skip: usize = 0;
    for at in 0..bytes.len() {
        if skip == 0 {
            skip = char_len(behind(bytes, at));
            if skip == 0 {
                return at;
            }
        }
        skip -= 1;
    }
    bytes.len()
}

// How many bytes the character at the front takes where it can stand in a word; 0 where it can't.
#[tactic(auto, unfolding(crate::specs::Words::char_len))]
fn char_len(bytes: &[u8]) -> usize
    ensures { result ≡ spec.char_len bytes.now }
{
    match bytes {
        [byte, ..] if byte.is_ascii_alphanumeric() || *byte == b'_' => 1,
        [0xC2, 0xB7, ..] => 2,
        [0xE2, 0x88, 0x95, ..] => 3,
        _ => 0,
    }
}
