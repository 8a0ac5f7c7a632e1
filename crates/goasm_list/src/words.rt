ghost use Rattle.std.specs.Prelude.{◌≡◌, ◌==◌, position};
ghost use Rattle.std.specs.List.{before_first, after_first};
ghost use Rattle.goasm_list.specs.Words as spec;
ghost use Rattle.goasm_list.specs.Words.{first_word, behind_word, is_glyph};

/// The bytes before the first such byte, and those behind it; all of them and none where there is no such byte.
pub fn split_at_first(separator: u8, bytes: &[u8]) -> (&[u8], &[u8])
    ensures before { result.0.now ≡ before_first (λ byte. byte == separator) bytes.now }
    ensures behind { result.1.now ≡ after_first (λ byte. byte == separator) bytes.now }
{
    match first_place(separator, bytes) {
        Some(at) => (&bytes[..at], &bytes[at + 1..]),
        None => (bytes, &[]),
    }
}

fn first_place(wanted: u8, bytes: &[u8]) -> Option<usize>
    ensures { result ≡ position (λ byte. byte == wanted) bytes.now }
{
    bytes.iter().position(|byte| *byte == wanted)
}

/// The first word of a line, empty where there is none, and what stands behind it and the spaces after it.
#[tactic(auto, unfolding(crate::specs::Words::first_word, crate::specs::Words::behind_word))]
pub fn split_word(text: &[u8]) -> (&[u8], &[u8])
    ensures word { result.0.now ≡ first_word text.now }
    ensures behind { result.1.now ≡ behind_word text.now }
{
    let (word, behind) = split_at_first(b' ', without_spaces(text));
    (word, without_spaces(behind))
}

// The text from its first byte on that isn't a space.
fn without_spaces(text: &[u8]) -> &[u8]
    ensures { result.now ≡ spec.without_spaces text.now }
{
    match first_glyph(text) {
        Some(at) => &text[at..],
        None => &[],
    }
}

fn first_glyph(text: &[u8]) -> Option<usize>
    ensures { result ≡ position is_glyph text.now }
{
    text.iter().position(|byte| *byte != b' ')
}
