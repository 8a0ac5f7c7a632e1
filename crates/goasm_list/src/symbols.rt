ghost use Rattle.std.specs.Prelude.{◌≡◌};
ghost use Rattle.std.specs.List.{list_all};
ghost use Rattle.goasm_list.specs.Symbols as spec;

/// Whether the name is one that a word of a source can stand for.
#[tactic(auto, unfolding(crate::specs::Symbols::is_symbol))]
pub fn is_symbol(name: &[u8]) -> bool
    ensures { result ≡ spec.is_symbol name.now }
{
    match name {
        [] => false,
        [first, rest @ ..] => opens_symbol(*first) && all_continue(rest),
    }
}

fn all_continue(bytes: &[u8]) -> bool
    ensures { result ≡ list_all spec.continues_symbol bytes.now }
{
    bytes.iter().all(|byte| continues_symbol(*byte))
}

fn opens_symbol(byte: u8) -> bool
    ensures { result ≡ spec.opens_symbol byte }
{
    byte.is_ascii_alphabetic() || byte == b'_' || byte == b'/'
}

fn continues_symbol(byte: u8) -> bool
    ensures { result ≡ spec.continues_symbol byte }
{
    opens_symbol(byte) || byte.is_ascii_digit() || byte == b'.'
}

/// Whether what lies outside an image may lie at this address.
pub fn is_outside_address(at: u64) -> bool
    ensures { result ≡ spec.is_outside_address at }
{
    at % 4 == 0 && (0x1000..=0x3F_FFFC).contains(&at)
}
