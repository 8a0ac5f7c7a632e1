ghost use Rattle.std.specs.Prelude.{◌≡◌, ◌≤◌, length, drop};

/// The bytes from a place on, which lies in them or at their end.
pub fn behind(bytes: &[u8], at: usize) -> &[u8]
    requires { at ≤ length bytes.now }
    ensures { result.now ≡ drop at bytes.now }
{
    &bytes[at..]
}

/// The bytes from a place on; none where it is past their end.
pub fn behind_or_empty(bytes: &[u8], at: usize) -> &[u8]
    ensures { result.now ≡ drop at bytes.now }
{
    if at <= bytes.len() {
        behind(bytes, at)
    } else {
        &[]
    }
}
