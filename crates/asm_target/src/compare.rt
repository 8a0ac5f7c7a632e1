ghost use Rattle.std.specs.Prelude.{◌≡◌, ◌↔◌, ◌++◌, length, drop, IsTrue};

/// Whether the bytes begin with these others. A target's `read` compares so: it decodes an instruction, spells
/// it, and asks whether the bytes begin with that spelling.
pub fn begins_with(bytes: &[u8], front: &[u8]) -> bool
    ensures { IsTrue result ↔ (bytes.now ≡ front.now ++ drop (length front.now) bytes.now) }
{
    bytes.starts_with(front)
}

/// Whether both are the same bytes.
pub fn is_equal(first: &[u8], second: &[u8]) -> bool
    ensures { IsTrue result ↔ (first.now ≡ second.now) }
{
    first == second
}
