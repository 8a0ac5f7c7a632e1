ghost use Rattle.std.specs.Prelude.{◌≡◌, ℕ, List, ◌<◌, All, length, slice_index, unwrap_or};
ghost use Rattle.link_values.specs.Written.{Write, IsInside, written_over, last_byte};

/// Bytes with writes over them are as many as before, and each is that of the last write that has its place, or else the one that
/// was there.
#[tactic(auto, using(crate::proofs::WrittenLemmas::length_over, crate::proofs::WrittenLemmas::byte_over))]
pub fn last_write_stands()
    ensures length { (bytes : List ℕ) (writes : List Write) → All (IsInside (length bytes)) writes
        → length (written_over bytes writes) ≡ length bytes }
    ensures byte { (bytes : List ℕ) (writes : List Write) (place : ℕ) → All (IsInside (length bytes)) writes → place < length bytes
        → slice_index (written_over bytes writes) place ≡ unwrap_or (last_byte writes place) (slice_index bytes place) }
{}
