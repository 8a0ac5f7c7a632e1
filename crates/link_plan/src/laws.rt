ghost use Rattle.std.specs.Prelude.{◌≡◌, ℕ, List, ◌<◌, length, map, slice_index, sum, take};
ghost use Rattle.byte_layout.specs.Joined.{aligned};
ghost use Rattle.link_places.specs.Places.{places_from, end_from};

/// Things one behind the other from 0 on stand where those before them end, if each reaches up to a multiple of 16, and have together as
/// many bytes as they have then.
#[tactic(auto, using(crate::proofs::PaddedLemmas::place_of_padded, crate::proofs::PaddedLemmas::end_of_padded, crate::proofs::PaddedLemmas::places_of_all))]
pub fn padded_sizes_add_up()
    ensures count { (sizes : List ℕ) → length (places_from 0 sizes) ≡ length sizes }
    ensures place { (k : ℕ) (sizes : List ℕ) → k < length sizes
        → slice_index (places_from 0 sizes) k ≡ sum (map (aligned 16) (take k sizes)) }
    ensures end { (sizes : List ℕ) → aligned 16 (end_from 0 sizes) ≡ sum (map (aligned 16) sizes) }
{}
