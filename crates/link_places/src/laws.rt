ghost use Rattle.std.specs.Prelude.{◌≡◌, ℕ, List, ◌+◌, ◌%◌, ◌<◌, ◌≤◌, length, slice_index};
ghost use Rattle.link_places.specs.Places.{places_from, end_from};

/// Things one behind the other stand at multiples of 16, with less than 16 between two neighbours, and none reaches into another one
/// or behind the end.
#[tactic(auto, using(crate::proofs::PlaceLemmas::place_whole, crate::proofs::PlaceLemmas::place_near, crate::proofs::PlaceLemmas::place_ends))]
pub fn places_lie_apart()
    ensures whole { (end i : ℕ) (sizes : List ℕ) → i < length sizes → slice_index (places_from end sizes) i % 16 ≡ 0 }
    ensures behind { (end i j : ℕ) (sizes : List ℕ) → i < j → j < length sizes
        → slice_index (places_from end sizes) i + slice_index sizes i ≤ slice_index (places_from end sizes) j }
    ensures near { (end i : ℕ) (sizes : List ℕ) → i + 1 < length sizes
        → slice_index (places_from end sizes) (i + 1) < slice_index (places_from end sizes) i + slice_index sizes i + 16 }
    ensures ended { (end i : ℕ) (sizes : List ℕ) → i < length sizes
        → slice_index (places_from end sizes) i + slice_index sizes i ≤ end_from end sizes }
{}
