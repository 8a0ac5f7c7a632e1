// Laws about the definitions in specs/, each the contract of a function that does nothing.
ghost use Rattle.std.specs.Prelude.{◌≡◌, ℕ, ◌≤◌, false, List};
ghost use Rattle.image_marks.specs.Bits.{has, room, IsNearest};
ghost use Rattle.image_marks.specs.Buckets.{IsOwner};

/// A set has no number past its room.
#[tactic(auto, using(crate::proofs::BitLemmas::past_has))]
pub fn none_past_room()
    ensures { (words : List ℕ) (number : ℕ) → room words ≤ number → has words number ≡ false }
{}

/// There is one nearest number.
pub fn one_nearest()
    ensures { (words : List ℕ) (before one other : ℕ) → IsNearest words before one → IsNearest words before other → one ≡ other }
{}

/// An offset belongs to one function.
pub fn one_owner()
    ensures { (entries : List ℕ) (offset one other : ℕ) → IsOwner entries offset one → IsOwner entries offset other → one ≡ other }
{}
