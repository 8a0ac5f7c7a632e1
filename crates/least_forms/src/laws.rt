ghost use Rattle.std.specs.Prelude.{◌≡◌, ℕ, ◌<◌};
ghost use Rattle.least_forms.specs.Assignment.{DoesReach, IsLeast, IsLost};

use crate::lines::Lines;

/// Lines have one answer: two least assignments are the same, they don't have both branches that all reach and a
/// first that doesn't, and there is one first that doesn't, at one distance.
pub fn one_answer<L: Lines>(lines: &L)
    requires { L.fine lines.now }
    ensures one_least { (one other : ℕ → ℕ) → IsLeast (L.problem lines.now) one → IsLeast (L.problem lines.now) other
        → (line : ℕ) → line < (L.problem lines.now).count → one line ≡ other line }
    ensures not_both { (one other : ℕ → ℕ) → IsLeast (L.problem lines.now) one → IsLeast (L.problem lines.now) other
        → ((line : ℕ) → line < (L.problem lines.now).count → DoesReach (L.problem lines.now) one line)
        → (line distance : ℕ) → ¬ IsLost (L.problem lines.now) other line distance }
    ensures one_lost { (one other : ℕ → ℕ) (line distance line' distance' : ℕ)
        → IsLeast (L.problem lines.now) one → IsLeast (L.problem lines.now) other
        → IsLost (L.problem lines.now) one line distance → IsLost (L.problem lines.now) other line' distance'
        → (line ≡ line') × (distance ≡ distance') }
{
    let _count = lines.count();
}
