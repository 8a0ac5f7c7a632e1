ghost use Rattle.std.specs.Prelude.{◌≡◌, ℕ, ◌+◌, ◌<◌, IfOk, IfSome, IsTrue, IsFalse, length, slice_index};
ghost use Rattle.least_forms.specs.Problem.{HasRoom, at};
ghost use Rattle.least_forms.specs.Assignment.{DoesReach, IsLost};
ghost use Rattle.least_forms.specs.Work.{HasPlaces, IsStart, IsDropped};

use crate::lines::Lines;
use crate::placing::distance;
use goasm_base::Memory;
use std::alloc::Global;

/// The short form wherever a line branches to a line.
pub fn first_forms<L: Lines>(alloc: Global, lines: &L) -> Result<Vec<u8>, Memory>
    ensures { IfOk result (λ forms. IsStart (L.problem lines.now) forms.items) }
{
    let mut forms = Vec::new(alloc);
    for line in 0..lines.count() {
        forms.push(u8::from(lines.goal(line).is_none()))?;
    }
    Ok(forms)
}

/// Gives its long form to each branch whose short form doesn't reach where the lines stand.
pub fn drop_lost<L: Lines>(lines: &L, forms: &mut [u8], places: &[u32])
    requires fine { L.fine lines.now }
    requires room { HasRoom (L.problem lines.now) }
    requires start { IsStart (L.problem lines.now) forms.old }
    requires places { HasPlaces (L.problem lines.now) forms.old places.now }
    ensures start { IsStart (L.problem lines.now) forms.new }
    ensures dropped { (line : ℕ) → line < (L.problem lines.now).count
        → IsDropped (L.problem lines.now) forms.old forms.new line }
{
    for line in 0..lines.count() {
        if is_lost(lines, 0, places, line) {
            forms[line] = 1;
        }
    }
}

/// Whether the line branches to a line that it doesn't reach in this form, where the lines stand.
fn is_lost<L: Lines>(lines: &L, form: u8, places: &[u32], line: usize) -> bool
    requires fine { L.fine lines.now }
    requires form { form < 2 }
    requires line { line < (L.problem lines.now).count }
    requires places { length places.now ≡ (L.problem lines.now).count + 1 }
    ensures lost { IsTrue result → (goal : ℕ) × ((L.problem lines.now).goal line ≡ Some goal)
        × ¬ (L.problem lines.now).reaches line form (slice_index places.now line) (slice_index places.now goal) }
    ensures reaches { IsFalse result → (goal : ℕ) → (L.problem lines.now).goal line ≡ Some goal
        → (L.problem lines.now).reaches line form (slice_index places.now line) (slice_index places.now goal) }
{
    match lines.goal(line) {
        Some(goal) => !lines.reaches(line, form, places[line], places[goal]),
        None => false,
    }
}

/// The first line that doesn't reach its goal, and its distance.
pub fn first_lost<L: Lines>(lines: &L, forms: &[u8], places: &[u32]) -> Option<(usize, u32)>
    requires fine { L.fine lines.now }
    requires start { IsStart (L.problem lines.now) forms.now }
    requires places { HasPlaces (L.problem lines.now) forms.now places.now }
    ensures some { IfSome result (λ lost. IsLost (L.problem lines.now) (at forms.now) lost.0 lost.1) }
    ensures none { result ≡ None → (line : ℕ) → line < (L.problem lines.now).count
        → DoesReach (L.problem lines.now) (at forms.now) line }
{
    for line in 0..lines.count() {
        if is_lost(lines, forms[line], places, line) {
            return Some((line, distance(lines, places, line)));
        }
    }
    None
}
