ghost use Rattle.std.specs.Prelude.{◌≡◌, ◌↔◌, ℕ, ◌+◌, ◌<◌, false, IfSome, IsTrue, IsFalse, length, replicate, slice_index, true};
ghost use Rattle.least_forms.specs.Problem.{HasRoom};
ghost use Rattle.least_forms.specs.Work.{AllReach, HasDistances, HasPlaces, IsShort, IsStart, IsWindow, IsWork, ReachesOver, Touches, mark, shorts};

use crate::lines::Lines;
use crate::placing::{short_goal, window};

/// Gives each branch that loses its reach its long form, until none does.
///
/// A mark says that a branch may have lost its reach. The marked lines from the cursor `from` on are looked at in
/// their order; where one grows, only branches that go over it lose reach, so that the cursor goes back by the most
/// lines that a branch goes over.
pub fn settle<L: Lines>(
    lines: &L,
    forms: &mut [u8],
    places: &[u32],
    distances: &mut [u32],
    marks: &mut [bool],
)
    requires fine { L.fine lines.now }
    requires room { HasRoom (L.problem lines.now) }
    requires start { IsStart (L.problem lines.now) forms.old }
    requires places { HasPlaces (L.problem lines.now) forms.old places.now }
    requires distances { HasDistances (L.problem lines.now) places.now distances.old }
    requires marks { marks.old ≡ replicate (L.problem lines.now).count true }
    ensures start { IsStart (L.problem lines.now) forms.new }
    ensures reach { AllReach (L.problem lines.now) forms.new }
{
    let window = window(lines, forms);
    let mut from: usize = 0;
    while let Some(line) = next_lost(lines, forms, distances, marks, from) {
        grow(lines, forms, distances, marks, line, window);
        from = line.saturating_sub(window);
    }
}

// The first marked line from the cursor on that has lost its reach. The marks of those before it are taken off.
fn next_lost<L: Lines>(
    lines: &L,
    forms: &[u8],
    distances: &[u32],
    marks: &mut [bool],
    from: usize,
) -> Option<usize>
    requires fine { L.fine lines.now }
    requires work { IsWork (L.problem lines.now) forms.now distances.now marks.old }
    requires clean { (line : ℕ) → line < from → mark marks.old line ≡ false }
    ensures work { IsWork (L.problem lines.now) forms.now distances.now marks.new }
    ensures lost { IfSome result (λ line. (goal : ℕ) × IsShort (L.problem lines.now) forms.now line goal
        × ¬ ReachesOver (L.problem lines.now) line goal (slice_index distances.now line)) }
    ensures clean { IfSome result (λ found. (line : ℕ) → line < found → mark marks.new line ≡ false) }
    ensures none { result ≡ None → (line : ℕ) → line < (L.problem lines.now).count → mark marks.new line ≡ false }
{
    for line in from..lines.count() {
        if marks[line] {
            if has_lost(lines, forms, distances, line) {
                return Some(line);
            }
            marks[line] = false;
        }
    }
    None
}

// Whether the line is a short branch that doesn't reach over its distance.
fn has_lost<L: Lines>(lines: &L, forms: &[u8], distances: &[u32], line: usize) -> bool
    requires line { line < (L.problem lines.now).count }
    requires len { length forms.now ≡ (L.problem lines.now).count }
    requires len_distances { length distances.now ≡ (L.problem lines.now).count }
    ensures lost { IsTrue result → (goal : ℕ) × IsShort (L.problem lines.now) forms.now line goal
        × ¬ ReachesOver (L.problem lines.now) line goal (slice_index distances.now line) }
    ensures reaches { IsFalse result → (goal : ℕ) → IsShort (L.problem lines.now) forms.now line goal
        → ReachesOver (L.problem lines.now) line goal (slice_index distances.now line) }
{
    match short_goal(lines, forms, line) {
        Some(goal) => !reaches_over(lines, line, goal, distances[line]),
        None => false,
    }
}

// Whether the branch, in its short form, reaches a goal that is so far from it.
fn reaches_over<L: Lines>(lines: &L, line: usize, goal: usize, distance: u32) -> bool
    requires { line < (L.problem lines.now).count }
    ensures { IsTrue result ↔ ReachesOver (L.problem lines.now) line goal distance }
{
    if goal < line {
        lines.reaches(line, 0, distance, 0)
    } else {
        lines.reaches(line, 0, 0, distance)
    }
}

// Gives the line its long form, and marks the branches that go over it.
fn grow<L: Lines>(
    lines: &L,
    forms: &mut [u8],
    distances: &mut [u32],
    marks: &mut [bool],
    line: usize,
    window: usize,
)
    requires fine { L.fine lines.now }
    requires room { HasRoom (L.problem lines.now) }
    requires work { IsWork (L.problem lines.now) forms.old distances.old marks.old }
    requires window { IsWindow (L.problem lines.now) forms.old window }
    requires lost { (goal : ℕ) × IsShort (L.problem lines.now) forms.old line goal
        × ¬ ReachesOver (L.problem lines.now) line goal (slice_index distances.old line) }
    ensures work { IsWork (L.problem lines.now) forms.new distances.new marks.new }
    ensures window { IsWindow (L.problem lines.now) forms.new window }
    ensures fewer { shorts forms.new < shorts forms.old }
    ensures marks { (other : ℕ) → other + window < line → mark marks.new other ≡ mark marks.old other }
{
    forms[line] = 1;
    let first = line.saturating_sub(window);
    let end = line
        .saturating_add(window)
        .saturating_add(1)
        .min(lines.count());
    let growth = lines.width(line, 1) - lines.width(line, 0);
    for other in first..end {
        if touches(lines, forms, other, line) {
            distances[other] += growth;
            marks[other] = true;
        }
    }
}

// Whether the line `other` is a short branch that goes over the line.
fn touches<L: Lines>(lines: &L, forms: &[u8], other: usize, line: usize) -> bool
    requires line { other < (L.problem lines.now).count }
    requires len { length forms.now ≡ (L.problem lines.now).count }
    ensures { IsTrue result ↔ Touches (L.problem lines.now) forms.now other line }
{
    match short_goal(lines, forms, other) {
        Some(goal) => (other <= line && line < goal) || (goal <= line && line < other),
        None => false,
    }
}
