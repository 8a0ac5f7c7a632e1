ghost use Rattle.std.specs.Prelude.{◌≡◌, ℕ, ◌+◌, ◌<◌, IfOk, IfSome, length, slice_index};
ghost use Rattle.least_forms.specs.Problem.{HasRoom, apart};
ghost use Rattle.least_forms.specs.Work.{HasDistances, HasPlaces, IsStart, IsShort, IsWindow};

use crate::lines::Lines;
use goasm_base::Memory;
use std::alloc::Global;

/// The places of the lines and of the end under these forms.
pub fn places<L: Lines>(alloc: Global, lines: &L, forms: &[u8]) -> Result<Vec<u32>, Memory>
    requires fine { L.fine lines.now }
    requires room { HasRoom (L.problem lines.now) }
    requires start { IsStart (L.problem lines.now) forms.now }
    ensures { IfOk result (λ places. HasPlaces (L.problem lines.now) forms.now places.items) }
{
    let mut places = Vec::new(alloc);
    let mut place: u32 = 0;
    for line in 0..lines.count() {
        places.push(place)?;
        place += lines.width(line, forms[line]);
    }
    places.push(place)?;
    Ok(places)
}

/// How far each branch is from its goal; 0 at a line without one.
pub fn distances<L: Lines>(alloc: Global, lines: &L, places: &[u32]) -> Result<Vec<u32>, Memory>
    requires fine { L.fine lines.now }
    requires places { length places.now ≡ (L.problem lines.now).count + 1 }
    ensures { IfOk result (λ distances. HasDistances (L.problem lines.now) places.now distances.items) }
{
    let mut distances = Vec::new(alloc);
    for line in 0..lines.count() {
        distances.push(distance(lines, places, line))?;
    }
    Ok(distances)
}

/// How far the branch is from its goal.
pub fn distance<L: Lines>(lines: &L, places: &[u32], line: usize) -> u32
    requires fine { L.fine lines.now }
    requires line { line < (L.problem lines.now).count }
    requires places { length places.now ≡ (L.problem lines.now).count + 1 }
    ensures { (goal : ℕ) → (L.problem lines.now).goal line ≡ Some goal
        → result ≡ apart (slice_index places.now line) (slice_index places.now goal) }
{
    match lines.goal(line) {
        Some(goal) => places[line].abs_diff(places[goal]),
        None => 0,
    }
}

/// The most lines that a branch that can still move others goes over.
pub fn window<L: Lines>(lines: &L, forms: &[u8]) -> usize
    requires fine { L.fine lines.now }
    requires len { length forms.now ≡ (L.problem lines.now).count }
    ensures { IsWindow (L.problem lines.now) forms.now result }
{
    let mut window = 0;
    for line in 0..lines.count() {
        if let Some(goal) = short_goal(lines, forms, line) {
            window = window.max(goal.abs_diff(line));
        }
    }
    window
}

/// The goal of the line, where it is a branch in its short form whose long form is longer.
pub fn short_goal<L: Lines>(lines: &L, forms: &[u8], line: usize) -> Option<usize>
    requires line { line < (L.problem lines.now).count }
    requires len { length forms.now ≡ (L.problem lines.now).count }
    ensures some { IfSome result (IsShort (L.problem lines.now) forms.now line) }
    ensures only { (goal : ℕ) → IsShort (L.problem lines.now) forms.now line goal → result ≡ Some goal }
{
    if forms[line] == 0 && lines.width(line, 0) < lines.width(line, 1) {
        lines.goal(line)
    } else {
        None
    }
}
