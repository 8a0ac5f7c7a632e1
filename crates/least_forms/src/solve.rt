ghost use Rattle.std.specs.Prelude.{◌≡◌, ℕ, ◌<◌, IfOk, slice_index, length};
ghost use Rattle.least_forms.specs.declared.sizes.FormsNo.TheVariants.{Lost};
ghost use Rattle.least_forms.specs.Problem.{HasRoom, at, place};
ghost use Rattle.least_forms.specs.Assignment.{DoesReach, IsLeast, IsLost};
ghost use Rattle.least_forms.specs.Work.{HasPlaces, IsStart, AllReach};

use crate::drops::{drop_lost, first_forms, first_lost};
use crate::lines::Lines;
use crate::placing::{distances, places};
use crate::sizes::{FormsNo, Sizes};
use crate::work::settle;
use goasm_base::{List, Memory};
use std::alloc::Global;

/// The least assignment in which every branch in its short form reaches its goal, and with it the places of the
/// lines. A line that branches to no line has its long form.
///
/// `Lost` comes exactly where, in that assignment, a branch in its long form doesn't reach its goal: for the first
/// such line, with its distance in bytes. `Memory` comes only for want of memory.
pub fn least_sizes<L: Lines>(alloc: Global, lines: &L) -> Result<Sizes, FormsNo>
    requires fine { L.fine lines.now }
    requires room { HasRoom (L.problem lines.now) }
    ensures least { IfOk result (λ sizes. IsLeast (L.problem lines.now) (at sizes.forms)) }
    ensures reaches { IfOk result (λ sizes. (line : ℕ) → line < (L.problem lines.now).count
        → DoesReach (L.problem lines.now) (at sizes.forms) line) }
    ensures lost { (line distance : ℕ) → result ≡ Err (Lost line distance)
        → (form : ℕ → ℕ) × IsLeast (L.problem lines.now) form × IsLost (L.problem lines.now) form line distance }

    ensures forms { IfOk result (λ sizes. length sizes.forms ≡ (L.problem lines.now).count) }
    ensures places { IfOk result (λ sizes. length sizes.places ≡ (L.problem lines.now).count) }
    ensures place { IfOk result (λ sizes. (line : ℕ) → line < (L.problem lines.now).count
        → slice_index sizes.places line ≡ place (L.problem lines.now) (at sizes.forms) line) }
    ensures length { IfOk result (λ sizes.
        sizes.length ≡ place (L.problem lines.now) (at sizes.forms) (L.problem lines.now).count) }
{
    let forms = least_forms(alloc, lines)?;
    let mut places = places(alloc, lines, &forms)?;
    if let Some((line, distance)) = first_lost(lines, &forms, &places) {
        return Err(FormsNo::Lost(line, distance));
    }
    let length = places[lines.count()];
    places.truncate(lines.count());
    Ok(Sizes {
        forms: List::new(forms),
        places: List::new(places),
        length,
    })
}

// The least assignment.
fn least_forms<L: Lines>(alloc: Global, lines: &L) -> Result<Vec<u8>, Memory>
    requires fine { L.fine lines.now }
    requires room { HasRoom (L.problem lines.now) }
    ensures least { IfOk result (λ forms. IsLeast (L.problem lines.now) (at forms.items)) }
    ensures start { IfOk result (λ forms. IsStart (L.problem lines.now) forms.items) }
{
    let mut forms = first_forms(alloc, lines)?;
    let nearest = places(alloc, lines, &forms)?;
    drop_lost(lines, &mut forms, &nearest);
    let dropped = places(alloc, lines, &forms)?;
    let mut distances = distances(alloc, lines, &dropped)?;
    let mut marks = vec![in alloc; true; lines.count()]?;
    settle(lines, &mut forms, &dropped, &mut distances, &mut marks);
    let settled = places(alloc, lines, &forms)?;
    finish(lines, &mut forms, &settled);
    Ok(forms)
}

// Looks at the branches whose forms are equally long: none of them has moved a line, so that each is judged once, at
// the last places.
fn finish<L: Lines>(lines: &L, forms: &mut [u8], places: &[u32])
    requires fine { L.fine lines.now }
    requires room { HasRoom (L.problem lines.now) }
    requires start { IsStart (L.problem lines.now) forms.old }
    requires places { HasPlaces (L.problem lines.now) forms.old places.now }
    requires reach { AllReach (L.problem lines.now) forms.old }
    ensures least { IsLeast (L.problem lines.now) (at forms.new) }
    ensures start { IsStart (L.problem lines.now) forms.new }
{
    drop_lost(lines, forms, places);
}
