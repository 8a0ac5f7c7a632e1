ghost use Rattle.std.specs.Prelude.{◌≡◌, ◌^◌, ◌<◌, ◌++◌, All, ℕ, IfOk, OnOk};
ghost use Rattle.pcvalue.specs.Cover.{Covers};
ghost use Rattle.pcvalue.specs.Writing.{AreRuns};
ghost use Rattle.link_tables.specs.Stretches as spec;
ghost use Rattle.link_tables.specs.Stretches.{AreStretches, IsQuantum, IsWhole, ends_of, values_of, merged, merged_from, ended};

use crate::stretch::Stretch;
use goasm_base::Memory;
use pcvalue::Run;
use std::alloc::Global;

/// The runs of a function's stretches: equal neighbours are one run, as a pc-value table has them. It goes over the
/// stretches once, and is refused for want of memory alone.
#[tactic(auto, using(crate::proofs::MergedLemmas::merged_runs, crate::proofs::MergedLemmas::merged_covers))]
pub fn runs_of(alloc: Global, stretches: &[Stretch]) -> Result<Vec<Run>, Memory>
    requires { AreStretches stretches.now }
    ensures merged { IfOk result (λ runs. runs.items ≡ merged stretches.now) }

    // A pc-value table can be written from them, where all ends are whole quanta, and gives each stretch its value.
    ensures runs { (quantum : ℕ) → IsQuantum quantum → All (IsWhole quantum) stretches.now
        → IfOk result (λ runs. AreRuns quantum runs.items) }
    ensures covers { IfOk result (λ runs. Covers 0 (ends_of stretches.now) (values_of stretches.now) runs.items) }
{
    let runs = merge_all(alloc, stretches)?;
    Ok(runs)
}

#[tactic(auto, using(crate::proofs::MergedLemmas::small_first, crate::proofs::MergedLemmas::small_others, crate::proofs::MergedLemmas::merged_behind))]
fn merge_all(alloc: Global, stretches: &[Stretch]) -> Result<Vec<Run>, Memory>
    requires { AreStretches stretches.now }
    ensures { IfOk result (λ runs. runs.items ≡ merged stretches.now) }
{
    match stretches {
        [] => Ok(Vec::new(alloc)),
        [first, others @ ..] => {
            let runs = merge(alloc, *first, others)?;
            Ok(runs)
        }
    }
}

#[tactic(auto, unfolding(crate::specs::Stretches::merged_from), using(crate::proofs::MergedLemmas::merged_all))]
fn merge(alloc: Global, first: Stretch, others: &[Stretch]) -> Result<Vec<Run>, Memory>
    requires first { first.value < 2 ^ 31 }
    requires others { All (λ stretch. stretch.value < 2 ^ 31) others.now }
    ensures { IfOk result (λ runs. runs.items ≡ merged_from first others.now) }
{
    let mut runs = Vec::new(alloc);
    let mut last = first;
    for stretch in others {
        push_ended(&mut runs, last, *stretch)?;
        last = *stretch;
    }
    runs.push(run_of(last))?;
    Ok(runs)
}

// The run that ends with a stretch, if one does.
fn push_ended(runs: &mut Vec<Run>, last: Stretch, next: Stretch) -> Result<(), Memory>
    requires { last.value < 2 ^ 31 }
    ensures { OnOk result (runs.new.items ≡ runs.old.items ++ ended last next) }
{
    if last.value != next.value {
        runs.push(run_of(last))?;
    }
    Ok(())
}

fn run_of(stretch: Stretch) -> Run
    requires { stretch.value < 2 ^ 31 }
    ensures { result ≡ spec.run_of stretch }
{
    Run {
        end: stretch.end,
        value: stretch.value as i32,
    }
}
