ghost use Rattle.std.specs.Prelude.{◌≡◌, ◌+◌, ◌*◌, ◌-◌, ◌/◌, ◌^◌, ◌<◌, ◌++◌, List, ℕ, drop, IfOk, OnOk, IsTrue, true, pos, ◌-ℤ◌};
ghost use Rattle.pcvalue.specs.Runs.{runs_of, fits_i32};
ghost use Rattle.pcvalue.specs.Table.{runs_at, value_in, value_of};
ghost use Rattle.pcvalue.specs.Least.{IsLeastForm};
ghost use Rattle.pcvalue.specs.Writing as spec;
ghost use Rattle.pcvalue.specs.Writing.{AreRuns, CanFollow, table_bytes, run_bytes, number_bytes};

use crate::run::Run;
use goasm_base::{Bytes, Memory};
use std::alloc::Global;

/// The pc-value table of the runs, in its least form: each number in its fewest bytes, no run without length, and no
/// neighbours of one value (`funcpctab` in Go's `cmd/internal/obj/pcln.go`).
///
/// Ends count bytes from the function's entry and are multiples of the quantum. There has to be a run; ends rise from
/// above 0, neighbours differ in value, and each change of value, the first from -1, fits 32 bits. It is refused for want of
/// memory alone.
pub fn encode(alloc: Global, runs: &[Run], quantum: u8) -> Result<Bytes, Memory>
    requires { AreRuns quantum runs.now }
    ensures bytes { IfOk result (λ bytes. bytes ≡ table_bytes quantum runs.now) }

    // A reader finds the runs again, wherever the bytes stand in a table of tables.
    ensures read { IfOk result (λ bytes. (table more : List ℕ) (offset : ℕ) → drop offset table ≡ bytes ++ more
        → runs_at table offset quantum ≡ (record { runs = runs.now; whole = true })) }
    ensures values { IfOk result (λ bytes. (table more : List ℕ) (offset place : ℕ) → drop offset table ≡ bytes ++ more → 0 < offset
        → value_in table offset quantum place ≡ value_of place runs.now true) }
    ensures least { IfOk result (λ bytes. (more : List ℕ) → IsLeastForm quantum (bytes ++ more)) }
{
    let bytes = encode_runs(alloc, runs, quantum)?;
    Ok(Bytes::new(bytes))
}

#[tactic(auto, using(crate::proofs::PushLemmas::some_quantum, crate::proofs::PushLemmas::wrote_none, crate::proofs::PushLemmas::wrote_all))]
fn encode_runs(alloc: Global, runs: &[Run], quantum: u8) -> Result<Vec<u8>, Memory>
    requires { AreRuns quantum runs.now }
    ensures { IfOk result (λ bytes. bytes.items ≡ table_bytes quantum runs.now) }
{
    let mut bytes = Vec::new(alloc);
    let mut last = Run { end: 0, value: -1 };
    for run in runs {
        push_run(&mut bytes, quantum, last, *run)?;
        last = *run;
    }
    bytes.push(0)?;
    Ok(bytes)
}

#[tactic(auto, unfolding(crate::specs::Writing::run_bytes))]
fn push_run(bytes: &mut Vec<u8>, quantum: u8, last: Run, run: Run) -> Result<(), Memory>
    requires quantum { 0 < quantum }
    requires follows { CanFollow quantum last run }
    ensures { OnOk result (bytes.new.items ≡ bytes.old.items ++ run_bytes quantum last run) }
{
    push_number(bytes, zigzag_code(run.value - last.value))?;
    push_number(bytes, (run.end - last.end) / u32::from(quantum))
}

fn zigzag_code(change: i32) -> u32
    ensures { result ≡ spec.zigzag_code change }
{
    if change >= 0 {
        2 * change as u32
    } else {
        2 * (-1 - change) as u32 + 1
    }
}

#[tactic(auto, unfolding(crate::specs::Writing::number_bytes))]
fn push_number(bytes: &mut Vec<u8>, number: u32) -> Result<(), Memory>
    ensures { OnOk result (bytes.new.items ≡ bytes.old.items ++ number_bytes number) }
{
    push_number_within(5, bytes, number)
}

#[tactic(auto, unfolding(crate::specs::Writing::number_bytes_within), using(crate::proofs::PushLemmas::pushed_last, crate::proofs::PushLemmas::pushed_more))]
fn push_number_within(most: u8, bytes: &mut Vec<u8>, number: u32) -> Result<(), Memory>
    ensures { OnOk result (bytes.new.items ≡ bytes.old.items ++ spec.number_bytes_within most number) }
{
    if most == 0 {
        return Ok(());
    }
    if number < 128 {
        bytes.push(number as u8)?;
        return Ok(());
    }
    bytes.push((128 + number % 128) as u8)?;
    push_number_within(most - 1, bytes, number / 128)?;
    Ok(())
}
