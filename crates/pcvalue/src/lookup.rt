ghost use Rattle.std.specs.Prelude.{◌≡◌, ◌≢◌, ℤ, ◌-◌, ◌<◌, ◌↔◌, length, IsTrue};
ghost use Rattle.pcvalue.specs.Runs.{runs_of};
ghost use Rattle.pcvalue.specs.Table.{runs_at, value_in, IsPcTable, HasValue, answer_of};

use crate::answer::Answer;
use crate::run::Run;
use crate::step::{Cursor, Step, next_run};
use goasm_base::behind_or_empty;

/// What the pc-value table at an offset of the bytes says of a place.
///
/// The place counts bytes from the function's entry. The quantum is the size in bytes of the steps by which
/// the table counts places: 1 on amd64, 4 on arm64 and riscv64. The offset 0 means that there is no table.
#[tactic(auto, using(crate::proofs::TableLemmas::known_in, crate::proofs::ValueLemmas::value_has, crate::proofs::ValueLemmas::has_value))]
pub fn value_at(table: &[u8], offset: u32, quantum: u8, place: u32) -> Answer
    ensures value { result ≡ value_in table.now offset quantum place }
    ensures known { IsPcTable table.now offset quantum → result ≢ Answer.Bad }

    // A value is that of the one run that has the place.
    ensures run { (v : ℤ) → 0 < offset
        → (result ≡ Answer.Value v) ↔ HasValue 0 (runs_at table.now offset quantum).runs place v }
{
    look_up(table, offset, quantum, place)
}

/// Whether a whole table stands at the offset, up to the pair that ends it, or none is meant.
#[tactic(auto, using(crate::proofs::TableLemmas::known_in, crate::proofs::TableLemmas::known_at_greatest))]
pub fn is_pc_table(table: &[u8], offset: u32, quantum: u8) -> bool
    ensures { IsTrue result ↔ IsPcTable table.now offset quantum }
{
    // No run ends behind this place.
    look_up(table, offset, quantum, u32::MAX) != Answer::Bad
}

#[tactic(auto, unfolding(crate::specs::Table::value_in))]
fn look_up(table: &[u8], offset: u32, quantum: u8, place: u32) -> Answer
    ensures { result ≡ value_in table.now offset quantum place }
{
    if offset == 0 {
        Answer::Absent
    } else {
        value_from(behind_or_empty(table, offset as usize), quantum, place)
    }
}

#[tactic(auto, unfolding(crate::specs::Runs::runs_of, crate::specs::Runs::runs_within))]
fn value_from(bytes: &[u8], quantum: u8, place: u32) -> Answer
    ensures { result ≡ answer_of place (runs_of quantum bytes.now) }
{
    let mut cursor = Cursor {
        run: Run { end: 0, value: -1 },
        rest: bytes,
    };
    let mut first = true;
    // Each run takes two bytes at least.
    'runs: for _ in 0..bytes.len() {
        match next_run(quantum, first, &cursor) {
            Step::Another(next) => {
                if place < next.run.end {
                    return Answer::Value(next.run.value);
                }
                cursor = next;
                first = false;
            }
            Step::Finished => return Answer::Past,
            Step::Fault => return Answer::Bad,
        }
    }
    Answer::Bad
}
