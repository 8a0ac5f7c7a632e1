ghost use Rattle.std.specs.Prelude.{◌≡◌, ◌+◌, ◌*◌, ◌^◌, ◌+ℤ◌, nat_lt, Some, None, if◌then◌else◌};
ghost use Rattle.pcvalue.specs.Runs as spec;
ghost use Rattle.pcvalue.specs.Steps.{point_of, reading_of};

use crate::run::Run;
use crate::varint::varint;

// The run that was read last, and the bytes behind it.
#[derive(Clone, Copy)]
pub struct Cursor<'a> {
    pub run: Run,
    pub rest: &'a [u8],
}

// What stands at a cursor.
#[derive(Clone, Copy)]
pub enum Step<'a> {
    Another(Cursor<'a>),
    Finished,
    Fault,
}

#[tactic(auto, unfolding(crate::specs::Runs::next_run))]
pub fn next_run<'a>(quantum: u8, first: bool, cursor: &Cursor<'a>) -> Step<'a>
    ensures { reading_of result ≡ spec.next_run quantum first (point_of cursor.now) }
{
    match varint(cursor.rest) {
        Some((code, rest)) => run_by(quantum, first, cursor, code, rest),
        None => Step::Fault,
    }
}

#[tactic(auto, unfolding(crate::specs::Runs::run_by))]
fn run_by<'a>(quantum: u8, first: bool, cursor: &Cursor<'a>, code: u32, rest: &'a [u8]) -> Step<'a>
    ensures { reading_of result ≡ spec.run_by quantum first (point_of cursor.now) (code, rest.now) }
{
    if code == 0 && !first {
        return Step::Finished;
    }
    match varint(rest) {
        Some((quanta, rest)) => run_over(quantum, cursor, code, quanta, rest),
        None => Step::Fault,
    }
}

#[tactic(auto, unfolding(crate::specs::Runs::run_over))]
fn run_over<'a>(
    quantum: u8,
    cursor: &Cursor<'a>,
    code: u32,
    quanta: u32,
    rest: &'a [u8],
) -> Step<'a>
    ensures { reading_of result ≡ spec.run_over quantum (point_of cursor.now) code (quanta, rest.now) }
{
    match (
        value_after(cursor.run.value, code),
        end_after(cursor.run.end, quanta, quantum),
    ) {
        (Some(value), Some(end)) => Step::Another(Cursor {
            run: Run { end, value },
            rest,
        }),
        _ => Step::Fault,
    }
}

// The value changed by a zigzag code.
fn value_after(value: i32, code: u32) -> Option<i32>
    ensures { result ≡ (if spec.fits_i32 (value +ℤ spec.zigzag code) then Some (value +ℤ spec.zigzag code) else None) }
{
    let half = (code / 2) as i32;
    let change = if code % 2 == 0 { half } else { -1 - half };
    value.checked_add(change)
}

fn end_after(end: u32, quanta: u32, quantum: u8) -> Option<u32>
    ensures { result ≡ (if nat_lt (end + quanta * quantum) (2 ^ 32) then Some (end + quanta * quantum) else None) }
{
    quanta.checked_mul(u32::from(quantum))?.checked_add(end)
}
