ghost use Rattle.std.specs.Prelude.{◌≡◌, true};
ghost use Rattle.pcvalue.specs.Least as spec;
ghost use Rattle.pcvalue.specs.Varint.{varint};
ghost use Rattle.pcvalue.specs.Spread.{is_least_at};

use crate::varint::varint;

/// Whether the run or the end that the bytes begin with has its least form.
#[tactic(auto, unfolding(crate::specs::Spread::is_least_at))]
pub fn is_least(quantum: u8, first: bool, bytes: &[u8]) -> bool
    ensures { result ≡ is_least_at quantum first bytes.now }
{
    let Some(code) = varint(bytes) else {
        return false;
    };
    if !is_shortest(bytes, code.0, code.1) {
        return false;
    }
    if code.0 == 0 && !first {
        return true;
    }
    are_least_quanta(quantum, code.1)
}

// Whether a number of quanta that isn't 0 stands there in its fewest bytes.
fn are_least_quanta(quantum: u8, bytes: &[u8]) -> bool
    ensures { result ≡ spec.and_read (varint bytes.now) (spec.are_least_quanta quantum (λ _. true) bytes.now) }
{
    let Some(quanta) = varint(bytes) else {
        return false;
    };
    is_shortest(bytes, quanta.0, quanta.1) && u64::from(quanta.0) * u64::from(quantum) > 0
}

// Whether the number that was read from the front of the bytes has its fewest bytes.
fn is_shortest(bytes: &[u8], number: u32, rest: &[u8]) -> bool
    ensures { result ≡ spec.is_shortest bytes.now (number, rest.now) }
{
    bytes.len() == varint_len(number) + rest.len()
}

// The fewest bytes that spell a number.
fn varint_len(number: u32) -> usize
    ensures { result ≡ spec.varint_len number }
{
    if number < 1 << 7 {
        1
    } else if number < 1 << 14 {
        2
    } else if number < 1 << 21 {
        3
    } else if number < 1 << 28 {
        4
    } else {
        5
    }
}
