// Bytes that are refused wherever they stand in a source.
ghost use Rattle.std.specs.Prelude.{◌≡◌, ◌≤◌, length, take, position};
ghost use Rattle.std.specs.Option.{option_map};
ghost use Rattle.asm_lex.specs.Faults as spec;
ghost use Rattle.asm_lex.specs.Faults.{is_zero};

use crate::fault::{Cause, Fault};
use crate::lines::line_after;

/// The first byte that isn't UTF-8.
#[tactic(auto, unfolding(crate::specs::Faults::utf8_fault), using(crate::proofs::CutLemmas::all_utf8))]
pub fn utf8_fault(bytes: &[u8]) -> Option<Fault>
    ensures { result ≡ spec.utf8_fault bytes.now }
{
    match simdutf8::compat::from_utf8(bytes) {
        Ok(_) => None,
        Err(error) => Some(fault_at(bytes, Cause::NotUtf8, error.valid_up_to())),
    }
}

/// The first zero byte.
#[tactic(auto, unfolding(crate::specs::Faults::zero_fault))]
pub fn zero_fault(bytes: &[u8]) -> Option<Fault>
    ensures { result ≡ spec.zero_fault bytes.now }
{
    match first_zero(bytes) {
        Some(place) => Some(fault_at(bytes, Cause::Stray, place)),
        None => None,
    }
}

fn first_zero(bytes: &[u8]) -> Option<usize>
    ensures { result ≡ position is_zero bytes.now }
{
    bytes.iter().position(|byte| *byte == 0)
}

fn fault_at(bytes: &[u8], cause: Cause, place: usize) -> Fault
    requires { place ≤ length bytes.now }
    ensures { result ≡ spec.fault_at bytes.now cause place }
{
    Fault {
        line: line_after(1, &bytes[..place]),
        cause,
    }
}
