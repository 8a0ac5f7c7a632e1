ghost use Rattle.std.specs.Prelude.{◌≡◌, ◌<◌, ◌+◌, ◌^◌, length, Some, IfOk};
ghost use Rattle.std.specs.Option.{option_map};
ghost use Rattle.machine_dump.specs.Lines.{lines_of, is_ended};
ghost use Rattle.machine_dump.specs.Form as spec;
ghost use Rattle.machine_dump.specs.Form.{end_of, range_from, range_of};
ghost use Rattle.machine_dump.specs.Faults as spec_faults;
ghost use Rattle.machine_dump.specs.Faults.{Judges, fault_behind, body_fault};
ghost use Rattle.machine_dump.specs.Search.{IsBody};
ghost use Rattle.machine_dump.specs.Read.{span_of};

use crate::digits::are_small_hex;
use crate::fault::DumpNo;
use crate::header::field;
use crate::line::split_line;
use goasm_base::behind;

/// Where a range lies.
#[derive(Clone, Copy)]
pub struct Span {
    /// The address of its first byte.
    pub first: u64,
    /// The address behind its last byte, at most 2^64.
    pub end: u128,
}

/// Judges the lines behind the first four.
pub fn judge_ranges(body: &[u8]) -> Result<(), DumpNo>
    requires { length body.now + 4 < 2 ^ 32 }
    ensures exact { Judges result (body_fault (lines_of body.now) (is_ended body.now)) }
    ensures body { IfOk result (λ _. IsBody body.now) }
{
    let mut rest = body;
    let mut number: u32 = 5;
    let mut end: Option<u128> = None;
    while !rest.is_empty() {
        let Some(split) = split_line(rest) else {
            return Err(DumpNo::DU1(number));
        };
        match next_end(end, number, split.0) {
            Ok(next) => end = Some(next),
            Err(refusal) => return Err(refusal),
        }
        number += 1;
        rest = split.1;
    }
    Ok(())
}

// The end of the range of a line that follows one with this end.
fn next_end(end: Option<u128>, number: u32, text: &[u8]) -> Result<u128, DumpNo>
    ensures exact { Judges result (fault_behind end number (range_of text.now)) }
    ensures end { IfOk result (λ next. option_map end_of (range_of text.now) ≡ Some next) }
{
    let Some(span) = read_span(text) else {
        return Err(DumpNo::DU1(number));
    };
    if is_apart(end, span.first) {
        Ok(span.end)
    } else {
        Err(DumpNo::DU2(number))
    }
}

fn is_apart(end: Option<u128>, first: u64) -> bool
    ensures { result ≡ spec_faults.is_apart end first }
{
    match end {
        Some(end) => end < u128::from(first),
        None => true,
    }
}

/// Where the range of a `mem` line lies; `None` exactly where the text is no such line.
#[tactic(auto, unfolding(crate::specs::Form::range_of))]
pub fn read_span(text: &[u8]) -> Option<Span>
    ensures { result ≡ option_map span_of (range_of text.now) }
{
    if text.len() < 20 {
        return None;
    }
    let first = field(b"mem ", &text[..20])?;
    span_from(first, behind(text, 20))
}

#[tactic(auto, unfolding(crate::specs::Form::range_from), using(crate::proofs::FormLemmas::length_bytes))]
fn span_from(first: u64, text: &[u8]) -> Option<Span>
    ensures { result ≡ option_map span_of (range_from first text.now) }
{
    if !are_bytes(text) {
        return None;
    }
    let end = u128::from(first) + (behind(text, 1).len() / 2) as u128;
    if end > 1 << 64 {
        return None;
    }
    Some(Span { first, end })
}

fn are_bytes(text: &[u8]) -> bool
    ensures { result ≡ spec.are_bytes text.now }
{
    text.len() > 2 && text.len() % 2 == 1 && text[0] == b' ' && are_small_hex(behind(text, 1))
}
