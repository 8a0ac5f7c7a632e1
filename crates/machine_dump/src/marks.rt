// Where lines begin, for places that stand equally far apart.
ghost use Rattle.std.specs.Prelude.{◌≡◌, ◌+◌, ◌<◌, ◌≤◌, ◌^◌, length, drop, slice_index};
ghost use Rattle.machine_dump.specs.Search as spec;
ghost use Rattle.machine_dump.specs.Search.{IsBody, IsWindow, IsMark, AreMarks, address_of};

use crate::search::{Window, address};
use goasm_base::behind;
use memchr::memrchr;
use std::marker::Model;

/// For how many places of a text it's kept where their line begins.
const MARKS: usize = 4096;

/// The range lines of a dump, with marks: for places that stand equally far apart it's kept where the line of each begins. So a
/// line of any length is found by a look at no more than what stands between two places. Contracts see the text.
#[derive(Drop)]
pub struct Marks<'a> {
    body: &'a [u8],
    starts: [u32; MARKS],
}

impl<'a> Model for Marks<'a> {
    ghost use Rattle.std.specs.Prelude.{ℕ, List};
    ghost use Rattle.machine_dump.specs.Search.{AreMarks};

    ghost Value = { List ℕ };

    ghost view = { λ m. m.body.now };

    ghost invariant = { λ m. AreMarks m.body.now m.starts };
}

impl<'a> Marks<'a> {
    /// The marks of a text.
    pub fn new(body: &'a [u8]) -> Marks<'a>
        requires { length body.now < 2 ^ 32 }
        ensures { result ≡ body.now }
    {
        let mut starts = [0; MARKS];
        for index in 1..MARKS {
            let from = place_of(body, index - 1);
            let to = place_of(body, index);
            starts[index] = start_of(body, starts[index - 1], from, to);
        }
        Marks { body, starts }
    }

    /// The text.
    pub fn body(&self) -> &'a [u8]
        ensures { result.now ≡ self.now }
    {
        self.body
    }

    /// A part of the text in which the last line is that doesn't begin above the address, where the first one doesn't.
    pub fn window(&self, at: u64) -> Window
        requires body { IsBody self.now }
        requires some { 0 < length self.now }
        requires first { address_of self.now ≤ at }
        ensures { IsWindow self.now at result }
    {
        let number = last_low(self.body, &self.starts, at);
        window_from(self.body, &self.starts, at, number)
    }
}

// The number of the last place whose line doesn't begin above the address.
fn last_low(body: &[u8], starts: &[u32; MARKS], at: u64) -> usize
    requires body { IsBody body.now }
    requires marks { AreMarks body.now starts.now }
    requires some { 0 < length body.now }
    requires first { address_of body.now ≤ at }
    ensures inside { result < 4096 }
    ensures low { address_of (drop (slice_index starts.now result) body.now) ≤ at }
    ensures high { result + 1 < 4096 → at < address_of (drop (slice_index starts.now (result + 1)) body.now) }
{
    let mut low = 0;
    let mut high = MARKS;
    while low + 1 < high {
        let middle = low + (high - low) / 2;
        if address(behind(body, starts[middle] as usize)) > at {
            high = middle;
        } else {
            low = middle;
        }
    }
    low
}

// The part from the line of the place with this number to that of the next one.
fn window_from(body: &[u8], starts: &[u32; MARKS], at: u64, number: usize) -> Window
    requires body { IsBody body.now }
    requires marks { AreMarks body.now starts.now }
    requires some { 0 < length body.now }
    requires inside { number < 4096 }
    requires low { address_of (drop (slice_index starts.now number) body.now) ≤ at }
    requires high { number + 1 < 4096 → at < address_of (drop (slice_index starts.now (number + 1)) body.now) }
    ensures { IsWindow body.now at result }
{
    if number + 1 < MARKS {
        return Window {
            low: starts[number] as usize,
            from: place_of(body, number),
            high: starts[number + 1] as usize,
        };
    }
    Window {
        low: starts[number] as usize,
        from: place_of(body, number),
        high: body.len(),
    }
}

// The place with this number.
fn place_of(body: &[u8], number: usize) -> usize
    requires { number < 4096 }
    ensures { result ≡ spec.place_of (length body.now) number }
{
    (number * (body.len() / MARKS + 1)).min(body.len().saturating_sub(1))
}

// Where the line of a place begins, by where that of an earlier place does.
fn start_of(body: &[u8], start: u32, from: usize, to: usize) -> u32
    requires few { length body.now < 2 ^ 32 }
    requires mark { IsMark body.now from start }
    requires order { from ≤ to }
    requires inside { to ≤ length body.now }
    ensures { IsMark body.now to result }
{
    match memrchr(b'\n', &behind(body, from)[..to - from]) {
        Some(place) => (from + place + 1) as u32,
        None => start,
    }
}
