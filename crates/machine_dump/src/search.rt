// The range lines of a dump, of which one is found by halves.
ghost use Rattle.std.specs.Prelude.{◌≡◌, ◌<◌, ◌≤◌, ◌+◌, ◌-◌, true, false, None, length, [], ◌∷◌, slice_index};
ghost use Rattle.machine_dump.specs.Lines.{is_newline, lines_of};
ghost use Rattle.machine_dump.specs.Contents.{ranges_in, byte_in, word_in};
ghost use Rattle.machine_dump.specs.Search.{IsBody, IsWindow, IsLow, NoneWithin, address_of};

use crate::digits::{little_number, number};
use crate::marks::Marks;
use goasm_base::behind;
use memchr::memrchr;

/// A part of the range lines. The line from `low` on doesn't begin above the address that is looked for, and goes on up to `from` at
/// least; the one from `high` on, if any, begins above it.
#[derive(Clone, Copy)]
pub struct Window {
    pub low: usize,
    pub from: usize,
    pub high: usize,
}

/// The word at an address: eight bytes, the lowest first. `None` exactly where one of them is in no range.
///
/// The last line that doesn't begin above the address is the one that can have it.
pub fn word_at(marks: &Marks<'_>, at: u64) -> Option<u64>
    requires { IsBody marks.now }
    ensures { result ≡ word_in (byte_in (ranges_in (lines_of marks.now))) at }
{
    if !begins_low(marks.body(), at) {
        return None;
    }
    let window = narrowed(marks.body(), at, marks.window(at));
    word_in_line(line_of(marks.body(), at, window), at)
}

// Whether there is a line, and the first one doesn't begin above the address.
fn begins_low(body: &[u8], at: u64) -> bool
    requires { IsBody body.now }
    ensures low { result ≡ true → (0 < length body.now) × (address_of body.now ≤ at) }
    ensures high { result ≡ false → word_in (byte_in (ranges_in (lines_of body.now))) at ≡ None }
{
    if body.is_empty() {
        return false;
    }
    address(body) <= at
}

// The part that is one line.
fn narrowed(body: &[u8], at: u64, window: Window) -> Window
    requires body { IsBody body.now }
    requires window { IsWindow body.now at window }
    ensures window { IsWindow body.now at result }
    ensures narrow { result.high ≤ result.from + 1 }
{
    let mut window = window;
    while window.from + 1 < window.high {
        window = half(body, at, window);
    }
    window
}

// The half in which the line is.
fn half(body: &[u8], at: u64, window: Window) -> Window
    requires body { IsBody body.now }
    requires window { IsWindow body.now at window }
    requires wide { window.from + 1 < window.high }
    ensures window { IsWindow body.now at result }
    ensures smaller { result.high - result.from < window.high - window.from }
{
    let count = (window.high - window.from) / 2;
    let end = window.from + count;
    match memrchr(b'\n', &behind(body, window.from)[..count]) {
        Some(place) => beside(body, at, window, window.from + place + 1, end),
        None => Window {
            low: window.low,
            from: end,
            high: window.high,
        },
    }
}

// The part on one side of the beginning of a line that goes on up to a place at least.
fn beside(body: &[u8], at: u64, window: Window, start: usize, end: usize) -> Window
    requires body { IsBody body.now }
    requires window { IsWindow body.now at window }
    requires low { window.from < start }
    requires order { start ≤ end }
    requires high { end < window.high }
    requires newline { is_newline (slice_index body.now (start - 1)) ≡ true }
    requires line { NoneWithin body.now start end }
    ensures window { IsWindow body.now at result }
    ensures smaller { result.high - result.from < window.high - window.from }
{
    if address(behind(body, start)) > at {
        Window {
            low: window.low,
            from: window.from,
            high: start,
        }
    } else {
        Window {
            low: start,
            from: end,
            high: window.high,
        }
    }
}

// The line that a part is.
fn line_of(body: &[u8], at: u64, window: Window) -> &[u8]
    requires body { IsBody body.now }
    requires window { IsWindow body.now at window }
    requires narrow { window.high ≤ window.from + 1 }
    ensures low { IsLow result.now at }
    ensures word { word_in (byte_in (ranges_in (lines_of body.now))) at ≡ word_in (byte_in (ranges_in (result.now ∷ []))) at }
{
    &behind(body, window.low)[..window.high - 1 - window.low]
}

/// The address of a text that begins with a `mem` line.
pub fn address(text: &[u8]) -> u64
    requires { 20 ≤ length text.now }
    ensures { result ≡ address_of text.now }
{
    number(&behind(text, 4)[..16])
}

// The word at an address that the line's range doesn't begin above.
fn word_in_line(line: &[u8], at: u64) -> Option<u64>
    requires { IsLow line.now at }
    ensures { result ≡ word_in (byte_in (ranges_in (line.now ∷ []))) at }
{
    let digits = behind(line, 21);
    let index = at - address(line);
    let count = (digits.len() / 2) as u64;
    if count.saturating_sub(index) < 8 {
        None
    } else {
        Some(little_number(&behind(digits, 2 * index as usize)[..16]))
    }
}
