ghost use Rattle.std.specs.Prelude.{◌≡◌, ℕ, ◌+◌, ◌-◌, ◌<◌, ◌≤◌, ◌&&◌, not, nat_lt, true, false};
ghost use Rattle.asm_target.specs.DepthChange as changes;
ghost use Rattle.asm_target.specs.FlowFunction as functions;
ghost use Rattle.asm_target.specs.Sequences as sequences;
ghost use Rattle.flow_rules.specs.Passing.{AreUnhit, GoesOver, IsBroken};

use crate::goes::{is_goal, jump_goal};
use crate::listing::Listing;
use crate::places::number_at;
use crate::sequence::{count_of, is_in_order};
use asm_target::Sequence;

/// The first instruction whose sequence is in order but has a jump into it; without one, how many instructions there are.
///
/// This takes one pass over the jumps. Whether a sequence behind that one has a jump into it is found by going over the function once
/// more, and that is seldom asked: the broken sequence moves the stack pointer or calls, where only a sequence may, and so breaks a
/// rule by its own last instruction. There the check ends.
pub fn first_hit<L: Listing>(list: &L) -> usize
    ensures most { result ≤ (L.function list.now).count }
    ensures hit { result < (L.function list.now).count → IsBroken (L.function list.now) result }
    ensures unhit { AreUnhit (L.function list.now) result }
{
    let mut first = list.count();
    for number in 0..list.count() {
        first = hit_by(list, number, first);
    }
    first
}

// The same where the jumps before this instruction were looked at, with `first` as their answer.
fn hit_by<L: Listing>(list: &L, number: usize, first: usize) -> usize
    requires inside { number < (L.function list.now).count }
    requires first { first ≤ (L.function list.now).count }
    ensures least { result ≤ first }
    ensures hit { result < first → IsBroken (L.function list.now) result }
    ensures unhit { (s j : ℕ) → s < result → GoesOver (L.function list.now) s (s + j) → 0 < j
        → functions.is_goal (functions.jump_goal (functions.next_at (L.function list.now) number)) ((L.function list.now).at (s + j)) ≡ false }
{
    match jump_goal(list.flow(number).next) {
        Some(goal) => match number_at(list, goal) {
            Some(landing) => begun_before(list, landing, first),
            None => first,
        },
        None => first,
    }
}

// The first instruction before this one whose sequence is in order and goes over it, or `first` where that is before.
fn begun_before<L: Listing>(list: &L, landing: usize, first: usize) -> usize
    requires inside { landing < (L.function list.now).count }
    ensures least { result ≤ first }
    ensures before { result < first → result < landing }
    ensures over { result < first → GoesOver (L.function list.now) result landing }
    ensures none { (s : ℕ) → s < result → s < landing → ¬ GoesOver (L.function list.now) s landing }
{
    let mut least = first;
    for back in 1..5 {
        if back <= landing && landing - back < least && goes_over(list, landing - back, back) {
            least = landing - back;
        }
    }
    least
}

// Whether the sequence that begins with this instruction is in order and has more than so many instructions.
fn goes_over<L: Listing>(list: &L, number: usize, count: usize) -> bool
    requires { number < (L.function list.now).count }
    ensures { result ≡ (functions.is_in_order (L.function list.now) number ((L.function list.now).found number)
        && nat_lt count (sequences.count_of ((L.function list.now).found number))) }
{
    let found = list.found(number);
    is_in_order(list, number, found) && count < count_of(found)
}

/// The sequence that counts as one from this instruction on. `first` is what `first_hit` gives.
#[tactic(auto, unfolding(asm_target::specs::FlowFunction::sequence_at))]
pub fn sequence_at<L: Listing>(list: &L, first: usize, number: usize) -> Sequence
    requires inside { number < (L.function list.now).count }
    requires first { AreUnhit (L.function list.now) first }
    ensures { result ≡ functions.sequence_at (L.function list.now) number }
{
    let found = list.found(number);
    if is_in_order(list, number, found) && is_unhit(list, first, number, count_of(found) - 1) {
        found
    } else {
        Sequence::Plain
    }
}

// Whether no jump goes into the sequence that begins with this instruction, is in order and has so many further instructions.
fn is_unhit<L: Listing>(list: &L, first: usize, number: usize, count: usize) -> bool
    requires inside { number + count < (L.function list.now).count }
    requires first { AreUnhit (L.function list.now) first }
    requires order { functions.is_in_order (L.function list.now) number ((L.function list.now).found number) ≡ true }
    requires count { count ≡ sequences.count_of ((L.function list.now).found number) - 1 }
    ensures { result ≡ not (changes.is_hit (functions.is_target (L.function list.now)) number count) }
{
    number < first || !is_hit(list, number, count)
}

// Whether a jump goes to one of the instructions behind this one.
fn is_hit<L: Listing>(list: &L, number: usize, count: usize) -> bool
    requires { number + count < (L.function list.now).count }
    ensures { result ≡ changes.is_hit (functions.is_target (L.function list.now)) number count }
{
    // There are fewer than 2^64 instructions.
    let _ = list.count();
    let mut hit = false;
    for behind in 0..count {
        hit = hit || is_target(list, number + (behind + 1));
    }
    hit
}

// Whether a jump goes to this instruction.
fn is_target<L: Listing>(list: &L, number: usize) -> bool
    requires { number < (L.function list.now).count }
    ensures { result ≡ functions.is_target (L.function list.now) number }
{
    let address = list.address(number);
    let mut hit = false;
    for from in 0..list.count() {
        hit = hit || is_goal(jump_goal(list.flow(from).next), address);
    }
    hit
}
