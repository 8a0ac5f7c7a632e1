ghost use Rattle.std.specs.Prelude.{◌≡◌, ◌+◌, ◌<◌, ◌≤◌, true};
ghost use Rattle.asm_target.specs.FlowFunction as functions;
ghost use Rattle.asm_target.specs.Sequences as sequences;

use crate::goes::{call_goal, is_goal, jump_goal};
use crate::listing::Listing;
use asm_target::Sequence;

/// How many instructions a sequence has.
pub fn count_of(found: Sequence) -> usize
    ensures { result ≡ sequences.count_of found }
{
    match found {
        Sequence::Plain => 1,
        Sequence::Saving { count, .. }
        | Sequence::Restoring { count, .. }
        | Sequence::Growth { count } => usize::from(count),
    }
}

/// How many of them are judged by it: the jump that ends a sequence which has the stack grow is an instruction like any other.
pub fn span_of(found: Sequence) -> usize
    ensures { result ≡ sequences.span_of found }
{
    match found {
        Sequence::Growth { count } => usize::from(count).saturating_sub(1),
        _ => count_of(found),
    }
}

/// By how much the depth is greater behind its last instruction.
pub fn depth_added_by(found: Sequence) -> i64
    ensures { result ≡ sequences.depth_added_by found }
{
    match found {
        Sequence::Saving { total, .. } => i64::from(total),
        Sequence::Restoring { total, .. } => -i64::from(total),
        Sequence::Plain | Sequence::Growth { .. } => 0,
    }
}

/// Whether it makes a frame.
pub fn is_saving(found: Sequence) -> bool
    ensures { result ≡ sequences.is_saving found }
{
    matches!(found, Sequence::Saving { .. })
}

/// Whether it makes or leaves a frame.
pub fn is_of_frame(found: Sequence) -> bool
    ensures { result ≡ sequences.is_of_frame found }
{
    matches!(found, Sequence::Saving { .. } | Sequence::Restoring { .. })
}

/// Whether it has the stack grow.
pub fn is_growth(found: Sequence) -> bool
    ensures { result ≡ sequences.is_growth found }
{
    matches!(found, Sequence::Growth { .. })
}

/// Whether the sequence that begins with this instruction does there what it's meant to do: one that leaves a frame stands at the
/// frame's depth, and one that has the stack grow calls a routine for it and jumps to the entry, at depth 0.
pub fn is_in_order<L: Listing>(list: &L, number: usize, found: Sequence) -> bool
    requires inside { number < (L.function list.now).count }
    requires found { found ≡ (L.function list.now).found number }
    ensures { result ≡ functions.is_in_order (L.function list.now) number found }
{
    match found {
        Sequence::Plain => false,
        Sequence::Saving { .. } => true,
        Sequence::Restoring { total, .. } => total == list.depth(number),
        Sequence::Growth { count } => is_grown(list, number, usize::from(count)),
    }
}

fn is_grown<L: Listing>(list: &L, number: usize, count: usize) -> bool
    requires some { 2 ≤ count }
    requires within { number + count ≤ (L.function list.now).count }
    ensures { result ≡ functions.is_grown (L.function list.now) number count }
{
    // There are fewer than 2^64 instructions.
    let _ = list.count();
    list.depth(number) == 0
        && calls_growth(list, number + (count - 2))
        && jumps_to_entry(list, number + (count - 1))
}

// Whether the instruction calls a routine that has the stack grow.
fn calls_growth<L: Listing>(list: &L, number: usize) -> bool
    requires { number < (L.function list.now).count }
    ensures { result ≡ functions.is_among (L.function list.now).is_growth_routine
        (functions.call_goal (functions.next_at (L.function list.now) number)) }
{
    match call_goal(list.flow(number).next) {
        Some(goal) => list.is_growth_routine(goal),
        None => false,
    }
}

// Whether it jumps to the function's entry.
fn jumps_to_entry<L: Listing>(list: &L, number: usize) -> bool
    requires { number < (L.function list.now).count }
    ensures { result ≡ functions.is_goal (functions.jump_goal (functions.next_at (L.function list.now) number))
        ((L.function list.now).at 0) }
{
    is_goal(jump_goal(list.flow(number).next), list.address(0))
}
