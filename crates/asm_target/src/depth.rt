ghost use Rattle.std.specs.Prelude.{◌≡◌, ℤ, ◌+◌, ◌<◌, ◌≤◌, ◌==◌, ◌&&◌, not, length, map, suc, IfSome, None};
ghost use Rattle.std.specs.List.{slice_get};
ghost use Rattle.machine_effect.specs.declared.flow.SpMove.TheVariants.{By};
ghost use Rattle.machine_effect.specs.Flow.{flow_of};
ghost use Rattle.machine_effect.specs.Shapes.{IsStackDistance};
ghost use Rattle.asm_target.specs.DepthChange as changes;
ghost use Rattle.asm_target.specs.DepthChange.{depth_view_of, depth_change};
ghost use Rattle.asm_target.specs.Sequences as sequences;

use crate::body::Placed;
use crate::instr::flow_at;
use crate::sequence::Sequence;
use crate::target::Target;
use machine_effect::{Next, SpMove};

/// The most instructions that a sequence has.
const LONGEST: usize = 5;

/// By how many bytes the instruction of this number makes the stack deeper; a negative number makes it less deep.
///
/// Of the instructions only what they are counts, not their places, and none behind the one that is asked for. `depths` are their
/// depths in bytes, `targets` says to which of them a jump of the function goes. It looks back at four instructions at most.
pub fn change<T: Target>(
    code: &[Placed<T::Instr>],
    depths: &[u32],
    targets: &[bool],
    number: usize,
) -> i64
    requires inside { number < length code.now }
    requires depths { length depths.now ≡ length code.now }
    requires targets { length targets.now ≡ length code.now }
    ensures { result ≡ depth_change
        (depth_view_of T.instructions T.SHAPE T.begins (map (λ placed. placed.instr) code.now) depths.now targets.now) number }
{
    if T::SHAPE.link.is_some() {
        added_within::<T>(code, depths, targets, number, LONGEST)
    } else {
        moved_by::<T>(&code[number].instr)
    }
}

// How the stack pointer's move changes the depth, where calls push their return addresses.
fn moved_by<T: Target>(instr: &T::Instr) -> i64
    ensures { result ≡ changes.moved_by (flow_of (T.instructions.effect instr.now 0) T.SHAPE) }
{
    let flow = flow_at::<T>(instr, 0);
    match flow.next {
        Next::Call { .. } | Next::CallTo { .. } | Next::Return => 0,
        _ => depth_added(flow.sp),
    }
}

// What the sequence adds that ends with the instruction of this number and has at most so many instructions.
fn added_within<T: Target>(
    code: &[Placed<T::Instr>],
    depths: &[u32],
    targets: &[bool],
    number: usize,
    most: usize,
) -> i64
    requires inside { number < length code.now }
    requires depths { length depths.now ≡ length code.now }
    requires targets { length targets.now ≡ length code.now }
    requires most { most ≤ 5 }
    ensures { result ≡ changes.added_within
        (depth_view_of T.instructions T.SHAPE T.begins (map (λ placed. placed.instr) code.now) depths.now targets.now) number most }
{
    for turn in 0..most {
        if let Some(found) = ended::<T>(code, depths, targets, number, most - turn - 1) {
            return added_by(found);
        }
    }
    0
}

// The sequence that begins so many instructions before the one of this number and ends with it.
fn ended<T: Target>(
    code: &[Placed<T::Instr>],
    depths: &[u32],
    targets: &[bool],
    number: usize,
    back: usize,
) -> Option<Sequence>
    requires inside { number < length code.now }
    requires depths { length depths.now ≡ length code.now }
    requires targets { length targets.now ≡ length code.now }
    requires back { back < 5 }
    ensures stops { let view = depth_view_of T.instructions T.SHAPE T.begins (map (λ placed. placed.instr) code.now) depths.now targets.now in
        IfSome result (λ found. changes.added_within view number (suc back) ≡ sequences.depth_added_by found) }
    ensures goes { let view = depth_view_of T.instructions T.SHAPE T.begins (map (λ placed. placed.instr) code.now) depths.now targets.now in
        result ≡ None → changes.added_within view number (suc back) ≡ changes.added_within view number back }
{
    if back > number {
        return None;
    }
    let start = number - back;
    let found = T::sequence(&code[start..]);
    if does_end(found, back, depths[start], is_hit(targets, start, back)) {
        Some(found)
    } else {
        None
    }
}

// Whether a sequence that begins so many instructions before another one, at this depth, ends with it. `hit` tells whether a jump goes
// to one of its instructions but the first.
fn does_end(found: Sequence, back: usize, depth: u32, hit: bool) -> bool
    requires { back < 5 }
    ensures { result ≡ (sequences.count_of found == suc back && (changes.is_at_depth found depth && not hit)) }
{
    count_of(found) == back + 1 && is_at_depth(found, depth) && !hit
}

// Whether a jump goes to one of the n instructions behind this one.
fn is_hit(targets: &[bool], start: usize, n: usize) -> bool
    requires { start + n < length targets.now }
    ensures { result ≡ changes.is_hit (λ k. changes.is_marked (slice_get targets.now k)) start n }
{
    let mut hit = false;
    for behind in 0..n {
        hit = hit || targets[start + behind + 1];
    }
    hit
}

// How many instructions a sequence has.
fn count_of(found: Sequence) -> usize
    ensures { result ≡ sequences.count_of found }
{
    match found {
        Sequence::Plain => 1,
        Sequence::Saving { count, .. }
        | Sequence::Restoring { count, .. }
        | Sequence::Growth { count } => usize::from(count),
    }
}

// Whether a sequence that begins at this depth makes a frame, or leaves one of that size.
fn is_at_depth(found: Sequence, depth: u32) -> bool
    ensures { result ≡ changes.is_at_depth found depth }
{
    match found {
        Sequence::Saving { .. } => true,
        Sequence::Restoring { total, .. } => total == depth,
        Sequence::Plain | Sequence::Growth { .. } => false,
    }
}

// What a sequence adds to the depth.
fn added_by(found: Sequence) -> i64
    ensures { result ≡ sequences.depth_added_by found }
{
    match found {
        Sequence::Saving { total, .. } => i64::from(total),
        Sequence::Restoring { total, .. } => -i64::from(total),
        Sequence::Plain | Sequence::Growth { .. } => 0,
    }
}

// What a move of the stack pointer adds to the depth.
fn depth_added(moved: SpMove) -> i64
    requires { (k : ℤ) → moved ≡ By k → IsStackDistance k }
    ensures { result ≡ changes.depth_added moved }
{
    match moved {
        SpMove::By(by) => -by,
        SpMove::Keep | SpMove::Other => 0,
    }
}
