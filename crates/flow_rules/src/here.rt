ghost use Rattle.std.specs.Prelude.{◌≡◌, ℤ, ◌≤ℤ◌, ◌^◌, ◌<◌, pos, negsuc};
ghost use Rattle.machine_effect.specs.declared.flow.SpMove.TheVariants.{By};
ghost use Rattle.machine_effect.specs.Shapes.{IsStackDistance};
ghost use Rattle.asm_target.specs.DepthChange as changes;
ghost use Rattle.asm_target.specs.DepthChange.{depth_change};
ghost use Rattle.asm_target.specs.FlowFunction as functions;
ghost use Rattle.asm_target.specs.FlowFunction.{depth_view};
ghost use Rattle.flow_rules.specs.Passing.{IsHere, IsRole};

use crate::listing::Listing;
use crate::role::{Role, role_adds};
use machine_effect::{Flow, Next, SpMove};

/// An instruction of a function, which is judged.
#[derive(Clone, Copy, Debug, Default, PartialEq, Eq)]
pub struct Here {
    /// Its number, counted from 0.
    pub number: usize,
    /// Its depth by the function's table.
    pub depth: u32,
    pub flow: Flow,
    pub role: Role,
    /// The depth behind it.
    pub outgoing: i64,
}

/// What is known of the instruction of this number, which stands in this sequence.
pub fn here_at<L: Listing>(list: &L, role: Role, number: usize) -> Here
    requires inside { number < (L.function list.now).count }
    requires role { IsRole (L.function list.now) number role }
    ensures number { result.number ≡ number }
    ensures here { IsHere (L.function list.now) result }
{
    let depth = list.depth(number);
    let flow = list.flow(number);
    let outgoing = outgoing(list, role, number);
    Here {
        number,
        depth,
        flow,
        role,
        outgoing,
    }
}

// The depth behind the instruction.
#[tactic(auto, unfolding(asm_target::specs::FlowFunction::outgoing))]
fn outgoing<L: Listing>(list: &L, role: Role, number: usize) -> i64
    requires inside { number < (L.function list.now).count }
    requires role { IsRole (L.function list.now) number role }
    ensures { result ≡ functions.outgoing (L.function list.now) number }
{
    i64::from(list.depth(number)) + change(list, role, number)
}

// By how much the instruction changes the depth.
fn change<L: Listing>(list: &L, role: Role, number: usize) -> i64
    requires inside { number < (L.function list.now).count }
    requires role { IsRole (L.function list.now) number role }
    ensures exact { result ≡ depth_change (depth_view (L.function list.now)) number }
    ensures least { negsuc (2 ^ 32) ≤ℤ result }
    ensures most { result ≤ℤ pos (2 ^ 32) }
{
    if list.link().is_some() {
        role_adds(list, role, number)
    } else {
        moved_by(list.flow(number))
    }
}

// How the stack pointer's move changes the depth, where calls push their return addresses.
fn moved_by(flow: Flow) -> i64
    requires { (k : ℤ) → flow.sp ≡ By k → IsStackDistance k }
    ensures exact { result ≡ changes.moved_by flow }
    ensures least { negsuc (2 ^ 32) ≤ℤ result }
    ensures most { result ≤ℤ pos (2 ^ 32) }
{
    match flow.next {
        Next::Call { .. } | Next::CallTo { .. } | Next::Return => 0,
        _ => depth_added(flow.sp),
    }
}

// What a move of the stack pointer adds to the depth.
fn depth_added(moved: SpMove) -> i64
    requires { (k : ℤ) → moved ≡ By k → IsStackDistance k }
    ensures exact { result ≡ changes.depth_added moved }
    ensures least { negsuc (2 ^ 32) ≤ℤ result }
    ensures most { result ≤ℤ pos (2 ^ 32) }
{
    match moved {
        SpMove::By(by) => -by,
        SpMove::Keep | SpMove::Other => 0,
    }
}
