ghost use Rattle.std.specs.Prelude.{◌≡◌};
ghost use Rattle.machine_effect.specs.Applies as applies;
ghost use Rattle.machine_effect.specs.Flow as flows;
ghost use Rattle.asm_target.specs.DepthChange as changes;
ghost use Rattle.asm_target.specs.FlowFunction as functions;
ghost use Rattle.asm_target.specs.FlowRules as rules;

use machine_effect::{Next, SpMove};

/// Where a direct jump goes, if its condition holds.
pub fn jump_goal(next: Next) -> Option<u64>
    ensures { result ≡ functions.jump_goal next }
{
    match next {
        Next::Branch { goal, .. } | Next::Jump(goal) => Some(goal),
        _ => None,
    }
}

/// Where a direct call goes.
pub fn call_goal(next: Next) -> Option<u64>
    ensures { result ≡ functions.call_goal next }
{
    match next {
        Next::Call { goal, .. } => Some(goal),
        _ => None,
    }
}

/// Whether a goal is this address.
pub fn is_goal(goal: Option<u64>, address: u64) -> bool
    ensures { result ≡ functions.is_goal goal address }
{
    match goal {
        Some(goal) => goal == address,
        None => false,
    }
}

/// Whether the machine may go on at the next address.
pub fn can_pass(next: Next) -> bool
    ensures { result ≡ rules.can_pass next }
{
    matches!(
        next,
        Next::Fall | Next::Branch { .. } | Next::Call { .. } | Next::CallTo { .. } | Next::System
    )
}

pub fn is_call(next: Next) -> bool
    ensures { result ≡ changes.is_call next }
{
    matches!(next, Next::Call { .. } | Next::CallTo { .. })
}

pub fn is_return(next: Next) -> bool
    ensures { result ≡ changes.is_return next }
{
    matches!(next, Next::Return)
}

pub fn is_indirect_jump(next: Next) -> bool
    ensures { result ≡ rules.is_indirect_jump next }
{
    matches!(next, Next::JumpTo(_))
}

/// Whether a call links through another register than this one.
pub fn links_elsewhere(next: Next, link: Option<u8>) -> bool
    ensures { result ≡ rules.links_elsewhere (applies.link_of next) link }
{
    match link_of(next) {
        Some(register) => !is_named(register, link),
        None => false,
    }
}

fn link_of(next: Next) -> Option<u8>
    ensures { result ≡ applies.link_of next }
{
    match next {
        Next::Call { link, .. } | Next::CallTo { link, .. } => link,
        _ => None,
    }
}

fn is_named(register: u8, link: Option<u8>) -> bool
    ensures { result ≡ flows.is_named register link }
{
    match link {
        Some(link) => link == register,
        None => false,
    }
}

/// Whether the stack pointer stays.
pub fn is_kept(moved: SpMove) -> bool
    ensures { result ≡ rules.is_kept moved }
{
    matches!(moved, SpMove::Keep)
}

/// Whether the stack pointer is written otherwise than by a constant.
pub fn is_other(moved: SpMove) -> bool
    ensures { result ≡ rules.is_other moved }
{
    matches!(moved, SpMove::Other)
}
