ghost use Rattle.std.specs.Prelude.{◌≡◌, ℕ, Bool, suc, ℤ, pos, ◌<◌, ◌==◌, ◌&&◌, ◌||◌, not};
ghost use Rattle.std.specs.Ordering.{int_eq};
ghost use Rattle.asm_target.specs.FlowFunction as functions;
ghost use Rattle.asm_target.specs.FlowRules as rules;
ghost use Rattle.flow_rules.specs.Passing.{IsFirst, IsHere};

use crate::goes::{can_pass, jump_goal};
use crate::here::Here;
use crate::listing::Listing;
use crate::places::number_at;

/// The first instruction that can follow this one and doesn't have the depth behind it.
pub fn differing<L: Listing>(list: &L, here: &Here) -> Option<usize>
    requires { IsHere (L.function list.now) here.now }
    ensures { IsFirst (rules.differs (L.function list.now) here.now.number) (L.function list.now).count result }
{
    lower(behind(list, here), landing(list, here))
}

// The next instruction, where the machine may go on there and the depth is another.
fn behind<L: Listing>(list: &L, here: &Here) -> Option<usize>
    requires { IsHere (L.function list.now) here.now }
    ensures { let f = L.function list.now in IsFirst (λ j. (rules.can_pass here.now.flow.next && (suc here.now.number == j))
        && not (int_eq here.now.outgoing (pos (f.depth j)))) f.count result }
{
    let count = list.count();
    let next = here.number + 1;
    if can_pass(here.flow.next) && next < count && has_other_depth(list, here, next) {
        Some(next)
    } else {
        None
    }
}

// The instruction that a jump goes to, where its depth is another.
fn landing<L: Listing>(list: &L, here: &Here) -> Option<usize>
    requires { IsHere (L.function list.now) here.now }
    ensures { let f = L.function list.now in IsFirst (λ j. functions.is_goal (functions.jump_goal here.now.flow.next) (f.at j)
        && not (int_eq here.now.outgoing (pos (f.depth j)))) f.count result }
{
    let number = number_at(list, jump_goal(here.flow.next)?)?;
    if has_other_depth(list, here, number) {
        Some(number)
    } else {
        None
    }
}

fn has_other_depth<L: Listing>(list: &L, here: &Here, number: usize) -> bool
    requires { number < (L.function list.now).count }
    ensures { result ≡ not (int_eq here.now.outgoing (pos ((L.function list.now).depth number))) }
{
    here.outgoing != i64::from(list.depth(number))
}

// The lower of two numbers.
fn lower(one: Option<usize>, other: Option<usize>) -> Option<usize>
    ensures { (p q : ℕ → Bool) (count : ℕ) → IsFirst p count one → IsFirst q count other → IsFirst (λ j. p j || q j) count result }
{
    match (one, other) {
        (Some(one), Some(other)) => Some(one.min(other)),
        (Some(one), None) => Some(one),
        (None, other) => other,
    }
}
