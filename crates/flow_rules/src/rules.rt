ghost use Rattle.std.specs.Prelude.{◌≡◌, ◌<◌, ◌==◌, ◌&&◌, not};
ghost use Rattle.asm_target.specs.FlowFunction as functions;
ghost use Rattle.asm_target.specs.FlowRules as rules;
ghost use Rattle.asm_target.specs.Sequences as sequences;
ghost use Rattle.flow_rules.specs.Passing.{IsHere};

use crate::follow::differing;
use crate::goes::{
    call_goal, can_pass, is_call, is_indirect_jump, is_kept, is_other, is_return, jump_goal,
    links_elsewhere,
};
use crate::here::Here;
use crate::listing::Listing;
use crate::places::is_start;
use crate::role::is_last;
use crate::sequence::{is_growth, is_of_frame, is_saving};
use machine_effect::Next;

/// The greatest depth: that of the largest frame, 1 MiB, and a page for what is pushed in it.
const GREATEST_DEPTH: i64 = 1_052_672;

/// What can follow has another depth than the one behind the instruction.
pub fn breaks_f1<L: Listing>(list: &L, here: &Here) -> bool
    requires { IsHere (L.function list.now) here.now }
    ensures { result ≡ rules.breaks_f1 (L.function list.now) here.now.number }
{
    differing(list, here).is_some()
}

/// The stack pointer is written otherwise than by a constant, or with a link register by a sequence of its frame.
pub fn breaks_f2<L: Listing>(list: &L, here: &Here) -> bool
    requires { IsHere (L.function list.now) here.now }
    ensures { result ≡ rules.breaks_f2 (L.function list.now) here.now.number }
{
    if list.link().is_some() {
        !is_kept(here.flow.sp) && !is_of_frame(here.role.found)
    } else {
        is_other(here.flow.sp)
    }
}

/// The function is left at a depth other than 0, and not by a call.
pub fn breaks_f3<L: Listing>(list: &L, here: &Here) -> bool
    requires { IsHere (L.function list.now) here.now }
    ensures { result ≡ rules.breaks_f3 (L.function list.now) here.now.number }
{
    is_leaving(list, here.flow.next) && here.depth != 0
}

fn is_leaving<L: Listing>(list: &L, next: Next) -> bool
    requires { 0 < (L.function list.now).count }
    ensures { result ≡ rules.is_leaving (L.function list.now) next }
{
    is_return(next) || is_indirect_jump(next) || jumps_out(list, next)
}

fn jumps_out<L: Listing>(list: &L, next: Next) -> bool
    requires { 0 < (L.function list.now).count }
    ensures { result ≡ functions.is_among (λ goal. not (functions.is_within (L.function list.now).own goal)) (functions.jump_goal next) }
{
    match jump_goal(next) {
        Some(goal) => !list.is_own(goal),
        None => false,
    }
}

/// A jump goes into the text, neither to an instruction of the function nor to an entry.
pub fn breaks_f4<L: Listing>(list: &L, here: &Here) -> bool
    requires { IsHere (L.function list.now) here.now }
    ensures { result ≡ rules.breaks_f4 (L.function list.now) here.now.number }
{
    match jump_goal(here.flow.next) {
        Some(goal) => is_stray(list, goal),
        None => false,
    }
}

fn is_stray<L: Listing>(list: &L, address: u64) -> bool
    ensures { result ≡ rules.is_stray (L.function list.now) address }
{
    list.is_in_text(address) && !(is_start(list, address) || list.is_entry(address))
}

/// A call goes into the text and not to an entry.
pub fn breaks_f5<L: Listing>(list: &L, here: &Here) -> bool
    requires { IsHere (L.function list.now) here.now }
    ensures { result ≡ rules.breaks_f5 (L.function list.now) here.now.number }
{
    match call_goal(here.flow.next) {
        Some(goal) => list.is_in_text(goal) && !list.is_entry(goal),
        None => false,
    }
}

/// The last instruction is one behind which the machine can go on.
pub fn breaks_f6<L: Listing>(list: &L, here: &Here) -> bool
    requires { IsHere (L.function list.now) here.now }
    ensures { result ≡ rules.breaks_f6 (L.function list.now) here.now.number }
{
    let count = list.count();
    can_pass(here.flow.next) && here.number + 1 == count
}

/// With a link register, a call that doesn't have the stack grow stands at depth 0, or links through another register.
pub fn breaks_f7<L: Listing>(list: &L, here: &Here) -> bool
    requires { IsHere (L.function list.now) here.now }
    ensures { result ≡ rules.breaks_f7 (L.function list.now) here.now.number }
{
    let link = list.link();
    link.is_some()
        && is_call(here.flow.next)
        && !is_growth_call(list, here)
        && (here.depth == 0 || links_elsewhere(here.flow.next, link))
}

// Whether it's the call of a sequence that has the stack grow.
fn is_growth_call<L: Listing>(list: &L, here: &Here) -> bool
    requires { IsHere (L.function list.now) here.now }
    ensures { result ≡ rules.is_growth_call (L.function list.now) here.now.number }
{
    is_growth(here.role.found) && is_last(list, here.role, here.number)
}

/// With a link register, that register is written at depth 0, or stored there outside of a sequence for it; or such a sequence stands at
/// another depth.
pub fn breaks_f8<L: Listing>(list: &L, here: &Here) -> bool
    requires { IsHere (L.function list.now) here.now }
    ensures { result ≡ rules.breaks_f8 (L.function list.now) here.now.number }
{
    list.link().is_some()
        && (overwrites_link(list, here) || stores_link(list, here) || saves_deep(list, here))
}

fn overwrites_link<L: Listing>(list: &L, here: &Here) -> bool
    requires { IsHere (L.function list.now) here.now }
    ensures { let f = L.function list.now in let k = here.now.number in
        result ≡ ((f.depth k == 0) && ((f.flow k).writes_link && not (rules.is_growth_call f k))) }
{
    here.depth == 0 && here.flow.writes_link && !is_growth_call(list, here)
}

fn stores_link<L: Listing>(_list: &L, here: &Here) -> bool
    requires { IsHere (L.function _list.now) here.now }
    ensures { let f = L.function _list.now in let k = here.now.number in
        result ≡ ((f.depth k == 0) && ((f.flow k).stores_link && not (sequences.is_saving (functions.role_at f k)))) }
{
    here.depth == 0 && here.flow.stores_link && !is_saving(here.role.found)
}

fn saves_deep<L: Listing>(_list: &L, here: &Here) -> bool
    requires { IsHere (L.function _list.now) here.now }
    ensures { let f = L.function _list.now in let k = here.now.number in
        result ≡ (sequences.is_saving (functions.role_at f k) && ((functions.start_at f k == k) && not (f.depth k == 0))) }
{
    is_saving(here.role.found) && here.role.start == here.number && here.depth != 0
}

/// The depth behind the instruction is below 0 or too great, or it isn't 0 at the entry.
pub fn breaks_f9<L: Listing>(_list: &L, here: &Here) -> bool
    requires { IsHere (L.function _list.now) here.now }
    ensures { result ≡ rules.breaks_f9 (L.function _list.now) here.now.number }
{
    here.outgoing < 0 || here.outgoing > GREATEST_DEPTH || (here.number == 0 && here.depth != 0)
}
