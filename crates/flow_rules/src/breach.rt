ghost use Rattle.std.specs.Prelude.{◌≡◌, ℕ, ◌≤◌, true, false, IfSome, None};
ghost use Rattle.asm_target.specs.FlowRules as rules;
ghost use Rattle.asm_target.specs.FlowRules.{IsBreachAt};
ghost use Rattle.flow_rules.specs.Passing.{HasPair, IsHere};
ghost use Rattle.flow_rules.specs.Placing.{told};

use crate::flow_no::FlowNo;
use crate::follow::differing;
use crate::here::Here;
use crate::listing::Listing;
use crate::rules::{
    breaks_f1, breaks_f2, breaks_f3, breaks_f4, breaks_f5, breaks_f6, breaks_f7, breaks_f8,
    breaks_f9,
};

/// The lowest rule that the instruction breaks, with what a refusal tells.
pub fn breach_at<L: Listing>(list: &L, here: &Here) -> Option<FlowNo>
    requires { IsHere (L.function list.now) here.now }
    ensures some { IfSome result (λ no. IsBreachAt (L.function list.now) here.now.number (told no)) }
    ensures none { result ≡ None → (rule : ℕ) → rule ≤ 9 → rules.breaks (L.function list.now) here.now.number rule ≡ false }
{
    for rule in 1..10 {
        if breaks(list, here, rule) {
            return Some(FlowNo {
                rule,
                at: list.address(here.number),
                depths: depths(list, here, rule),
            });
        }
    }
    None
}

// Whether the instruction breaks the rule of this number.
#[tactic(auto, unfolding(asm_target::specs::FlowRules::breaks))]
fn breaks<L: Listing>(list: &L, here: &Here, rule: u8) -> bool
    requires { IsHere (L.function list.now) here.now }
    ensures { result ≡ rules.breaks (L.function list.now) here.now.number rule }
{
    match rule {
        1 => breaks_f1(list, here),
        2 => breaks_f2(list, here),
        3 => breaks_f3(list, here),
        4 => breaks_f4(list, here),
        5 => breaks_f5(list, here),
        6 => breaks_f6(list, here),
        7 => breaks_f7(list, here),
        8 => breaks_f8(list, here),
        9 => breaks_f9(list, here),
        _ => false,
    }
}

// The depths that come with a breach of this rule.
fn depths<L: Listing>(list: &L, here: &Here, rule: u8) -> (i64, i64)
    requires here { IsHere (L.function list.now) here.now }
    requires broken { rules.breaks (L.function list.now) here.now.number rule ≡ true }
    ensures { HasPair (L.function list.now) here.now.number rule result }
{
    if rule != 1 {
        return (0, 0);
    }
    match differing(list, here) {
        Some(number) => (here.outgoing, i64::from(list.depth(number))),
        None => (0, 0),
    }
}
