ghost use Rattle.std.specs.Prelude.{◌≡◌, ◌==◌, All, IfNone, IfSome, false};
ghost use Rattle.std.specs.List.{list_any};
ghost use Rattle.std.specs.List.Sorted.{IsNonDecreasing};
ghost use Rattle.image_check.specs.Going as going;
ghost use Rattle.image_check.specs.Surrounding.{range_of};
ghost use Rattle.image_rules.specs.Sound as sound;

use crate::range::is_within;
use asm_target::{Placed, Target};
use machine_effect::Next;

/// The place of the first instruction that jumps or calls directly to an address outside the text that no symbol has. `None` exactly
/// where none does. `symbols` are addresses in order.
pub fn first_astray<T: Target>(
    code: &[Placed<T::Instr>],
    text: (u64, u64),
    symbols: &[u64],
) -> Option<u64>
    requires { IsNonDecreasing symbols.now }
    ensures none { IfNone result (All (λ one. going.goes_astray T.instructions (range_of text) symbols.now one ≡ false) code.now) }
    ensures first { IfSome result (λ place. going.IsFirstAstray T.instructions (range_of text) symbols.now code.now place) }
{
    for number in 0..code.len() {
        let one = &code[number];
        if goes_astray::<T>(one, text, symbols) {
            return Some(one.at);
        }
    }
    None
}

// Whether an instruction goes directly to such an address.
fn goes_astray<T: Target>(one: &Placed<T::Instr>, text: (u64, u64), symbols: &[u64]) -> bool
    requires { IsNonDecreasing symbols.now }
    ensures { result ≡ going.goes_astray T.instructions (range_of text) symbols.now one.now }
{
    match direct_goal(T::effect(&one.instr, one.at).next) {
        Some(goal) => is_nowhere(goal, text, symbols),
        None => false,
    }
}

// Where an instruction jumps or calls directly.
fn direct_goal(next: Next) -> Option<u64>
    ensures { result ≡ sound.direct_goal next }
{
    match next {
        Next::Branch { goal, .. } | Next::Jump(goal) | Next::Call { goal, .. } => Some(goal),
        _ => None,
    }
}

// Whether an address lies outside the text and no symbol has it.
fn is_nowhere(address: u64, text: (u64, u64), symbols: &[u64]) -> bool
    requires { IsNonDecreasing symbols.now }
    ensures { result ≡ going.is_nowhere (range_of text) symbols.now address }
{
    !is_within(text, address) && !is_listed(symbols, address)
}

// Whether numbers in order have this one.
fn is_listed(numbers: &[u64], number: u64) -> bool
    requires { IsNonDecreasing numbers.now }
    ensures { result ≡ list_any (λ other. other == number) numbers.now }
{
    numbers.binary_search(&number).is_ok()
}
