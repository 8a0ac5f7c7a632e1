ghost use Rattle.std.specs.Prelude.{◌≡◌, All, IfNone, IfSome, false};
ghost use Rattle.std.specs.List.Sorted.{IsNonDecreasing};
ghost use Rattle.asm_target.specs.FlowFunction as functions;
ghost use Rattle.flow_rules.specs.Placing as placing;
ghost use Rattle.image_rules.specs.Sound as sound;
ghost use Rattle.link_code.specs.Astray as spec;

use asm_target::{Placed, Target};
use machine_effect::Next;

/// The number of the first instruction that jumps or calls directly to an address outside the text that no symbol outside has; `None`
/// exactly where none does. `text` is the text's first address and the one behind it, and `symbols` are addresses in order.
pub fn find_astray<T: Target>(
    code: &[Placed<T::Instr>],
    text: (u64, u64),
    symbols: &[u64],
) -> Option<usize>
    requires { IsNonDecreasing symbols.now }
    ensures none { IfNone result (All (λ one. spec.is_astray T.instructions (spec.range_of text) symbols.now one ≡ false) code.now) }
    ensures first { IfSome result (λ number. spec.IsFirstAstray T.instructions (spec.range_of text) symbols.now code.now number) }
{
    for number in 0..code.len() {
        if is_astray::<T>(&code[number], text, symbols) {
            return Some(number);
        }
    }
    None
}

// Whether an instruction goes directly to such an address.
fn is_astray<T: Target>(one: &Placed<T::Instr>, text: (u64, u64), symbols: &[u64]) -> bool
    requires { IsNonDecreasing symbols.now }
    ensures { result ≡ spec.is_astray T.instructions (spec.range_of text) symbols.now one.now }
{
    match direct_goal(T::effect(&one.instr, one.at).next) {
        Some(goal) => is_unknown(goal, text, symbols),
        None => false,
    }
}

// Where an instruction jumps or calls directly.
fn direct_goal(next: Next) -> Option<u64>
    ensures { result ≡ sound.direct_goal next }
{
    match next {
        Next::Branch { goal, .. } | Next::Jump(goal) | Next::Call { goal, .. } => Some(goal),
        _ => None,
    }
}

// Whether an address lies outside the text and no symbol has it.
fn is_unknown(address: u64, text: (u64, u64), symbols: &[u64]) -> bool
    requires { IsNonDecreasing symbols.now }
    ensures { result ≡ spec.is_unknown (spec.range_of text) symbols.now address }
{
    !is_within(text, address) && !is_listed(symbols, address)
}

// Whether an address is among those from the first on and before the other.
fn is_within(range: (u64, u64), address: u64) -> bool
    ensures { result ≡ functions.is_within (spec.range_of range) address }
{
    range.0 <= address && address < range.1
}

// Whether addresses in order have this one.
fn is_listed(addresses: &[u64], address: u64) -> bool
    requires { IsNonDecreasing addresses.now }
    ensures { result ≡ placing.is_listed addresses.now address }
{
    addresses.binary_search(&address).is_ok()
}
