ghost use Rattle.std.specs.Prelude.{◌≡◌, ◌<◌, ◌≤◌, ◌+◌, ◌^◌, length, IsTrue, IfSome};
ghost use Rattle.flow_rules.specs.Placing.{ArePlaced};
ghost use Rattle.flow_tests.specs.Neighbours.{StandsRight};

use asm_target::{Placed, Target};
use flow_rules::{FlowNo, Outside, flow_ok};
use goasm_base::Memory;
use std::alloc::Global;

/// What the rules say of these instructions with their depths, where they stand one behind the other from the first address on;
/// `None` where that isn't as `flow_ok` asks.
pub fn judged<T: Target>(
    alloc: Global,
    first: u64,
    rows: &[(T::Instr, u32)],
    out: &Outside,
) -> Result<Option<Result<(), FlowNo>>, Memory> {
    let code = placed::<T>(alloc, first, rows)?;
    let mut depths = Vec::new(alloc);
    for (_, depth) in rows {
        depths.push(*depth)?;
    }
    if code.is_empty()
        || depths.len() != code.len()
        || !are_placed(&code)
        || !out.entries.is_sorted()
        || !out.growth.is_sorted()
    {
        return Ok(None);
    }
    Ok(Some(flow_ok::<T>(&code, &depths, out)))
}

fn placed<T: Target>(
    alloc: Global,
    first: u64,
    rows: &[(T::Instr, u32)],
) -> Result<Vec<Placed<T::Instr>>, Memory> {
    let mut code = Vec::new(alloc);
    let mut at = first;
    for (instr, _) in rows {
        let len = u8::try_from(T::spell(instr).len()).unwrap_or(0);
        code.push(Placed {
            at,
            len,
            instr: *instr,
        })?;
        at = at.wrapping_add(u64::from(len));
    }
    Ok(code)
}

fn are_placed<I: Copy>(code: &[Placed<I>]) -> bool
    ensures { IsTrue result → ArePlaced code.now }
{
    for number in 0..code.len() {
        if !stands_right(code, number) {
            return false;
        }
    }
    true
}

fn stands_right<I: Copy>(code: &[Placed<I>], number: usize) -> bool
    requires { number < length code.now }
    ensures { IsTrue result → StandsRight code.now number }
{
    let one = code[number];
    let Some(end) = end_of(one) else {
        return false;
    };
    if number + 1 == code.len() {
        return true;
    }
    let other = code[number + 1];
    other.at == end
}

fn end_of<I: Copy>(one: Placed<I>) -> Option<u64>
    ensures { IfSome result (λ end. (0 < one.len) × (end ≡ one.at + one.len) × (end ≤ 2 ^ 64)) }
{
    if one.len == 0 {
        return None;
    }
    one.at.checked_add(u64::from(one.len))
}
