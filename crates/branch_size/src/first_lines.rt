ghost use Rattle.std.specs.Prelude.{◌≡◌, ℕ, ◌+◌, ◌^◌, ◌<◌, ◌≤◌, IfOk, OnOk, max, position, slice_index, vec_len};
ghost use Rattle.std.specs.List.{slice_get};
ghost use Rattle.asm_target.specs.Goals.{stands_from};

use asm_target::Line;
use goasm_base::Memory;
use std::alloc::Global;

/// For each number of a statement, up to the greatest, the first line whose statement has that number or a greater
/// one.
pub fn firsts<I: Copy>(alloc: Global, code: &[Line<I>]) -> Result<Vec<usize>, Memory>
    ensures { IfOk result (λ firsts. (number : ℕ) → slice_get firsts.items number ≡ position (stands_from number) code.now) }
{
    let mut firsts = Vec::new(alloc);
    for (line, item) in code.iter().enumerate() {
        if let Some(stmt) = item.stmt {
            fill(&mut firsts, stmt as usize, line)?;
        }
    }
    Ok(firsts)
}

// Makes the table long enough to have this number, and puts the line into what is new.
fn fill(firsts: &mut Vec<usize>, number: usize, line: usize) -> Result<(), Memory>
    requires { number < 2 ^ 32 }
    ensures len { OnOk result (vec_len firsts.new ≡ max (vec_len firsts.old) (number + 1)) }
    ensures kept { OnOk result ((k : ℕ) → k < vec_len firsts.old → slice_index firsts.new.items k ≡ slice_index firsts.old.items k) }
    ensures filled { OnOk result ((k : ℕ) → vec_len firsts.old ≤ k → k < vec_len firsts.new → slice_index firsts.new.items k ≡ line) }
{
    for _next in firsts.len()..number + 1 {
        firsts.push(line)?;
    }
    Ok(())
}
