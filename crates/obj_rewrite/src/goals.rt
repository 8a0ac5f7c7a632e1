ghost use Rattle.std.specs.Prelude.{◌≡◌, ℕ, ◌<◌, ◌||◌, All, length, IfOk, vec_len, false};
ghost use Rattle.std.specs.List.{list_any, slice_index_or};
ghost use Rattle.goasm_base.specs.Statements.{IsValidOperand, IsValidStatement};
ghost use Rattle.obj_rewrite.specs.Words as words;

use crate::words::goes_to_labels;
use goasm_base::{Memory, Operand, Stmt};
use std::alloc::Global;

/// Of each statement of a function, whether a jump goes to it.
pub fn goals_of(alloc: Global, stmts: &[Stmt]) -> Result<Vec<bool>, Memory>
    requires { (symbols : ℕ) × All (IsValidStatement symbols (length stmts.now)) stmts.now }
    ensures len { IfOk result (λ goals. vec_len goals ≡ length stmts.now) }
    ensures each { IfOk result (λ goals. (number : ℕ) → number < length stmts.now
        → slice_index_or goals.items number false ≡ words.is_goal stmts.now number) }
{
    let mut goals = vec![in alloc; false; stmts.len()]?;
    mark_all(stmts, goals.as_mut_slice());
    Ok(goals)
}

// Marks the statements to which these go.
fn mark_all(stmts: &[Stmt], goals: &mut [bool])
    requires { (symbols : ℕ) × All (IsValidStatement symbols (length goals.old)) stmts.now }
    ensures { (number : ℕ) → number < length goals.old → slice_index_or goals.new number false
        ≡ (slice_index_or goals.old number false || words.is_goal stmts.now number) }
{
    for stmt in stmts {
        if goes_to_labels(stmt.op.as_slice()) {
            mark_labels(stmt.operands.as_slice(), goals);
        }
    }
}

// Marks the statements that labels among the operands name.
fn mark_labels(operands: &[Operand], goals: &mut [bool])
    requires { (symbols : ℕ) × All (IsValidOperand symbols (length goals.old)) operands.now }
    ensures { (number : ℕ) → number < length goals.old → slice_index_or goals.new number false
        ≡ (slice_index_or goals.old number false || list_any (words.is_label number) operands.now) }
{
    for operand in operands {
        if let Operand::Label(statement) = operand {
            goals[*statement as usize] = true;
        }
    }
}
