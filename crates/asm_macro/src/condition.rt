ghost use Rattle.std.specs.Prelude.{◌≡◌, IfOk, Some, None, if◌then◌else◌};
ghost use Rattle.asm_macro.specs.Conditions as spec;

use goasm_base::{Memory, Pos};
use std::collections::VecDeque;

/// A condition that is open.
#[derive(Clone, Copy)]
pub struct Condition {
    /// Where it begins.
    pub pos: Pos,
    /// Whether it stands where statements count; one in a branch that isn't taken does not.
    pub counts: bool,
    /// Whether the branch that is read is taken.
    pub taken: bool,
    /// Whether its `#else` has come.
    pub has_else: bool,
}

/// Whether statements behind these conditions count.
#[tactic(auto, unfolding(crate::specs::Conditions::is_taken))]
pub fn is_taken(conditions: &VecDeque<Condition>) -> bool
    ensures { result ≡ spec.is_taken conditions.now.items }
{
    match conditions.front() {
        None => true,
        Some(condition) => condition.taken,
    }
}

/// Goes to the other branch of the innermost condition, at an `#else` that stands alone or not; whether it may stand
/// there.
#[tactic(auto, unfolding(crate::specs::Conditions::conditions_after_else))]
pub fn go_to_else(conditions: &mut VecDeque<Condition>, alone: bool) -> Result<bool, Memory>
    ensures { IfOk result
        (λ may. spec.conditions_after_else alone conditions.old.items ≡ (if may then Some conditions.new.items else None)) }
{
    match conditions.pop_front() {
        None => Ok(false),
        Some(condition) if condition.has_else || (condition.counts && !alone) => Ok(false),
        Some(condition) => {
            conditions.push_front(Condition {
                pos: condition.pos,
                counts: condition.counts,
                taken: condition.counts && !condition.taken,
                has_else: true,
            })?;
            Ok(true)
        }
    }
}

/// Leaves the innermost condition, at an `#endif` that stands alone or not; whether it may stand there.
#[tactic(auto, unfolding(crate::specs::Conditions::conditions_after_endif))]
pub fn leave(conditions: &mut VecDeque<Condition>, alone: bool) -> bool
    ensures { spec.conditions_after_endif alone conditions.old.items ≡ (if result then Some conditions.new.items else None) }
{
    match conditions.pop_front() {
        None => false,
        Some(condition) => !condition.counts || alone,
    }
}
