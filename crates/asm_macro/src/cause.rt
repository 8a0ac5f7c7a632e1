ghost use Rattle.std.specs.Prelude.{◌≡◌};
ghost use Rattle.asm_macro.specs.Refusals as spec;

use crate::refusal::MacroNo;
use goasm_base::Pos;

/// Why a statement's uses may be refused.
#[derive(Clone, Copy)]
pub enum Cause {
    ArgumentCount,
    MissingArguments,
    Nesting,
    TooMany,
}

fn number(cause: Cause) -> u8
    ensures { result ≡ spec.number cause }
{
    match cause {
        Cause::ArgumentCount => 2,
        Cause::MissingArguments => 3,
        Cause::Nesting => 4,
        Cause::TooMany => 7,
    }
}

/// The lower one of a cause that was found, if any, and another.
#[tactic(auto, unfolding(crate::specs::Refusals::lower))]
pub fn lower(found: Option<Cause>, cause: Cause) -> Cause
    ensures { result ≡ spec.lower found cause }
{
    match found {
        Some(found) if number(cause) >= number(found) => found,
        _ => cause,
    }
}

#[tactic(auto, unfolding(crate::specs::Refusals::refusal))]
pub fn refusal(cause: Cause, pos: Pos) -> MacroNo
    ensures { result ≡ spec.refusal cause pos }
{
    match cause {
        Cause::ArgumentCount => MacroNo::M2(pos),
        Cause::MissingArguments => MacroNo::M3(pos),
        Cause::Nesting => MacroNo::M4(pos),
        Cause::TooMany => MacroNo::M7(pos),
    }
}
