ghost use Rattle.std.specs.Prelude.{◌≡◌, ◌+◌, ◌<◌};
ghost use Rattle.asm_target.specs.FlowFunction as functions;
ghost use Rattle.flow_rules.specs.Passing as passing;
ghost use Rattle.flow_rules.specs.Passing.{AreUnhit, IsRole, LeadsTo};

use crate::hits::sequence_at;
use crate::listing::Listing;
use crate::sequence::{depth_added_by, span_of};
use asm_target::Sequence;

/// The sequence that an instruction stands in: a plain one stands alone.
#[derive(Clone, Copy, Debug, Default, PartialEq, Eq)]
pub struct Role {
    /// Its first instruction.
    pub start: usize,
    /// The instruction behind the last one that's judged by it.
    pub past: usize,
    pub found: Sequence,
}

/// The sequence of the instruction of this number. `before` is that of the instruction before it, and `first` what `first_hit` gives.
pub fn role_at<L: Listing>(list: &L, first: usize, before: Role, number: usize) -> Role
    requires inside { number < (L.function list.now).count }
    requires first { AreUnhit (L.function list.now) first }
    requires before { LeadsTo (L.function list.now) number before }
    ensures { IsRole (L.function list.now) number result }
{
    if number < before.past {
        return before;
    }
    // There are fewer than 2^64 instructions.
    let _ = list.count();
    let found = sequence_at(list, first, number);
    Role {
        start: number,
        past: number + span_of(found),
        found,
    }
}

/// By how much the instruction changes the depth as one of its sequence.
pub fn role_adds<L: Listing>(list: &L, role: Role, number: usize) -> i64
    requires inside { number < (L.function list.now).count }
    requires role { IsRole (L.function list.now) number role }
    ensures { result ≡ passing.role_adds (L.function list.now) number }
{
    if is_last(list, role, number) {
        depth_added_by(role.found)
    } else {
        0
    }
}

/// Whether the instruction is the last one that's judged by its sequence.
pub fn is_last<L: Listing>(list: &L, role: Role, number: usize) -> bool
    requires inside { number < (L.function list.now).count }
    requires role { IsRole (L.function list.now) number role }
    ensures { result ≡ functions.is_last (L.function list.now) number }
{
    // There are fewer than 2^64 instructions.
    let _ = list.count();
    number + 1 == role.past
}
