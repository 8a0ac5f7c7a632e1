ghost use Rattle.std.specs.Prelude.{◌≡◌, ◌<◌, length, OnOk, IfErr};
ghost use Rattle.std.specs.List.Sorted.{IsNonDecreasing};
ghost use Rattle.asm_target.specs.FlowRules.{IsFirstBreach, IsFlowSound};
ghost use Rattle.flow_rules.specs.Placing.{ArePlaced, around, function_of, told};

use crate::breach::breach_at;
use crate::code::Code;
use crate::flow_no::FlowNo;
use crate::here::here_at;
use crate::hits::first_hit;
use crate::listing::Listing;
use crate::outside::Outside;
use crate::role::{Role, role_at};
use asm_target::{Placed, Target};

/// Checks that a function keeps the rules F1 to F9, or tells its first breach: by address, and at one instruction by the rule's number.
///
/// `depths` are the instructions' depths by the function's table, in bytes. There is an instruction, each has bytes, the last of them below 2^64,
/// and stands where the one before it ends. Entries are in order, and so are the routines that
/// have the stack grow.
pub fn flow_ok<T: Target>(
    code: &[Placed<T::Instr>],
    depths: &[u32],
    out: &Outside,
) -> Result<(), FlowNo>
    requires some { 0 < length code.now }
    requires as_many { length depths.now ≡ length code.now }
    requires placed { ArePlaced code.now }
    requires ordered { IsNonDecreasing out.now.entries.now }
    requires routines { IsNonDecreasing out.now.growth.now }
    ensures ok { OnOk result (IsFlowSound (function_of T.instructions T.SHAPE T.begins code.now depths.now (around out.now))) }
    ensures breach { IfErr result (λ no. IsFirstBreach (function_of T.instructions T.SHAPE T.begins code.now depths.now (around out.now)) (told no)) }
{
    check(&Code::<T> { code, depths, out })
}

// The same of what a listing shows.
fn check<L: Listing>(list: &L) -> Result<(), FlowNo>
    ensures ok { OnOk result (IsFlowSound (L.function list.now)) }
    ensures breach { IfErr result (λ no. IsFirstBreach (L.function list.now) (told no)) }
{
    let first = first_hit(list);
    let mut before = Role::default();
    for number in 0..list.count() {
        let role = role_at(list, first, before, number);
        if let Some(no) = breach_at(list, &here_at(list, role, number)) {
            return Err(no);
        }
        before = role;
    }
    Ok(())
}
