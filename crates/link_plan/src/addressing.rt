ghost use Rattle.std.specs.Prelude.{◌≡◌, ◌+◌, ◌^◌, ◌<◌, ◌≤◌, ◌++◌, All, length, slice_index, IfOk, OnOk};
ghost use Rattle.link_places.specs.Addresses.{TellsAs};
ghost use Rattle.link_values.specs.Kept.{sizes_of};
ghost use Rattle.link_plan.specs.Sizes.{code_sizes};
ghost use Rattle.link_plan.specs.Plan.{IsPlaced};
ghost use Rattle.link_plan.specs.Addresses as spec;

use crate::meanings::{code_meanings, value_meanings};
use crate::planning::Plan;
use goasm_base::{Memory, Name};
use link_functions::UnitCode;
use link_names::Meaning;
use link_places::Addresses;
use std::alloc::Global;

/// The address of the first byte of an image's text.
pub const TEXT_ADDRESS: u64 = 0x40_0000;

/// The addresses of what the symbols of a build stand for, which stands as its plan says: each function behind the address 0x400000 of
/// the text, its data behind the address that is given, and each outside name at the address that is given with it.
///
/// `Memory` comes only for want of memory.
pub fn addresses_of<I>(
    alloc: Global,
    code: &[UnitCode<'_, I>],
    plan: &Plan,
    outside: &[(Name, u64)],
    values_at: u64,
) -> Result<Addresses, Memory>
    requires functions { IsPlaced (code_sizes code.now) plan.now.functions }
    requires values { IsPlaced (sizes_of plan.now.kept.items) plan.now.values }
    requires small { values_at < 2 ^ 32 }
    ensures { IfOk result (λ addresses. TellsAs addresses (spec.build_addresses code.now plan.now outside.now values_at)) }
{
    let mut addresses = Addresses::new(alloc);
    tell_functions(alloc, &mut addresses, code, plan)?;
    tell_values(alloc, &mut addresses, plan, values_at)?;
    tell_outside(&mut addresses, outside)?;
    Ok(addresses)
}

// Tells the addresses of functions.
fn tell_functions<I>(
    alloc: Global,
    addresses: &mut Addresses,
    code: &[UnitCode<'_, I>],
    plan: &Plan,
) -> Result<(), Memory>
    requires { IsPlaced (code_sizes code.now) plan.now.functions }
    ensures { OnOk result (TellsAs addresses.new (addresses.old ++ spec.behind spec.text_address (spec.code_meanings code.now) plan.now.functions.at)) }
{
    let meanings = code_meanings(alloc, code)?;
    let things = meanings.as_slice();
    let at = plan.functions.at.as_slice();
    tell(addresses, TEXT_ADDRESS, things, at)?;
    Ok(())
}

// Tells the addresses of data.
fn tell_values(
    alloc: Global,
    addresses: &mut Addresses,
    plan: &Plan,
    values_at: u64,
) -> Result<(), Memory>
    requires placed { IsPlaced (sizes_of plan.now.kept.items) plan.now.values }
    requires small { values_at < 2 ^ 32 }
    ensures { OnOk result (TellsAs addresses.new (addresses.old ++ spec.behind values_at (spec.value_meanings plan.now.kept.items) plan.now.values.at)) }
{
    let kept = plan.kept.as_slice();
    let meanings = value_meanings(alloc, kept)?;
    let things = meanings.as_slice();
    let at = plan.values.at.as_slice();
    tell(addresses, values_at, things, at)?;
    Ok(())
}

// Tells the addresses of things that stand at these places behind an address.
fn tell(
    addresses: &mut Addresses,
    from: u64,
    meanings: &[Meaning],
    at: &[u64],
) -> Result<(), Memory>
    requires as_many { length meanings.now ≡ length at.now }
    requires small { from < 2 ^ 32 }
    requires near { All (λ place. place ≤ 2 ^ 24) at.now }
    ensures { OnOk result (TellsAs addresses.new (addresses.old ++ spec.behind from meanings.now at.now)) }
{
    for (number, meaning) in meanings.iter().enumerate() {
        addresses.insert(*meaning, address_at(from, at, number))?;
    }
    Ok(())
}

// The address of the thing of this number.
fn address_at(from: u64, at: &[u64], number: usize) -> u64
    requires within { number < length at.now }
    requires small { from < 2 ^ 32 }
    requires near { All (λ place. place ≤ 2 ^ 24) at.now }
    ensures { result ≡ from + slice_index at.now number }
{
    from + at[number]
}

// Tells the addresses of outside names.
fn tell_outside(addresses: &mut Addresses, outside: &[(Name, u64)]) -> Result<(), Memory>
    ensures { OnOk result (TellsAs addresses.new (addresses.old ++ spec.outside_addresses outside.now)) }
{
    for (number, name) in outside.iter().enumerate() {
        addresses.insert(Meaning::Outside(number), name.1)?;
    }
    Ok(())
}
