ghost use Rattle.std.specs.Prelude.{◌≡◌, ◌≤◌, ◌+◌, ◌++◌, ◌||◌, nat_lt, map, IfOk, OnOk};
ghost use Rattle.std.specs.List.{AllByRecursion};
ghost use Rattle.goasm_base.specs.Refusals.{Gives};
ghost use Rattle.go_types.specs.Sizes.{size_of};
ghost use Rattle.go_types.specs.Signatures.{parameter_of, signature_of, IsSoundParameter, IsSoundSignature};
ghost use Rattle.abi0_layout.specs.Layouts as spec;
ghost use Rattle.abi0_layout.specs.Layouts.{layout_of, end_of_list, parts_of_list, parts_of_one, most_bytes, most_components};

use crate::layout_no::LayoutNo;
use crate::parts::{Layout, PartOf, Place, measure_within, push_parts};
use crate::room::{is_blank, results_start, room_of};
use go_types::{Func, Param};
use goasm_base::{Bytes, List, Memory, Text};
use std::alloc::Global;

/// The most bytes that a layout takes.
const MOST_BYTES: u64 = 0x4000_0000;

/// The most components that a layout has, those that are broken down not counted.
const MOST_COMPONENTS: u64 = 65_536;

/// Where the arguments and results of a function stand, by the types that its declaration gives them (Go's internal ABI
/// document, "ABI0", and cmd/vet's asmdecl).
///
/// It's refused with `Y1` exactly where its arguments and results take more than 2^30 bytes or have more than 65,536
/// components. Only want of memory may come in place of any answer.
pub fn lay_out(alloc: Global, func: &Func) -> Result<Layout, LayoutNo>
    requires { IsSoundSignature (signature_of func.now) }
    ensures exact { Gives LayoutNo.Memory (layout_of (signature_of func.now)) result }
{
    let params = func.params.as_slice();
    let results = func.results.as_slice();
    let before = room_of(0, params);
    let start = results_start(before.end, results);
    let behind = room_of(start, results);
    if is_too_large(behind.end, before.components + behind.components) {
        return Err(LayoutNo::Y1(func.pos));
    }
    let mut parts = Vec::new(alloc);
    push_list(alloc, &mut parts, false, 0, params)?;
    push_list(alloc, &mut parts, true, start, results)?;
    Ok(Layout {
        parts: List::new(parts),
        size: behind.end as u32,
    })
}

fn is_too_large(bytes: u64, components: u64) -> bool
    ensures { result ≡ (nat_lt most_bytes bytes || nat_lt most_components components) }
{
    bytes > MOST_BYTES || components > MOST_COMPONENTS
}

// Appends the parts of arguments, or of results, behind what ends there.
fn push_list(
    alloc: Global,
    to: &mut Vec<PartOf>,
    are_results: bool,
    start: u64,
    list: &[Param],
) -> Result<(), Memory>
    requires sound { AllByRecursion IsSoundParameter (map parameter_of list.now) }
    requires room { end_of_list start (map parameter_of list.now) ≤ most_bytes }
    ensures { OnOk result (to.new.items
        ≡ to.old.items ++ parts_of_list are_results 0 start (map parameter_of list.now)) }
{
    let mut end = start;
    for index in 0..list.len() {
        let param = &list[index];
        let inner = measure_within(&param.kind);
        let off = u64::next_multiple_of(end, inner.align);
        push_param(alloc, to, are_results, index, off, param)?;
        end = off + inner.size;
    }
    Ok(())
}

fn push_param(
    alloc: Global,
    to: &mut Vec<PartOf>,
    is_result: bool,
    index: usize,
    off: u64,
    param: &Param,
) -> Result<(), Memory>
    requires sound { IsSoundParameter (parameter_of param.now) }
    requires room { off + size_of (parameter_of param.now).kind ≤ most_bytes }
    ensures { OnOk result (to.new.items
        ≡ to.old.items ++ parts_of_one is_result index off (parameter_of param.now)) }
{
    if is_blank(param) {
        return Ok(());
    }
    match &param.name {
        Some(name) => {
            let place = Place {
                name: name.as_slice(),
                off,
                result: is_result,
            };
            push_parts(alloc, to, &place, &param.kind)
        }
        None => {
            let name = numbered(alloc, is_result, index)?;
            let place = Place {
                name: name.as_slice(),
                off,
                result: is_result,
            };
            push_parts(alloc, to, &place, &param.kind)
        }
    }
}

// The name of one that isn't named.
fn numbered(alloc: Global, is_result: bool, index: usize) -> Result<Bytes, Memory>
    ensures { IfOk result (λ name. name ≡ spec.numbered is_result index) }
{
    let mut name = Text::new(alloc);
    name.push(front(is_result))?;
    if index != 0 {
        name.push_unsigned(index as u64)?;
    }
    Ok(name.finish())
}

fn front(is_result: bool) -> &'static [u8]
    ensures { result.now ≡ spec.front is_result }
{
    if is_result { b"ret" } else { b"arg" }
}
