ghost use Rattle.std.specs.Prelude.{◌≡◌, ◌≢◌, ◌<◌, ◌≤◌, IfSome, None, length};
ghost use Rattle.std.specs.List.{slice_get};
ghost use Rattle.goasm_base.specs.declared.statement.Function.{Function};
ghost use Rattle.unit_listing.specs.Kit.{kit_of};
ghost use Rattle.unit_listing.specs.Laid.{IsLaid, IsTold};
ghost use Rattle.link_code.specs.declared.site.Site.{Site};
ghost use Rattle.link_code.specs.Code as codes;
ghost use Rattle.link_code.specs.Positions as spec;

use asm_target::{Placed, Target};
use goasm_base::Pos;
use unit_listing::{Laid, form_at, line_at};

// How many instructions the line of this number has.
fn count_of<T: Target>(laid: &Laid<T::Instr>, number: usize) -> usize
    requires told { let kit = kit_of T.instructions T.fits T.MACHINE T.QUANTUM T.SHAPE T.selection T.aiming T.entry T.check T.begins in IsTold kit laid.now }
    requires within { number < length laid.now.body.code }
    ensures { let kit = kit_of T.instructions T.fits T.MACHINE T.QUANTUM T.SHAPE T.selection T.aiming T.entry T.check T.begins in
        result ≡ spec.count_of kit laid.now number (slice_get laid.now.body.code number) }
{
    let line = line_at(laid, number);
    T::forms(&line.instr, form_at(laid, number)).len()
}

// The line to which the instruction of this number belongs.
fn find_line<T: Target>(laid: &Laid<T::Instr>, number: usize) -> Option<usize>
    requires { let kit = kit_of T.instructions T.fits T.MACHINE T.QUANTUM T.SHAPE T.selection T.aiming T.entry T.check T.begins in IsTold kit laid.now }
    ensures some { let kit = kit_of T.instructions T.fits T.MACHINE T.QUANTUM T.SHAPE T.selection T.aiming T.entry T.check T.begins in
        IfSome result (spec.IsOfLine kit laid.now number) }
    ensures none { let kit = kit_of T.instructions T.fits T.MACHINE T.QUANTUM T.SHAPE T.selection T.aiming T.entry T.check T.begins in
        result ≡ None → spec.count_before kit laid.now (length laid.now.body.code) ≤ number }
{
    let mut left = number;
    for line in 0..laid.body.code.as_slice().len() {
        let count = count_of::<T>(laid, line);
        if left < count {
            return Some(line);
        }
        left -= count;
    }
    None
}

// The number of an instruction that stands at this address.
fn number_at<I: Copy>(code: &[Placed<I>], address: u64) -> Option<usize>
    ensures some { IfSome result (λ number. (one : Placed I) × (slice_get code.now number ≡ Some one) × (one.at ≡ address)) }
    ensures none { result ≡ None → spec.IsNowhere code.now address }
{
    for number in 0..code.len() {
        if code[number].at == address {
            return Some(number);
        }
    }
    None
}

/// The number of the line to which the instruction of this number belongs, both counted from 0 over the whole function; `None` exactly
/// where the function has no such instruction.
pub fn line_of<T: Target>(laid: &Laid<T::Instr>, number: usize) -> Option<usize>
    requires { let kit = kit_of T.instructions T.fits T.MACHINE T.QUANTUM T.SHAPE T.selection T.aiming T.entry T.check T.begins in
        (function : Function) × IsLaid kit function laid.now }
    ensures some { let kit = kit_of T.instructions T.fits T.MACHINE T.QUANTUM T.SHAPE T.selection T.aiming T.entry T.check T.begins in
        IfSome result (spec.IsOfLine kit laid.now number) }
    ensures none { let kit = kit_of T.instructions T.fits T.MACHINE T.QUANTUM T.SHAPE T.selection T.aiming T.entry T.check T.begins in
        result ≡ None → spec.count_before kit laid.now (length laid.now.body.code) ≤ number }
{
    find_line::<T>(laid, number)
}

/// Where the instruction at this address stands in the sources; `None` exactly where none stands there. The code is that of the
/// function, at its place.
pub fn pos_at<T: Target>(
    laid: &Laid<T::Instr>,
    code: &[Placed<T::Instr>],
    address: u64,
) -> Option<Pos>
    requires laid { let kit = kit_of T.instructions T.fits T.MACHINE T.QUANTUM T.SHAPE T.selection T.aiming T.entry T.check T.begins in
        (function : Function) × IsLaid kit function laid.now }
    requires placed { let kit = kit_of T.instructions T.fits T.MACHINE T.QUANTUM T.SHAPE T.selection T.aiming T.entry T.check T.begins in
        (site : Site) × codes.IsCode kit site laid.now code.now }
    ensures some { let kit = kit_of T.instructions T.fits T.MACHINE T.QUANTUM T.SHAPE T.selection T.aiming T.entry T.check T.begins in
        IfSome result (spec.HasPos kit laid.now code.now address) }
    ensures none { result ≡ None → spec.IsNowhere code.now address }
{
    let number = number_at(code, address)?;
    let line = find_line::<T>(laid, number)?;
    Some(line_at(laid, line).pos)
}
