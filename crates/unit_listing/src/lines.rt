ghost use Rattle.std.specs.Prelude.{◌≡◌, ◌++◌, ◌+◌, ◌==◌, ◌^◌, ◌<◌, List, ℕ, pos, codes, length, slice_index, None, Some, OnOk, if◌then◌else◌};
ghost use Rattle.std.specs.List.{slice_get};
ghost use Rattle.branch_size.specs.Tables.{HasGoals};
ghost use Rattle.goasm_base.specs.Numbers.{decimal_text};
ghost use Rattle.unit_listing.specs.Joined.{AreJoined, Appends};
ghost use Rattle.unit_listing.specs.Kit.{kit_of};
ghost use Rattle.unit_listing.specs.Laid.{IsTold};
ghost use Rattle.unit_listing.specs.Lines as spec;

use crate::laid::Laid;
use crate::shown::{Spot, shown, shown_at};
use asm_parse::Symbol;
use asm_target::{Few, Line, Refer, Target, To};
use goasm_base::{Memory, Text};
use std::alloc::Global;

/// The flag NEEDCTXT of Go's `textflag.h`: the function has a context register.
const NEEDCTXT: u32 = 64;

/// Appends the name of the symbol of this number.
pub fn push_name(text: &mut Text, symbols: &[Symbol], number: u32) -> Result<(), Memory>
    ensures { OnOk result (text.new ≡ text.old ++ spec.symbol_name symbols.now number) }
{
    match symbols.get(number as usize) {
        Some(symbol) => text.push(symbol.name.as_slice()),
        None => Ok(()),
    }
}

// Appends the name of the routine that grows the stack.
fn push_growth(text: &mut Text, flags: u32) -> Result<(), Memory>
    ensures { OnOk result (text.new ≡ text.old ++ spec.growth_name flags) }
{
    if flags & NEEDCTXT == 0 {
        text.push(b"runtime.morestack_noctxt")
    } else {
        text.push(b"runtime.morestack")
    }
}

// Appends the symbol that an instruction refers to, if any, with the offset from it.
fn push_refer(
    text: &mut Text,
    symbols: &[Symbol],
    flags: u32,
    refer: Option<Refer>,
) -> Result<(), Memory>
    ensures { OnOk result (text.new ≡ text.old ++ spec.refer_text symbols.now flags refer) }
{
    match refer {
        Some(
            Refer {
                to: To::Symbol(sym, off),
                ..
            },
        ) => {
            text.push(b" ; ")?;
            push_name(text, symbols, sym)?;
            text.push(b"+")?;
            text.push_decimal(off)
        }
        Some(Refer { to: To::Grow, .. }) => {
            text.push(b" ; ")?;
            push_growth(text, flags)?;
            text.push(b"+")?;
            text.push_decimal(0)
        }
        _ => Ok(()),
    }
}

// Appends what stands before the text of an instruction: its offset, its depth and its line.
fn push_numbers(text: &mut Text, offset: u64, depth: u32, line: u32) -> Result<(), Memory>
    ensures { OnOk result (text.new ≡ text.old ++ decimal_text (pos offset) ++ codes " " ++ decimal_text (pos depth) ++ codes " "
        ++ decimal_text (pos line) ++ codes " ") }
{
    text.push_unsigned(offset)?;
    text.push(b" ")?;
    text.push_unsigned(u64::from(depth))?;
    text.push(b" ")?;
    text.push_unsigned(u64::from(line))?;
    text.push(b" ")
}

// Appends the line of an instruction, of which this is said.
fn push_said<I: Copy>(
    text: &mut Text,
    spot: &Spot<I>,
    said: &[u8],
    symbols: &[Symbol],
    flags: u32,
    refer: Option<Refer>,
) -> Result<(), Memory>
    ensures { OnOk result (text.new ≡ text.old
        ++ spec.line_text spot.now.at spot.now.line said.now (spec.refer_text symbols.now flags refer)) }
{
    push_numbers(text, spot.at, spot.line.depth, spot.line.pos.line)?;
    text.push(said)?;
    push_refer(text, symbols, flags, refer)?;
    text.push(b"\n")
}

// Appends the text of an instruction of a line.
fn push_instr<T: Target>(
    alloc: Global,
    text: &mut Text,
    symbols: &[Symbol],
    laid: &Laid<T::Instr>,
    spot: &Spot<T::Instr>,
    instr: &T::Instr,
    refer: Option<Refer>,
) -> Result<(), Memory>
    requires { HasGoals (T.check laid.now.body.frame) laid.now.body.code laid.now.goals }
    ensures { let kit = kit_of T.instructions T.fits T.MACHINE T.QUANTUM T.SHAPE T.selection T.aiming T.entry T.check T.begins in
        OnOk result (Appends (spec.IsSaid kit symbols.now laid.now.flags (T.check laid.now.body.frame) laid.now.body.code laid.now.sizes
        spot.now.line spot.now.back spot.now.at instr.now refer) text.old text.new) }
{
    let shown = shown::<T>(laid, spot, instr, refer);
    let said = T::show(alloc, &shown, shown_at(refer, spot.at))?;
    push_said(text, spot, said.as_slice(), symbols, laid.flags, refer)
}

/// What the instruction of this number in a form of so many refers to: the last one to what the line does.
pub fn refer_in(count: usize, number: usize, refer: Option<Refer>) -> Option<Refer>
    requires { number < count }
    ensures { result ≡ (if number + 1 == count then refer else None) }
{
    if number + 1 == count { refer } else { None }
}

// Appends the texts of a line's instructions, which stand one behind the other from its place.
fn push_form<T: Target>(
    alloc: Global,
    text: &mut Text,
    symbols: &[Symbol],
    laid: &Laid<T::Instr>,
    spot: &Spot<T::Instr>,
    form: &Few<T::Instr>,
) -> Result<(), Memory>
    requires goals { HasGoals (T.check laid.now.body.frame) laid.now.body.code laid.now.goals }
    requires small { spot.now.at < 2 ^ 32 }
    ensures { let kit = kit_of T.instructions T.fits T.MACHINE T.QUANTUM T.SHAPE T.selection T.aiming T.entry T.check T.begins in
        OnOk result (Appends (spec.AreShown kit symbols.now laid.now.flags (T.check laid.now.body.frame) laid.now.body.code laid.now.sizes
        spot.now.line spot.now.back spot.now.at form.now) text.old text.new) }
{
    let mut at = spot.at;
    for number in 0..form.len() {
        let instr = form.get(number);
        let refer = refer_in(form.len(), number, spot.line.refer);
        push_instr::<T>(
            alloc,
            text,
            symbols,
            laid,
            &Spot { at, ..*spot },
            &instr,
            refer,
        )?;
        at += T::spell(&instr).len() as u64;
    }
    Ok(())
}

/// The line of this number.
pub fn line_at<I: Copy>(laid: &Laid<I>, number: usize) -> Line<I>
    requires { number < length laid.now.body.code }
    ensures { slice_get laid.now.body.code number ≡ Some result }
{
    laid.body.code.as_slice()[number]
}

/// The form of the line of this number.
pub fn form_at<I>(laid: &Laid<I>, number: usize) -> u8
    requires { number < length laid.now.sizes.forms }
    ensures { result ≡ slice_index laid.now.sizes.forms number }
{
    laid.sizes.forms.as_slice()[number]
}

/// The place of the line of this number, in bytes from the function's first instruction.
pub fn place_at<I>(laid: &Laid<I>, number: usize) -> u64
    requires { number < length laid.now.sizes.places }
    ensures place { result ≡ slice_index laid.now.sizes.places number }
    ensures small { result < 2 ^ 32 }
{
    u64::from(laid.sizes.places.as_slice()[number])
}

// Appends the text of the line of this number.
fn push_line<T: Target>(
    alloc: Global,
    text: &mut Text,
    symbols: &[Symbol],
    laid: &Laid<T::Instr>,
    number: usize,
) -> Result<(), Memory>
    requires told { let kit = kit_of T.instructions T.fits T.MACHINE T.QUANTUM T.SHAPE T.selection T.aiming T.entry T.check T.begins in IsTold kit laid.now }
    requires within { number < length laid.now.body.code }
    ensures { let kit = kit_of T.instructions T.fits T.MACHINE T.QUANTUM T.SHAPE T.selection T.aiming T.entry T.check T.begins in
        OnOk result (Appends (spec.IsLine kit symbols.now laid.now.flags (T.check laid.now.body.frame) laid.now.body.code laid.now.sizes
        number) text.old text.new) }
{
    let line = line_at(laid, number);
    let form = T::forms(&line.instr, form_at(laid, number));
    let spot = Spot {
        line,
        back: place_at(laid, number.saturating_sub(1)),
        at: place_at(laid, number),
    };
    push_form::<T>(alloc, text, symbols, laid, &spot, &form)
}

/// Appends the texts of a function's lines.
pub fn push_lines<T: Target>(
    alloc: Global,
    text: &mut Text,
    symbols: &[Symbol],
    laid: &Laid<T::Instr>,
) -> Result<(), Memory>
    requires { let kit = kit_of T.instructions T.fits T.MACHINE T.QUANTUM T.SHAPE T.selection T.aiming T.entry T.check T.begins in IsTold kit laid.now }
    ensures { let kit = kit_of T.instructions T.fits T.MACHINE T.QUANTUM T.SHAPE T.selection T.aiming T.entry T.check T.begins in
        OnOk result (Appends (AreJoined (spec.IsLine kit symbols.now laid.now.flags (T.check laid.now.body.frame) laid.now.body.code
        laid.now.sizes) (length laid.now.body.code)) text.old text.new) }
{
    for number in 0..laid.body.code.as_slice().len() {
        push_line::<T>(alloc, text, symbols, laid, number)?;
    }
    Ok(())
}
