ghost use Rattle.std.specs.Prelude.{◌≡◌, ◌<◌, length, IsSome, IfOk};
ghost use Rattle.goasm_text.specs.Lines as spec;
ghost use Rattle.goasm_text.specs.Lines.{HasCause, HasName, IsNamed, lex_cause, macro_cause, parse_cause, rewrite_cause, select_cause, size_cause, cause_line, table_line};

use crate::dump_lines::{of_chain, of_dump};
use crate::image_lines::{of_check, of_image, table_fault};
use crate::lines::{at_offset, at_place, at_place_with, name_in};
use crate::refusal::Refusal;
use asm_lex::LexNo;
use asm_macro::MacroNo;
use asm_parse::ParseNo;
use asm_target::SelectNo;
use branch_size::SizeNo;
use goasm_base::{Bytes, Memory, Name, Pos};
use obj_rewrite::RewriteNo;
use pclntab::TableNo;
use std::alloc::Global;

/// The line that tells a refusal, with its newline. `files` has the name of each file at the file's number, the
/// names of `#line` directives too; a function table, an image or a dump is the first of them. Each file that the refusal speaks of has to
/// have a name there, and the refusal may not be want of memory, which no line tells.
///
/// The line is `FILE:LINE: CODE` for a source, its expansion, its statements and their instructions, with a number behind
/// the code of a frame that is too large (`RW1`, its bytes) and of a branch that doesn't reach (`B1`, its distance). It is
/// `FILE: CODE at OFFSET` for a function table and for bytes that are no image, and `FILE: CODE at ADDRESS` for an image that
/// isn't sound; there K1 has `profile`, or the code of the image's or the table's fault at its offset, behind it, and K3 the
/// flow rule, with two depths where that is F1. It is `FILE:LINE: CODE` for a text that is no dump too, `FILE: DU3` for a dump of
/// another machine, and `FILE: CODE VALUE` for a walk that can't go on, with the depth behind the value where the code is U5.
/// `Memory` comes only for want of memory.
pub fn line_of(alloc: Global, refusal: &Refusal, files: &[Name]) -> Result<Bytes, Memory>
    requires cause { HasCause refusal.now }
    requires files { HasName files.now refusal.now }
    ensures { IfOk result (λ line. line ≡ spec.line_of refusal.now files.now) }
{
    match refusal {
        Refusal::Lex(no) => of_source(alloc, *no, files),
        Refusal::Macro(no) => of_expansion(alloc, *no, files),
        Refusal::Parse(no) => of_statements(alloc, *no, files),
        Refusal::Rewrite(no) => of_rewriting(alloc, *no, files),
        Refusal::Size(no) => of_sizes(alloc, *no, files),
        Refusal::Table(no) => of_table(alloc, *no, files),
        Refusal::Image(no) => of_image(alloc, name_in(files, 0), *no),
        Refusal::Check(no) => of_check(alloc, name_in(files, 0), *no),
        Refusal::Dump(no) => of_dump(alloc, name_in(files, 0), *no),
        Refusal::Chain(no) => of_chain(alloc, name_in(files, 0), *no),
    }
}

fn of_source(alloc: Global, no: LexNo, files: &[Name]) -> Result<Bytes, Memory>
    requires cause { IsSome (lex_cause no) }
    requires files { IsNamed files.now (lex_cause no) }
    ensures { IfOk result (λ line. line ≡ cause_line files.now (lex_cause no)) }
{
    match no {
        LexNo::L1(pos) => at_place(alloc, files, pos, b"L1"),
        LexNo::L2(pos) => at_place(alloc, files, pos, b"L2"),
        LexNo::L3(pos) => at_place(alloc, files, pos, b"L3"),
        LexNo::L4(pos) => at_place(alloc, files, pos, b"L4"),
        LexNo::Memory => unreachable!(),
    }
}

fn of_expansion(alloc: Global, no: MacroNo, files: &[Name]) -> Result<Bytes, Memory>
    requires cause { IsSome (macro_cause no) }
    requires files { IsNamed files.now (macro_cause no) }
    ensures { IfOk result (λ line. line ≡ cause_line files.now (macro_cause no)) }
{
    match no {
        MacroNo::M1(pos) => at_place(alloc, files, pos, b"M1"),
        MacroNo::M2(pos) => at_place(alloc, files, pos, b"M2"),
        MacroNo::M3(pos) => at_place(alloc, files, pos, b"M3"),
        MacroNo::M4(pos) => at_place(alloc, files, pos, b"M4"),
        MacroNo::M5(pos) => at_place(alloc, files, pos, b"M5"),
        MacroNo::M6(pos) => at_place(alloc, files, pos, b"M6"),
        MacroNo::M7(pos) => at_place(alloc, files, pos, b"M7"),
        MacroNo::Memory => unreachable!(),
    }
}

fn of_statements(alloc: Global, no: ParseNo, files: &[Name]) -> Result<Bytes, Memory>
    requires cause { IsSome (parse_cause no) }
    requires files { IsNamed files.now (parse_cause no) }
    ensures { IfOk result (λ line. line ≡ cause_line files.now (parse_cause no)) }
{
    match no {
        ParseNo::P1(pos) => at_place(alloc, files, pos, b"P1"),
        ParseNo::P2(pos) => at_place(alloc, files, pos, b"P2"),
        ParseNo::P3(pos) => at_place(alloc, files, pos, b"P3"),
        ParseNo::P4(pos) => at_place(alloc, files, pos, b"P4"),
        ParseNo::P5(pos) => at_place(alloc, files, pos, b"P5"),
        ParseNo::P6(pos) => at_place(alloc, files, pos, b"P6"),
        ParseNo::P7(pos) => at_place(alloc, files, pos, b"P7"),
        ParseNo::P8(pos) => at_place(alloc, files, pos, b"P8"),
        ParseNo::P9(pos) => at_place(alloc, files, pos, b"P9"),
        ParseNo::P10(pos) => at_place(alloc, files, pos, b"P10"),
        ParseNo::Memory => unreachable!(),
    }
}

fn of_rewriting(alloc: Global, no: RewriteNo, files: &[Name]) -> Result<Bytes, Memory>
    requires cause { IsSome (rewrite_cause no) }
    requires files { IsNamed files.now (rewrite_cause no) }
    ensures { IfOk result (λ line. line ≡ cause_line files.now (rewrite_cause no)) }
{
    match no {
        RewriteNo::RW1(pos, total) => at_place_with(alloc, files, pos, b"RW1", total),
        RewriteNo::Select(pos, why) => of_selection(alloc, pos, why, files),
        RewriteNo::Memory => unreachable!(),
    }
}

// The line of a statement that has no instructions.
fn of_selection(alloc: Global, pos: Pos, why: SelectNo, files: &[Name]) -> Result<Bytes, Memory>
    requires cause { IsSome (select_cause pos why) }
    ensures { IfOk result (λ line. line ≡ cause_line files.now (select_cause pos why)) }
{
    match why {
        SelectNo::S1 => at_place(alloc, files, pos, b"S1"),
        SelectNo::S2 => at_place(alloc, files, pos, b"S2"),
        SelectNo::S3 => at_place(alloc, files, pos, b"S3"),
        SelectNo::S4 => at_place(alloc, files, pos, b"S4"),
        SelectNo::Memory => unreachable!(),
    }
}

fn of_sizes(alloc: Global, no: SizeNo, files: &[Name]) -> Result<Bytes, Memory>
    requires cause { IsSome (size_cause no) }
    requires files { IsNamed files.now (size_cause no) }
    ensures { IfOk result (λ line. line ≡ cause_line files.now (size_cause no)) }
{
    match no {
        SizeNo::B1(pos, distance) => at_place_with(alloc, files, pos, b"B1", distance),
        SizeNo::Memory => unreachable!(),
    }
}

fn of_table(alloc: Global, no: TableNo, files: &[Name]) -> Result<Bytes, Memory>
    ensures { IfOk result (λ line. line ≡ table_line (spec.name_in files.now 0) no) }
{
    let (code, offset) = table_fault(no);
    at_offset(alloc, name_in(files, 0), code, offset)
}
