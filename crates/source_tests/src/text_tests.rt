ghost use Rattle.std.specs.Prelude.{◌≡◌};
ghost use Rattle.goasm_text.specs.Lines.{HasCause, HasName};

use asm_lex::LexNo;
use asm_macro::MacroNo;
use asm_parse::ParseNo;
use asm_target::SelectNo;
use branch_size::SizeNo;
use elf_image::ImageNo;
use flow_rules::FlowNo;
use goasm_base::{Memory, Name, Pos, Text};
use goasm_text::{Refusal, line_of, push_place};
use image_rules::{CheckNo, ProfileNo};
use obj_rewrite::RewriteNo;
use pclntab::TableNo;
use std::alloc::Global;
use std::process::Abort;
use std::test::Fail;

// The names of a file, another one, and one that a `#line` directive gives.
fn three_names(alloc: Global) -> Result<[Name; 3], Memory> {
    Ok([
        Name::from_slice(alloc, b"cas.tab")?,
        Name::from_slice(alloc, b"m.s")?,
        Name::from_slice(alloc, b"y.s")?,
    ])
}

// Tests the line of a refusal over these files.
fn expect<R: Abort>(
    rt: &R,
    alloc: Global,
    files: &[Name],
    refusal: &Refusal,
    want: &[u8],
) -> Result<(), Fail>
    requires cause { HasCause refusal.now }
    requires files { HasName files.now refusal.now }
{
    assert_eq!(rt; line_of(alloc, refusal, files)?.as_slice(), want);
    Ok(())
}

fn at(file: u32, line: u32) -> Pos
    ensures { result ≡ record { file = file; line = line } }
{
    Pos { file, line }
}

#[test]
fn a_source_is_told_by_its_line(rt: HostRuntime) -> Result<(), Fail> {
    let alloc = rt.alloc();
    let files = three_names(alloc)?;
    expect(
        &rt,
        alloc,
        &files,
        &Refusal::Lex(LexNo::L1(at(1, 1))),
        b"m.s:1: L1\n",
    )?;
    expect(
        &rt,
        alloc,
        &files,
        &Refusal::Lex(LexNo::L2(at(1, 12))),
        b"m.s:12: L2\n",
    )?;
    expect(
        &rt,
        alloc,
        &files,
        &Refusal::Lex(LexNo::L3(at(0, 3))),
        b"cas.tab:3: L3\n",
    )?;
    expect(
        &rt,
        alloc,
        &files,
        &Refusal::Lex(LexNo::L4(at(2, u32::MAX))),
        b"y.s:4294967295: L4\n",
    )
}

#[test]
fn an_expansion_is_told_by_its_line(rt: HostRuntime) -> Result<(), Fail> {
    let alloc = rt.alloc();
    let files = three_names(alloc)?;
    expect(
        &rt,
        alloc,
        &files,
        &Refusal::Macro(MacroNo::M1(at(1, 1))),
        b"m.s:1: M1\n",
    )?;
    expect(
        &rt,
        alloc,
        &files,
        &Refusal::Macro(MacroNo::M2(at(1, 20))),
        b"m.s:20: M2\n",
    )?;
    expect(
        &rt,
        alloc,
        &files,
        &Refusal::Macro(MacroNo::M3(at(0, 4))),
        b"cas.tab:4: M3\n",
    )?;
    expect(
        &rt,
        alloc,
        &files,
        &Refusal::Macro(MacroNo::M4(at(1, 3))),
        b"m.s:3: M4\n",
    )?;
    expect(
        &rt,
        alloc,
        &files,
        &Refusal::Macro(MacroNo::M5(at(2, 7))),
        b"y.s:7: M5\n",
    )?;
    expect(
        &rt,
        alloc,
        &files,
        &Refusal::Macro(MacroNo::M6(at(1, 300))),
        b"m.s:300: M6\n",
    )?;
    expect(
        &rt,
        alloc,
        &files,
        &Refusal::Macro(MacroNo::M7(at(1, 9))),
        b"m.s:9: M7\n",
    )
}

#[test]
fn statements_are_told_by_their_line(rt: HostRuntime) -> Result<(), Fail> {
    let alloc = rt.alloc();
    let files = three_names(alloc)?;
    for (no, want) in [
        (ParseNo::P1(at(1, 4)), b"m.s:4: P1\n".as_slice()),
        (ParseNo::P2(at(2, 1)), b"y.s:1: P2\n"),
        (ParseNo::P3(at(1, 30)), b"m.s:30: P3\n"),
        (ParseNo::P4(at(1, 5)), b"m.s:5: P4\n"),
        (ParseNo::P5(at(1, 6)), b"m.s:6: P5\n"),
        (ParseNo::P6(at(1, 7)), b"m.s:7: P6\n"),
        (ParseNo::P7(at(2, 8)), b"y.s:8: P7\n"),
        (ParseNo::P8(at(1, 9)), b"m.s:9: P8\n"),
        (ParseNo::P9(at(1, 1)), b"m.s:1: P9\n"),
        (ParseNo::P10(at(1, 2)), b"m.s:2: P10\n"),
    ] {
        expect(&rt, alloc, &files, &Refusal::Parse(no), want)?;
    }
    Ok(())
}

#[test]
fn functions_without_instructions_are_told_by_their_line(rt: HostRuntime) -> Result<(), Fail> {
    let alloc = rt.alloc();
    let files = three_names(alloc)?;
    for (no, want) in [
        (
            RewriteNo::RW1(at(1, 2), 1_048_584),
            b"m.s:2: RW1 1048584\n".as_slice(),
        ),
        (RewriteNo::Select(at(1, 3), SelectNo::S1), b"m.s:3: S1\n"),
        (RewriteNo::Select(at(2, 4), SelectNo::S2), b"y.s:4: S2\n"),
        (RewriteNo::Select(at(1, 5), SelectNo::S3), b"m.s:5: S3\n"),
        (RewriteNo::Select(at(1, 6), SelectNo::S4), b"m.s:6: S4\n"),
    ] {
        expect(&rt, alloc, &files, &Refusal::Rewrite(no), want)?;
    }
    expect(
        &rt,
        alloc,
        &files,
        &Refusal::Size(SizeNo::B1(at(1, 12), u64::MAX)),
        b"m.s:12: B1 18446744073709551615\n",
    )
}

#[test]
fn a_table_is_told_by_an_offset(rt: HostRuntime) -> Result<(), Fail> {
    let alloc = rt.alloc();
    let files = three_names(alloc)?;
    for (fault, want) in [
        (TableNo::TB1(0), b"cas.tab: TB1 at 0\n".as_slice()),
        (TableNo::TB2(71), b"cas.tab: TB2 at 71\n"),
        (TableNo::TB3(136), b"cas.tab: TB3 at 136\n"),
        (TableNo::TB4(64), b"cas.tab: TB4 at 64\n"),
        (TableNo::TB5(164), b"cas.tab: TB5 at 164\n"),
        (
            TableNo::TB6(u64::MAX),
            b"cas.tab: TB6 at 18446744073709551615\n",
        ),
    ] {
        expect(&rt, alloc, &files, &Refusal::Table(fault), want)?;
    }
    Ok(())
}

#[test]
fn an_image_is_told_by_an_offset(rt: HostRuntime) -> Result<(), Fail> {
    let alloc = rt.alloc();
    let files = three_names(alloc)?;
    for (fault, want) in [
        (ImageNo::I1(0), b"cas.tab: I1 at 0\n".as_slice()),
        (ImageNo::I2(168), b"cas.tab: I2 at 168\n"),
        (ImageNo::I3(12_392), b"cas.tab: I3 at 12392\n"),
        (
            ImageNo::I4(u64::MAX),
            b"cas.tab: I4 at 18446744073709551615\n",
        ),
    ] {
        expect(&rt, alloc, &files, &Refusal::Image(fault), want)?;
    }
    Ok(())
}

#[test]
fn an_image_that_is_not_sound_is_told_by_an_address(rt: HostRuntime) -> Result<(), Fail> {
    let alloc = rt.alloc();
    let files = three_names(alloc)?;
    let image = CheckNo::K1(ProfileNo::Image(ImageNo::I2(12_968)));
    let table = CheckNo::K1(ProfileNo::Table(TableNo::TB5(284)));
    for (no, want) in [
        (image, b"cas.tab: K1 I2 at 12968\n".as_slice()),
        (table, b"cas.tab: K1 TB5 at 284\n"),
        (CheckNo::K1(ProfileNo::Profile), b"cas.tab: K1 profile\n"),
        (
            CheckNo::K2(0x40_00b1),
            b"cas.tab: K2 at 0x00000000004000b1\n",
        ),
        (
            CheckNo::K3(FlowNo {
                rule: 1,
                at: 0x40_0154,
                depths: (2032, 4104),
            }),
            b"cas.tab: K3 F1 2032 4104 at 0x0000000000400154\n",
        ),
        (
            CheckNo::K3(FlowNo {
                rule: 1,
                at: 0x40_0011,
                depths: (-32, 0),
            }),
            b"cas.tab: K3 F1 -32 0 at 0x0000000000400011\n",
        ),
        (
            CheckNo::K3(FlowNo {
                rule: 2,
                at: 0x40_003e,
                depths: (0, 0),
            }),
            b"cas.tab: K3 F2 at 0x000000000040003e\n",
        ),
        (
            CheckNo::K3(FlowNo {
                rule: 9,
                at: 0x40_000e,
                depths: (0, 0),
            }),
            b"cas.tab: K3 F9 at 0x000000000040000e\n",
        ),
        (
            CheckNo::K4(0x40_0030),
            b"cas.tab: K4 at 0x0000000000400030\n",
        ),
        (
            CheckNo::K5(u64::MAX),
            b"cas.tab: K5 at 0xffffffffffffffff\n",
        ),
    ] {
        expect(&rt, alloc, &files, &Refusal::Check(no), want)?;
    }
    Ok(())
}

#[test]
fn a_place_is_a_name_and_a_line(rt: HostRuntime) -> Result<(), Fail> {
    let alloc = rt.alloc();
    let files = three_names(alloc)?;
    let mut text = Text::new(alloc);
    push_place(&mut text, &files, at(1, 12))?;
    assert_eq!(rt; text.finish().as_slice(), b"m.s:12".as_slice());
    Ok(())
}
