use crate::test_runs::{self, Answer, Failing, NONE, file};
use std::alloc::{AllocError, Global};
use std::process::Abort;
use std::test::Fail;

// One function, `main.Cas`, at 0x400000, of 23 bytes and padding up to 32.
const CAS: [u8; 184] = [
    0xf1, 0xff, 0xff, 0xff, 0, 0, 1, 8, 1, 0, 0, 0, 0, 0, 0, 0, 1, 0, 0, 0, 0, 0, 0, 0, 0, 0, 0x40,
    0, 0, 0, 0, 0, 0x48, 0, 0, 0, 0, 0, 0, 0, 0x58, 0, 0, 0, 0, 0, 0, 0, 0x60, 0, 0, 0, 0, 0, 0, 0,
    0x68, 0, 0, 0, 0, 0, 0, 0, 0x80, 0, 0, 0, 0, 0, 0, 0, 0x6d, 0x61, 0x69, 0x6e, 0x2e, 0x43, 0x61,
    0x73, 0, 0, 0, 0, 0, 0, 0, 0, 0, 0, 0, 0, 0, 0, 0, 0, 0x63, 0x61, 0x73, 0x2e, 0x73, 0, 0, 0, 0,
    2, 0x17, 0, 8, 5, 2, 4, 2, 4, 4, 4, 2, 5, 2, 1, 0, 0, 0, 0, 0, 0, 0, 0, 0, 0, 0, 0, 0x0c, 0, 0,
    0, 0x20, 0, 0, 0, 0, 0, 0, 0, 0, 0, 0, 0, 0x11, 0, 0, 0, 0, 0, 0, 0, 1, 0, 0, 0, 1, 0, 0, 0, 4,
    0, 0, 0, 0, 0, 0, 0, 0, 0, 0, 0, 2, 0, 0, 0, 0, 4, 0, 0,
];

// No functions.
const EMPTY: [u8; 76] = [
    0xf1, 0xff, 0xff, 0xff, 0, 0, 1, 8, 0, 0, 0, 0, 0, 0, 0, 0, 0, 0, 0, 0, 0, 0, 0, 0, 0, 0, 0x40,
    0, 0, 0, 0, 0, 72, 0, 0, 0, 0, 0, 0, 0, 72, 0, 0, 0, 0, 0, 0, 0, 72, 0, 0, 0, 0, 0, 0, 0, 72,
    0, 0, 0, 0, 0, 0, 0, 72, 0, 0, 0, 0, 0, 0, 0, 0, 0, 0, 0,
];

// Runs the words over these tables, and tests the status and what the two sinks took.
fn expect<R: Abort>(
    rt: &R,
    alloc: Global,
    list: &[&[u8]],
    failing: Failing<'_>,
    want: Answer<'_>,
) -> Result<(), AllocError> {
    let mut files = Vec::new(alloc);
    files.push(file(alloc, b"cas.tab", &CAS)?)?;
    files.push(file(alloc, b"empty.tab", &EMPTY)?)?;
    test_runs::expect(rt, alloc, "a look-up", list, files, failing, want)
}

#[test]
fn a_look_up_prints_its_line_or_its_refusal(rt: HostRuntime) -> Result<(), Fail> {
    for (table, pc, want) in [
        (
            b"cas.tab".as_slice(),
            b"0x400011".as_slice(),
            (0, b"main.Cas cas.s:8 depth 0\n".as_slice(), b"".as_slice()),
        ),
        (
            b"cas.tab",
            b"4194304",
            (0, b"main.Cas cas.s:3 depth 0\n", b""),
        ),
        (b"cas.tab", b"0x40001f", (0, b"main.Cas ?:? depth ?\n", b"")),
        (
            b"cas.tab",
            b"0x400020",
            (1, b"", b"cas.tab: no function at 0x0000000000400020\n"),
        ),
        (
            b"empty.tab",
            b"0x400000",
            (1, b"", b"empty.tab: no function at 0x0000000000400000\n"),
        ),
        (b"absent", b"1", (4, b"", b"goasm: cannot read absent\n")),
        (b"cas.tab", b"x", (2, b"", b"goasm: words\n")),
    ] {
        expect(&rt, rt.alloc(), &[b"lookup", table, pc], NONE, want)?;
    }
    Ok(())
}

#[test]
fn words_of_no_form_are_refused(rt: HostRuntime) -> Result<(), Fail> {
    let want = (2, b"".as_slice(), b"goasm: words\n".as_slice());
    expect(&rt, rt.alloc(), &[], NONE, want)?;
    expect(&rt, rt.alloc(), &[b"lookup"], NONE, want)?;
    expect(&rt, rt.alloc(), &[b"lookup", b"cas.tab"], NONE, want)?;
    expect(&rt, rt.alloc(), &[b"look", b"cas.tab", b"1"], NONE, want)?;
    expect(
        &rt,
        rt.alloc(),
        &[b"lookup", b"cas.tab", b"1", b"2"],
        NONE,
        want,
    )?;
    Ok(())
}

#[test]
fn failing_devices_have_their_status(rt: HostRuntime) -> Result<(), Fail> {
    let look_up = [b"lookup".as_slice(), b"cas.tab", b"0x400011"];
    let unread = b"goasm: cannot read cas.tab\n";
    expect(
        &rt,
        rt.alloc(),
        &look_up,
        Failing {
            reads: &[0],
            ..NONE
        },
        (4, b"", unread),
    )?;
    expect(
        &rt,
        rt.alloc(),
        &look_up,
        Failing {
            out: &[(0, 4)],
            ..NONE
        },
        (5, b"main", b""),
    )?;
    expect(
        &rt,
        rt.alloc(),
        &look_up,
        Failing {
            reads: &[0],
            out: &[],
            err: &[(0, 6)],
        },
        (5, b"", b"goasm:"),
    )?;
    expect(
        &rt,
        rt.alloc(),
        &[],
        Failing {
            err: &[(0, 0)],
            ..NONE
        },
        (5, b"", b""),
    )?;
    Ok(())
}

#[test]
fn a_table_may_be_longer_than_1_mib(rt: HostRuntime) -> Result<(), Fail> {
    let alloc = rt.alloc();
    let zeros = vec![in alloc; 0u8; (1 << 20) + 1]?;
    let mut files = Vec::new(alloc);
    files.push(file(alloc, b"zeros.tab", &zeros)?)?;
    test_runs::expect(
        &rt,
        alloc,
        "a table of zeros",
        &[b"lookup", b"zeros.tab", b"1"],
        files,
        NONE,
        (1, b"", b"zeros.tab: TB1 at 0\n"),
    )?;
    Ok(())
}

#[test]
fn only_the_files_that_are_named_are_read(rt: HostRuntime) -> Result<(), Fail> {
    let alloc = rt.alloc();
    let list = b"asm b.s\ninclude t.h\ndefine D 1\nasm a.s\nasm b.s\n";
    let all = [b"list".as_slice(), b"b.s", b"t.h", b"a.s", b"b.s"];
    for (failing, want) in [
        ([].as_slice(), (0, all.as_slice())),
        (&[0], (4, &all[..1])),
        (&[2], (4, &all[..3])),
    ] {
        let mut files = Vec::new(alloc);
        files.push(file(alloc, b"list", list)?)?;
        for name in [b"a.s", b"b.s", b"t.h", b"u.h"] {
            files.push(file(alloc, name, b"RET\n")?)?;
        }
        test_runs::expect_reads(&rt, alloc, &[b"expand", b"list"], files, failing, want)?;
    }
    let mut files = Vec::new(alloc);
    files.push(file(alloc, b"cas.tab", &CAS)?)?;
    let look_up = [b"lookup".as_slice(), b"cas.tab", b"0x400011"];
    test_runs::expect_reads(&rt, alloc, &look_up, files, &[], (0, &[b"cas.tab"]))?;
    test_runs::expect_reads(&rt, alloc, &[b"lookup"], Vec::new(alloc), &[], (2, &[]))?;
    Ok(())
}

/// A byte of the table, the value that it gets, and the line that a look-up then prints.
type Damage = (usize, u8, &'static str);

// What `vectors/model.py` answers, a reading of the format that shares no code with this one; `vectors/run` compares every byte.
const STILL_READ: [Damage; 23] = [
    // The number of files isn't read.
    (16, 0, "main.Cas cas.s:8 depth 0\n"),
    // The text's address.
    (24, 1, "main.Cas cas.s:7 depth 0\n"),
    // The offsets of the names of functions, of a file's names, of the names of files and of the tables.
    (32, 0x7F, " cas.s:8 depth 0\n"),
    (40, 0, "main.Cas ?:8 depth 0\n"),
    (48, 0x7F, "main.Cas :8 depth 0\n"),
    (56, 0, "main.Cas ?:? depth ?\n"),
    // The names.
    (72, 0, " cas.s:8 depth 0\n"),
    (76, 0, "main cas.s:8 depth 0\n"),
    (80, 1, "main.Cas\u{1} cas.s:8 depth 0\n"),
    (88, 1, "main.Cas as.s:8 depth 0\n"),
    (99, 0, "main.Cas cas:8 depth 0\n"),
    // The table of depths and files.
    (105, 0, "main.Cas ?:8 depth -1\n"),
    (105, 0x7F, "main.Cas ?:8 depth -65\n"),
    (106, 0, "main.Cas ?:8 depth ?\n"),
    (106, 0x80, "main.Cas cas.s:8 depth 9\n"),
    // The table of lines.
    (108, 0, "main.Cas cas.s:4 depth 0\n"),
    (108, 1, "main.Cas cas.s:3 depth 0\n"),
    (108, 0x7F, "main.Cas cas.s:-60 depth 0\n"),
    (108, 0x80, "main.Cas cas.s:? depth 0\n"),
    (116, 0x80, "main.Cas cas.s:327 depth 0\n"),
    (117, 0, "main.Cas cas.s:9 depth 0\n"),
    // The function's offsets of its depths and lines.
    (156, 0, "main.Cas cas.s:8 depth ?\n"),
    (164, 1, "main.Cas cas.s:0 depth 0\n"),
];

const REFUSED: [Damage; 20] = [
    // The magic number, the two zero bytes, the quantum and the size of a pointer.
    (0, 0, "cas.tab: TB1 at 0\n"),
    (3, 0, "cas.tab: TB1 at 0\n"),
    (4, 1, "cas.tab: TB2 at 4\n"),
    (6, 0, "cas.tab: TB2 at 6\n"),
    (7, 1, "cas.tab: TB2 at 7\n"),
    // The number of functions, and the text's address.
    (8, 0, "cas.tab: no function at 0x0000000000400011\n"),
    (8, 0x7F, "cas.tab: TB4 at 64\n"),
    (24, 0x7F, "cas.tab: no function at 0x0000000000400011\n"),
    // The offsets of the header.
    (32, 0xFF, "cas.tab: TB4 at 32\n"),
    (40, 0xFF, "cas.tab: TB4 at 40\n"),
    (48, 0xFF, "cas.tab: TB4 at 48\n"),
    (56, 0xFF, "cas.tab: TB4 at 56\n"),
    (64, 0, "cas.tab: TB4 at 4\n"),
    (64, 0x7F, "cas.tab: TB4 at 131\n"),
    // The offsets of the function and of its name.
    (132, 1, "cas.tab: TB4 at 132\n"),
    (144, 0x7F, "cas.tab: TB4 at 144\n"),
    // The offsets of its tables.
    (156, 0x7F, "cas.tab: TB5 at 156\n"),
    (160, 0x7F, "cas.tab: TB5 at 160\n"),
    (164, 0x7F, "cas.tab: TB5 at 164\n"),
    (165, 1, "cas.tab: TB5 at 164\n"),
];

fn damaged(at: usize, value: u8) -> [u8; 184] {
    let mut table = CAS;
    if at < table.len() {
        table[at] = value;
    }
    table
}

// Looks an address up in the damaged table, and tests the status and the line.
fn expect_damaged<R: Abort>(
    rt: &R,
    alloc: Global,
    damage: Damage,
    status: u8,
) -> Result<(), AllocError> {
    let (at, value, line) = damage;
    let mut files = Vec::new(alloc);
    files.push(file(alloc, b"cas.tab", &damaged(at, value))?)?;
    let (out, err) = if status == 0 { (line, "") } else { ("", line) };
    let want = (status, out.as_bytes(), err.as_bytes());
    test_runs::expect(
        rt,
        alloc,
        line,
        &[b"lookup", b"cas.tab", b"0x400011"],
        files,
        NONE,
        want,
    )
}

#[test]
fn damaged_tables_are_read_or_refused(rt: HostRuntime) -> Result<(), Fail> {
    for damage in STILL_READ {
        expect_damaged(&rt, rt.alloc(), damage, 0)?;
    }
    for damage in REFUSED {
        expect_damaged(&rt, rt.alloc(), damage, 1)?;
    }
    Ok(())
}
