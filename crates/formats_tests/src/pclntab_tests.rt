ghost use Rattle.std.specs.Prelude.{◌≡◌, [], ◌∷◌, IfOk};
ghost use Rattle.pclntab.specs.Worked as worked;

use goasm_base::{Bytes, List, Memory, Name};
use pclntab::{Func, FuncPart, Table, TableNo, TableParts, write};
use pcvalue::{Answer, Run};
use std::alloc::Global;
use std::process::Abort;
use std::test::Fail;

// One function, `main.Cas`, at 0x400000, of 23 bytes and padding up to 32.
const CAS: [u8; 184] = [
    0xf1, 0xff, 0xff, 0xff, 0, 0, 1, 8, 1, 0, 0, 0, 0, 0, 0, 0, 1, 0, 0, 0, 0, 0, 0, 0, 0, 0, 0x40,
    0, 0, 0, 0, 0, 0x48, 0, 0, 0, 0, 0, 0, 0, 0x58, 0, 0, 0, 0, 0, 0, 0, 0x60, 0, 0, 0, 0, 0, 0, 0,
    0x68, 0, 0, 0, 0, 0, 0, 0, 0x80, 0, 0, 0, 0, 0, 0, 0, 0x6d, 0x61, 0x69, 0x6e, 0x2e, 0x43, 0x61,
    0x73, 0, 0, 0, 0, 0, 0, 0, 0, 0, 0, 0, 0, 0, 0, 0, 0, 0x63, 0x61, 0x73, 0x2e, 0x73, 0, 0, 0, 0,
    2, 0x17, 0, 8, 5, 2, 4, 2, 4, 4, 4, 2, 5, 2, 1, 0, 0, 0, 0, 0, 0, 0, 0, 0, 0, 0, 0, 0x0c, 0, 0,
    0, 0x20, 0, 0, 0, 0, 0, 0, 0, 0, 0, 0, 0, 0x11, 0, 0, 0, 0, 0, 0, 0, 1, 0, 0, 0, 1, 0, 0, 0, 4,
    0, 0, 0, 0, 0, 0, 0, 0, 0, 0, 0, 2, 0, 0, 0, 0, 4, 0, 0,
];

#[test]
fn a_function_tells_its_parts(rt: HostRuntime) -> Result<(), Fail> {
    let Ok(table) = Table::read(&CAS) else {
        return Err(Fail::from("no table"));
    };
    assert_eq!(rt; table.count(), 1);
    let func = table.find(0x40_0011).ok_or("no function")?;
    assert_eq!(rt; func.name(), b"main.Cas".as_slice());
    assert_eq!(rt; func.entry(), 0x40_0000);
    assert_eq!(rt; func.end(), 0x40_0020);
    assert_eq!(rt; func.args(), 17);
    assert_eq!(rt; func.flags(), 4);
    assert!(rt; func.has(0x40_0011));
    assert_eq!(rt; func.line(0x40_0011), Answer::Value(8));
    assert_eq!(rt; func.depth(0x40_0011), Answer::Value(0));
    assert_eq!(rt; func.file(0x40_0011).unwrap_or(b"?"), b"cas.s".as_slice());
    assert!(rt; table.find(0x3F_FFFF).is_none());
    assert!(rt; table.find(0x40_0020).is_none());
    assert!(rt; table.count() > 0);
    assert_eq!(rt; table.at(0).entry(), 0x40_0000);
    Ok(())
}

#[test]
fn a_function_tells_the_values_of_its_stretches(rt: HostRuntime) -> Result<(), Fail> {
    let Ok(table) = Table::read(&CAS) else {
        return Err(Fail::from("no table"));
    };
    assert_eq!(rt; table.quantum(), 1);
    assert_eq!(rt; table.text_start(), 0x40_0000);
    let func = table.find(0x40_0011).ok_or("no function")?;
    let ends = [5, 9, 13, 17, 22, 23];
    let depths = func.depths_over(rt.alloc(), &ends)?.ok_or("no depths")?;
    assert_eq!(rt; depths.as_slice(), [0; 6].as_slice());
    let lines = func.lines_over(rt.alloc(), &ends)?.ok_or("no lines")?;
    assert_eq!(rt; lines.as_slice(), [3, 4, 5, 7, 8, 9].as_slice());
    let files = func.files_over(rt.alloc(), &ends)?.ok_or("no files")?;
    assert_eq!(rt; files.as_slice(), [0; 6].as_slice());
    // The lines change within the only stretch, and the tables end before the padding does.
    assert!(rt; func.lines_over(rt.alloc(), &[23])?.is_none());
    assert!(rt; func.depths_over(rt.alloc(), &[23, 32])?.is_none());
    assert!(rt; func.files_over(rt.alloc(), &[22])?.is_none());
    Ok(())
}

// Tests whether a number stands for a file of the first function.
fn expect_file<R: Abort>(rt: &R, bytes: &[u8; 184], number: i32, want: bool) {
    match Table::read(bytes) {
        Ok(table) => {
            assert!(rt; table.count() > 0);
            assert_eq!(rt; table.has_file(0, number), want, "{number}");
        }
        Err(no) => assert!(rt; false, "refused by {no}"),
    }
}

#[test]
fn a_number_stands_for_a_file_within_the_bytes(rt: HostRuntime) {
    // The words of the numbers 0 and 1 name `cas.s`, that of 2 lies in the name's letters, and those behind lie outside.
    for (number, want) in [
        (0, true),
        (1, true),
        (2, false),
        (-1, false),
        (i32::MIN, false),
        (23, false),
        (i32::MAX, false),
    ] {
        expect_file(&rt, &CAS, number, want);
    }
    // A name that begins at the last byte of all, a zero byte, and one behind it.
    let mut bytes = CAS;
    bytes[88] = 87;
    expect_file(&rt, &bytes, 0, true);
    bytes[88] = 88;
    expect_file(&rt, &bytes, 0, false);
}

// Tests that a table is refused, and why.
fn expect_no<R: Abort>(rt: &R, bytes: &[u8; 184], len: usize, want: TableNo) {
    assert!(rt; len <= 184);
    match Table::read(&bytes[..len]) {
        Ok(_) => assert!(rt; false, "read, where {want} has to be found"),
        Err(no) => assert_eq!(rt; no, want),
    }
}

#[test]
fn the_first_fault_is_named(rt: HostRuntime) {
    expect_no(&rt, &CAS, 71, TableNo::TB2(71));
    expect_no(&rt, &CAS, 183, TableNo::TB4(132));
    for (at, value, want) in [
        (0, 0xF2, TableNo::TB1(0)),
        (3, 0xFE, TableNo::TB1(0)),
        (4, 1, TableNo::TB2(4)),
        (6, 3, TableNo::TB2(6)),
        (7, 4, TableNo::TB2(7)),
        (32, 0xFF, TableNo::TB4(32)),
        (64, 0xFF, TableNo::TB4(64)),
        (144, 0xFF, TableNo::TB4(144)),
        (156, 0x4F, TableNo::TB5(156)),
        (160, 0x4F, TableNo::TB5(160)),
        (164, 0x4F, TableNo::TB5(164)),
    ] {
        let mut bytes = CAS;
        assert!(rt; at < 184);
        bytes[at] = value;
        expect_no(&rt, &bytes, 184, want);
    }
}

#[test]
fn an_address_past_the_greatest_text_is_refused(rt: HostRuntime) {
    let mut bytes = CAS;
    bytes[24..32].copy_from_slice(&[0xFF; 8]);
    expect_no(&rt, &bytes, 184, TableNo::TB2(24));
}

// The same function in the Go 1.18 form: another magic number, and no line of the declaration in the record.
fn old_form() -> [u8; 180] {
    let mut bytes = [0; 180];
    bytes[..176].copy_from_slice(&CAS[..176]);
    bytes[176..].copy_from_slice(&CAS[180..]);
    bytes[0] = 0xF0;
    bytes
}

// What a table tells of an address: the function, and its depth, line and file there.
#[derive(Drop)]
struct Told<'a> {
    func: Func<'a>,
    depth: Answer,
    line: Answer,
    file: &'a [u8],
}

fn look_up<'a>(table: &Table<'a>, pc: u64) -> Option<Told<'a>> {
    let func = table.find(pc)?;
    Some(Told {
        depth: func.depth(pc),
        line: func.line(pc),
        file: func.file(pc).unwrap_or(b"?"),
        func,
    })
}

// Tests that the two tables answer alike at an address of their one function.
fn expect_alike<R: Abort>(rt: &R, one: &[u8], other: &[u8], pc: u64) -> Result<(), Fail> {
    assert!(rt; one.len() < 1 << 32 && other.len() < 1 << 32);
    let (Ok(one), Ok(other)) = (Table::read(one), Table::read(other)) else {
        return Err(Fail::from("no table"));
    };
    assert_eq!(rt; one.count(), other.count());
    let one = look_up(&one, pc).ok_or("no function")?;
    let other = look_up(&other, pc).ok_or("no function")?;
    assert_eq!(rt; one.func.name(), other.func.name());
    assert_eq!(rt; one.func.entry(), other.func.entry());
    assert_eq!(rt; one.func.end(), other.func.end());
    assert_eq!(rt; one.func.args(), other.func.args());
    assert_eq!(rt; one.func.flags(), other.func.flags());
    assert_eq!(rt; one.depth, other.depth);
    assert_eq!(rt; one.line, other.line);
    assert_eq!(rt; one.file, other.file);
    Ok(())
}

#[test]
fn both_forms_answer_alike(rt: HostRuntime) -> Result<(), Fail> {
    let old = old_form();
    for pc in 0x40_0000..0x40_0020u64 {
        expect_alike(&rt, &CAS, &old, pc)?;
    }
    // The flags stand before the line's place where the line isn't taken out, and are 0 there.
    let mut line_kept = CAS;
    line_kept[0] = 0xF0;
    let Ok(table) = Table::read(&line_kept) else {
        return Err(Fail::from("no table"));
    };
    let func = table.find(0x40_0011).ok_or("no function")?;
    assert_eq!(rt; func.flags(), 0);
    assert_eq!(rt; func.name(), b"main.Cas".as_slice());
    assert_eq!(rt; func.line(0x40_0011), Answer::Value(8));
    Ok(())
}

// Three functions that share the record: the first two at one entry, the third 16 bytes behind it.
fn equal_entries() -> [u8; 200] {
    let mut bytes = [0; 200];
    bytes[..128].copy_from_slice(&CAS[..128]);
    bytes[8] = 3;
    bytes[132] = 28;
    bytes[140] = 28;
    bytes[144] = 16;
    bytes[148] = 28;
    bytes[152] = 32;
    bytes[156..].copy_from_slice(&CAS[140..]);
    bytes
}

#[test]
fn equal_entries_are_kept_apart(rt: HostRuntime) -> Result<(), Fail> {
    let bytes = equal_entries();
    let Ok(table) = Table::read(&bytes) else {
        return Err(Fail::from("no table"));
    };
    assert_eq!(rt; table.count(), 3);
    for (pc, entry, end) in [
        (0x40_0000, 0x40_0000, 0x40_0010),
        (0x40_000F, 0x40_0000, 0x40_0010),
        (0x40_0010, 0x40_0010, 0x40_0020),
        (0x40_001F, 0x40_0010, 0x40_0020),
    ] {
        let func = table.find(pc).ok_or("no function")?;
        assert_eq!(rt; func.entry(), entry);
        assert_eq!(rt; func.end(), end);
    }
    assert!(rt; table.find(0x3F_FFFF).is_none());
    assert!(rt; table.find(0x40_0020).is_none());
    assert!(rt; table.find(u64::MAX).is_none());
    Ok(())
}

// The list of these runs.
fn run_list(alloc: Global, runs: &[Run]) -> Result<List<Run>, Memory>
    ensures { IfOk result (λ list. list ≡ runs.now) }
{
    Ok(List::new(Vec::from_slice(alloc, runs)?))
}

// The list of one name.
fn one_name(alloc: Global, name: &[u8]) -> Result<List<Name>, Memory>
    ensures { IfOk result (λ list. list ≡ name.now ∷ []) }
{
    let mut names = Vec::new(alloc);
    names.push(Name::from_slice(alloc, name)?)?;
    Ok(List::new(names))
}

// The function of the table above.
fn cas_func(alloc: Global) -> Result<FuncPart, Memory>
    ensures { IfOk result (λ func. func ≡ worked.worked_func) }
{
    let name = Name::from_slice(alloc, b"main.Cas")?;
    let depth = run_list(alloc, &[Run { end: 23, value: 0 }])?;
    let file = run_list(alloc, &[Run { end: 23, value: 0 }])?;
    let line = run_list(
        alloc,
        &[
            Run { end: 5, value: 3 },
            Run { end: 9, value: 4 },
            Run { end: 13, value: 5 },
            Run { end: 17, value: 7 },
            Run { end: 22, value: 8 },
            Run { end: 23, value: 9 },
        ],
    )?;
    Ok(FuncPart {
        name,
        entry: 0,
        args: 17,
        flags: 4,
        start_line: 2,
        depth,
        file,
        line,
    })
}

// Its parts.
fn cas_parts(alloc: Global) -> Result<TableParts, Memory>
    ensures { IfOk result (λ parts. parts ≡ worked.worked_parts) }
{
    let files = one_name(alloc, b"cas.s")?;
    let mut funcs = Vec::new(alloc);
    funcs.push(cas_func(alloc)?)?;
    Ok(TableParts {
        quantum: 1,
        text_start: 0x40_0000,
        text_len: 32,
        files,
        funcs: List::new(funcs),
    })
}

#[tactic(auto, using(pclntab::proofs::WorkedLemmas::worked_are))]
fn cas_table(alloc: Global) -> Result<Bytes, Memory> {
    let parts = cas_parts(alloc)?;
    write(alloc, &parts)
}

#[test]
fn a_table_is_written_byte_for_byte(rt: HostRuntime) -> Result<(), Fail> {
    let bytes = cas_table(rt.alloc())?;
    assert_eq!(rt; bytes.as_slice(), CAS.as_slice());
    Ok(())
}

// A function of one byte.
fn small_func(
    alloc: Global,
    name: &[u8],
    entry: u32,
    start_line: u16,
    line: u16,
) -> Result<FuncPart, Memory>
    ensures { IfOk result (λ func. func ≡ worked.small_func name.now entry start_line line) }
{
    let name = Name::from_slice(alloc, name)?;
    let depth = run_list(alloc, &[Run { end: 1, value: 0 }])?;
    let file = run_list(alloc, &[Run { end: 1, value: 0 }])?;
    let line = run_list(
        alloc,
        &[Run {
            end: 1,
            value: i32::from(line),
        }],
    )?;
    Ok(FuncPart {
        name,
        entry,
        args: 0,
        flags: 4,
        start_line: i32::from(start_line),
        depth,
        file,
        line,
    })
}

// Two functions, of which the depth and file tables are equal.
fn shared_parts(alloc: Global) -> Result<TableParts, Memory>
    ensures { IfOk result (λ parts. parts ≡ worked.shared_parts) }
{
    let files = one_name(alloc, b"ab.s")?;
    let first = small_func(alloc, b"main.a", 0, 2, 3)?;
    let second = small_func(alloc, b"main.b", 16, 4, 5)?;
    let mut funcs = Vec::new(alloc);
    funcs.push(first)?;
    funcs.push(second)?;
    Ok(TableParts {
        quantum: 1,
        text_start: 0x40_0000,
        text_len: 32,
        files,
        funcs: List::new(funcs),
    })
}

#[tactic(auto, using(pclntab::proofs::WorkedLemmas::shared_are))]
fn shared_table(alloc: Global) -> Result<Bytes, Memory> {
    let parts = shared_parts(alloc)?;
    write(alloc, &parts)
}

#[test]
fn equal_pc_tables_stand_once(rt: HostRuntime) -> Result<(), Fail> {
    let written = shared_table(rt.alloc())?;
    let bytes = written.as_slice();
    assert_eq!(rt; bytes.len(), 228);
    assert_eq!(rt;
        &bytes[104..114],
        [0, 2, 1, 0, 8, 1, 0, 12, 1, 0].as_slice()
    );
    // The offsets of the depth, file and line tables in both records.
    assert_eq!(rt;
        &bytes[156..168],
        [1, 0, 0, 0, 1, 0, 0, 0, 4, 0, 0, 0].as_slice()
    );
    assert_eq!(rt;
        &bytes[200..212],
        [1, 0, 0, 0, 1, 0, 0, 0, 7, 0, 0, 0].as_slice()
    );
    Ok(())
}

#[test]
fn a_written_table_is_read_back(rt: HostRuntime) -> Result<(), Fail> {
    let written = shared_table(rt.alloc())?;
    let bytes = written.as_slice();
    assert!(rt; bytes.len() < 1 << 32);
    let Ok(table) = Table::read(bytes) else {
        return Err(Fail::from("no table"));
    };
    let func = table.find(0x40_0010).ok_or("no function")?;
    assert_eq!(rt; func.name(), b"main.b".as_slice());
    assert_eq!(rt; func.line(0x40_0010), Answer::Value(5));
    assert_eq!(rt; func.file(0x40_0010).unwrap_or(b"?"), b"ab.s".as_slice());
    Ok(())
}
