use arrayvec::ArrayVec;
use goasm_base::{
    Bytes, List, MemShelf, MemSink, Name, NameSet, Pos, Recorder, Shelf, ShelfNo, Sink, Text,
    behind, behind_or_empty, digit_value, read_number, show_decimal, show_hex,
};
use std::alloc::Global;
use std::process::Abort;
use std::test::Fail;

#[test]
fn numbers_have_their_text(rt: HostRuntime) {
    let mut hex = ArrayVec::new();
    for (value, want) in [
        (0, b"0x0000000000000000".as_slice()),
        (0x40_0011, b"0x0000000000400011".as_slice()),
        (u64::MAX, b"0xffffffffffffffff".as_slice()),
    ] {
        show_hex(value, &mut hex);
        assert_eq!(rt; hex.as_slice(), want);
    }
    let mut decimal = ArrayVec::new();
    for (value, want) in [
        (0, b"0".as_slice()),
        (-377, b"-377".as_slice()),
        (i64::MAX, b"9223372036854775807".as_slice()),
        (i64::MIN, b"-9223372036854775808".as_slice()),
    ] {
        show_decimal(value, &mut decimal);
        assert_eq!(rt; decimal.as_slice(), want);
    }
}

#[test]
fn numbers_are_read(rt: HostRuntime) {
    for (text, want) in [
        (b"0".as_slice(), Some(0)),
        (b"007".as_slice(), Some(7)),
        (b"18446744073709551615".as_slice(), Some(u64::MAX)),
        (b"18446744073709551616".as_slice(), None),
        (b"0x400011".as_slice(), Some(0x40_0011)),
        (b"0xFFFFffffFFFFffff".as_slice(), Some(u64::MAX)),
        (b"0x00000000000000001".as_slice(), None),
        (b"0x".as_slice(), None),
        (b"0X1".as_slice(), None),
        (b"0xg".as_slice(), None),
        (b"".as_slice(), None),
        (b"+1".as_slice(), None),
        (b"1 ".as_slice(), None),
    ] {
        assert_eq!(rt; read_number(text), want, "{text:?}");
    }
}

#[test]
fn digits_have_their_values(rt: HostRuntime) {
    for (base, glyph, want) in [
        (10, b'9', Some(9)),
        (10, b'a', None),
        (16, b'f', Some(15)),
        (16, b'F', Some(15)),
        (16, b'g', None),
        (16, 0xFF, None),
    ] {
        assert_eq!(rt; digit_value(base, glyph), want, "{glyph}");
    }
}

#[test]
fn bytes_behind_a_place(rt: HostRuntime) {
    assert_eq!(rt; behind(b"abc", 1), b"bc".as_slice());
    for (at, want) in [
        (0, b"abc".as_slice()),
        (3, b""),
        (4, b""),
        (usize::MAX, b""),
    ] {
        assert_eq!(rt; behind_or_empty(b"abc", at), want);
    }
}

#[test]
fn names_are_seen_once(rt: HostRuntime) -> Result<(), Fail> {
    let mut names = NameSet::new(rt.alloc());
    for (name, is_new) in [
        (b"b".as_slice(), true),
        (b"a", true),
        (b"b", false),
        (b"", true),
        (b"ab", true),
    ] {
        assert_eq!(rt; names.contains(name), !is_new, "{name:?}");
        assert_eq!(rt; names.insert(name)?, is_new, "{name:?}");
        assert!(rt; names.contains(name), "{name:?}");
    }
    assert!(rt; !names.contains(b"c"));
    Ok(())
}

#[test]
fn names_and_texts_are_kept(rt: HostRuntime) -> Result<(), Fail> {
    let alloc = rt.alloc();
    let name = Name::from_slice(alloc, b"main.Cas")?;
    assert_eq!(rt; name.copy(alloc)?.as_slice(), b"main.Cas".as_slice());
    let bytes = Bytes::from_slice(alloc, b"\x01\x02")?;
    assert_eq!(rt; bytes.copy(alloc)?.as_slice(), b"\x01\x02".as_slice());
    let list = List::new(Vec::from_slice(alloc, &[Pos { file: 1, line: 2 }])?);
    assert_eq!(rt; list.as_slice(), [Pos { file: 1, line: 2 }].as_slice());
    let mut text = Text::new(alloc);
    text.push(b"at ")?;
    text.push_hex(0x40_0000)?;
    text.push(b" ")?;
    text.push_decimal(-8)?;
    text.push(b" ")?;
    text.push_unsigned(u64::MAX)?;
    assert_eq!(rt;
        text.finish().as_slice(),
        b"at 0x0000000000400000 -8 18446744073709551615".as_slice()
    );
    Ok(())
}

// What a read gives, through the trait alone.
fn read<S: Shelf>(
    alloc: Global,
    shelf: &mut S,
    name: &[u8],
    most: usize,
) -> Result<Bytes, ShelfNo> {
    shelf.read(alloc, name, most)
}

// Whether a write went well, through the trait alone.
fn write<S: Sink>(sink: &mut S, bytes: &[u8]) -> bool {
    sink.write(bytes).is_ok()
}

// Tests what a read gave: these bytes, or that it failed.
fn expect_read<R: Abort>(rt: &R, given: Result<Bytes, ShelfNo>, want: Option<&[u8]>) {
    match (given, want) {
        (Ok(bytes), Some(want)) => assert_eq!(rt; bytes.as_slice(), want),
        (Err(no), None) => assert_eq!(rt; no, ShelfNo::Failed),
        (Ok(_), None) => assert!(rt; false, "a read that has to fail went well"),
        (Err(_), Some(want)) => assert!(rt; false, "no {want:?}"),
    }
}

#[test]
fn memory_shelf_reads_by_name_and_number(rt: HostRuntime) -> Result<(), Fail> {
    let alloc = rt.alloc();
    let mut files = Vec::new(alloc);
    for (name, bytes) in [(b"a", b"first"), (b"a", b"other"), (b"b", b"third")] {
        files.push((
            Name::from_slice(alloc, name)?,
            Bytes::from_slice(alloc, bytes)?,
        ))?;
    }
    let mut shelf = MemShelf::new(files, Vec::from_slice(alloc, &[2])?);
    expect_read(&rt, read(alloc, &mut shelf, b"a", 9), Some(b"first"));
    expect_read(&rt, read(alloc, &mut shelf, b"b", 2), Some(b"thi"));
    expect_read(&rt, read(alloc, &mut shelf, b"a", 9), None);
    expect_read(&rt, read(alloc, &mut shelf, b"c", 9), None);
    expect_read(
        &rt,
        read(alloc, &mut shelf, b"a", usize::MAX),
        Some(b"first"),
    );
    Ok(())
}

#[test]
fn a_recorder_keeps_the_names(rt: HostRuntime) -> Result<(), Fail> {
    let alloc = rt.alloc();
    let mut files = Vec::new(alloc);
    files.push((
        Name::from_slice(alloc, b"a")?,
        Bytes::from_slice(alloc, b"first")?,
    ))?;
    let mut shelf = Recorder::new(alloc, MemShelf::new(files, Vec::new(alloc)));
    expect_read(&rt, read(alloc, &mut shelf, b"a", 9), Some(b"first"));
    expect_read(&rt, read(alloc, &mut shelf, b"b", 9), None);
    expect_read(&rt, read(alloc, &mut shelf, b"a", 1), Some(b"fi"));
    assert_eq!(rt; shelf.reads, 3, "reads");
    for (name, want) in shelf.names.iter().zip([b"a", b"b", b"a"]) {
        assert_eq!(rt; name.as_slice(), want.as_slice(), "names");
    }
    Ok(())
}

#[test]
fn memory_sink_takes_what_fits_and_is_allowed(rt: HostRuntime) -> Result<(), Fail> {
    let alloc = rt.alloc();
    let room = vec![in alloc; 0u8; 12]?;
    let failing = Vec::from_slice(alloc, &[(1, 2), (1, 0), (2, 99)])?;
    let mut sink = MemSink::new(room, failing);
    assert!(rt; write(&mut sink, b"main"));
    assert!(rt; !write(&mut sink, b"xyz"));
    assert_eq!(rt; sink.taken(), b"mainxy".as_slice());
    assert!(rt; !write(&mut sink, b"123"));
    assert_eq!(rt; sink.taken(), b"mainxy123".as_slice());
    assert!(rt; !write(&mut sink, b"4567"));
    assert_eq!(rt; sink.taken(), b"mainxy123456".as_slice());
    assert!(rt; write(&mut sink, b""));
    Ok(())
}
