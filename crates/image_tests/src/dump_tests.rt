use goasm_base::{Bytes, Memory, Text};
use machine_dump::{Dump, DumpNo};
use std::alloc::Global;
use std::process::Abort;
use std::test::Fail;

// A dump without memory.
const HEADER: &[u8] = b"\
      goasm-dump 1 amd64\n\
      pc 0000000000400054\n\
      sp 000000c00000ffc8\n\
      link 0000000000000000\n";

// Behind the header: ranges of ten, eight and seven bytes, the second apart from the third by one byte, and one up to the last address.
const RANGES: &[u8] = b"\
      mem 0000000000001000 0102030405060708090a\n\
      mem 0000000000002000 1112131415161718\n\
      mem 0000000000002009 21222324252627\n\
      mem fffffffffffffff0 00112233445566778899aabbccddeeff\n";

// Two texts, one behind the other.
fn joined(alloc: Global, front: &[u8], back: &[u8]) -> Result<Bytes, Memory> {
    let mut text = Text::new(alloc);
    text.push(front)?;
    text.push(back)?;
    Ok(text.finish())
}

fn refusal(text: &[u8]) -> Option<DumpNo> {
    if text.len() >= 1 << 32 {
        return None;
    }
    Dump::read(text).err()
}

fn expect_registers<R: Abort>(rt: &R, text: &[u8], want: (u16, u64, u64, u64)) {
    assert!(rt; text.len() < 1 << 32);
    let read = Dump::read(text);
    assert!(rt; read.is_ok());
    if let Ok(dump) = read {
        assert_eq!(rt; dump.machine(), want.0);
        assert_eq!(rt; dump.pc(), want.1);
        assert_eq!(rt; dump.sp(), want.2);
        assert_eq!(rt; dump.link(), want.3);
    }
}

#[test]
fn registers_are_told(rt: HostRuntime) {
    expect_registers(&rt, HEADER, (62, 0x40_0054, 0xc0_0000_ffc8, 0));
    expect_registers(
        &rt,
        b"goasm-dump 1 arm64\npc 0123456789abcdef\nsp ffffffffffffffff\nlink fedcba9876543210\n",
        (183, 0x0123_4567_89ab_cdef, u64::MAX, 0xfedc_ba98_7654_3210),
    );
    expect_registers(
        &rt,
        b"goasm-dump 1 riscv64\npc 0000000000000000\nsp 0000000000000001\nlink 8000000000000000\nmem 0000000000000000 00\n",
        (243, 0, 1, 1 << 63),
    );
}

// Whole texts.
const HEADS: [(&[u8], DumpNo); 24] = [
    (b"", DumpNo::DU1(1)),
    (b"\n", DumpNo::DU1(1)),
    (b"goasm-dump 1 amd64", DumpNo::DU1(1)),
    (b"goasm-dump 2 amd64\n", DumpNo::DU1(1)),
    (b"goasm-dump 1 AMD64\n", DumpNo::DU1(1)),
    (b"goasm-dump 1 amd64 \n", DumpNo::DU1(1)),
    (b"goasm-dump 1 amd64\r\n", DumpNo::DU1(1)),
    (b" goasm-dump 1 amd64\n", DumpNo::DU1(1)),
    (b"goasm-dump 1 amd64\n", DumpNo::DU1(2)),
    (b"goasm-dump 1 amd64\npc 0000000000400054", DumpNo::DU1(2)),
    (b"goasm-dump 1 amd64\npc 000000000040005\n", DumpNo::DU1(2)),
    (
        b"goasm-dump 1 amd64\npc 00000000000400054\n",
        DumpNo::DU1(2),
    ),
    (b"goasm-dump 1 amd64\npc 00000000004000FF\n", DumpNo::DU1(2)),
    (
        b"goasm-dump 1 amd64\npc  0000000000400054\n",
        DumpNo::DU1(2),
    ),
    (b"goasm-dump 1 amd64\nsp 0000000000400054\n", DumpNo::DU1(2)),
    (b"goasm-dump 1 arm64\npc 0000000000400054\n", DumpNo::DU1(3)),
    (
        b"goasm-dump 1 arm64\npc 0000000000400054\n\n",
        DumpNo::DU1(3),
    ),
    (
        b"goasm-dump 1 arm64\npc 0000000000400054\nsp 0x00000000400054\n",
        DumpNo::DU1(3),
    ),
    (
        b"goasm-dump 1 arm64\npc 0000000000400054\nsp 000000000040005g\n",
        DumpNo::DU1(3),
    ),
    (
        b"goasm-dump 1 arm64\npc 0000000000400054\nsp 0000000000000000\n",
        DumpNo::DU1(4),
    ),
    (
        b"goasm-dump 1 arm64\npc 0000000000400054\nsp 0000000000000000\nlink 0000000000000000",
        DumpNo::DU1(4),
    ),
    (
        b"goasm-dump 1 arm64\npc 0000000000400054\nsp 0000000000000000\nlink 000000000000000\n",
        DumpNo::DU1(4),
    ),
    (
        b"goasm-dump 1 amd64\npc 0000000000400054\nsp 0000000000000000\nlink 0000000000000001\n",
        DumpNo::DU1(4),
    ),
    (
        b"goasm-dump 1 amd64\npc 0000000000400054\nsp 0000000000000000\nlink 0000000000000001\nmem\n",
        DumpNo::DU1(4),
    ),
];

#[test]
fn first_four_lines_are_judged(rt: HostRuntime) {
    for (text, want) in HEADS {
        assert_eq!(rt; refusal(text), Some(want), "{text:?}");
    }
}

// What stands behind the first four lines.
const BODIES: [(&[u8], Option<DumpNo>); 28] = [
    (b"", None),
    (b"mem 0000000000001000 00\n", None),
    (b"\n", Some(DumpNo::DU1(5))),
    (b"mem", Some(DumpNo::DU1(5))),
    (b"mem 0000000000001000 00", Some(DumpNo::DU1(5))),
    (b"mem 0000000000001000\n", Some(DumpNo::DU1(5))),
    (b"mem 0000000000001000 \n", Some(DumpNo::DU1(5))),
    (b"mem 0000000000001000 0\n", Some(DumpNo::DU1(5))),
    (b"mem 0000000000001000 000\n", Some(DumpNo::DU1(5))),
    (b"mem 0000000000001000 0F\n", Some(DumpNo::DU1(5))),
    (b"mem 0000000000001000 00 00\n", Some(DumpNo::DU1(5))),
    (b"mem 0000000000001000  00\n", Some(DumpNo::DU1(5))),
    (b"mem 000000000001000 00\n", Some(DumpNo::DU1(5))),
    (b"mem 000000000000A000 00\n", Some(DumpNo::DU1(5))),
    (b"pc 0000000000001000\n", Some(DumpNo::DU1(5))),
    // The last byte of all, and one more.
    (b"mem ffffffffffffffff 00\n", None),
    (b"mem ffffffffffffffff 0000\n", Some(DumpNo::DU1(5))),
    (b"mem fffffffffffffffe 0000\n", None),
    // Apart by a byte, touching, overlapping, the same, falling.
    (
        b"mem 0000000000001000 0000\nmem 0000000000001003 00\n",
        None,
    ),
    (
        b"mem 0000000000001000 0000\nmem 0000000000001002 00\n",
        Some(DumpNo::DU2(6)),
    ),
    (
        b"mem 0000000000001000 0000\nmem 0000000000001001 00\n",
        Some(DumpNo::DU2(6)),
    ),
    (
        b"mem 0000000000001000 0000\nmem 0000000000001000 00\n",
        Some(DumpNo::DU2(6)),
    ),
    (
        b"mem 0000000000001000 0000\nmem 0000000000000ffe 00\n",
        Some(DumpNo::DU2(6)),
    ),
    (
        b"mem ffffffffffffffff 00\nmem 0000000000000000 00\n",
        Some(DumpNo::DU2(6)),
    ),
    // Of two lines the first is told.
    (
        b"mem 0000000000001000 00\nmem 0000000000001000 00\nmem\n",
        Some(DumpNo::DU2(6)),
    ),
    (
        b"mem 0000000000001000 00\nmem\nmem 0000000000001000 00\n",
        Some(DumpNo::DU1(6)),
    ),
    (
        b"mem 0000000000001000 00\nmem 0000000000001002 00\nmem 0000000000001003 00",
        Some(DumpNo::DU1(7)),
    ),
    (
        b"mem 0000000000001000 00\nmem 0000000000001002 00\nmem 0000000000001003 00\n",
        Some(DumpNo::DU2(7)),
    ),
];

#[test]
fn ranges_are_judged(rt: HostRuntime) -> Result<(), Fail> {
    for (body, want) in BODIES {
        let text = joined(rt.alloc(), HEADER, body)?;
        assert_eq!(rt; refusal(text.as_slice()), want, "{body:?}");
    }
    Ok(())
}

// Addresses, and the words there in the ranges above.
const WORDS: [(u64, Option<u64>); 19] = [
    (0, None),
    (0xfff, None),
    (0x1000, Some(0x0807_0605_0403_0201)),
    (0x1001, Some(0x0908_0706_0504_0302)),
    (0x1002, Some(0x0a09_0807_0605_0403)),
    (0x1003, None),
    (0x1009, None),
    (0x100a, None),
    (0x1fff, None),
    (0x2000, Some(0x1817_1615_1413_1211)),
    (0x2001, None),
    (0x2008, None),
    (0x2009, None),
    (0x1_0000_0000_1000, None),
    (0xffff_ffff_ffff_ffef, None),
    (0xffff_ffff_ffff_fff0, Some(0x7766_5544_3322_1100)),
    (0xffff_ffff_ffff_fff8, Some(0xffee_ddcc_bbaa_9988)),
    (0xffff_ffff_ffff_fffc, None),
    (u64::MAX, None),
];

fn word(text: &[u8], at: u64) -> Option<u64> {
    if text.len() >= 1 << 32 {
        return None;
    }
    match Dump::read(text) {
        Ok(dump) => dump.word(at),
        Err(_) => None,
    }
}

#[test]
fn words_are_found(rt: HostRuntime) -> Result<(), Fail> {
    let text = joined(rt.alloc(), HEADER, RANGES)?;
    assert_eq!(rt; refusal(text.as_slice()), None);
    for (at, want) in WORDS {
        assert_eq!(rt; word(text.as_slice(), at), want, "{at:#x}");
    }
    // Without ranges there is no word.
    assert_eq!(rt; word(HEADER, 0), None);
    Ok(())
}

// Sixteen small digits.
fn push_digits(text: &mut Text, value: u64) -> Result<(), Memory> {
    for place in 0..16u32 {
        let digit = (value >> (60 - 4 * place)) % 16;
        text.push(&[if digit < 10 {
            b'0' + digit as u8
        } else {
            b'a' + (digit - 10) as u8
        }])?;
    }
    Ok(())
}

// So many ranges of nine bytes, sixteen bytes from one to the next, from 0x5000 on. Each has its address as its word, and then ff.
fn many_ranges(alloc: Global, count: u16) -> Result<Bytes, Memory> {
    let mut text = Text::new(alloc);
    text.push(HEADER)?;
    for number in 0..count {
        let at = 0x5000 + 16 * u64::from(number);
        text.push(b"mem ")?;
        push_digits(&mut text, at)?;
        text.push(b" ")?;
        push_digits(&mut text, at.swap_bytes())?;
        text.push(b"ff\n")?;
    }
    Ok(text.finish())
}

fn expect_words<R: Abort>(rt: &R, text: &[u8], count: u16) {
    assert!(rt; text.len() < 1 << 32);
    let read = Dump::read(text);
    assert!(rt; read.is_ok());
    if let Ok(dump) = read {
        assert_eq!(rt; dump.word(0x4fff), None);
        for number in 0..count {
            let at = 0x5000 + 16 * u64::from(number);
            assert_eq!(rt; dump.word(at), Some(at));
            assert_eq!(rt; dump.word(at + 1), Some(at >> 8 | 0xff << 56));
            assert_eq!(rt; dump.word(at + 2), None);
        }
        assert_eq!(rt; dump.word(0x5000 + 16 * u64::from(count)), None);
    }
}

#[test]
fn one_of_many_ranges_is_found(rt: HostRuntime) -> Result<(), Fail> {
    for count in [1u16, 2, 3, 500] {
        let text = many_ranges(rt.alloc(), count)?;
        expect_words(&rt, text.as_slice(), count);
    }
    Ok(())
}
