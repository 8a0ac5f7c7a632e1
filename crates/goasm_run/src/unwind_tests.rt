//! Stacks that the command `unwind` walks. What is wanted was worked out from the rules and the tables of the image.
use crate::image_tests::small;
use crate::test_runs::{Answer, Failing, NONE, expect, expect_reads, file};
use std::alloc::{AllocError, Global};
use std::process::Abort;
use std::test::Fail;

// `main.f0` has a depth of 248 behind its call of itself. There the machine stands, and there its caller waits.
const PC: &[u8] = b"0000000000400023";

const SP: &[u8] = b"000000c000001000";

const MEM: &[u8] =
    b"mem 000000c0000010f8 2300400000000000\nmem 000000c0000011f8 0000000000000000\n";

const CHAIN: &[u8] = b"main.f0 f0.s:5 0x0000000000400023\nmain.f0 f0.s:4 0x0000000000400023\n";

// A dump of these registers and this memory.
fn dump(
    alloc: Global,
    target: &[u8],
    pc: &[u8],
    sp: &[u8],
    mem: &[u8],
) -> Result<Vec<u8>, AllocError> {
    let mut text = Vec::new(alloc);
    for part in [
        b"goasm-dump 1 ".as_slice(),
        target,
        b"\npc ",
        pc,
        b"\nsp ",
        sp,
        b"\nlink 0000000000000000\n",
        mem,
    ] {
        text.extend_from_slice(part)?;
    }
    Ok(text)
}

// Runs the command over the small image with other bytes at a place, and a dump.
fn expect_walk<R: Abort>(
    rt: &R,
    alloc: Global,
    change: (usize, &[u8]),
    dump: &[u8],
    failing: Failing<'_>,
    want: Answer<'_>,
) -> Result<(), AllocError> {
    let image = small::image(alloc, change.0, change.1)?;
    let mut files = Vec::new(alloc);
    files.push(file(alloc, b"p.image", &image)?)?;
    files.push(file(alloc, b"d", dump)?)?;
    let words = [b"unwind".as_slice(), b"p.image", b"d"];
    expect(rt, alloc, "a stack", &words, files, failing, want)
}

#[test]
fn the_first_refusal_of_a_dump_is_told(rt: HostRuntime) -> Result<(), Fail> {
    for (target, pc, sp, mem, want) in [
        (b"AMD64".as_slice(), PC, SP, MEM, "d:1: DU1\n"),
        (b"amd64", b"400023", SP, MEM, "d:2: DU1\n"),
        // The second range begins where the first one ends.
        (
            b"amd64",
            PC,
            SP,
            b"mem 000000c000001000 00\nmem 000000c000001001 00\n",
            "d:6: DU2\n",
        ),
        (b"arm64", PC, SP, MEM, "d: DU3\n"),
        (
            b"amd64",
            b"00000000003fffff",
            SP,
            MEM,
            "d: U1 0x00000000003fffff\n",
        ),
        (
            b"amd64",
            b"0000000000400024",
            SP,
            MEM,
            "d: U2 0x0000000000400024\n",
        ),
        (b"amd64", PC, SP, b"", "d: U3 0x000000c0000010f8\n"),
        // A return address that lies within the call, a byte before its end.
        (
            b"amd64",
            PC,
            SP,
            b"mem 000000c0000010f8 2200400000000000\n",
            "d: U4 0x0000000000400022\n",
        ),
        (
            b"amd64",
            PC,
            b"ffffffffffffff08",
            MEM,
            "d: U5 0xffffffffffffff08 248\n",
        ),
        // The caller's stack pointer would be 2^64.
        (
            b"amd64",
            PC,
            b"ffffffffffffff00",
            b"mem fffffffffffffff8 2300400000000000\n",
            "d: U5 0xffffffffffffff00 248\n",
        ),
    ] {
        let dump = dump(rt.alloc(), target, pc, sp, mem)?;
        let answer = (1, b"".as_slice(), want.as_bytes());
        expect_walk(&rt, rt.alloc(), (0, b""), &dump, NONE, answer)?;
    }
    Ok(())
}

const FIRST: Failing<'static> = Failing {
    reads: &[0],
    ..NONE
};

const SECOND: Failing<'static> = Failing {
    reads: &[1],
    ..NONE
};

const SHORT: Failing<'static> = Failing {
    out: &[(0, 34)],
    ..NONE
};

const FULL: Failing<'static> = Failing {
    out: &[(0, 0)],
    ..NONE
};

const SHUT: Failing<'static> = Failing {
    err: &[(0, 0)],
    ..NONE
};

#[test]
fn images_and_devices_fail(rt: HostRuntime) -> Result<(), Fail> {
    for (change, target, failing, want) in [
        (
            (0, b"".as_slice()),
            b"amd64".as_slice(),
            NONE,
            (0, CHAIN, b"".as_slice()),
        ),
        // The image is judged before the dump.
        (
            (18, b"\xb7"),
            b"AMD64",
            NONE,
            (1, b"", b"p.image: K1 I1 at 18\n"),
        ),
        (
            (0, b"?"),
            b"AMD64",
            NONE,
            (1, b"", b"p.image: K1 I1 at 0\n"),
        ),
        // Both files are read before either of them is judged.
        (
            (0, b"?"),
            b"amd64",
            SECOND,
            (4, b"", b"goasm: cannot read d\n"),
        ),
        (
            (0, b""),
            b"amd64",
            FIRST,
            (4, b"", b"goasm: cannot read p.image\n"),
        ),
        ((0, b""), b"amd64", SHORT, (5, &CHAIN[..34], b"")),
        ((0, b""), b"amd64", FULL, (5, b"", b"")),
        ((0, b""), b"arm64", SHUT, (5, b"", b"")),
    ] {
        let dump = dump(rt.alloc(), target, PC, SP, MEM)?;
        expect_walk(&rt, rt.alloc(), change, &dump, failing, want)?;
    }
    Ok(())
}

#[test]
fn image_and_dump_are_read_once(rt: HostRuntime) -> Result<(), Fail> {
    let alloc = rt.alloc();
    let words = [b"unwind".as_slice(), b"p.image", b"d"];
    for (failing, status, names) in [
        ([].as_slice(), 1, [b"p.image".as_slice(), b"d"].as_slice()),
        (&[0], 4, &[b"p.image"]),
        (&[1], 4, &[b"p.image", b"d"]),
    ] {
        let mut files = Vec::new(alloc);
        files.push(file(alloc, b"p.image", b"")?)?;
        files.push(file(alloc, b"d", b"")?)?;
        expect_reads(&rt, alloc, &words, files, failing, (status, names))?;
    }
    Ok(())
}

#[test]
fn a_dump_that_is_too_long_is_named(rt: HostRuntime) -> Result<(), Fail> {
    let dump = vec![in rt.alloc(); b'0'; (64 << 20) + 1]?;
    let want = (1, b"".as_slice(), b"d: too long\n".as_slice());
    expect_walk(&rt, rt.alloc(), (0, b""), &dump, NONE, want)?;
    Ok(())
}

#[test]
fn two_words_are_named(rt: HostRuntime) -> Result<(), Fail> {
    for list in [
        [b"unwind".as_slice(), b"p.image"].as_slice(),
        &[b"unwind", b"p.image", b"d", b"d"],
    ] {
        let want = (2, b"".as_slice(), b"goasm: words\n".as_slice());
        let files = Vec::new(rt.alloc());
        expect(&rt, rt.alloc(), "words", list, files, NONE, want)?;
    }
    Ok(())
}
