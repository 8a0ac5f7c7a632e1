//! Images that the commands `check` and `dis` judge. What is wanted of the changed ones was worked out from the rules.
use crate::test_runs::{Answer, Failing, NONE, expect, expect_reads, file};
use std::alloc::{AllocError, Global};
use std::process::Abort;
use std::test::Fail;

pub mod small;

const COUNT: &[u8] = b"ok 2 functions\n";

// Runs a command over the small image with other bytes at a place.
fn expect_image<R: Abort>(
    rt: &R,
    alloc: Global,
    list: &[&[u8]],
    change: (usize, &[u8]),
    failing: Failing<'_>,
    want: Answer<'_>,
) -> Result<(), AllocError> {
    let image = small::image(alloc, change.0, change.1)?;
    let mut files = Vec::new(alloc);
    files.push(file(alloc, b"p.image", &image)?)?;
    files.push(file(alloc, b"short.image", b"\x7fELF\x02\x01\x01")?)?;
    expect(rt, alloc, "an image", list, files, failing, want)
}

#[test]
fn a_sound_image_is_counted_and_shown(rt: HostRuntime) -> Result<(), Fail> {
    for (word, want) in [
        (b"check".as_slice(), COUNT),
        (b"dis", small::TEXT.as_bytes()),
    ] {
        let words = [word, b"p.image"];
        expect_image(&rt, rt.alloc(), &words, (0, b""), NONE, (0, want, b""))?;
    }
    Ok(())
}

#[test]
fn the_first_breach_is_told(rt: HostRuntime) -> Result<(), Fail> {
    for (at, bytes, want) in [
        (0, b"?".as_slice(), "p.image: K1 I1 at 0\n"),
        // Images of arm64, riscv64 and of a machine number whose low byte is that of amd64.
        (18, b"\xb7", "p.image: K1 I1 at 18\n"),
        (18, b"\xf3", "p.image: K1 I1 at 18\n"),
        (19, b"\x01", "p.image: K1 I1 at 18\n"),
        // Another machine is told before anything else is judged.
        (
            0,
            b"?\0\0\0\0\0\0\0\0\0\0\0\0\0\0\0\0\0\0",
            "p.image: K1 I1 at 18\n",
        ),
        (64, b"\x02", "p.image: K1 I2 at 64\n"),
        (8192, b"\xf2", "p.image: K1 TB1 at 0\n"),
        // The table's text begins 16 bytes behind the image's.
        (8216, b"\x10", "p.image: K1 profile\n"),
        // No instruction begins with 06, in place of `main.f0`'s RET or of its first instruction.
        (4146, b"\x06", "p.image: K2 at 0x0000000000400032\n"),
        (4096, b"\x06", "p.image: K2 at 0x0000000000400000\n"),
        // Padding in its place: the instructions end before the tables do.
        (4146, b"\xcc", "p.image: K4 at 0x0000000000400000\n"),
        // SUBQ $240, SP where the table has a depth of 248 behind it.
        (
            4096,
            b"\x48\x81\xec\xf0",
            "p.image: K3 F1 240 248 at 0x0000000000400000\n",
        ),
        // CALL 0x0000000000300010, where no symbol is.
        (
            4126,
            b"\xe8\xed\xff\xef\xff",
            "p.image: K5 at 0x000000000040001e\n",
        ),
    ] {
        for word in [b"check".as_slice(), b"dis"] {
            let words = [word, b"p.image"];
            let answer = (1, b"".as_slice(), want.as_bytes());
            expect_image(&rt, rt.alloc(), &words, (at, bytes), NONE, answer)?;
        }
    }
    Ok(())
}

#[test]
fn an_image_of_no_machine_is_refused(rt: HostRuntime) -> Result<(), Fail> {
    for word in [b"check".as_slice(), b"dis"] {
        let words = [word, b"short.image"];
        let answer = (1, b"".as_slice(), b"short.image: K1 I1 at 18\n".as_slice());
        expect_image(&rt, rt.alloc(), &words, (0, b""), NONE, answer)?;
    }
    Ok(())
}

const WORDS: Answer<'static> = (2, b"", b"goasm: words\n");

const UNREAD: Answer<'static> = (4, b"", b"goasm: cannot read p.image\n");

const READ: Failing<'static> = Failing {
    reads: &[0],
    ..NONE
};

const SHORT: Failing<'static> = Failing {
    out: &[(0, 4)],
    ..NONE
};

const SHUT: Failing<'static> = Failing {
    err: &[(0, 0)],
    ..NONE
};

#[test]
fn words_and_devices_fail(rt: HostRuntime) -> Result<(), Fail> {
    for (list, failing, want) in [
        ([b"check".as_slice()].as_slice(), NONE, WORDS),
        (&[b"dis"], NONE, WORDS),
        (&[b"check", b"p.image", b"p.image"], NONE, WORDS),
        (&[b"dis", b"amd64", b"p.image"], NONE, WORDS),
        (&[b"Check", b"p.image"], NONE, WORDS),
        (&[b"disasm", b"p.image"], NONE, WORDS),
        // The words are judged before any file is read.
        (&[b"dis", b"absent", b"absent"], NONE, WORDS),
        (&[b"dis", b"amd64", b"p.image"], SHUT, (5, b"", b"")),
        (
            &[b"check", b"absent"],
            NONE,
            (4, b"", b"goasm: cannot read absent\n"),
        ),
        (&[b"check", b"p.image"], READ, UNREAD),
        (&[b"dis", b"p.image"], READ, UNREAD),
        (&[b"check", b"p.image"], SHORT, (5, b"ok 2", b"")),
        (&[b"dis", b"p.image"], SHORT, (5, b"TEXT", b"")),
        (&[b"check", b"p.image"], SHUT, (0, COUNT, b"")),
        (&[b"check", b"short.image"], SHUT, (5, b"", b"")),
    ] {
        expect_image(&rt, rt.alloc(), list, (0, b""), failing, want)?;
    }
    Ok(())
}

#[test]
fn an_image_is_read_once(rt: HostRuntime) -> Result<(), Fail> {
    let alloc = rt.alloc();
    for word in [b"check".as_slice(), b"dis"] {
        for (failing, status) in [([].as_slice(), 1), (&[0], 4)] {
            let mut files = Vec::new(alloc);
            files.push(file(alloc, b"p.image", b"")?)?;
            let words = [word, b"p.image"];
            expect_reads(&rt, alloc, &words, files, failing, (status, &[b"p.image"]))?;
        }
    }
    Ok(())
}

#[test]
fn an_image_that_is_too_long_is_named(rt: HostRuntime) -> Result<(), Fail> {
    let mut files = Vec::new(rt.alloc());
    let image = vec![in rt.alloc(); 0x7f; (64 << 20) + 1]?;
    files.push(file(rt.alloc(), b"p.image", &image)?)?;
    let want = (1, b"".as_slice(), b"p.image: too long\n".as_slice());
    let words = [b"dis".as_slice(), b"p.image"];
    expect(&rt, rt.alloc(), "too long", &words, files, NONE, want)?;
    Ok(())
}
