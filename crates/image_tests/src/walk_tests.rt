//! Walks over small images.

ghost use Rattle.std.specs.Prelude.{◌==◌, Some, None, if◌then◌else◌};

use crate::images::{linked, stacked};
use amd64_select::Amd64;
use asm_target::Target;
use asm_target_linked::Linked;
use image_check::accept;
use std::alloc::Global;
use std::process::Abort;
use std::test::Fail;
use unwind::{Peek, Seen, UnwindNo, Walked, Walker};

// A memory of two words.
#[derive(Clone, Copy)]
struct Words {
    first: (u64, u64),
    second: (u64, u64),
}

impl Peek for Words {
    ghost memory = { λ words at.
        if at == words.first.0 then Some words.first.1 else (if at == words.second.0 then Some words.second.1 else None) };

    fn word(&self, at: u64) -> Option<u64> {
        if at == self.first.0 {
            Some(self.first.1)
        } else if at == self.second.0 {
            Some(self.second.1)
        } else {
            None
        }
    }
}

// A walk from the address of the next instruction, the stack pointer and the link register, over two words with their addresses; the
// frames that it gives, each with its function, where that goes on, and the place that tells its line; and the answer behind them.
type Row = (
    (u64, u64, u64),
    [(u64, u64); 2],
    &'static [(u32, u64, u64)],
    Walked,
);

fn expect<T: Target, R: Abort>(rt: &R, alloc: Global, bytes: &[u8], row: Row) {
    assert!(rt; bytes.len() < 1 << 32);
    let accepted = accept::<T>(alloc, bytes);
    assert!(rt; accepted.is_ok());
    if let Ok(image) = accepted {
        let ((pc, sp, link), [first, second], frames, last) = row;
        let mut walker = Walker::new(&image, pc, sp, link, Words { first, second });
        for (func, pc, look) in frames {
            let seen = Seen {
                func: *func,
                pc: *pc,
                look: *look,
            };
            assert_eq!(rt; walker.next(), Walked::Frame(seen), "{pc:#x}");
        }
        // The answer behind the last frame comes again and again.
        for _ in 0..3 {
            assert_eq!(rt; walker.next(), last, "{pc:#x} {sp:#x}");
        }
    }
}

const NONE: [(u64, u64); 2] = [(0, 0), (8, 0)];

// Over amd64. A return address stands above what the function took of the stack.
const PUSHED_RETURNS: [Row; 15] = [
    // main.b, called by main.a, called by main.top, in which the stack ends.
    (
        (0x40_0020, 0x1000, 0),
        [(0x1000, 0x40_0016), (0x1010, 0x40_0005)],
        &[
            (2, 0x40_0020, 0x40_0020),
            (1, 0x40_0016, 0x40_0015),
            (0, 0x40_0005, 0x40_0004),
        ],
        Walked::End,
    ),
    // Before its block has the stack grow, and behind.
    (
        (0x40_0023, 0x1000, 0),
        [(0x1000, 0x40_0016), (0x1010, 0)],
        &[(2, 0x40_0023, 0x40_0023), (1, 0x40_0016, 0x40_0015)],
        Walked::End,
    ),
    (
        (0x40_0028, 0x1000, 0),
        [(0x1000, 0x40_0030), (0x1010, 0)],
        &[(2, 0x40_0028, 0x40_0028)],
        Walked::End,
    ),
    // main.a before and behind its push; what the push left below its place isn't looked at.
    (
        (0x40_0010, 0x1000, 0),
        [(0x1000, 0x40_0005), (0x1008, 0x40_0016)],
        &[(1, 0x40_0010, 0x40_0010), (0, 0x40_0005, 0x40_0004)],
        Walked::End,
    ),
    (
        (0x40_0011, 0x1000, 0),
        [(0x1000, 0x40_0016), (0x1008, 0x40_0005)],
        &[(1, 0x40_0011, 0x40_0011), (0, 0x40_0005, 0x40_0004)],
        Walked::End,
    ),
    // A stack ends in main.top, whatever stands on it.
    (
        (0x40_0000, 0x1000, 0),
        [(0x1000, 0x40_0016), (0x1008, 0)],
        &[(0, 0x40_0000, 0x40_0000)],
        Walked::End,
    ),
    (
        (0x3f_ffff, 0x1000, 0),
        NONE,
        &[],
        Walked::No(UnwindNo::U1(0x3f_ffff)),
    ),
    (
        (0x40_0030, 0x1000, 0),
        NONE,
        &[],
        Walked::No(UnwindNo::U1(0x40_0030)),
    ),
    // In an instruction, and in the padding.
    (
        (0x40_0021, 0x1000, 0),
        NONE,
        &[],
        Walked::No(UnwindNo::U2(0x40_0021)),
    ),
    (
        (0x40_001f, 0x1000, 0),
        NONE,
        &[],
        Walked::No(UnwindNo::U2(0x40_001f)),
    ),
    (
        (0x40_0020, 0x1000, 0),
        [(0x1000, 0x40_0016), (0x1008, 0x40_0005)],
        &[(2, 0x40_0020, 0x40_0020), (1, 0x40_0016, 0x40_0015)],
        Walked::No(UnwindNo::U3(0x1010)),
    ),
    // Behind the call that has the stack grow, and behind no call.
    (
        (0x40_0020, 0x1000, 0),
        [(0x1000, 0x40_0028), (0x1008, 0)],
        &[(2, 0x40_0020, 0x40_0020)],
        Walked::No(UnwindNo::U4(0x40_0028)),
    ),
    (
        (0x40_0020, 0x1000, 0),
        [(0x1000, 0x40_0020), (0x1008, 0)],
        &[(2, 0x40_0020, 0x40_0020)],
        Walked::No(UnwindNo::U4(0x40_0020)),
    ),
    // The place of the return address, and the caller's stack pointer, pass the last address.
    (
        (0x40_0011, 0xffff_ffff_ffff_fff8, 0),
        NONE,
        &[(1, 0x40_0011, 0x40_0011)],
        Walked::No(UnwindNo::U5(0xffff_ffff_ffff_fff8, 8)),
    ),
    (
        (0x40_0010, 0xffff_ffff_ffff_fff8, 0),
        [(0xffff_ffff_ffff_fff8, 0x40_0005), (0, 0)],
        &[(1, 0x40_0010, 0x40_0010)],
        Walked::No(UnwindNo::U5(0xffff_ffff_ffff_fff8, 0)),
    ),
];

#[test]
fn stacks_of_amd64_are_walked(rt: HostRuntime) -> Result<(), Fail> {
    let bytes = stacked(rt.alloc())?;
    for row in PUSHED_RETURNS {
        expect::<Amd64, _>(&rt, rt.alloc(), bytes.as_slice(), row);
    }
    Ok(())
}

// Over the target with a link register, which has the first frame's return address at depth 0; else it stands at the stack pointer.
const LINK_REGISTER: [Row; 6] = [
    (
        (0x40_0000, 0x1000, 0x30_0000),
        NONE,
        &[(0, 0x40_0000, 0x40_0000)],
        Walked::End,
    ),
    (
        (0x40_0014, 0x1000, 0x40_0008),
        [(0x1000, 0x30_0000), (0x1010, 0x30_0000)],
        &[(0, 0x40_0014, 0x40_0014)],
        Walked::No(UnwindNo::U4(0x40_0008)),
    ),
    (
        (0x40_0008, 0x1000, 0x40_0008),
        [(0x1000, 0x30_0000), (0x1010, 0x40_0008)],
        &[(0, 0x40_0008, 0x40_0008)],
        Walked::End,
    ),
    (
        (0x40_000c, 0x1000, 0x30_0000),
        [(0x1000, 0x40_0008), (0x1010, 0x30_0000)],
        &[(0, 0x40_000c, 0x40_000c)],
        Walked::No(UnwindNo::U4(0x40_0008)),
    ),
    (
        (0x40_0008, 0x1000, 0x30_0000),
        [(0xff0, 0x30_0000), (0x1010, 0x30_0000)],
        &[(0, 0x40_0008, 0x40_0008)],
        Walked::No(UnwindNo::U3(0x1000)),
    ),
    (
        (0x40_0008, 0xffff_ffff_ffff_fff0, 0x30_0000),
        [(0xffff_ffff_ffff_fff0, 0x30_0000), (0, 0x30_0000)],
        &[(0, 0x40_0008, 0x40_0008)],
        Walked::No(UnwindNo::U5(0xffff_ffff_ffff_fff0, 16)),
    ),
];

#[test]
fn stacks_with_a_link_register_are_walked(rt: HostRuntime) -> Result<(), Fail> {
    let bytes = linked(rt.alloc(), 0x20)?;
    for row in LINK_REGISTER {
        expect::<Linked, _>(&rt, rt.alloc(), bytes.as_slice(), row);
    }
    Ok(())
}
