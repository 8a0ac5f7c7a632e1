//! The forms and places of a function's instructions.
ghost use Rattle.std.specs.Prelude.{ℕ};
ghost use Rattle.goasm_base.specs.Statements.{IsValidFunction};

use crate::units::parsed;
use amd64_select::Amd64;
use asm_target::Target;
use branch_size::{SizeNo, Sizes, one_size, size};
use goasm_base::{Function, Memory};
use obj_rewrite::rewrite;
use std::alloc::Global;
use std::process::Abort;
use std::test::Fail;

// The sizes of a function that is rewritten and whose branches all reach.
fn sizes_of<R: Abort, T: Target>(rt: &R, alloc: Global, func: &Function) -> Result<Sizes, Memory>
    requires { (count : ℕ) × IsValidFunction count func.now }
{
    match rewrite::<T>(alloc, func) {
        Ok(body) => {
            one_size::<T>(&body);
            match size::<T>(alloc, &body) {
                Ok(sizes) => Ok(sizes),
                Err(no) => {
                    assert!(rt; no == SizeNo::Memory, "{no}");
                    Err(Memory)
                }
            }
        }
        Err(no) => {
            assert!(rt; false, "{no}");
            Err(Memory)
        }
    }
}

// A source in parts: lines, each as often as it stands there.
fn source_of(alloc: Global, parts: &[(&str, u32)]) -> Result<Vec<u8>, Fail> {
    let mut source = Vec::new(alloc);
    for (line, count) in parts {
        for _ in 0..*count {
            source.extend_from_slice(line.as_bytes())?;
            source.extend_from_slice(b"\n")?;
        }
    }
    Ok(source)
}

// Some lines with their forms and places, and the length of all.
fn expect_sizes<R: Abort>(rt: &R, sizes: &Sizes, lines: &[(usize, u8, u32)], length: u32) {
    for (line, form, place) in lines {
        assert_eq!(rt;
            sizes.forms.as_slice().get(*line).copied(),
            Some(*form),
            "form of {line}"
        );
        assert_eq!(rt;
            sizes.places.as_slice().get(*line).copied(),
            Some(*place),
            "place of {line}"
        );
    }
    assert_eq!(rt; sizes.length, length);
}

// A source's parts, some of its lines, and the length.
type Row<'a> = (&'a [(&'a str, u32)], &'a [(usize, u8, u32)], u32);

fn expect<R: Abort>(rt: &R, alloc: Global, rows: &[Row]) -> Result<(), Fail> {
    for (parts, lines, length) in rows {
        let source = source_of(alloc, *parts)?;
        let unit = parsed::<Amd64>(alloc, 0, source.as_slice())?;
        for func in unit.functions.as_slice() {
            let sizes = sizes_of::<R, Amd64>(rt, alloc, func)?;
            expect_sizes(rt, &sizes, *lines, *length);
        }
    }
    Ok(())
}

// What isn't a branch of the function has the form of number 1. CDQ has one byte.
const BRANCHES: [Row; 11] = [
    // `eb 7f`
    (
        &[
            ("TEXT f(SB), 4, $0-0\nJMP a", 1),
            ("CDQ", 127),
            ("a: RET", 1),
        ],
        &[(0, 0, 0), (1, 1, 2), (128, 1, 129)],
        130,
    ),
    // `e9 80 00 00 00`
    (
        &[
            ("TEXT f(SB), 4, $0-0\nJMP a", 1),
            ("CDQ", 128),
            ("a: RET", 1),
        ],
        &[(0, 1, 0), (1, 1, 5), (129, 1, 133)],
        134,
    ),
    // `e9 82 00 00 00` and, behind 125 bytes, `e9 80 00 00 00`: the second jump grows, and so the first loses its reach.
    (
        &[
            ("TEXT f(SB), 4, $0-0\nJMP a", 1),
            ("CDQ", 125),
            ("JMP b\na: CDQ", 1),
            ("CDQ", 127),
            ("b: RET", 1),
        ],
        &[(0, 1, 0), (126, 1, 130), (127, 1, 135), (255, 1, 263)],
        264,
    ),
    // With one byte less behind it the second is short, and so is the first.
    (
        &[
            ("TEXT f(SB), 4, $0-0\nJMP a", 1),
            ("CDQ", 125),
            ("JMP b\na: CDQ", 1),
            ("CDQ", 126),
            ("b: RET", 1),
        ],
        &[(0, 0, 0), (126, 0, 127), (127, 1, 129), (254, 1, 256)],
        257,
    ),
    // The long form under a condition has six bytes.
    (
        &[
            ("TEXT f(SB), 4, $0-0\nJEQ a", 1),
            ("CDQ", 127),
            ("a: RET", 1),
        ],
        &[(0, 0, 0), (1, 1, 2), (128, 1, 129)],
        130,
    ),
    (
        &[
            ("TEXT f(SB), 4, $0-0\nJZ a", 1),
            ("CDQ", 128),
            ("a: RET", 1),
        ],
        &[(0, 1, 0), (1, 1, 6), (129, 1, 134)],
        135,
    ),
    // Backward over 126 bytes and the branch itself, and over 127.
    (
        &[
            ("TEXT f(SB), 4, $0-0\na: CDQ", 1),
            ("CDQ", 125),
            ("JMP a", 1),
        ],
        &[(0, 1, 0), (126, 0, 126)],
        128,
    ),
    (
        &[
            ("TEXT f(SB), 4, $0-0\na: CDQ", 1),
            ("CDQ", 126),
            ("JLT a\nRET", 1),
        ],
        &[(0, 1, 0), (127, 1, 127), (128, 1, 133)],
        134,
    ),
    // Out of the function branches are long. A call of a label has one form.
    (
        &[(
            "TEXT f(SB), 4, $0-0\nJEQ g(SB)\nJMP f(SB)\na: CALL a\nCALL g(SB)\nJMP AX",
            1,
        )],
        &[(0, 1, 0), (1, 1, 6), (2, 0, 11), (3, 1, 16), (4, 1, 21)],
        23,
    ),
    // A label of no instruction stands for the next one, here the jump to itself.
    (
        &[("TEXT f(SB), 4, $0-0\nJMP a\nJMP b\na: NOP\nCDQ\nb: NOP", 1)],
        &[(0, 0, 0), (1, 0, 2), (2, 1, 4), (3, 0, 5)],
        7,
    ),
    (&[("TEXT f(SB), 4, $0-0", 1)], &[(0, 0, 0)], 2),
];

// The check has 13 bytes before its branch, the frame takes 14 and 9, and the call has 5.
const CHECKS: [Row; 4] = [
    (
        &[("TEXT f(SB), 0, $8-0\nCALL f(SB)\nRET", 1)],
        &[(2, 0, 13), (3, 1, 15), (9, 1, 43), (10, 1, 44), (11, 0, 49)],
        51,
    ),
    // The branch to the block reaches over 127 bytes; the jump to the entry doesn't go back over 128.
    (
        &[
            ("TEXT f(SB), 0, $8-0\nCALL f(SB)", 1),
            ("CDQ", 98),
            ("RET", 1),
        ],
        &[
            (2, 0, 13),
            (3, 1, 15),
            (107, 1, 141),
            (108, 1, 142),
            (109, 1, 147),
        ],
        152,
    ),
    (
        &[
            ("TEXT f(SB), 0, $8-0\nCALL f(SB)", 1),
            ("CDQ", 99),
            ("RET", 1),
        ],
        &[
            (2, 1, 13),
            (3, 1, 19),
            (108, 1, 146),
            (109, 1, 147),
            (110, 1, 152),
        ],
        157,
    ),
    // 9, 3, 7, 2, 4 and 2 bytes of a check for a large frame.
    (
        &[("TEXT f(SB), 0, $4096-0\nRET", 1)],
        &[
            (3, 0, 19),
            (4, 1, 21),
            (5, 0, 25),
            (6, 1, 27),
            (11, 1, 65),
            (12, 1, 66),
            (13, 0, 71),
        ],
        73,
    ),
];

#[test]
fn branches_have_the_least_forms(rt: HostRuntime) -> Result<(), Fail> {
    expect(&rt, rt.alloc(), &BRANCHES)?;
    expect(&rt, rt.alloc(), &CHECKS)
}
