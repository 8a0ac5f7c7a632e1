//! Frames and checks of the stack, byte for byte; widths and words.
use crate::shapes::frame;
use amd64_select::{Amd64, Listed};
use asm_target::{Few, Part, Picked, Placed, Processor, Refer, Sequence, Target, To, Width};
use goasm_base::{Memory, Text};
use std::alloc::Global;
use std::process::Abort;
use std::test::Fail;

// A frame's bytes, and the instructions that enter and leave it. They are those of GNU binutils 2.40.
const FRAMES: [(u32, &str, &str); 9] = [
    (0, "", ""),
    (8, "4883ec08 48892c24 488d2c24", "488b2c24 4883c408"),
    (16, "4883ec10 48896c2408 488d6c2408", "488b6c2408 4883c410"),
    (
        128,
        "4881ec80000000 48896c2478 488d6c2478",
        "488b6c2478 4881c480000000",
    ),
    (
        136,
        "4881ec88000000 4889ac2480000000 488dac2480000000",
        "488bac2480000000 4881c488000000",
    ),
    (
        4096,
        "4881ec00100000 4889ac24f80f0000 488dac24f80f0000",
        "488bac24f80f0000 4881c400100000",
    ),
    (
        4104,
        "4881ec08100000 4889ac2400100000 488dac2400100000",
        "488bac2400100000 4881c408100000",
    ),
    (
        8192,
        "4881ec00200000 4889ac24f81f0000 488dac24f81f0000",
        "488bac24f81f0000 4881c400200000",
    ),
    (
        1_048_576,
        "4881ec00001000 4889ac24f8ff0f00 488dac24f8ff0f00",
        "488bac24f8ff0f00 4881c400001000",
    ),
];

// The digits of an instruction, behind a blank where it isn't the first.
fn push_digits(alloc: Global, text: &mut Text, number: usize, instr: &Listed) -> Result<(), Fail> {
    if number > 0 {
        text.push(b" ")?;
    }
    text.push(hex::encode(alloc, Amd64::spell(instr).as_slice())?.as_bytes())?;
    Ok(())
}

fn digits_of(alloc: Global, code: &Few<Listed>) -> Result<Text, Fail> {
    let mut text = Text::new(alloc);
    for number in 0..code.len() {
        push_digits(alloc, &mut text, number, &code.get(number))?;
    }
    Ok(text)
}

#[test]
fn frames_are_entered_and_left(rt: HostRuntime) -> Result<(), Fail> {
    for (total, entry, exit) in FRAMES {
        let frame = frame(total);
        assert_eq!(rt; frame.total, total);
        let code = digits_of(rt.alloc(), &Amd64::enter(frame))?.finish();
        assert_eq!(rt; code.as_slice(), entry.as_bytes(), "{total}");
        let code = digits_of(rt.alloc(), &Amd64::leave(frame))?.finish();
        assert_eq!(rt; code.as_slice(), exit.as_bytes(), "{total}");
    }
    Ok(())
}

// A frame's bytes, and its check. A branch has its long form and a distance of 0, and what it refers to stands behind it.
const CHECKS: [(u32, &str); 8] = [
    (0, "64488b0c25f8ffffff 483b6110 0f8600000000>block"),
    (120, "64488b0c25f8ffffff 483b6110 0f8600000000>block"),
    (128, "64488b0c25f8ffffff 483b6110 0f8600000000>block"),
    (
        136,
        "64488b0c25f8ffffff 488d4424f8 483b4110 0f8600000000>block",
    ),
    (
        4096,
        "64488b0c25f8ffffff 488d842480f0ffff 483b4110 0f8600000000>block",
    ),
    (
        4104,
        "64488b0c25f8ffffff 4889e0 4881e8880f0000 0f8200000000>block 483b4110 0f8600000000>block",
    ),
    (
        8192,
        "64488b0c25f8ffffff 4889e0 4881e8801f0000 0f8200000000>block 483b4110 0f8600000000>block",
    ),
    (
        1_048_576,
        "64488b0c25f8ffffff 4889e0 4881e880ff0f00 0f8200000000>block 483b4110 0f8600000000>block",
    ),
];

const BLOCK: &str = "e800000000>grow e900000000>entry";

fn name_of(refer: Refer) -> &'static [u8] {
    match (refer.to, refer.part) {
        (To::Block, Part::Whole) => b">block",
        (To::Grow, Part::Whole) => b">grow",
        (To::Entry, Part::Whole) => b">entry",
        _ => b">?",
    }
}

fn digits_of_picks(alloc: Global, code: &Few<Picked<Listed>>) -> Result<Text, Fail> {
    let mut text = Text::new(alloc);
    for number in 0..code.len() {
        let pick = code.get(number);
        push_digits(alloc, &mut text, number, &pick.instr)?;
        if let Some(refer) = pick.refer {
            text.push(name_of(refer))?;
        }
    }
    Ok(text)
}

fn expect_check<R: Abort>(rt: &R, alloc: Global, total: u32, check: &str) -> Result<(), Fail> {
    let guard = Amd64::guard(frame(total));
    let head = digits_of_picks(alloc, &guard.head)?.finish();
    assert_eq!(rt; head.as_slice(), check.as_bytes(), "{total}");
    let block = digits_of_picks(alloc, &guard.block)?.finish();
    assert_eq!(rt; block.as_slice(), BLOCK.as_bytes(), "{total}");
    assert!(rt; !guard.in_place);
    Ok(())
}

#[test]
fn checks_are_of_three_kinds(rt: HostRuntime) -> Result<(), Fail> {
    for (total, check) in CHECKS {
        expect_check(&rt, rt.alloc(), total, check)?;
    }
    Ok(())
}

const WIDTHS: [(&str, Width); 40] = [
    ("MOVQ", Width::Bytes(8)),
    ("MOVL", Width::Bytes(4)),
    ("MOVW", Width::Bytes(2)),
    ("MOVB", Width::Bytes(1)),
    ("MOVBLZX", Width::Bytes(1)),
    ("MOVWLZX", Width::Bytes(2)),
    ("MOVBQSX", Width::Bytes(1)),
    ("MOVWQSX", Width::Bytes(2)),
    ("MOVLQSX", Width::Bytes(4)),
    ("MOVBQZX", Width::Bytes(1)),
    ("MOVWQZX", Width::Bytes(2)),
    ("MOVLQZX", Width::Bytes(4)),
    ("ADDL", Width::Bytes(4)),
    ("XORQ", Width::Bytes(8)),
    ("CMPQ", Width::Bytes(8)),
    ("TESTL", Width::Bytes(4)),
    ("NEGQ", Width::Bytes(8)),
    ("DIVL", Width::Bytes(4)),
    ("IMULQ", Width::Bytes(8)),
    ("SHLL", Width::Bytes(4)),
    ("XCHGQ", Width::Bytes(8)),
    ("CMPXCHGL", Width::Bytes(4)),
    ("POPCNTQ", Width::Bytes(8)),
    ("SETEQ", Width::Bytes(1)),
    ("SETHS", Width::Bytes(1)),
    ("CMOVQGT", Width::Bytes(8)),
    ("CMOVLLO", Width::Bytes(4)),
    ("CALL", Width::Bytes(8)),
    ("JMP", Width::Bytes(8)),
    ("MOVOU", Width::Bytes(16)),
    ("LEAQ", Width::Address),
    ("PUSHQ", Width::Unknown),
    ("BSWAPQ", Width::Unknown),
    ("PXOR", Width::Unknown),
    ("RET", Width::Unknown),
    ("B", Width::Unknown),
    ("JEQ", Width::Unknown),
    ("ADJSP", Width::Unknown),
    ("NOP", Width::Unknown),
    ("XYZ", Width::Unknown),
];

#[test]
fn widths_are_those_of_operands(rt: HostRuntime) {
    for (name, width) in WIDTHS {
        assert_eq!(rt; Amd64::width(name.as_bytes()), width, "{name}");
    }
}

#[test]
fn words_are_registers_and_conditions(rt: HostRuntime) {
    for name in ["AX", "R15", "X0", "TLS", "EQ", "PC", "LO", "HS"] {
        assert!(rt; Amd64::is_word(name.as_bytes()), "{name}");
    }
    for name in ["FP", "SB", "R16", "X16", "ax", "", "RAX", "Z"] {
        assert!(rt; !Amd64::is_word(name.as_bytes()), "{name}");
    }
}

#[test]
fn there_are_no_sequences(rt: HostRuntime) {
    let placed = Placed {
        at: 0,
        len: 2,
        instr: Listed::default(),
    };
    assert_eq!(rt; Amd64::sequence(&[placed]), Sequence::Plain);
}
