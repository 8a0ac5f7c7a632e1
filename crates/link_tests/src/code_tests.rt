//! The instructions of functions at their addresses, and what is told of them.
ghost use Rattle.std.specs.Prelude.{◌≡◌, ◌^◌, ◌<◌, IfOk, length};
ghost use Rattle.goasm_base.specs.Statements.{IsValidFunction};
ghost use Rattle.asm_parse.specs.Valid.{IsValidUnit};

use amd64_select::Amd64;
use asm_lex::lex;
use asm_parse::{ParseNo, Unit, parse};
use asm_target::{Placed, Target};
use asm_target_linked::{Instr, Linked, Op};
use goasm_base::{Function, Memory, Text};
use link_code::{Code, PlaceNo, Site, line_of, place, pos_at, push_code};
use std::alloc::Global;
use std::process::Abort;
use std::test::Fail;
use unit_listing::lay;

// The address of the routine that grows the stack.
const GROWTH: u64 = 0x0040_0100;

// A source, the address of its function, those of its symbols, and what is told: of each instruction its address, the depth, the line in
// the source and the text; then the bytes. Or the number of the first line that is too far from its goal.
type Row<'a> = (&'a str, u64, &'a [u64], &'a str);

fn unit_of<T: Target>(alloc: Global, source: &[u8]) -> Result<Unit, Fail>
    ensures { IfOk result IsValidUnit }
{
    let tokens = lex(alloc, 0, source)?;
    if tokens.list.as_slice().len() > 4_000_000 {
        return Err(ParseNo::Memory)?;
    }
    Ok(parse(alloc, &tokens, |name: &[u8]| T::is_word(name))?)
}

fn push_line<T: Target>(
    alloc: Global,
    text: &mut Text,
    one: &Placed<T::Instr>,
    depth: u32,
) -> Result<(), Memory> {
    text.push_hex(one.at)?;
    text.push(b" ")?;
    text.push_unsigned(u64::from(depth))?;
    text.push(b" ")?;
    text.push(T::show(alloc, &one.instr, one.at)?.as_slice())?;
    text.push(b"\n")
}

const DIGITS: [u8; 16] = *b"0123456789abcdef";

fn push_bytes<T: Target>(
    alloc: Global,
    text: &mut Text,
    code: &[Placed<T::Instr>],
) -> Result<(), Memory> {
    let mut bytes = Vec::new(alloc);
    push_code::<T>(&mut bytes, code)?;
    for byte in &bytes {
        let high = DIGITS[usize::from(*byte / 16)];
        let low = DIGITS[usize::from(*byte % 16)];
        text.push(&[high, low])?;
    }
    text.push(b"\n")
}

fn push_placed<T: Target>(
    alloc: Global,
    text: &mut Text,
    code: &Code<T::Instr>,
) -> Result<(), Memory> {
    for (one, depth) in code.placed.iter().zip(code.depths.iter()) {
        push_line::<T>(alloc, text, one, *depth)?;
    }
    push_bytes::<T>(alloc, text, &code.placed)
}

fn push_function<T: Target>(
    alloc: Global,
    text: &mut Text,
    func: &Function,
    site: &Site<'_>,
) -> Result<(), Fail>
    requires valid { IsValidFunction (length site.now.addresses.now) func.now }
    requires low { site.now.entry < 2 ^ 63 }
{
    let laid = lay::<T>(alloc, func)?;
    match place::<T>(alloc, &laid, site) {
        Ok(code) => push_placed::<T>(alloc, text, &code)?,
        Err(PlaceNo::Unreached(line)) => text.push_unsigned(line as u64)?,
        Err(PlaceNo::Memory) => return Err(Memory)?,
    }
    Ok(())
}

// What is told of the functions of a source, each at this address.
fn told<T: Target>(
    alloc: Global,
    source: &[u8],
    entry: u64,
    addresses: &[u64],
) -> Result<Text, Fail> {
    let unit = unit_of::<T>(alloc, source)?;
    let mut text = Text::new(alloc);
    if addresses.len() != unit.symbols.as_slice().len() || entry >= 1 << 63 {
        return Ok(text);
    }
    let site = Site {
        entry,
        addresses,
        growth: GROWTH,
    };
    for func in unit.functions.as_slice() {
        push_function::<T>(alloc, &mut text, func, &site)?;
    }
    Ok(text)
}

// The bytes are those of LLVM's assembler.
const ROWS: [Row; 5] = [
    // A call to what lies before, and one to what lies behind.
    (
        "TEXT ·f(SB), 4, $0-0\nCALL ·g(SB)\nCALL ·h(SB)\nRET\n",
        0x0040_1000,
        &[0x0040_1000, 0x0040_0800, 0x0040_2000],
        "0x0000000000401000 0 CALL 0x0000000000400800
0x0000000000401005 0 CALL 0x0000000000402000
0x000000000040100a 0 RET
e8fbf7ffffe8f60f0000c3cccccccccc
",
    ),
    // An offset that leads below 0.
    (
        "TEXT ·f(SB), 4, $0-0\nLEAQ ·v-16(SB), AX\nRET\n",
        0x0040_1000,
        &[0x0040_1000, 8],
        "0x0000000000401000 0 LEAQ 0xfffffffffffffff8(SB), AX
0x0000000000401007 0 RET
488d05f1efbfffc3cccccccccccccccc
",
    ),
    // The check of the stack calls the routine that grows it.
    (
        "TEXT ·f(SB), 0, $0-0\nCALL ·f(SB)\nRET\n",
        0x0040_1000,
        &[0x0040_1000],
        "0x0000000000401000 0 MOVQ (TLS), CX
0x0000000000401009 0 CMPQ SP, 16(CX)
0x000000000040100d 0 JLS 0x0000000000401029
0x000000000040100f 0 SUBQ $8, SP
0x0000000000401013 8 MOVQ BP, (SP)
0x0000000000401017 8 LEAQ (SP), BP
0x000000000040101b 8 CALL 0x0000000000401000
0x0000000000401020 8 MOVQ (SP), BP
0x0000000000401024 8 ADDQ $8, SP
0x0000000000401028 0 RET
0x0000000000401029 0 CALL 0x0000000000400100
0x000000000040102e 0 JMP 0x0000000000401000
64488b0c25f8ffffff483b6110761a4883ec0848892c24488d2c24e8e0ffffff488b2c244883c408c3e8d2f0ffffebd0
",
    ),
    // What lies 2^31 bytes behind a call is reached no more, and one byte before that it is.
    (
        "TEXT ·f(SB), 4, $0-0\nCDQ\nCALL ·g(SB)\nRET\n",
        0,
        &[0, 0x8000_0006],
        "1",
    ),
    (
        "TEXT ·f(SB), 4, $0-0\nCDQ\nCALL ·g(SB)\nRET\n",
        0,
        &[0, 0x8000_0005],
        "0x0000000000000000 0 CDQ
0x0000000000000001 0 CALL 0x0000000080000005
0x0000000000000006 0 RET
99e8ffffff7fc3cccccccccccccccccc
",
    ),
];

#[test]
fn functions_are_placed(rt: HostRuntime) -> Result<(), Fail> {
    for (source, entry, addresses, wanted) in &ROWS {
        let found = told::<Amd64>(rt.alloc(), source.as_bytes(), *entry, *addresses)?.finish();
        assert_eq!(rt; found.as_slice(), wanted.as_bytes(), "{source}");
    }
    Ok(())
}

// A branch over 13 instructions of ten bytes has its long form, and a jump to itself its short one.
#[test]
fn branches_are_aimed_in_their_forms(rt: HostRuntime) -> Result<(), Fail> {
    let mut source = Text::new(rt.alloc());
    source.push("TEXT ·f(SB), 4, $0-0\nJEQ end\n".as_bytes())?;
    for _line in 0..13 {
        source.push(b"MOVQ $0x1122334455667788, AX\n")?;
    }
    source.push(b"end:\nJMP end\n")?;
    let found = told::<Amd64>(
        rt.alloc(),
        source.finish().as_slice(),
        0x0040_1000,
        &[0x0040_1000],
    )?;
    let found = found.finish();
    let first = b"0x0000000000401000 0 JEQ 0x0000000000401088\n";
    let last = b"0x0000000000401088 0 JMP 0x0000000000401088\n0f848200000048b88877665544332211";
    assert!(rt; found.as_slice().starts_with(first.as_slice()));
    assert!(rt;
        found
            .as_slice()
            .windows(last.len())
            .any(|part| part == last.as_slice())
    );
    assert!(rt; found.as_slice().ends_with(b"ebfecccccccccccc\n"));
    Ok(())
}

// A call to 0, a branch to 112 bytes behind itself, and a return.
const CODE: [Placed<Instr>; 3] = [
    Placed {
        at: 4096,
        len: 8,
        instr: Instr::Far {
            call: true,
            distance: -4096,
        },
    },
    Placed {
        at: 4104,
        len: 4,
        instr: Instr::Near {
            held: true,
            distance: 112,
        },
    },
    Placed {
        at: 4108,
        len: 4,
        instr: Instr::Plain(Op::Return),
    },
];

// Behind a text of 15 bytes, so that one is missing to the next multiple of 16 behind the code.
#[test]
fn code_is_padded(rt: HostRuntime) -> Result<(), Memory> {
    let mut text = vec![in rt.alloc(); 7; 15]?;
    push_code::<Linked>(&mut text, &CODE)?;
    assert_eq!(rt; text.len(), 32);
    let wanted = [7, 49, 0, 0, 0, 0, 0, 0, 240, 16, 112, 0, 0, 6, 0, 0, 0, 0];
    assert_eq!(rt; &text.as_slice()[14..], wanted.as_slice());
    push_code::<Linked>(&mut text, &[])?;
    assert_eq!(rt; text.len(), 32);
    Ok(())
}

// The line of the source from which the instruction at an address comes.
fn line_at<T: Target>(
    alloc: Global,
    func: &Function,
    site: &Site<'_>,
    address: u64,
) -> Result<Option<u32>, Fail>
    requires valid { IsValidFunction (length site.now.addresses.now) func.now }
    requires low { site.now.entry < 2 ^ 63 }
{
    let laid = lay::<T>(alloc, func)?;
    match place::<T>(alloc, &laid, site) {
        Ok(code) => Ok(pos_at::<T>(&laid, &code.placed, address).map(|pos| pos.line)),
        Err(_) => Err(Memory)?,
    }
}

#[test]
fn places_in_the_sources_are_told(rt: HostRuntime) -> Result<(), Fail> {
    let source = "\nTEXT ·f(SB), 4, $0-0\nCALL ·f(SB)\n\nRET\n";
    let unit = unit_of::<Amd64>(rt.alloc(), source.as_bytes())?;
    for func in unit.functions.as_slice() {
        let addresses = [0x0040_1000];
        if unit.symbols.as_slice().len() == 1 {
            let site = Site {
                entry: 0x0040_1000,
                addresses: &addresses,
                growth: GROWTH,
            };
            assert!(rt; line_at::<Amd64>(rt.alloc(), func, &site, 0x0040_1000)? == Some(3));
            assert!(rt; line_at::<Amd64>(rt.alloc(), func, &site, 0x0040_1001)? == None);
            assert!(rt; line_at::<Amd64>(rt.alloc(), func, &site, 0x0040_1005)? == Some(5));
            assert!(rt; line_at::<Amd64>(rt.alloc(), func, &site, 0x0040_1006)? == None);
        }
    }
    assert!(rt; unit.symbols.as_slice().len() == 1);
    Ok(())
}

// The lines of the first instructions of a function that checks its stack, and of none behind its last.
#[test]
fn instructions_are_of_lines(rt: HostRuntime) -> Result<(), Fail> {
    let source = "TEXT ·f(SB), 0, $0-0\nCALL ·f(SB)\nRET\n";
    let unit = unit_of::<Amd64>(rt.alloc(), source.as_bytes())?;
    for func in unit.functions.as_slice() {
        let laid = lay::<Amd64>(rt.alloc(), func)?;
        assert!(rt; line_of::<Amd64>(&laid, 0) == Some(0));
        assert!(rt; line_of::<Amd64>(&laid, 11) == Some(11));
        assert!(rt; line_of::<Amd64>(&laid, 12) == None);
    }
    Ok(())
}

// Whether a function has instructions, and these can be placed.
fn is_placed<T: Target>(alloc: Global, func: &Function, site: &Site<'_>) -> bool
    requires valid { IsValidFunction (length site.now.addresses.now) func.now }
    requires low { site.now.entry < 2 ^ 63 }
{
    match lay::<T>(alloc, func) {
        Ok(laid) => place::<T>(alloc, &laid, site).is_ok(),
        Err(_) => false,
    }
}

// The sample has no jump that a statement can say, so none of its functions is laid out.
#[test]
fn the_sample_places_nothing(rt: HostRuntime) -> Result<(), Fail> {
    let unit = unit_of::<Linked>(rt.alloc(), b"TEXT f(SB), 4, $0-0\nABOVE $8\n")?;
    for func in unit.functions.as_slice() {
        if unit.symbols.as_slice().len() == 1 {
            let site = Site {
                entry: 4096,
                addresses: &[4096],
                growth: GROWTH,
            };
            assert!(rt; !is_placed::<Linked>(rt.alloc(), func, &site));
        }
    }
    Ok(())
}
