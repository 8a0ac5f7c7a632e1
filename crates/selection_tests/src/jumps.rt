//! The two forms of jumps, and the addresses that instructions hold. The bytes are those of GNU binutils 2.40.
ghost use Rattle.std.specs.Prelude.{◌≤◌};

use amd64_select::{Amd64, Listed};
use asm_target::{Part, Processor, Target};
use goasm_base::Bytes;
use std::alloc::Global;
use std::process::Abort;
use std::test::Fail;

// Bytes of an instruction, and those of its short and of its long form.
const FORMS: [(&str, &str, &str); 20] = [
    ("e900000000", "eb00", "e900000000"),
    ("eb00", "eb00", "e900000000"),
    ("0f8000000000", "7000", "0f8000000000"),
    ("0f8100000000", "7100", "0f8100000000"),
    ("0f8200000000", "7200", "0f8200000000"),
    ("0f8300000000", "7300", "0f8300000000"),
    ("0f8400000000", "7400", "0f8400000000"),
    ("7500", "7500", "0f8500000000"),
    ("0f8600000000", "7600", "0f8600000000"),
    ("0f8700000000", "7700", "0f8700000000"),
    ("0f8800000000", "7800", "0f8800000000"),
    ("0f8f00000000", "7f00", "0f8f00000000"),
    // What is no direct jump has one form.
    ("e800000000", "e800000000", "e800000000"),
    ("ffe0", "ffe0", "ffe0"),
    ("ff2500000000", "ff2500000000", "ff2500000000"),
    ("ffd0", "ffd0", "ffd0"),
    ("c3", "c3", "c3"),
    ("4889c3", "4889c3", "4889c3"),
    ("0f05", "0f05", "0f05"),
    ("488d0500000000", "488d0500000000", "488d0500000000"),
];

fn expect_form<R: Abort>(
    rt: &R,
    alloc: Global,
    instr: &Listed,
    form: u8,
    digits: &str,
) -> Result<(), Fail>
    requires { form ≤ 1 }
{
    let code = Amd64::forms(instr, form);
    assert!(rt; code.len() == 1, "{digits}");
    let bytes = hex::encode(alloc, Amd64::spell(&code.get(0)).as_slice())?;
    assert_eq!(rt; bytes.as_str(), digits);
    Ok(())
}

#[test]
fn jumps_have_two_forms(rt: HostRuntime) -> Result<(), Fail> {
    for (digits, short, long) in FORMS {
        match Amd64::read(&hex::decode(rt.alloc(), digits)?) {
            Some((instr, _)) => {
                expect_form(&rt, rt.alloc(), &instr, 0, short)?;
                expect_form(&rt, rt.alloc(), &instr, 1, long)?;
            }
            None => assert!(rt; false, "{digits} is an instruction"),
        }
    }
    Ok(())
}

// The instruction of the first bytes at a place, aimed at a goal, has the bytes behind these; none where it can't be aimed there.
fn expect_aimed<R: Abort>(rt: &R, alloc: Global, row: (&str, u64, u64, &str)) -> Result<(), Fail> {
    let (digits, place, goal, wanted) = row;
    match Amd64::read(&hex::decode(alloc, digits)?) {
        Some((instr, _)) => {
            let mut found = hex::encode(alloc, b"".as_slice())?;
            if let Some(aimed) = Amd64::aim(&instr, Part::Whole, place, goal) {
                found = hex::encode(alloc, Amd64::spell(&aimed).as_slice())?;
            }
            assert_eq!(rt; found.as_str(), wanted, "{digits} to {goal}");
            assert!(rt; Amd64::aim(&instr, Part::High, place, goal).is_none());
            assert!(rt; Amd64::aim(&instr, Part::Low, place, goal).is_none());
        }
        None => assert!(rt; false, "{digits} is an instruction"),
    }
    Ok(())
}

// Distances are counted from the end of the instruction.
const BRANCHES: [(&str, u64, u64, &str); 36] = [
    ("eb00", 0x1000, 0x1000, "ebfe"),
    ("eb00", 0x1000, 0x1002, "eb00"),
    ("eb00", 0x1000, 0x1080, "eb7e"),
    ("eb00", 0x1000, 0x1081, "eb7f"),
    ("eb00", 0x1000, 0x1082, ""),
    ("eb00", 0x1000, 0xf83, "eb81"),
    ("eb00", 0x1000, 0xf82, "eb80"),
    ("eb00", 0x1000, 0xf81, ""),
    ("eb7f", 0x1000, 0x1000, "ebfe"),
    ("7600", 0x1000, 0x1081, "767f"),
    ("7600", 0x1000, 0x1082, ""),
    ("7600", 0x1000, 0xf82, "7680"),
    ("7600", 0x1000, 0xf81, ""),
    ("e900000000", 0, 5, "e900000000"),
    ("e900000000", 0x1000, 0x1000, "e9fbffffff"),
    ("e900000000", 0, 0x8000_0003, "e9feffff7f"),
    ("e900000000", 0, 0x8000_0004, "e9ffffff7f"),
    ("e900000000", 0, 0x8000_0005, ""),
    ("e900000000", 0x8000_0000, 6, "e901000080"),
    ("e900000000", 0x8000_0000, 5, "e900000080"),
    ("e900000000", 0x8000_0000, 4, ""),
    ("0f8600000000", 0, 0x8000_0005, "0f86ffffff7f"),
    ("0f8600000000", 0, 0x8000_0006, ""),
    ("0f8600000000", 0x8000_0000, 6, "0f8600000080"),
    ("0f8600000000", 0x8000_0000, 5, ""),
    ("e800000000", 0x40_0000, 0x40_0080, "e87b000000"),
    ("e800000000", 0, 0x8000_0004, "e8ffffff7f"),
    ("e800000000", 0, 0x8000_0005, ""),
    ("e800000000", 0x8000_0000, 5, "e800000080"),
    ("e800000000", 0x8000_0000, 4, ""),
    // Addresses are counted modulo 2^64.
    ("eb00", 0xffff_ffff_ffff_ffff, 0, "ebff"),
    ("eb00", 0, 0xffff_ffff_ffff_ff82, "eb80"),
    ("eb00", 0, 0xffff_ffff_ffff_ff81, ""),
    ("e900000000", 0, 0xffff_ffff_8000_0005, "e900000080"),
    ("e900000000", 0xffff_ffff_ffff_fff0, 0x10, "e91b000000"),
    ("e800000000", 0x40_0000, 0x8000_0000_0040_0005, ""),
];

#[test]
fn branches_are_aimed(rt: HostRuntime) -> Result<(), Fail> {
    for row in BRANCHES {
        expect_aimed(&rt, rt.alloc(), row)?;
    }
    Ok(())
}

// At 0x400000, aimed at what lies 129 bytes before the end of the instruction.
const SYMBOLS: [(&str, u64, &str); 33] = [
    ("48890500000000", 0x3f_ff86, "4889057fffffff"),
    ("48010d00000000", 0x3f_ff86, "48010d7fffffff"),
    ("f048010d00000000", 0x3f_ff87, "f048010d7fffffff"),
    ("440b0d00000000", 0x3f_ff86, "440b0d7fffffff"),
    ("4883050000000001", 0x3f_ff87, "4883057fffffff01"),
    ("810500000000e8030000", 0x3f_ff89, "81057fffffffe8030000"),
    ("48833d00000000ff", 0x3f_ff87, "48833d7fffffffff"),
    ("813d00000000e8030000", 0x3f_ff89, "813d7fffffffe8030000"),
    ("66890d00000000", 0x3f_ff86, "66890d7fffffff"),
    ("40883500000000", 0x3f_ff86, "4088357fffffff"),
    ("0fb60500000000", 0x3f_ff86, "0fb6057fffffff"),
    ("4c630500000000", 0x3f_ff86, "4c63057fffffff"),
    (
        "48c70500000000feffffff",
        0x3f_ff8a,
        "48c7057ffffffffeffffff",
    ),
    ("c6050000000061", 0x3f_ff86, "c6057fffffff61"),
    ("488d1d00000000", 0x3f_ff86, "488d1d7fffffff"),
    ("f0f71500000000", 0x3f_ff86, "f0f7157fffffff"),
    ("48f73500000000", 0x3f_ff86, "48f7357fffffff"),
    ("4c0faf2500000000", 0x3f_ff87, "4c0faf257fffffff"),
    ("f30fb80d00000000", 0x3f_ff87, "f30fb80d7fffffff"),
    ("48c1050000000006", 0x3f_ff87, "48c1057fffffff06"),
    ("d33d00000000", 0x3f_ff85, "d33d7fffffff"),
    ("48870500000000", 0x3f_ff86, "4887057fffffff"),
    ("4c0fb11d00000000", 0x3f_ff87, "4c0fb11d7fffffff"),
    ("f00fc10500000000", 0x3f_ff87, "f00fc1057fffffff"),
    ("0f940500000000", 0x3f_ff86, "0f94057fffffff"),
    ("480f483d00000000", 0x3f_ff87, "480f483d7fffffff"),
    ("ff2500000000", 0x3f_ff85, "ff257fffffff"),
    ("ff1500000000", 0x3f_ff85, "ff157fffffff"),
    ("f30f6f0d00000000", 0x3f_ff87, "f30f6f0d7fffffff"),
    ("f3440f7f0d00000000", 0x3f_ff88, "f3440f7f0d7fffffff"),
    ("48850500000000", 0x3f_ff86, "4885057fffffff"),
    ("483b0500000000", 0x3f_ff86, "483b057fffffff"),
    ("8b1500000000", 0x3f_ff85, "8b157fffffff"),
];

#[test]
fn symbols_are_aimed(rt: HostRuntime) -> Result<(), Fail> {
    for (digits, goal, wanted) in SYMBOLS {
        expect_aimed(&rt, rt.alloc(), (digits, 0x40_0000, goal, wanted))?;
    }
    Ok(())
}

const OTHERS: [(&str, u64, u64, &str); 17] = [
    ("488d0500000000", 0, 7, "488d0500000000"),
    ("488d0500000000", 0, 0x8000_0006, "488d05ffffff7f"),
    ("488d0500000000", 0, 0x8000_0007, ""),
    ("488d0500000000", 0x8000_0000, 7, "488d0500000080"),
    ("488d0500000000", 0x8000_0000, 6, ""),
    ("488d0510000000", 0xffff_ffff_ffff_fff0, 8, "488d0511000000"),
    ("488d0500000000", 8, 0xffff_ffff_ffff_fff0, "488d05e1ffffff"),
    // What holds no address.
    ("c3", 0x1000, 0x1001, ""),
    ("4889c3", 0x1000, 0x1003, ""),
    ("ffe0", 0x1000, 0x1002, ""),
    ("ffd0", 0x1000, 0x1002, ""),
    ("488d4008", 0x1000, 0x1004, ""),
    ("488b0c58", 0x1000, 0x1004, ""),
    ("64488b0c25f8ffffff", 0x1000, 0x1009, ""),
    ("48c7c0ffffffff", 0x1000, 0x1007, ""),
    ("b801000000", 0x1000, 0x1005, ""),
    ("0f05", 0x1000, 0x1002, ""),
];

#[test]
fn addresses_have_borders(rt: HostRuntime) -> Result<(), Fail> {
    for row in OTHERS {
        expect_aimed(&rt, rt.alloc(), row)?;
    }
    Ok(())
}
