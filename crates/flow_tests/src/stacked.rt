//! Over amd64, where the stack keeps return addresses.

use crate::placing::judged;
use amd64_select::{Amd64, Listed};
use asm_target::Processor;
use flow_rules::{FlowNo, Outside};
use goasm_base::Memory;
use std::alloc::Global;

// What is told of a function that stands from 0x400000 on. Instructions are told by their bytes. The text has 0x100 bytes and a
// function at 0x400080.
fn told(alloc: Global, rows: &[(&[u8], u32)]) -> Result<Option<Result<(), FlowNo>>, Memory> {
    let mut code: Vec<(Listed, u32)> = Vec::new(alloc);
    for (bytes, depth) in rows {
        match Amd64::read(bytes) {
            Some((instr, len)) if len == bytes.len() => code.push((instr, *depth))?,
            _ => return Ok(None),
        }
    }
    let entries = [0x40_0000, 0x40_0080];
    let out = Outside {
        first: 0x40_0000,
        past: 0x40_0100,
        entries: &entries,
        growth: &[],
    };
    judged::<Amd64>(alloc, 0x40_0000, &code, &out)
}

fn breach(rule: u8, at: u64) -> Option<Result<(), FlowNo>> {
    Some(Err(FlowNo {
        rule,
        at,
        depths: (0, 0),
    }))
}

fn differing(at: u64, outgoing: i64, depth: i64) -> Option<Result<(), FlowNo>> {
    Some(Err(FlowNo {
        rule: 1,
        at,
        depths: (outgoing, depth),
    }))
}

const PUSH: &[u8] = b"\x50";

const POP: &[u8] = b"\x58";

const RET: &[u8] = b"\xc3";

const SUB_16: &[u8] = b"\x48\x83\xec\x10";

const ADD_16: &[u8] = b"\x48\x83\xc4\x10";

const MOVE_TO_SP: &[u8] = b"\x48\x89\xc4";

const JUMP_BY_REGISTER: &[u8] = b"\xff\xe0";

const BRANCH_OVER_ONE: &[u8] = b"\x75\x01";

const BRANCH_OVER_TWO: &[u8] = b"\x75\x02";

const JUMP_TO_ITSELF: &[u8] = b"\xeb\xfe";

#[test]
fn functions_keep_the_rules(rt: HostRuntime) -> Result<(), Memory> {
    let alloc = rt.alloc();
    assert_eq!(rt; told(alloc, &[(RET, 0)])?, Some(Ok(())));
    assert_eq!(rt;
        told(alloc, &[(PUSH, 0), (POP, 8), (RET, 0)])?,
        Some(Ok(()))
    );
    // A call of the other function, at 0x400004.
    let calling = [(SUB_16, 0), (b"\xe8\x77\0\0\0", 16), (ADD_16, 16), (RET, 0)];
    assert_eq!(rt; told(alloc, &calling)?, Some(Ok(())));
    // A branch over a push and a pop.
    let branching = [(BRANCH_OVER_TWO, 0), (PUSH, 0), (POP, 8), (RET, 0)];
    assert_eq!(rt; told(alloc, &branching)?, Some(Ok(())));
    assert_eq!(rt; told(alloc, &[(JUMP_BY_REGISTER, 0)])?, Some(Ok(())));
    Ok(())
}

#[test]
fn depths_differ(rt: HostRuntime) -> Result<(), Memory> {
    let alloc = rt.alloc();
    assert_eq!(rt;
        told(alloc, &[(PUSH, 0), (RET, 0)])?,
        differing(0x40_0000, 8, 0)
    );
    assert_eq!(rt;
        told(alloc, &[(POP, 0), (RET, 0)])?,
        differing(0x40_0000, -8, 0)
    );
    let looping = [(PUSH, 0), (b"\x75\xfd", 8), (POP, 8), (RET, 0)];
    assert_eq!(rt; told(alloc, &looping)?, differing(0x40_0001, 8, 0));
    let branching = [(BRANCH_OVER_ONE, 0), (PUSH, 0), (POP, 8), (RET, 0)];
    assert_eq!(rt; told(alloc, &branching)?, differing(0x40_0000, 0, 8));
    assert_eq!(rt;
        told(alloc, &[(SUB_16, 0), (ADD_16, 24), (RET, 8)])?,
        differing(0x40_0000, 16, 24)
    );
    Ok(())
}

#[test]
fn other_rules_are_broken(rt: HostRuntime) -> Result<(), Memory> {
    let alloc = rt.alloc();
    assert_eq!(rt;
        told(alloc, &[(MOVE_TO_SP, 0), (RET, 0)])?,
        breach(2, 0x40_0000)
    );
    assert_eq!(rt; told(alloc, &[(PUSH, 0), (RET, 8)])?, breach(3, 0x40_0001));
    assert_eq!(rt;
        told(alloc, &[(PUSH, 0), (JUMP_BY_REGISTER, 8)])?,
        breach(3, 0x40_0001)
    );
    assert_eq!(rt; told(alloc, &[(b"\xeb\xff", 0)])?, breach(4, 0x40_0000));
    assert_eq!(rt;
        told(alloc, &[(b"\xe8\xfc\xff\xff\xff", 0), (RET, 0)])?,
        breach(5, 0x40_0000)
    );
    assert_eq!(rt; told(alloc, &[(PUSH, 0)])?, breach(6, 0x40_0000));
    assert_eq!(rt;
        told(alloc, &[(RET, 0), (b"\xe8\x7a\0\0\0", 0)])?,
        breach(6, 0x40_0001)
    );
    assert_eq!(rt; told(alloc, &[(JUMP_TO_ITSELF, 8)])?, breach(9, 0x40_0000));
    Ok(())
}
