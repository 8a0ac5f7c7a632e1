use amd64_forms::{
    Alias, Spoken, aimed, alias_named, cc_named, distance, listed, long_form, mnemonic_named,
    reg_named, short_form, spoken, xmm_named,
};
use amd64_table::{Cc, Instr, Mnemonic, Near, Operand, Plain, Reg, Stack, Width, Xmm};

#[test]
fn names_are_read(rt: HostRuntime) {
    assert_eq!(rt;
        mnemonic_named(b"MOVQ".as_slice()),
        Some(Mnemonic::Mov(Width::Q))
    );
    assert_eq!(rt;
        mnemonic_named(b"CMOVLGE".as_slice()),
        Some(Mnemonic::MoveCc(Width::L, Cc::GreaterOrEqual))
    );
    assert_eq!(rt;
        mnemonic_named(b"PUSHQ".as_slice()),
        Some(Mnemonic::Stack(Stack::Push))
    );
    assert_eq!(rt; mnemonic_named(b"JLO".as_slice()), None);
    assert_eq!(rt; alias_named(b"JLO".as_slice()), Some(Alias::Jlo));
    assert_eq!(rt; alias_named(b"JEQ".as_slice()), None);
    assert_eq!(rt;
        spoken(b"JLO".as_slice()),
        Some(Spoken::Listed(Mnemonic::JumpIf(Cc::Carry)))
    );
    assert_eq!(rt; spoken(b"BL".as_slice()), Some(Spoken::Direct(Near::Call)));
    assert_eq!(rt; spoken(b"NOPE".as_slice()), None);
    assert_eq!(rt; reg_named(b"R10".as_slice()), Some(Reg::R10));
    assert_eq!(rt; xmm_named(b"X10".as_slice()), Some(Xmm::X10));
    assert_eq!(rt; cc_named(b"PC".as_slice()), Some(Cc::ParityOdd));
}

#[test]
fn a_name_with_operands_is_an_instruction(rt: HostRuntime) {
    let ret = Instr::Plain { op: Plain::Ret };
    assert_eq!(rt;
        listed(Mnemonic::Plain(Plain::Ret), false, (None, None)),
        Some(ret)
    );
    assert_eq!(rt;
        listed(Mnemonic::Plain(Plain::Ret), true, (None, None)),
        None
    );
    let goal = (Some(Operand::Goal(4)), None);
    let near = Instr::Near {
        op: Near::Jmp,
        distance: 4,
    };
    assert_eq!(rt; listed(Mnemonic::Jump, false, goal), Some(near));
    let short = Instr::Short {
        code: None,
        distance: 0,
    };
    assert_eq!(rt; short_form(near), short);
    assert_eq!(rt; long_form(ret), ret);
    assert_eq!(rt;
        aimed(short, 127),
        Some(Instr::Short {
            code: None,
            distance: 127
        })
    );
    assert_eq!(rt; aimed(short, 128), None);
    assert_eq!(rt; aimed(ret, 0), None);
    assert_eq!(rt; distance(16, 4), -12);
}
