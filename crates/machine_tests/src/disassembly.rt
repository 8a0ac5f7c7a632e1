use asm_target_sample::Sample;
use std::test::Fail;
use text_dis::{one_raw_text, raw, raw_text_by_reading};

#[test]
fn code_is_shown_by_lines(rt: HostRuntime) -> Result<(), Fail> {
    one_raw_text::<Sample>();
    raw_text_by_reading::<Sample>();
    for (bytes, want) in [
        (b"".as_slice(), b"".as_slice()),
        (b"\x48\x89\xc3", b"0 4889c3 MOVQ AX, BX\n"),
        // A second spelling of that instruction, and a jump that is cut off.
        (b"\x48\x8b\xd8", b"0 48 ?\n1 8b ?\n2 d8 ?\n"),
        (b"\xe9\x0a\x00\x00", b"0 e9 ?\n1 0a ?\n2 00 ?\n3 00 ?\n"),
        // A jump goes to an offset in the bytes.
        (
            b"\x50\x48\x83\xc4\x08\xe9\xfb\xff\xff\xff\xcc\xc3",
            b"0 50 PUSHQ AX\n1 4883c408 ADDQ $8, SP\n5 e9fbffffff JMP 0x0000000000000005\n10 cc ?\n11 c3 RET\n",
        ),
    ] {
        assert_eq!(rt;
            raw::<Sample>(rt.alloc(), bytes)?.as_slice(),
            want,
            "{bytes:?}"
        );
    }
    Ok(())
}
