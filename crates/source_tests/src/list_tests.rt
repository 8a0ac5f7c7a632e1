use goasm_list::{LineKind, ListNo, read_list};
use std::alloc::{AllocError, Global};
use std::process::Abort;
use std::test::Fail;

// The number of the line that is refused, where one is.
fn refused(rt: &impl Abort, alloc: Global, bytes: &[u8]) -> Option<u32> {
    assert!(rt; bytes.len() < 0x1_0000_0000);
    match read_list(alloc, bytes) {
        Ok(_) => None,
        Err(ListNo::Q1(line)) => Some(line),
        Err(ListNo::Memory) => Some(0),
    }
}

#[test]
fn refuses_the_first_line_at_fault(rt: HostRuntime) {
    let cases: [(&[u8], Option<u32>); 37] = [
        (b"", None),
        (b"\n\n  \n", None),
        (b"#\n# asm\nasm a.s", None),
        (b"# a\0b\n", None),
        (b"# \xff\n", Some(1)),
        (b"\n # x\n", Some(2)),
        (b"\xff\n", Some(1)),
        (b"asm a.s\n\nasm\n", Some(3)),
        (b"asm a b", Some(1)),
        (b"asm a\0b", Some(1)),
        (b"asm\ta", Some(1)),
        (b"ASM a", Some(1)),
        (b"asmx a", Some(1)),
        (b"\n\nstub a.go\n", Some(3)),
        (b"include", Some(1)),
        (b"include a\ninclude a", None),
        (b"define", Some(1)),
        (b"define N", None),
        (b"define N 1\ndefine N 2", None),
        (b"entry main.f", None),
        (b"entry a/b.f_1 ", None),
        (b"entry main.f\nentry main.f", Some(2)),
        (b"entry main.f\r\n", Some(1)),
        (b"entry .f", Some(1)),
        (b"entry 1f", Some(1)),
        (b"entry \xc2\xb7f", Some(1)),
        (b"entry main.f x", Some(1)),
        (b"outside f", Some(1)),
        (b"outside f 0x1000 x", Some(1)),
        (b"outside f 1000h", Some(1)),
        (b"outside f 4096\noutside g 0x3FFFFC", None),
        (b"outside f 0xffc", Some(1)),
        (b"outside f 0x1002", Some(1)),
        (b"outside f 0x400000", Some(1)),
        (b"outside f 0x1000\nentry f\noutside f 0x1004", Some(3)),
        (b"outside f 0x1000\noutside g 0x1000", None),
        (b"entry f\nentry g\nasm", Some(2)),
    ];
    for (bytes, line) in cases {
        assert_eq!(rt; refused(&rt, rt.alloc(), bytes), line, "{bytes:?}");
    }
}

#[test]
fn reads_each_kind_of_line(rt: HostRuntime) -> Result<(), Fail> {
    let bytes: &[u8] = b"# what to build
 asm  a.s \ninclude x.h

define N  1 + 2 \ndefine M
outside runtime.morestack_noctxt 0x300000
entry main.f";
    let wanted: [(u32, LineKind, &[u8], &[u8], u64); 6] = [
        (2, LineKind::Asm, b"a.s", b"", 0),
        (3, LineKind::Include, b"x.h", b"", 0),
        (5, LineKind::Define, b"N", b"1 + 2 ", 0),
        (6, LineKind::Define, b"M", b"", 0),
        (
            7,
            LineKind::Outside,
            b"runtime.morestack_noctxt",
            b"",
            0x30_0000,
        ),
        (8, LineKind::Entry, b"main.f", b"", 0),
    ];
    assert!(rt; bytes.len() < 0x1_0000_0000);
    let list = read_list(rt.alloc(), bytes)?;
    let lines = list.lines.as_slice();
    assert_eq!(rt; lines.len(), wanted.len());
    for (line, (number, kind, name, rest, at)) in lines.iter().zip(wanted) {
        assert_eq!(rt; line.line, number);
        assert_eq!(rt; line.kind, kind);
        assert_eq!(rt; line.name.as_slice(), name);
        assert_eq!(rt; line.rest.as_slice(), rest);
        assert_eq!(rt; line.at, at);
    }
    Ok(())
}

// This many lines that name a file.
fn files(alloc: Global, count: u32) -> Result<Vec<u8>, AllocError> {
    let mut bytes = Vec::new(alloc);
    for _ in 0..count {
        bytes.extend_from_slice(b"include a\n")?;
    }
    Ok(bytes)
}

#[test]
fn takes_a_thousand_files(rt: HostRuntime) -> Result<(), Fail> {
    let mut bytes = files(rt.alloc(), 1000)?;
    bytes.extend_from_slice(b"define N\n")?;
    assert_eq!(rt; refused(&rt, rt.alloc(), bytes.as_slice()), None);
    bytes.extend_from_slice(b"asm a\n")?;
    assert_eq!(rt; refused(&rt, rt.alloc(), bytes.as_slice()), Some(1002));
    Ok(())
}
