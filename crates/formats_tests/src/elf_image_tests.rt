use crate::one_function::one_function;
use byte_layout::{pad, push_part, push_u32, push_u64, push_words};
use elf_image::{ImageNo, Sizes, image_size, view};
use std::alloc::Global;
use std::process::Abort;
use std::test::Fail;

// An image for amd64 with symbols of every group, from vectors/elf: the headers, the table, and all behind the values.
const FRONT: &[u8] = b"\
      \x7fELF\x02\x01\x01\0\0\0\0\0\0\0\0\0\x02\0>\0\x01\0\0\0 \0@\0\0\0\0\0@\0\0\0\0\0\0\0\
      \x981\0\0\0\0\0\0\0\0\0\0@\08\0\x03\0@\0\x07\0\x06\0\x01\0\0\0\x05\0\0\0\0\x10\0\0\0\0\0\
      \0\0\0@\0\0\0\0\0\0\0@\0\0\0\0\0\x80\0\0\0\0\0\0\0\x80\0\0\0\0\0\0\0\0\x10\0\0\0\0\0\0\
      \x01\0\0\0\x04\0\0\0\0 \0\0\0\0\0\0\0\x10@\0\0\0\0\0\0\x10@\0\0\0\0\0\xa8\0\0\0\0\0\0\0\
      \xa8\0\0\0\0\0\0\0\0\x10\0\0\0\0\0\0\x01\0\0\0\x06\0\0\0\00\0\0\0\0\0\0\0 @\0\0\0\0\0\0 \
      @\0\0\0\0\0(\0\0\0\0\0\0\0(\0\0\0\0\0\0\0\0\x10\0\0\0\0\0\0";

const TABLE: &[u8] = b"\
      \xf1\xff\xff\xff\0\0\x01\x08\x01\0\0\0\0\0\0\0\x01\0\0\0\0\0\0\0\0\0@\0\0\0\0\0H\0\0\0\0\
      \0\0\0P\0\0\0\0\0\0\0X\0\0\0\0\0\0\0`\0\0\0\0\0\0\0p\0\0\0\0\0\0\0main.p\0\0\0\0\0\0\0\0\
      \0\0p.s\0\0\0\0\0\0\x02\x04 \x13\x1f\x01\0\x02\x18\0\x06\x0e\x02\x0a\0\0\0\0\0\x0c\0\0\0\
      \x20\0\0\0\0\0\0\0\0\0\0\0\0\0\0\0\0\0\0\0\x01\0\0\0\x08\0\0\0\x0b\0\0\0\0\0\0\0\0\0\0\0\
      \x01\0\0\0\0\x04\0\0";

// The end of the image of one function in vectors/elf, from its symbol table on.
const END: &[u8] = b"\
      \0\0\0\0\0\0\0\0\0\0\0\0\0\0\0\0\0\0\0\0\0\0\0\0\x01\0\0\0\x12\0\x01\0\0\0@\0\0\0\0\0\
      \x18\0\0\0\0\0\0\0\0main.p\0\0.text\0.gopclntab\0.data\0.symtab\0.strtab\0.shstrtab\0\0\
      \0\0\0\0\0\0\0\0\0\0\0\0\0\0\0\0\0\0\0\0\0\0\0\0\0\0\0\0\0\0\0\0\0\0\0\0\0\0\0\0\0\0\0\0\
      \0\0\0\0\0\0\0\0\0\0\0\0\0\0\0\0\0\0\0\0\0\0\0\0\0\x01\0\0\0\x01\0\0\0\x06\0\0\0\0\0\0\0\
      \0\0@\0\0\0\0\0\0\x10\0\0\0\0\0\0 \0\0\0\0\0\0\0\0\0\0\0\0\0\0\0\x10\0\0\0\0\0\0\0\0\0\0\
      \0\0\0\0\0\x07\0\0\0\x01\0\0\0\x02\0\0\0\0\0\0\0\0\x10@\0\0\0\0\0\0 \0\0\0\0\0\0\xa8\0\0\
      \0\0\0\0\0\0\0\0\0\0\0\0\0\x08\0\0\0\0\0\0\0\0\0\0\0\0\0\0\0\x12\0\0\0\x01\0\0\0\x03\0\0\
      \0\0\0\0\0\0 @\0\0\0\0\0\00\0\0\0\0\0\0\0\0\0\0\0\0\0\0\0\0\0\0\0\0\0\0\x10\0\0\0\0\0\0\
      \0\0\0\0\0\0\0\0\0\x18\0\0\0\x02\0\0\0\0\0\0\0\0\0\0\0\0\0\0\0\0\0\0\0\00\0\0\0\0\0\00\0\
      \0\0\0\0\0\0\x05\0\0\0\x01\0\0\0\x08\0\0\0\0\0\0\0\x18\0\0\0\0\0\0\0 \0\0\0\x03\0\0\0\0\
      \0\0\0\0\0\0\0\0\0\0\0\0\0\0\000\0\0\0\0\0\0\x08\0\0\0\0\0\0\0\0\0\0\0\0\0\0\0\x01\0\0\0\
      \0\0\0\0\0\0\0\0\0\0\0\0(\0\0\0\x03\0\0\0\0\0\0\0\0\0\0\0\0\0\0\0\0\0\0\080\0\0\0\0\0\02\
      \0\0\0\0\0\0\0\0\0\0\0\0\0\0\0\x01\0\0\0\0\0\0\0\0\0\0\0\0\0\0\0";

const BACK: &[u8] = b"\
      \0\0\0\0\0\0\0\0\0\0\0\0\0\0\0\0\0\0\0\0\0\0\0\0\x01\0\0\0\x02\0\x01\0\0\0@\0\0\0\0\0\
      \x18\0\0\0\0\0\0\0\x0a\0\0\0\x02\0\x01\0 \0@\0\0\0\0\0\x18\0\0\0\0\0\0\0\x13\0\0\0\x01\0\
      \x03\0\0 @\0\0\0\0\0\x10\0\0\0\0\0\0\0\x1a\0\0\0\x12\0\x01\0@\0@\0\0\0\0\0\x18\0\0\0\0\0\
      \0\0!\0\0\0\x12\0\x01\0`\0@\0\0\0\0\0\x18\0\0\0\0\0\0\0(\0\0\0\x11\0\x03\0\x10 @\0\0\0\0\
      \0\x08\0\0\0\0\0\0\0/\0\0\0\x11\0\x03\0  @\0\0\0\0\0\x08\0\0\0\0\0\0\06\0\0\0\x10\0\xf1\
      \xff\0\x020\0\0\0\0\0\0\0\0\0\0\0\0\0D\0\0\0\x10\0\xf1\xff\0\x010\0\0\0\0\0\0\0\0\0\0\0\
      \0\0\0main.one\0main.two\0main.v\0main.p\0main.q\0main.w\0main.x\0runtime.write\0\0\0\0\
      \0\0.text\0.gopclntab\0.data\0.symtab\0.strtab\0.shstrtab\0\0\0\0\0\0\0\0\0\0\0\0\0\0\0\
      \0\0\0\0\0\0\0\0\0\0\0\0\0\0\0\0\0\0\0\0\0\0\0\0\0\0\0\0\0\0\0\0\0\0\0\0\0\0\0\0\0\0\0\0\
      \0\0\0\0\0\0\0\0\0\0\0\0\x01\0\0\0\x01\0\0\0\x06\0\0\0\0\0\0\0\0\0@\0\0\0\0\0\0\x10\0\0\
      \0\0\0\0\x80\0\0\0\0\0\0\0\0\0\0\0\0\0\0\0\x10\0\0\0\0\0\0\0\0\0\0\0\0\0\0\0\x07\0\0\0\
      \x01\0\0\0\x02\0\0\0\0\0\0\0\0\x10@\0\0\0\0\0\0 \0\0\0\0\0\0\xa8\0\0\0\0\0\0\0\0\0\0\0\0\
      \0\0\0\x08\0\0\0\0\0\0\0\0\0\0\0\0\0\0\0\x12\0\0\0\x01\0\0\0\x03\0\0\0\0\0\0\0\0 @\0\0\0\
      \0\0\00\0\0\0\0\0\0(\0\0\0\0\0\0\0\0\0\0\0\0\0\0\0\x10\0\0\0\0\0\0\0\0\0\0\0\0\0\0\0\x18\
      \0\0\0\x02\0\0\0\0\0\0\0\0\0\0\0\0\0\0\0\0\0\0\0(0\0\0\0\0\0\0\xf0\0\0\0\0\0\0\0\x05\0\0\
      \0\x04\0\0\0\x08\0\0\0\0\0\0\0\x18\0\0\0\0\0\0\0 \0\0\0\x03\0\0\0\0\0\0\0\0\0\0\0\0\0\0\
      \0\0\0\0\0\x181\0\0\0\0\0\0E\0\0\0\0\0\0\0\0\0\0\0\0\0\0\0\x01\0\0\0\0\0\0\0\0\0\0\0\0\0\
      \0\0(\0\0\0\x03\0\0\0\0\0\0\0\0\0\0\0\0\0\0\0\0\0\0\0`1\0\0\0\0\0\02\0\0\0\0\0\0\0\0\0\0\
      \0\0\0\0\0\x01\0\0\0\0\0\0\0\0\0\0\0\0\0\0\0";

// `main.p` in `p.s`: a frame of 8 bytes and the saved BP, and the padding behind the return.
const CODE: [u8; 32] = [
    0x48, 0x83, 0xec, 0x10, 0x48, 0x89, 0x6c, 0x24, 0x08, 0x48, 0x8d, 0x6c, 0x24, 0x08, 0x48, 0x8b,
    0x6c, 0x24, 0x08, 0x48, 0x83, 0xc4, 0x10, 0xc3, 0xcc, 0xcc, 0xcc, 0xcc, 0xcc, 0xcc, 0xcc, 0xcc,
];

const LENGTH: usize = 13_144;

fn all_groups(alloc: Global) -> Result<Vec<u8>, Fail> {
    let mut values = Vec::new(alloc);
    for value in 0..40u8 {
        values.push(value)?;
    }
    let mut bytes = Vec::from_slice(alloc, FRONT)?;
    push_part(&mut bytes, 4096, &CODE)?;
    for _ in 0..3 {
        bytes.extend_from_slice(&CODE)?;
    }
    push_part(&mut bytes, 4096, TABLE)?;
    push_part(&mut bytes, 4096, &values)?;
    bytes.extend_from_slice(BACK)?;
    Ok(bytes)
}

#[test]
fn an_image_tells_its_parts(rt: HostRuntime) -> Result<(), Fail> {
    let bytes = all_groups(rt.alloc())?;
    assert_eq!(rt; bytes.len(), LENGTH);
    let Ok(image) = view(&bytes) else {
        return Err(Fail::from("no image"));
    };
    assert_eq!(rt; image.machine(), 62);
    assert_eq!(rt; image.entry(), 0x40_0020);
    assert_eq!(rt; image.text_at(), 0x40_0000);
    assert_eq!(rt; image.table_at(), 0x40_1000);
    assert_eq!(rt; image.values_at(), 0x40_2000);
    assert_eq!(rt; image.text().len(), 128);
    assert!(rt; image.text().starts_with(&CODE));
    assert_eq!(rt; image.table(), TABLE);
    assert_eq!(rt; image.values().len(), 40);
    assert_eq!(rt; image.values().last().copied().unwrap_or(0), 39);
    let Some((name, address)) = image.outside(0) else {
        return Err(Fail::from("no name outside"));
    };
    assert_eq!(rt; name, b"runtime.write".as_slice());
    assert_eq!(rt; address, 0x30_0200);
    let Some((name, address)) = image.outside(1) else {
        return Err(Fail::from("no second name outside"));
    };
    assert_eq!(rt; name, b"".as_slice());
    assert_eq!(rt; address, 0x30_0100);
    assert!(rt; image.outside(2).is_none());
    Ok(())
}

// The function table of `main.p` is that of the other image; nothing compares the two.
#[test]
fn an_image_is_written(rt: HostRuntime) -> Result<(), Fail> {
    let Ok(bytes) = one_function(rt.alloc(), &CODE, TABLE) else {
        return Err(Fail::from("no memory"));
    };
    let bytes = bytes.as_slice();
    assert_eq!(rt; bytes.len(), 12_848);
    assert_eq!(rt; bytes.get(4096..4128).unwrap_or(&[]), CODE.as_slice());
    assert!(rt; bytes.ends_with(END));
    let Ok(image) = view(bytes) else {
        return Err(Fail::from("no image"));
    };
    assert_eq!(rt; image.entry(), 0x40_0000);
    assert_eq!(rt; image.table(), TABLE);
    assert_eq!(rt; image.values().len(), 0);
    assert!(rt; image.outside(0).is_none());
    Ok(())
}

// The sizes are those in the section headers of `END` and of `BACK`.
#[test]
fn a_size_is_the_length_of_the_image(rt: HostRuntime) -> Result<(), Fail> {
    let Ok(bytes) = one_function(rt.alloc(), &CODE, TABLE) else {
        return Err(Fail::from("no memory"));
    };
    let one = Sizes {
        text: 32,
        table: 168,
        values: 0,
        symbols: 48,
        strings: 8,
    };
    assert_eq!(rt; image_size(one), bytes.as_slice().len() as u64);
    let several = Sizes {
        text: 128,
        table: 168,
        values: 40,
        symbols: 240,
        strings: 69,
    };
    assert_eq!(rt; image_size(several), LENGTH as u64);
    Ok(())
}

// Tests what is said of an image that was changed at these places.
fn expect<R: Abort>(
    rt: &R,
    alloc: Global,
    changes: &[(usize, u8)],
    want: Option<ImageNo>,
) -> Result<(), Fail> {
    let mut bytes = all_groups(alloc)?;
    for (at, value) in changes {
        if let Some(byte) = bytes.get_mut(*at) {
            *byte = *value;
        }
    }
    assert_eq!(rt; view(&bytes).err(), want);
    Ok(())
}

#[test]
fn headers_are_judged_in_order(rt: HostRuntime) -> Result<(), Fail> {
    for (at, value, want) in [
        (0, 0, ImageNo::I1(0)),
        (15, 1, ImageNo::I1(0)),
        (16, 3, ImageNo::I1(16)),
        (18, 63, ImageNo::I1(18)),
        (32, 65, ImageNo::I1(32)),
        (62, 5, ImageNo::I1(62)),
        (64, 2, ImageNo::I2(64)),
        (68, 4, ImageNo::I2(68)),
        (72, 1, ImageNo::I2(72)),
        (99, 1, ImageNo::I2(96)),
        (104, 0x81, ImageNo::I2(104)),
        (120, 2, ImageNo::I2(120)),
        (224, 1, ImageNo::I2(224)),
        (40, 0x99, ImageNo::I2(40)),
        (12_696, 1, ImageNo::I2(12_696)),
        (12_768, 7, ImageNo::I2(12_768)),
        (12_984, 241, ImageNo::I2(12_984)),
        (12_984, 0, ImageNo::I2(12_984)),
        (12_984, 24, ImageNo::I2(13_040)),
        (13_051, 1, ImageNo::I2(13_048)),
        (13_048, 73, ImageNo::I2(13_104)),
        (13_112, 51, ImageNo::I2(13_112)),
    ] {
        expect(&rt, rt.alloc(), &[(at, value)], Some(want))?;
    }
    // Values up to the end of the file, and a byte more.
    expect(
        &rt,
        rt.alloc(),
        &[(208, 0x58), (209, 3)],
        Some(ImageNo::I2(216)),
    )?;
    expect(
        &rt,
        rt.alloc(),
        &[(208, 0x59), (209, 3)],
        Some(ImageNo::I2(208)),
    )?;
    // Section headers at the values' end, before it, and too far behind.
    expect(
        &rt,
        rt.alloc(),
        &[(40, 0x28), (41, 0x30)],
        Some(ImageNo::I2(12_352)),
    )?;
    expect(
        &rt,
        rt.alloc(),
        &[(40, 0x20), (41, 0x30)],
        Some(ImageNo::I2(40)),
    )?;
    expect(&rt, rt.alloc(), &[(40, 0xA0)], Some(ImageNo::I2(40)))?;
    Ok(())
}

#[test]
fn gaps_and_symbols_are_judged_in_order(rt: HostRuntime) -> Result<(), Fail> {
    for (at, value, want) in [
        (232, 1, Some(ImageNo::I2(232))),
        (4095, 1, Some(ImageNo::I2(4095))),
        (4224, 1, Some(ImageNo::I2(4224))),
        (8360, 1, Some(ImageNo::I2(8360))),
        (12_287, 1, Some(ImageNo::I2(12_287))),
        (12_637, 1, Some(ImageNo::I2(12_637))),
        (12_640, 1, Some(ImageNo::I2(12_640))),
        (12_689, 1, Some(ImageNo::I2(12_689))),
        (12_695, 1, Some(ImageNo::I2(12_695))),
        (12_351, 1, Some(ImageNo::I3(12_328))),
        (12_352, 2, Some(ImageNo::I3(12_352))),
        (12_356, 3, Some(ImageNo::I3(12_352))),
        (12_357, 1, Some(ImageNo::I3(12_352))),
        (12_358, 3, Some(ImageNo::I3(12_352))),
        (12_356, 0x12, Some(ImageNo::I3(12_376))),
        (12_384, 0, Some(ImageNo::I3(12_376))),
        (12_384, 1, Some(ImageNo::I3(24))),
        (12_392, 99, None),
        (12_432, 0, None),
        (12_536, 1, Some(ImageNo::I3(12_520))),
        (12_636, 1, Some(ImageNo::I3(12_544))),
        (12_569, 0, Some(ImageNo::I3(12_376))),
        (12_996, 5, Some(ImageNo::I3(12_996))),
        (12_568, 1, Some(ImageNo::I3(12_568))),
        (13_048, 70, Some(ImageNo::I3(12_637))),
        (24, 0x21, Some(ImageNo::I3(24))),
        (24, 0x40, None),
    ] {
        expect(&rt, rt.alloc(), &[(at, value)], want)?;
    }
    Ok(())
}

#[test]
fn lengths_are_judged(rt: HostRuntime) -> Result<(), Fail> {
    let mut bytes = all_groups(rt.alloc())?;
    for (length, want) in [
        (10, ImageNo::I1(10)),
        (63, ImageNo::I1(63)),
        (64, ImageNo::I2(64)),
        (231, ImageNo::I2(231)),
        (232, ImageNo::I2(96)),
        (LENGTH - 1, ImageNo::I2(40)),
    ] {
        let cut = bytes.get(..length).unwrap_or(&[]);
        assert_eq!(rt; view(cut).err(), Some(want));
    }
    bytes.push(0)?;
    assert_eq!(rt; view(&bytes).err(), Some(ImageNo::I4(13_144)));
    Ok(())
}

#[test]
fn numbers_and_parts_are_appended(rt: HostRuntime) -> Result<(), Fail> {
    let mut bytes = Vec::new(rt.alloc());
    push_u32(&mut bytes, 0x0403_0201)?;
    push_u64(&mut bytes, 5)?;
    push_words(&mut bytes, &[6, 0x0700])?;
    pad(&mut bytes, 8)?;
    push_part(&mut bytes, 16, &[9])?;
    assert_eq!(rt;
        bytes.as_slice(),
        [
            1, 2, 3, 4, 5, 0, 0, 0, 0, 0, 0, 0, 6, 0, 0, 0, 0, 7, 0, 0, 0, 0, 0, 0, 0, 0, 0, 0, 0,
            0, 0, 0, 9,
        ]
        .as_slice()
    );
    Ok(())
}
