//! The symbols of images, as they are written and read.
ghost use Rattle.std.specs.Prelude.{◌≡◌, ◌+◌, ◌<◌, ◌^◌, All, length};
ghost use Rattle.std.specs.List.Sorted.{IsStrictlyIncreasing};
ghost use Rattle.link_symbols.specs.Table.{IsName, HasName, addresses_of};

use elf_image::{ImageParts, Sizes, image_lengths, image_size, view, write};
use goasm_base::{Bytes, List, Name};
use link_symbols::{Defined, names_size, symbol_laws, symbols_of};
use std::alloc::Global;
use std::test::Fail;

// The symbol table of vectors/elf/all.image, and the names.
const SYMBOLS: &[u8] = b"\
      \0\0\0\0\0\0\0\0\0\0\0\0\0\0\0\0\0\0\0\0\0\0\0\0\x01\0\0\0\x02\0\x01\0\0\0@\0\0\0\0\0\x18\0\
      \0\0\0\0\0\0\x0a\0\0\0\x02\0\x01\0 \0@\0\0\0\0\0\x18\0\0\0\0\0\0\0\x13\0\0\0\x01\0\x03\0\0 @\
      \0\0\0\0\0\x10\0\0\0\0\0\0\0\x1a\0\0\0\x12\0\x01\0@\0@\0\0\0\0\0\x18\0\0\0\0\0\0\0!\0\0\0\
      \x12\0\x01\0`\0@\0\0\0\0\0\x18\0\0\0\0\0\0\0(\0\0\0\x11\0\x03\0\x10 @\0\0\0\0\0\x08\0\0\0\0\
      \0\0\0/\0\0\0\x11\0\x03\0  @\0\0\0\0\0\x08\0\0\0\0\0\0\06\0\0\0\x10\0\xf1\xff\0\x020\0\0\0\0\
      \0\0\0\0\0\0\0\0\0D\0\0\0\x10\0\xf1\xff\0\x010\0\0\0\0\0\0\0\0\0\0\0\0\0\0main.one\0main.two\
      \0main.v\0main.p\0main.q\0main.w\0main.x\0runtime.write\0\0";

const LIMIT: u64 = 0x1_0000_0000;

fn function(name: &[u8], local: bool, at: u64) -> Defined<'_>
    ensures name { result.name.now ≡ name.now }
    ensures at { result.at ≡ at }
{
    Defined {
        name,
        local,
        at,
        size: 24,
    }
}

// An image with these symbols, which begins at its first function. Text, table and values are as long as in
// vectors/elf/all.image.
fn image_of(
    alloc: Global,
    functions: &[Defined<'_>],
    values: &[Defined<'_>],
    outside: &[(Name, u64)],
) -> Result<Bytes, Fail>
    requires few { length functions.now + length values.now + length outside.now < 2 ^ 16 }
    requires rising { IsStrictlyIncreasing (addresses_of functions.now) }
    requires function_names { All HasName functions.now }
    requires value_names { All HasName values.now }
    requires outside_names { All (λ one. IsName one.0) outside.now }
{
    let Some(first) = functions.first() else {
        return Err(Fail::from("no function"));
    };
    let count = functions.len() + values.len() + outside.len();
    let strings = names_size(functions, values, outside);
    if strings >= LIMIT {
        return Err(Fail::from("long names"));
    }
    let sizes = Sizes {
        text: 128,
        table: 168,
        values: 40,
        symbols: 24 * (1 + count as u64),
        strings,
    };
    if image_size(sizes) >= LIMIT {
        return Err(Fail::from("a long image"));
    }
    let parts = ImageParts {
        machine: 62,
        entry: first.at,
        text: Bytes::from_slice(alloc, &[0; 128])?,
        table: Bytes::from_slice(alloc, &[0; 168])?,
        values: Bytes::from_slice(alloc, &[0; 40])?,
        symbols: List::new(symbols_of(alloc, functions, values, outside)?),
    };
    image_lengths();
    symbol_laws();
    Ok(write(alloc, &parts)?)
}

#[test]
fn symbols_of_every_group_are_written(rt: HostRuntime) -> Result<(), Fail> {
    let alloc = rt.alloc();
    let functions = [
        function(b"main.one", true, 0x40_0000),
        function(b"main.two", true, 0x40_0020),
        function(b"main.p", false, 0x40_0040),
        function(b"main.q", false, 0x40_0060),
    ];
    let values = [
        Defined {
            name: b"main.w",
            local: false,
            at: 0x40_2010,
            size: 8,
        },
        Defined {
            name: b"main.v",
            local: true,
            at: 0x40_2000,
            size: 16,
        },
        Defined {
            name: b"main.x",
            local: false,
            at: 0x40_2020,
            size: 8,
        },
    ];
    let outside = [
        (Name::from_slice(alloc, b"runtime.write")?, 0x30_0200),
        (Name::from_slice(alloc, b"")?, 0x30_0100),
    ];
    let bytes = image_of(alloc, &functions, &values, &outside)?;
    let bytes = bytes.as_slice();
    assert_eq!(rt; bytes.get(12_328..12_637).unwrap_or(&[]), SYMBOLS);
    let Ok(image) = view(bytes) else {
        return Err(Fail::from("no image"));
    };
    assert_eq!(rt; image.entry(), 0x40_0000);
    assert!(rt; image.outside(1).is_some());
    assert!(rt; image.outside(2).is_none());
    Ok(())
}

// Each symbol's name, address, size, kind, and whether only the image sees it.
const MIXED: [(&[u8], u64, u64, u8, bool); 4] = [
    (b"s", 0x40_0020, 24, 0, true),
    (b"f", 0x40_0000, 24, 0, false),
    (b"g", 0x40_0040, 24, 0, false),
    (b"write", 0x30_0100, 0, 2, false),
];

#[test]
fn local_functions_come_first(rt: HostRuntime) -> Result<(), Fail> {
    let alloc = rt.alloc();
    let functions = [
        function(b"f", false, 0x40_0000),
        function(b"s", true, 0x40_0020),
        function(b"g", false, 0x40_0040),
    ];
    let outside = [(Name::from_slice(alloc, b"write")?, 0x30_0100)];
    let symbols = symbols_of(alloc, &functions, &[], &outside)?;
    assert_eq!(rt; symbols.len(), MIXED.len());
    for (symbol, (name, at, size, kind, local)) in symbols.iter().zip(&MIXED) {
        assert_eq!(rt; symbol.name.as_slice(), *name);
        assert_eq!(rt; symbol.at, *at, "{name:?}");
        assert_eq!(rt; symbol.size, *size, "{name:?}");
        assert_eq!(rt; symbol.kind, *kind, "{name:?}");
        assert_eq!(rt; symbol.local, *local, "{name:?}");
    }
    let bytes = image_of(alloc, &functions, &[], &outside)?;
    let Ok(image) = view(bytes.as_slice()) else {
        return Err(Fail::from("no image"));
    };
    let Some((name, address)) = image.outside(0) else {
        return Err(Fail::from("no name outside"));
    };
    assert_eq!(rt; name, b"write".as_slice());
    assert_eq!(rt; address, 0x30_0100);
    assert!(rt; image.outside(1).is_none());
    Ok(())
}
