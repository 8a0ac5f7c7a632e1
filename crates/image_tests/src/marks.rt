use goasm_base::Memory;
use image_marks::{Bits, Buckets};
use std::alloc::Global;

fn bits_of(alloc: Global, numbers: &[u8]) -> Result<Bits, Memory> {
    let mut bits = Bits::new(alloc, 256)?;
    for number in numbers {
        bits.add(*number as usize);
    }
    Ok(bits)
}

#[test]
fn numbers_are_kept(rt: HostRuntime) -> Result<(), Memory> {
    let bits = bits_of(rt.alloc(), &[0, 63, 64, 200, 255, 200])?;
    for number in 0..1000usize {
        let kept = matches!(number, 0 | 63 | 64 | 200 | 255);
        assert_eq!(rt; bits.has(number), kept);
    }
    assert_eq!(rt; bits.has(usize::MAX), false);
    let none = Bits::new(rt.alloc(), 0)?;
    assert_eq!(rt; none.has(0), false);
    Ok(())
}

#[test]
fn nearest_number_is_found(rt: HostRuntime) -> Result<(), Memory> {
    let bits = bits_of(rt.alloc(), &[3, 60, 70])?;
    assert_eq!(rt; bits.nearest_before(0), None);
    assert_eq!(rt; bits.nearest_before(3), None);
    assert_eq!(rt; bits.nearest_before(4), Some(3));
    assert_eq!(rt; bits.nearest_before(18), Some(3));
    assert_eq!(rt; bits.nearest_before(19), None);
    assert_eq!(rt; bits.nearest_before(70), Some(60));
    assert_eq!(rt; bits.nearest_before(75), Some(70));
    assert_eq!(rt; bits.nearest_before(85), Some(70));
    assert_eq!(rt; bits.nearest_before(86), None);
    assert_eq!(rt; bits.nearest_before(usize::MAX), None);
    Ok(())
}

#[test]
fn functions_are_found(rt: HostRuntime) -> Result<(), Memory> {
    let entries = [0, 16, 4096, 4112, 12288, 20000];
    let buckets = Buckets::new(rt.alloc(), &entries, 20480)?;
    let rows: [(u32, u32); 14] = [
        (0, 0),
        (15, 0),
        (16, 1),
        (4095, 1),
        (4096, 2),
        (4111, 2),
        (4112, 3),
        (8192, 3),
        (12287, 3),
        (12288, 4),
        (19999, 4),
        (20000, 5),
        (20479, 5),
        (u32::MAX, 5),
    ];
    for (offset, number) in rows {
        assert_eq!(rt; buckets.find(&entries, offset), number);
    }
    let one = Buckets::new(rt.alloc(), &[0], 0)?;
    assert_eq!(rt; one.find(&[0], 0), 0);
    Ok(())
}
