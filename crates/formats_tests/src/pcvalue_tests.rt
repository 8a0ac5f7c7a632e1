use pcvalue::{Answer, Run, encode, is_pc_table, value_at, values_are_settled, values_over};
use std::test::Fail;

// No table at 0, then the depths and the lines of a function of 23 bytes.
const TABLES: [u8; 17] = [0, 2, 23, 0, 8, 5, 2, 4, 2, 4, 4, 4, 2, 5, 2, 1, 0];

#[test]
fn places_have_the_values_of_their_runs(rt: HostRuntime) {
    for (offset, place, want) in [
        (0, 0, Answer::Absent),
        (1, 0, Answer::Value(0)),
        (1, 22, Answer::Value(0)),
        (1, 23, Answer::Past),
        (4, 0, Answer::Value(3)),
        (4, 4, Answer::Value(3)),
        (4, 5, Answer::Value(4)),
        (4, 17, Answer::Value(8)),
        (4, 22, Answer::Value(9)),
        (4, 23, Answer::Past),
        (3, 0, Answer::Value(-1)),
        (16, 0, Answer::Bad),
        (17, 0, Answer::Bad),
        (u32::MAX, 0, Answer::Bad),
    ] {
        assert_eq!(rt;
            value_at(&TABLES, offset, 1, place),
            want,
            "{offset} {place}"
        );
    }
    assert_eq!(rt; value_at(&TABLES, 4, 4, 19), Answer::Value(3));
    assert_eq!(rt; value_at(&TABLES, 4, 4, 20), Answer::Value(4));
}

#[test]
fn numbers_have_five_bytes_and_32_bits(rt: HostRuntime) {
    for (table, want) in [
        ([2, 0x80, 0x80, 0x80, 0x80, 0x0F, 0], Answer::Value(0)),
        ([2, 0x80, 0x80, 0x80, 0x80, 0x10, 0], Answer::Bad),
        ([2, 0x80, 0x80, 0x80, 0x80, 0x80, 0], Answer::Bad),
        ([2, 0x80, 0x80, 0x80, 0x80, 0x80, 0x80], Answer::Bad),
        ([0xFF, 0xFF, 0xFF, 0xFF, 0x0F, 1, 0], Answer::Bad),
        (
            [0xFE, 0xFF, 0xFF, 0xFF, 0x0F, 1, 0],
            Answer::Value(i32::MAX - 1),
        ),
    ] {
        let mut bytes = [0; 8];
        bytes[1..].copy_from_slice(&table);
        assert_eq!(rt; value_at(&bytes, 1, 1, 0), want, "{table:?}");
    }
}

#[test]
fn tables_are_whole_up_to_their_end(rt: HostRuntime) {
    for (offset, want) in [
        (0, true),
        (1, true),
        (4, true),
        (15, false),
        (16, false),
        (99, false),
    ] {
        assert_eq!(rt; is_pc_table(&TABLES, offset, 1), want, "{offset}");
    }
    // A run that passes 2^32 - 1.
    assert!(rt; !is_pc_table(&[0, 2, 0xFF, 0xFF, 0xFF, 0xFF, 0x0F, 2, 1, 0], 1, 1));
    assert!(rt; is_pc_table(&[0, 2, 0xFF, 0xFF, 0xFF, 0xFF, 0x0F, 0], 1, 1));
}

#[test]
fn runs_are_written_in_their_least_form(rt: HostRuntime) -> Result<(), Fail> {
    let bytes = encode(rt.alloc(), &[Run { end: 23, value: 0 }], 1)?;
    assert_eq!(rt; bytes.as_slice(), [2, 23, 0].as_slice());
    Ok(())
}

// Varints of two bytes, a quantum of 4, and a value that falls.
#[test]
fn long_numbers_and_quanta_are_written(rt: HostRuntime) -> Result<(), Fail> {
    let words = [
        Run { end: 4, value: 0 },
        Run { end: 16, value: -2 },
        Run {
            end: 4096,
            value: 1000,
        },
    ];
    let bytes = encode(rt.alloc(), &words, 4)?;
    assert_eq!(rt;
        bytes.as_slice(),
        [2, 1, 3, 3, 0xD4, 0x0F, 0xFC, 0x07, 0].as_slice()
    );
    Ok(())
}

#[test]
fn stretches_have_the_values_of_their_runs(rt: HostRuntime) -> Result<(), Fail> {
    values_are_settled();
    let ends = [3, 5, 9, 13, 17, 20, 22, 23];
    let lines = values_over(rt.alloc(), &TABLES, 4, 1, &ends)?.ok_or("no lines")?;
    assert_eq!(rt; lines.as_slice(), [3, 3, 4, 5, 7, 8, 8, 9].as_slice());
    let words = [0, 2, 1, 3, 3, 0xD4, 0x0F, 0xFC, 0x07, 0];
    let values = values_over(rt.alloc(), &words, 1, 4, &[4, 12, 16, 4096])?.ok_or("no values")?;
    assert_eq!(rt; values.as_slice(), [0, -2, -2, 1000].as_slice());
    Ok(())
}

#[test]
fn stretches_that_a_table_does_not_cover_have_no_values(rt: HostRuntime) -> Result<(), Fail> {
    // No table is meant.
    assert!(rt; values_over(rt.alloc(), &TABLES, 0, 1, &[23])?.is_none());
    // A change within a stretch, a table that goes on behind the last one, and one that ends before it.
    assert!(rt; values_over(rt.alloc(), &TABLES, 4, 1, &[5, 10, 13, 17, 22, 23])?.is_none());
    assert!(rt; values_over(rt.alloc(), &TABLES, 4, 1, &[5, 9, 13, 17, 22])?.is_none());
    assert!(rt; values_over(rt.alloc(), &TABLES, 4, 1, &[5, 9, 13, 17, 20])?.is_none());
    assert!(rt; values_over(rt.alloc(), &TABLES, 4, 1, &[5, 9, 13, 17, 22, 24])?.is_none());
    assert!(rt; values_over(rt.alloc(), &TABLES, 4, 1, &[5, 9, 13, 17, 22, 23, 24])?.is_none());
    assert!(rt; values_over(rt.alloc(), &TABLES, 4, 1, &[])?.is_none());
    // A table without its end.
    assert!(rt; values_over(rt.alloc(), &[0, 2, 23], 1, 1, &[23])?.is_none());
    Ok(())
}

#[test]
fn a_table_in_another_form_gives_no_values(rt: HostRuntime) -> Result<(), Fail> {
    let least = [0, 2, 23, 0];
    assert!(rt; values_over(rt.alloc(), &least, 1, 1, &[23])?.is_some());
    // A change, a number of quanta and an end in more bytes than they need, and a run of no length.
    assert!(rt; values_over(rt.alloc(), &[0, 0x82, 0, 23, 0], 1, 1, &[23])?.is_none());
    assert!(rt; values_over(rt.alloc(), &[0, 2, 0x97, 0, 0], 1, 1, &[23])?.is_none());
    assert!(rt; values_over(rt.alloc(), &[0, 2, 23, 0x80, 0], 1, 1, &[23])?.is_none());
    assert!(rt; values_over(rt.alloc(), &[0, 2, 0, 4, 23, 0], 1, 1, &[23])?.is_none());
    Ok(())
}
