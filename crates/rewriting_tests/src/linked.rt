//! A target that has one mnemonic, ABOVE, and no jump that a statement can say: so each function is refused, at the latest where a jump to
//! itself would end it.
use crate::bodies::push_function;
use crate::units::{joined, unit_of};
use asm_target::SelectNo;
use asm_target_linked::Linked;
use goasm_base::{Pos, Text};
use obj_rewrite::one_answer;
use std::alloc::Global;
use std::process::Abort;
use std::test::Fail;
use unit_listing::{ListingNo, listing, one_listing};

fn rewritten(alloc: Global, lines: &[&str]) -> Result<Text, Fail> {
    let unit = unit_of::<Linked>(alloc, 7, lines)?;
    let mut text = Text::new(alloc);
    for func in unit.functions.as_slice() {
        push_function::<Linked>(alloc, &mut text, unit.symbols.as_slice(), func)?;
    }
    Ok(text)
}

const REFUSED: [(&[&str], &str); 13] = [
    // The jump to itself has the place of TEXT.
    (&["TEXT f(SB), 4, $0-0"], "7:1 S1"),
    (
        &["", "TEXT f(SB), 4, $0-0", "ABOVE $8", "ABOVE $4294967295"],
        "7:2 S1",
    ),
    (&["TEXT f(SB), 4, $1048568-0", "ABOVE $8"], "7:1 S1"),
    // RET and JMP end a function, and aren't mnemonics here.
    (&["TEXT f(SB), 4, $0-0", "ABOVE $8", "RET"], "7:3 S1"),
    (&["TEXT f(SB), 4, $0-0", "ABOVE $8", "JMP f(SB)"], "7:3 S1"),
    (&["TEXT f(SB), 4, $0-0", "ABOVE.W $8"], "7:2 S1"),
    (
        &["TEXT f(SB), 4, $0-0", "ABOVE $8", "ABOVE (T)", "BELOW $8"],
        "7:3 S2",
    ),
    (&["TEXT f(SB), 4, $0-0", "ABOVE SP"], "7:2 S3"),
    (&["TEXT f(SB), 4, $0-0", "LOCK; ABOVE $8"], "7:2 S3"),
    (&["TEXT f(SB), 4, $0-0", "ABOVE $4294967296"], "7:2 S4"),
    // The word above the locals is for the return address.
    (
        &["TEXT f(SB), 4, $1048576-0", "BELOW $8"],
        "7:1 RW1 1048584",
    ),
    (&["TEXT f(SB), 0, $2147483640-0"], "7:1 RW1 2147483648"),
    (&["", "TEXT f(SB), 0, $1048576-0"], "7:2 RW1 1048584"),
];

fn expect<R: Abort>(rt: &R, alloc: Global, rows: &[(&[&str], &str)]) -> Result<(), Fail> {
    for (source, wanted) in rows {
        let found = rewritten(alloc, *source)?.finish();
        let wanted = joined(alloc, &[*wanted])?.finish();
        assert_eq!(rt; found.as_slice(), wanted.as_slice(), "{source:?}");
    }
    Ok(())
}

#[test]
fn functions_are_refused(rt: HostRuntime) -> Result<(), Fail> {
    one_answer::<Linked>();
    one_listing::<Linked>();
    expect(&rt, rt.alloc(), &REFUSED)
}

// The place of TEXT of the first function, and not that of the second unit.
#[test]
fn units_are_refused(rt: HostRuntime) -> Result<(), Fail> {
    let empty = unit_of::<Linked>(rt.alloc(), 0, &[""])?;
    assert_eq!(rt;
        listing::<Linked>(rt.alloc(), &[empty])?.as_slice(),
        b"".as_slice()
    );
    let first = unit_of::<Linked>(rt.alloc(), 3, &["", "TEXT f(SB), 4, $0-0", "ABOVE $8"])?;
    let second = unit_of::<Linked>(rt.alloc(), 4, &["TEXT f(SB), 4, $1048576-0"])?;
    let pos = Pos { file: 3, line: 2 };
    let no = listing::<Linked>(rt.alloc(), &[first, second]).err();
    assert_eq!(rt; no, Some(ListingNo::Select(pos, SelectNo::S1)));
    Ok(())
}
