use crate::made::{array, named, plain};
use go_types::{GoType, Measure, measure_of};
use goasm_base::Memory;
use std::process::Abort;

#[test]
fn types_are_measured(rt: HostRuntime) -> Result<(), Memory> {
    let alloc = rt.alloc();
    let fields = vec![in alloc;
        named(alloc, b"a", plain(1, 1))?,
        named(alloc, b"b", GoType::Complex { size: 8 })?,
        named(alloc, b"c", GoType::Text)?,
        named(alloc, b"d", plain(2, 2))?,
    ]?;
    let whole = array(alloc, 3, GoType::Struct { fields })?;
    let want = Measure {
        size: 120,
        align: 8,
        components: 18,
    };
    assert_eq!(rt; measure_of(&whole), want);
    Ok(())
}
