//! Which jumps of amd64 need their long form.
use goasm_base::Memory;
use least_forms::{FormsNo, Sizes, least_sizes};
use least_forms_sample::Jumps;
use std::alloc::Global;
use std::process::Abort;

// So many lines, of which some jump: each pair is a line and the one that it jumps to.
fn jumps(
    alloc: Global,
    count: usize,
    pairs: &[(usize, usize)],
    reach: u32,
) -> Result<Jumps, Memory> {
    let mut goals = vec![in alloc; None; count]?;
    for (line, goal) in pairs {
        if *line < goals.len() {
            goals[*line] = Some(*goal);
        }
    }
    Ok(Jumps { goals, reach })
}

// The sizes of lines that all reach.
fn sizes<R: Abort>(rt: &R, alloc: Global, jumps: &Jumps) -> Result<Sizes, Memory> {
    assert!(rt; jumps.has_room());
    match least_sizes(alloc, jumps) {
        Ok(sizes) => Ok(sizes),
        Err(FormsNo::Memory) => Err(Memory),
        Err(no) => {
            assert!(rt; false, "{no}");
            Err(Memory)
        }
    }
}

// The forms of some lines, the places of those lines, and the whole length.
fn expect<R: Abort>(rt: &R, sizes: &Sizes, lines: &[(usize, u8, u32)], length: u32) {
    for (line, form, place) in lines {
        assert_eq!(rt;
            sizes.forms.as_slice().get(*line).copied(),
            Some(*form),
            "form of {line}"
        );
        assert_eq!(rt;
            sizes.places.as_slice().get(*line).copied(),
            Some(*place),
            "place of {line}"
        );
    }
    assert_eq!(rt; sizes.length, length);
}

// `JMP over`, 127 times CDQ, `over:`, RET begins `eb 7f`.
#[test]
fn a_jump_over_127_bytes_is_short(rt: HostRuntime) -> Result<(), Memory> {
    let jumps = jumps(rt.alloc(), 129, &[(0, 128)], 1 << 31)?;
    let sizes = sizes(&rt, rt.alloc(), &jumps)?;
    expect(&rt, &sizes, &[(0, 0, 0), (1, 1, 2), (128, 1, 129)], 130);
    Ok(())
}

// With 128 times CDQ it begins `e9 80 00 00 00`.
#[test]
fn a_jump_over_128_bytes_is_long(rt: HostRuntime) -> Result<(), Memory> {
    let jumps = jumps(rt.alloc(), 130, &[(0, 129)], 1 << 31)?;
    let sizes = sizes(&rt, rt.alloc(), &jumps)?;
    expect(&rt, &sizes, &[(0, 1, 0), (1, 1, 5), (129, 1, 133)], 134);
    Ok(())
}

// `JMP a`, 125 times CDQ, `JMP b`, `a:`, 128 times CDQ, `b:`, RET gives `e9 82 00 00 00` and, behind 125 bytes,
// `e9 80 00 00 00`: the second jump grows, and so the first loses its reach.
#[test]
fn a_jump_that_grows_makes_another_grow(rt: HostRuntime) -> Result<(), Memory> {
    let jumps = jumps(rt.alloc(), 256, &[(0, 127), (126, 255)], 1 << 31)?;
    let sizes = sizes(&rt, rt.alloc(), &jumps)?;
    expect(
        &rt,
        &sizes,
        &[(0, 1, 0), (126, 1, 130), (127, 1, 135), (255, 1, 263)],
        264,
    );
    Ok(())
}

// 20 jumps, each over 125 bytes and the next jump, and the last over 128 bytes: that one grows, then each before it.
#[test]
fn a_chain_of_jumps_grows_from_its_end(rt: HostRuntime) -> Result<(), Memory> {
    let mut pairs = Vec::new(rt.alloc());
    for step in 0..19usize {
        pairs.push((step * 126, step * 126 + 127))?;
    }
    pairs.push((19 * 126, 19 * 126 + 129))?;
    let jumps = jumps(rt.alloc(), 20 * 126 + 4, &pairs, 1 << 31)?;
    let sizes = sizes(&rt, rt.alloc(), &jumps)?;
    expect(
        &rt,
        &sizes,
        &[(0, 1, 0), (126, 1, 130), (19 * 126, 1, 19 * 130)],
        20 * 130 + 4,
    );
    Ok(())
}

// The same jumps backward: the first grows, then each behind it. A short jump goes back 128 bytes from its end.
#[test]
fn a_chain_of_jumps_grows_from_its_start(rt: HostRuntime) -> Result<(), Memory> {
    let mut pairs = Vec::new(rt.alloc());
    pairs.push((127, 0))?;
    for step in 1..20usize {
        pairs.push((127 + step * 125, 127 + (step - 1) * 125))?;
    }
    let jumps = jumps(rt.alloc(), 127 + 20 * 125, &pairs, 1 << 31)?;
    let sizes = sizes(&rt, rt.alloc(), &jumps)?;
    expect(
        &rt,
        &sizes,
        &[
            (127, 1, 127),
            (252, 1, 256),
            (127 + 19 * 125, 1, 127 + 19 * 129),
        ],
        127 + 20 * 129,
    );
    Ok(())
}

// So many lines, jumps among them, the greatest distance that a long jump goes over, and the first jump that goes further with its
// distance.
const LOST: [(usize, &[(usize, usize)], u32, Option<(usize, u32)>); 7] = [
    (2003, &[(0, 1), (2, 2002)], 2004, None),
    (2004, &[(0, 1), (2, 2003)], 2004, Some((2, 2005))),
    (2005, &[(2004, 0)], 2004, None),
    (2005, &[(2004, 0)], 2003, Some((2004, 2004))),
    // Of two the first line is named, wherever it goes.
    (2005, &[(0, 2003), (2004, 1)], 100, Some((0, 2007))),
    (
        2005,
        &[(1000, 1), (1001, 2004), (3, 2)],
        900,
        Some((1000, 1000)),
    ),
    // A jump that is short needs no more.
    (130, &[(0, 128)], 1, None),
];

// The first jump that is out of reach, with its distance.
fn lost(alloc: Global, jumps: &Jumps) -> Option<(usize, u32)> {
    if !jumps.has_room() {
        return None;
    }
    match least_sizes(alloc, jumps) {
        Err(FormsNo::Lost(line, distance)) => Some((line, distance)),
        _ => None,
    }
}

#[test]
fn a_jump_out_of_reach_is_named_with_its_distance(rt: HostRuntime) -> Result<(), Memory> {
    for (count, pairs, reach, wanted) in LOST {
        let jumps = jumps(rt.alloc(), count, pairs, reach)?;
        assert_eq!(rt; lost(rt.alloc(), &jumps), wanted, "{count} {pairs:?}");
    }
    Ok(())
}
