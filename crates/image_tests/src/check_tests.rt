//! The check of small images, and what an accepted one tells.

use crate::images::{linked, stacked};
use amd64_select::Amd64;
use asm_target::Target;
use asm_target_linked::Linked;
use flow_rules::FlowNo;
use goasm_base::Bytes;
use image_check::accept;
use image_rules::{CheckNo, ProfileNo};
use std::alloc::Global;
use std::process::Abort;
use std::test::Fail;

// The refusal of an image, where there is one.
fn refusal<T: Target, R: Abort>(rt: &R, alloc: Global, bytes: &Bytes) -> Option<CheckNo> {
    assert!(rt; bytes.as_slice().len() < 1 << 32);
    accept::<T>(alloc, bytes.as_slice()).err()
}

#[test]
fn images_are_judged_for_a_target(rt: HostRuntime) -> Result<(), Fail> {
    let right = linked(rt.alloc(), 0x20)?;
    assert_eq!(rt; refusal::<Linked, _>(&rt, rt.alloc(), &right), None);
    // Of 17 bytes the table tells, where the frame has 16.
    let wrong = linked(rt.alloc(), 0x22)?;
    let breach = FlowNo {
        rule: 1,
        at: 0x40_0000,
        depths: (16, 17),
    };
    assert_eq!(rt;
        refusal::<Linked, _>(&rt, rt.alloc(), &wrong),
        Some(CheckNo::K3(breach))
    );
    // The image of another machine.
    assert_eq!(rt;
        refusal::<Amd64, _>(&rt, rt.alloc(), &right),
        Some(CheckNo::K1(ProfileNo::Profile))
    );
    Ok(())
}

fn expect_parts<R: Abort>(rt: &R, alloc: Global, bytes: &[u8]) {
    assert!(rt; bytes.len() < 1 << 32);
    let accepted = accept::<Amd64>(alloc, bytes);
    assert!(rt; accepted.is_ok());
    if let Ok(image) = accepted {
        image.sound();
        assert_eq!(rt; image.image().entry(), 0x40_0000);
        assert_eq!(rt; image.table().count(), 3);
        assert_eq!(rt; image.text(), (0x40_0000, 0x40_0030));
        assert_eq!(rt; image.count(), 3);
        for (pc, func, is_start, call) in [
            (0x3f_ffffu64, None, false, None),
            (0x40_0000, Some(0u32), true, None),
            (0x40_0005, Some(0), true, Some(0x40_0000u64)),
            (0x40_0006, Some(0), false, None),
            (0x40_000f, Some(0), false, None),
            (0x40_0010, Some(1), true, None),
            (0x40_0016, Some(1), true, Some(0x40_0011)),
            // Behind the call that has the stack grow.
            (0x40_0028, Some(2), true, None),
            (0x40_002f, Some(2), false, None),
            (0x40_0030, None, false, None),
            (u64::MAX, None, false, None),
        ] {
            assert_eq!(rt; image.find(pc), func, "{pc:#x}");
            assert_eq!(rt; image.instr_at(pc).is_some(), is_start, "{pc:#x}");
            assert_eq!(rt; image.after_call(pc), call, "{pc:#x}");
        }
    }
}

#[test]
fn an_accepted_image_tells_its_parts(rt: HostRuntime) -> Result<(), Fail> {
    let bytes = stacked(rt.alloc())?;
    expect_parts(&rt, rt.alloc(), bytes.as_slice());
    Ok(())
}
