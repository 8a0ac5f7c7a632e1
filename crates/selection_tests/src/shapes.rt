//! Frames that a function of amd64 can have.
ghost use Rattle.std.specs.Prelude.{◌≡◌, ◌≤◌, ◌%◌};
ghost use Rattle.asm_target.specs.Frames.{IsFrame};

use asm_target::FrameShape;

// The frame round so many bytes of locals.
fn framed(locals: u32) -> FrameShape
    requires whole { locals % 8 ≡ 0 }
    requires most { locals ≤ 1048568 }
    ensures { IsFrame 62 result }
{
    FrameShape {
        locals,
        total: locals + 8,
        saves_bp: true,
    }
}

/// The frame of so many bytes; none where there is no such frame.
pub fn frame(total: u32) -> FrameShape
    ensures { IsFrame 62 result }
{
    if total >= 8 && total % 8 == 0 && total <= 1_048_576 {
        framed(total - 8)
    } else {
        FrameShape::default()
    }
}
