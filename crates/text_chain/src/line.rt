ghost use Rattle.std.specs.Prelude.{◌≡◌, ◌++◌, OnOk};
ghost use Rattle.text_chain.specs.Lines as lines;
ghost use Rattle.text_chain.specs.Lines.{frame_text, source_text};
ghost use Rattle.pclntab.specs.Func.{HasPc};
ghost use Rattle.unwind.specs.Looks.{IsTold};

use asm_target::Target;
use goasm_base::{Memory, Text};
use image_check::{Accepted, Seen};
use pclntab::Func;
use pcvalue::Answer;

/// Appends the line of a frame.
pub fn push_frame<T: Target>(
    text: &mut Text,
    image: &Accepted<'_, T>,
    seen: Seen,
) -> Result<(), Memory>
    requires { IsTold image.now seen }
    ensures { OnOk result (text.new ≡ text.old ++ frame_text image.now seen) }
{
    push_source(text, &image.function(seen.func), seen.look)?;
    text.push(b" ")?;
    text.push_hex(seen.pc)?;
    text.push(b"\n")
}

// Appends the function, and the file and the line of a place in it.
fn push_source(text: &mut Text, func: &Func<'_>, place: u64) -> Result<(), Memory>
    requires { HasPc func.now.bytes func.now.index place }
    ensures { OnOk result (text.new ≡ text.old ++ source_text func.now.bytes func.now.index place) }
{
    text.push(func.name())?;
    text.push(b" ")?;
    text.push(func.file(place).unwrap_or(b""))?;
    text.push(b":")?;
    push_value(text, func.line(place))
}

// Appends a value in decimal, or nothing where there is none.
fn push_value(text: &mut Text, answer: Answer) -> Result<(), Memory>
    ensures { OnOk result (text.new ≡ text.old ++ lines.value_text answer) }
{
    match answer {
        Answer::Value(value) => text.push_decimal(i64::from(value)),
        Answer::Absent | Answer::Past | Answer::Bad => Ok(()),
    }
}
