ghost use Rattle.std.specs.Prelude.{◌≡◌, ◌≢◌, ◌<◌, ◌^◌, length, Some, IfOk, IfErr};
ghost use Rattle.image_rules.specs.Machine.{machine_of};
ghost use Rattle.machine_dump.specs.Faults.{machine_in};
ghost use Rattle.text_chain.specs.Chain.{IsChainRefused, IsChainText};

use crate::line::push_frame;
use crate::words::Words;
use asm_target::Target;
use goasm_base::{Bytes, Memory, Text};
use image_check::{Accepted, UnwindNo};
use machine_dump::Dump;
use std::alloc::Global;
use unwind::{Walked, Walker};

/// Why an image and a dump have no text of a call chain.
#[derive(Clone, Copy, Debug, PartialEq, Eq)]
pub enum ChainNo {
    /// The dump is one of another machine than the image.
    Foreign,
    /// The walk comes to where it can't go on.
    Walk(UnwindNo),
    /// There is no memory for the text.
    Memory,
}

impl From<Memory> for ChainNo {
    ghost use Rattle.std.specs.Prelude.{◌≡◌};
    ghost use Rattle.text_chain.specs.declared.stack.ChainNo.TheVariants.{Memory as OutOfMemory};

    ghost from_gives = { λ _ no. no ≡ OutOfMemory };

    fn from(_: Memory) -> Self {
        ChainNo::Memory
    }
}

/// The text of the call chain that a dump recorded of a machine that ran an accepted image.
///
/// For each frame of the stack, innermost first, there is a line `NAME FILE:LINE PC`: the function, the file and the line of the place
/// that tells them, and as `0x` and 16 digits the address at which it goes on. Each line ends in a newline. `Foreign` comes exactly where
/// the dump names another machine than the target's, `Walk` with U1 to U5 exactly where the walk can't go on, and `Memory` only for want
/// of memory.
pub fn chain<T: Target>(
    alloc: Global,
    image: &Accepted<'_, T>,
    dump: &Dump<'_>,
) -> Result<Bytes, ChainNo>
    requires { length image.now < 2 ^ 32 }
    ensures text { let machine = machine_of T.instructions T.fits T.MACHINE T.QUANTUM T.SHAPE T.GROWTH T.begins in
        IfOk result (IsChainText machine image.now dump.now) }
    ensures refused { let machine = machine_of T.instructions T.fits T.MACHINE T.QUANTUM T.SHAPE T.GROWTH T.begins in
        IfErr result (λ refusal. refusal ≢ ChainNo.Memory → IsChainRefused machine image.now dump.now refusal) }
{
    if dump.machine() != T::MACHINE {
        return Err(ChainNo::Foreign);
    }
    own_chain(alloc, image, dump)
}

// The same, where the dump is one of the target's machine.
fn own_chain<T: Target>(
    alloc: Global,
    image: &Accepted<'_, T>,
    dump: &Dump<'_>,
) -> Result<Bytes, ChainNo>
    requires short { length image.now < 2 ^ 32 }
    requires own { machine_in dump.now ≡ Some T.MACHINE }
    ensures text { let machine = machine_of T.instructions T.fits T.MACHINE T.QUANTUM T.SHAPE T.GROWTH T.begins in
        IfOk result (IsChainText machine image.now dump.now) }
    ensures refused { let machine = machine_of T.instructions T.fits T.MACHINE T.QUANTUM T.SHAPE T.GROWTH T.begins in
        IfErr result (λ refusal. refusal ≢ ChainNo.Memory → IsChainRefused machine image.now dump.now refusal) }
{
    image.sound();
    let mut text = Text::new(alloc);
    let mut walker = Walker::new(image, dump.pc(), dump.sp(), dump.link(), Words { dump });
    loop {
        match walker.next() {
            Walked::Frame(seen) => push_frame(&mut text, image, seen)?,
            Walked::End => return Ok(text.finish()),
            Walked::No(refusal) => return Err(ChainNo::Walk(refusal)),
        }
    }
}
