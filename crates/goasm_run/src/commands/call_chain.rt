ghost use Rattle.std.specs.Prelude.{◌<◌, ◌^◌, length, None, IfOk, IfErr};
ghost use Rattle.image_rules.specs.Machine.{machine_of};
ghost use Rattle.goasm_run.specs.Changes.{shelf_change};
ghost use Rattle.goasm_run.specs.ChainsJudged.{JudgeStopped};
ghost use Rattle.goasm_run.specs.Endings as endings;
ghost use Rattle.goasm_run.specs.Limits.{dump_limit};
ghost use Rattle.goasm_run.specs.Plan.{Ask};
ghost use Rattle.goasm_run.specs.Questions.{IsDumpJudged, IsUnwound, IsWalked};
ghost use Rattle.goasm_run.specs.Stops.{Answers, Settles};
ghost use Rattle.goasm_run.specs.Unwind.{unwind_answer, unwind_plan};
ghost use Rattle.machine_dump.specs.Faults.{dump_fault};

use crate::architecture::Architecture;
use crate::commands::image::{FOREIGN, accepted};
use crate::read::read_named;
use crate::stop::Stop;
use crate::{limits, lines};
use amd64_select::Amd64;
use asm_target::Target;
use goasm_base::{Bytes, Shelf};
use image_check::Accepted;
use machine_dump::Dump;
use std::alloc::Global;
use text_chain::{ChainNo, chain};

/// `unwind IMAGE DUMP`: the calls that were made and hadn't returned in a recorded state of a machine that ran an image.
pub fn call_chain<F: Shelf>(
    alloc: Global,
    shelf: &mut F,
    name: &[u8],
    dump_name: &[u8],
) -> Result<Bytes, Stop>
    ensures { Answers (shelf_change F.holds F.faults F.reads shelf.old shelf.new) (unwind_plan name.now dump_name.now) result }
{
    let image = read_named(alloc, shelf, name, limits::IMAGE)?;
    with_dump(alloc, shelf, name, dump_name, image.as_slice())
}

// The same, once the image was read.
fn with_dump<F: Shelf>(
    alloc: Global,
    shelf: &mut F,
    name: &[u8],
    dump_name: &[u8],
    image: &[u8],
) -> Result<Bytes, Stop>
    ensures { Answers (shelf_change F.holds F.faults F.reads shelf.old shelf.new)
        (Ask dump_name.now dump_limit (unwind_answer name.now dump_name.now image.now)) result }
{
    let dump = read_named(alloc, shelf, dump_name, limits::DUMP)?;
    answer(alloc, name, dump_name, image, dump.as_slice())
}

// The text over the bytes that were read, or the first refusal.
fn answer(
    alloc: Global,
    name: &[u8],
    dump_name: &[u8],
    image: &[u8],
    dump: &[u8],
) -> Result<Bytes, Stop>
    ensures { Settles (unwind_answer name.now dump_name.now image.now dump.now) result }
{
    if image.len() > limits::IMAGE {
        return Err(Stop::Refused(lines::too_long(alloc, name)?));
    }
    match Architecture::of_image(image) {
        Some(Architecture::Amd64) => for_target::<Amd64>(alloc, name, dump_name, image, dump),
        None => Err(Stop::Refused(lines::image(alloc, name, FOREIGN)?)),
    }
}

// The text for a target.
fn for_target<T: Target>(
    alloc: Global,
    name: &[u8],
    dump_name: &[u8],
    image: &[u8],
    dump: &[u8],
) -> Result<Bytes, Stop>
    requires { length image.now < 2 ^ 32 }
    ensures text { let machine = machine_of T.instructions T.fits T.MACHINE T.QUANTUM T.SHAPE T.GROWTH T.begins in
        IfOk result (λ text. IsUnwound machine name.now dump_name.now image.now dump.now (endings.Text text)) }
    ensures stopped { let machine = machine_of T.instructions T.fits T.MACHINE T.QUANTUM T.SHAPE T.GROWTH T.begins in
        IfErr result (JudgeStopped (IsUnwound machine name.now dump_name.now image.now dump.now)) }
{
    let image = accepted::<T>(alloc, name, image)?;
    over_image(alloc, &image, dump_name, dump)
}

// The text over an image that is sound, by the bytes of a dump.
fn over_image<T: Target>(
    alloc: Global,
    image: &Accepted<'_, T>,
    name: &[u8],
    bytes: &[u8],
) -> Result<Bytes, Stop>
    requires { length image.now < 2 ^ 32 }
    ensures text { let machine = machine_of T.instructions T.fits T.MACHINE T.QUANTUM T.SHAPE T.GROWTH T.begins in
        IfOk result (λ text. IsDumpJudged machine name.now image.now bytes.now (endings.Text text)) }
    ensures stopped { let machine = machine_of T.instructions T.fits T.MACHINE T.QUANTUM T.SHAPE T.GROWTH T.begins in
        IfErr result (JudgeStopped (IsDumpJudged machine name.now image.now bytes.now)) }
{
    if bytes.len() > limits::DUMP {
        return Err(Stop::Refused(lines::too_long(alloc, name)?));
    }
    read_dump(alloc, image, name, bytes)
}

// The text over an image, where the dump isn't too long.
fn read_dump<T: Target>(
    alloc: Global,
    image: &Accepted<'_, T>,
    name: &[u8],
    bytes: &[u8],
) -> Result<Bytes, Stop>
    requires image { length image.now < 2 ^ 32 }
    requires dump { length bytes.now < 2 ^ 32 }
    ensures text { let machine = machine_of T.instructions T.fits T.MACHINE T.QUANTUM T.SHAPE T.GROWTH T.begins in
        IfOk result (λ text. IsWalked machine name.now image.now bytes.now (dump_fault bytes.now) (endings.Text text)) }
    ensures stopped { let machine = machine_of T.instructions T.fits T.MACHINE T.QUANTUM T.SHAPE T.GROWTH T.begins in
        IfErr result (JudgeStopped (IsWalked machine name.now image.now bytes.now (dump_fault bytes.now))) }
{
    match Dump::read(bytes) {
        Ok(dump) => walk(alloc, image, name, &dump),
        Err(fault) => Err(Stop::Refused(lines::dump(alloc, name, fault)?)),
    }
}

// The text over an image and a dump.
fn walk<T: Target>(
    alloc: Global,
    image: &Accepted<'_, T>,
    name: &[u8],
    dump: &Dump<'_>,
) -> Result<Bytes, Stop>
    requires { length image.now < 2 ^ 32 }
    ensures text { let machine = machine_of T.instructions T.fits T.MACHINE T.QUANTUM T.SHAPE T.GROWTH T.begins in
        IfOk result (λ text. IsWalked machine name.now image.now dump.now None (endings.Text text)) }
    ensures stopped { let machine = machine_of T.instructions T.fits T.MACHINE T.QUANTUM T.SHAPE T.GROWTH T.begins in
        IfErr result (JudgeStopped (IsWalked machine name.now image.now dump.now None)) }
{
    match chain(alloc, image, dump) {
        Ok(text) => Ok(text),
        Err(ChainNo::Memory) => Err(Stop::Memory),
        Err(refusal) => Err(Stop::Refused(lines::chain(alloc, name, refusal)?)),
    }
}
