ghost use Rattle.std.specs.Prelude.{◌≡◌, ◌<◌, ◌^◌, length, IfOk, IfErr, OnOk};
ghost use Rattle.image_rules.specs.Machine.{machine_of};
ghost use Rattle.image_rules.specs.Sound.{IsSoundImage};
ghost use Rattle.goasm_run.specs.Changes.{shelf_change};
ghost use Rattle.goasm_run.specs.Endings as endings;
ghost use Rattle.goasm_run.specs.Images.{image_answer, image_plan};
ghost use Rattle.goasm_run.specs.ImagesJudged.{ImageStopped};
ghost use Rattle.goasm_run.specs.Questions.{IsJudged, IsSaid, count_text};
ghost use Rattle.goasm_run.specs.Stops.{Answers, Settles};

use crate::architecture::Architecture;
use crate::image_text::ImageText;
use crate::read::read_named;
use crate::stop::Stop;
use crate::{limits, lines};
use amd64_select::Amd64;
use asm_target::Target;
use elf_image::ImageNo;
use goasm_base::{Bytes, Memory, Shelf, Text};
use image_check::{Accepted, accept};
use image_rules::{CheckNo, ProfileNo};
use std::alloc::Global;
use text_dis::listing;

/// Why an image of no target's machine is refused: the number of its machine is another one.
pub const FOREIGN: CheckNo = CheckNo::K1(ProfileNo::Image(ImageNo::I1(18)));

/// `check IMAGE` and `dis IMAGE`: whether an image is sound, and then how many functions it has, or their instructions.
pub fn image<F: Shelf>(
    alloc: Global,
    shelf: &mut F,
    said: ImageText,
    name: &[u8],
) -> Result<Bytes, Stop>
    ensures { Answers (shelf_change F.holds F.faults F.reads shelf.old shelf.new) (image_plan said name.now) result }
{
    let bytes = read_named(alloc, shelf, name, limits::IMAGE)?;
    answer(alloc, said, name, bytes.as_slice())
}

// The text over the bytes that were read, or the first refusal.
fn answer(alloc: Global, said: ImageText, name: &[u8], bytes: &[u8]) -> Result<Bytes, Stop>
    ensures { Settles (image_answer said name.now bytes.now) result }
{
    if bytes.len() > limits::IMAGE {
        return Err(Stop::Refused(lines::too_long(alloc, name)?));
    }
    match Architecture::of_image(bytes) {
        Some(Architecture::Amd64) => for_target::<Amd64>(alloc, said, name, bytes),
        None => Err(Stop::Refused(lines::image(alloc, name, FOREIGN)?)),
    }
}

// The text of an image for a target.
fn for_target<T: Target>(
    alloc: Global,
    said: ImageText,
    name: &[u8],
    bytes: &[u8],
) -> Result<Bytes, Stop>
    requires { length bytes.now < 2 ^ 32 }
    ensures text { let machine = machine_of T.instructions T.fits T.MACHINE T.QUANTUM T.SHAPE T.GROWTH T.begins in
        IfOk result (λ text. IsJudged machine said name.now bytes.now (endings.Text text)) }
    ensures stopped { let machine = machine_of T.instructions T.fits T.MACHINE T.QUANTUM T.SHAPE T.GROWTH T.begins in
        IfErr result (ImageStopped machine name.now bytes.now) }
{
    let image = accepted::<T>(alloc, name, bytes)?;
    Ok(text(alloc, said, &image)?)
}

/// The image that the bytes of a file are, where it is sound for a target.
pub fn accepted<'a, T: Target>(
    alloc: Global,
    name: &[u8],
    bytes: &'a [u8],
) -> Result<Accepted<'a, T>, Stop>
    requires { length bytes.now < 2 ^ 32 }
    ensures image { IfOk result (λ image. image ≡ bytes.now) }
    ensures sound { let machine = machine_of T.instructions T.fits T.MACHINE T.QUANTUM T.SHAPE T.GROWTH T.begins in
        OnOk result (IsSoundImage machine bytes.now) }
    ensures stopped { let machine = machine_of T.instructions T.fits T.MACHINE T.QUANTUM T.SHAPE T.GROWTH T.begins in
        IfErr result (ImageStopped machine name.now bytes.now) }
{
    match accept::<T>(alloc, bytes) {
        Ok(image) => Ok(image),
        Err(CheckNo::Memory) => Err(Stop::Memory),
        Err(refusal) => Err(Stop::Refused(lines::image(alloc, name, refusal)?)),
    }
}

// What is said of an image.
fn text<T: Target>(alloc: Global, said: ImageText, image: &Accepted<'_, T>) -> Result<Bytes, Memory>
    ensures { let machine = machine_of T.instructions T.fits T.MACHINE T.QUANTUM T.SHAPE T.GROWTH T.begins in
        IfOk result (IsSaid machine said image.now) }
{
    match said {
        ImageText::Count => count(alloc, image.count()),
        ImageText::Code => listing(alloc, image),
    }
}

// The text of a number of functions.
fn count(alloc: Global, count: u32) -> Result<Bytes, Memory>
    ensures { IfOk result (λ text. text ≡ count_text count) }
{
    let mut text = Text::new(alloc);
    text.push(b"ok ")?;
    text.push_unsigned(u64::from(count))?;
    text.push(b" functions\n")?;
    Ok(text.finish())
}
