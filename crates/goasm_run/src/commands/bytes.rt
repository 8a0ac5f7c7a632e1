ghost use Rattle.std.specs.Prelude.{◌≡◌, IfOk};
ghost use Rattle.text_dis.specs.Reading.{raw_text};
ghost use Rattle.amd64_code.specs.InstructionSet.{amd64};
ghost use Rattle.amd64_code.specs.First.{first_in};
ghost use Rattle.goasm_run.specs.Changes.{shelf_change};
ghost use Rattle.goasm_run.specs.Stops.{Gives, Answers};
ghost use Rattle.goasm_run.specs.Bytes.{code_text, bytes_answer, bytes_plan};

use crate::architecture::Architecture;
use crate::read::read_named;
use crate::stop::Stop;
use crate::{limits, lines};
use amd64_select::Amd64;
use goasm_base::{Bytes, Memory, Shelf};
use std::alloc::Global;
use text_dis::{raw, raw_text_by_reading};

/// `bytes TARGET FILE`: each instruction of raw code, and each byte that begins none.
pub fn bytes<F: Shelf>(
    alloc: Global,
    shelf: &mut F,
    architecture: Architecture,
    file: &[u8],
) -> Result<Bytes, Stop>
    ensures { Answers (shelf_change F.holds F.faults F.reads shelf.old shelf.new) (bytes_plan architecture file.now) result }
{
    let bytes = read_named(alloc, shelf, file, limits::CODE)?;
    answer(alloc, architecture, file, bytes.as_slice())
}

// The text over the bytes that were read, or the first refusal.
#[tactic(auto, unfolding(crate::specs::Bytes::bytes_answer))]
fn answer(
    alloc: Global,
    architecture: Architecture,
    name: &[u8],
    bytes: &[u8],
) -> Result<Bytes, Stop>
    ensures { Gives (bytes_answer architecture name.now bytes.now) result }
{
    if bytes.len() > limits::CODE {
        return Err(Stop::Refused(lines::too_long(alloc, name)?));
    }
    Ok(text(alloc, architecture, bytes)?)
}

#[tactic(auto, unfolding(crate::specs::Bytes::code_text))]
fn text(alloc: Global, architecture: Architecture, bytes: &[u8]) -> Result<Bytes, Memory>
    ensures { IfOk result (λ text. text ≡ code_text architecture bytes.now) }
{
    match architecture {
        Architecture::Amd64 => amd64_text(alloc, bytes),
    }
}

fn amd64_text(alloc: Global, bytes: &[u8]) -> Result<Bytes, Memory>
    ensures { IfOk result (λ text. text ≡ raw_text amd64 1 first_in bytes.now) }
{
    raw_text_by_reading::<Amd64>();
    raw::<Amd64>(alloc, bytes)
}
