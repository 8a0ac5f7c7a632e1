ghost use Rattle.goasm_run.specs.Changes.{shelf_change};
ghost use Rattle.goasm_run.specs.Commands.{plan_of, plan_of_one, plan_of_two};
ghost use Rattle.goasm_run.specs.Stops.{AnswersWords};

use crate::architecture::Architecture;
use crate::command::Command;
use crate::commands::bytes::bytes;
use crate::commands::call_chain::call_chain;
use crate::commands::expand::expand;
use crate::commands::image::image;
use crate::commands::listing::listing;
use crate::commands::lookup::lookup;
use crate::image_text::ImageText;
use crate::stop::Stop;
use crate::words::Words;
use goasm_base::{Bytes, Shelf, read_number};
use std::alloc::Global;

/// The text that the words ask for, or why there is none. Nothing is written.
pub fn answer<F: Shelf>(alloc: Global, words: &Words, shelf: &mut F) -> Result<Bytes, Stop>
    ensures { AnswersWords (shelf_change F.holds F.faults F.reads shelf.old shelf.new) (plan_of words.now) result }
{
    match words.as_slice() {
        [word, first] => one_word(alloc, shelf, Command::named(word.as_slice()), first),
        [word, first, second] => two_words(
            alloc,
            shelf,
            Command::named(word.as_slice()),
            first,
            second,
        ),
        _ => Err(Stop::Words),
    }
}

fn one_word<F: Shelf>(
    alloc: Global,
    shelf: &mut F,
    command: Option<Command>,
    first: &Bytes,
) -> Result<Bytes, Stop>
    ensures { AnswersWords (shelf_change F.holds F.faults F.reads shelf.old shelf.new) (plan_of_one command first.now) result }
{
    match command {
        Some(Command::Expand) => expand(alloc, shelf, first.as_slice()),
        Some(Command::Check) => image(alloc, shelf, ImageText::Count, first.as_slice()),
        Some(Command::Dis) => image(alloc, shelf, ImageText::Code, first.as_slice()),
        Some(Command::Lookup | Command::Bytes | Command::Listing | Command::Unwind) | None => {
            Err(Stop::Words)
        }
    }
}

fn two_words<F: Shelf>(
    alloc: Global,
    shelf: &mut F,
    command: Option<Command>,
    first: &Bytes,
    second: &Bytes,
) -> Result<Bytes, Stop>
    ensures { AnswersWords (shelf_change F.holds F.faults F.reads shelf.old shelf.new) (plan_of_two command first.now second.now) result }
{
    match command {
        Some(Command::Lookup) => match read_number(second.as_slice()) {
            Some(pc) => lookup(alloc, shelf, first.as_slice(), pc),
            None => Err(Stop::Words),
        },
        Some(Command::Bytes) => match Architecture::named(first.as_slice()) {
            Some(architecture) => bytes(alloc, shelf, architecture, second.as_slice()),
            None => Err(Stop::Words),
        },
        Some(Command::Listing) => match Architecture::named(first.as_slice()) {
            Some(architecture) => listing(alloc, shelf, architecture, second.as_slice()),
            None => Err(Stop::Words),
        },
        Some(Command::Unwind) => call_chain(alloc, shelf, first.as_slice(), second.as_slice()),
        Some(Command::Expand | Command::Check | Command::Dis) | None => Err(Stop::Words),
    }
}
