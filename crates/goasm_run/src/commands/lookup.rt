ghost use Rattle.std.specs.Prelude.{◌≡◌, ◌^◌, ◌<◌, length, unwrap_or, codes, IfOk, IfErr, OnOk, ◌++◌};
ghost use Rattle.goasm_base.specs.Shelf.{Reads};
ghost use Rattle.pclntab.specs.Func.{func_at, HasPc};
ghost use Rattle.goasm_run.specs.Changes.{shelf_change};
ghost use Rattle.goasm_run.specs.Stops.{Gives, Answers};
ghost use Rattle.goasm_run.specs.Lookup.{value_text, lookup_text, lookup_in, lookup_answer, lookup_plan};

use crate::read::read_named;
use crate::stop::Stop;
use crate::{limits, lines};
use goasm_base::{Bytes, Memory, Shelf, Text};
use pclntab::{Func, Table};
use pcvalue::Answer;
use std::alloc::Global;

/// `lookup TABLE PC`: function, file, line and stack depth at an address of a function table.
pub fn lookup<F: Shelf>(alloc: Global, shelf: &mut F, table: &[u8], pc: u64) -> Result<Bytes, Stop>
    ensures { Answers (shelf_change F.holds F.faults F.reads shelf.old shelf.new) (lookup_plan table.now pc) result }
{
    let bytes = read_named(alloc, shelf, table, limits::TABLE)?;
    answer(alloc, table, pc, bytes.as_slice())
}

// The text over the bytes that were read, or the first refusal.
#[tactic(auto, unfolding(crate::specs::Lookup::lookup_answer))]
fn answer(alloc: Global, name: &[u8], pc: u64, bytes: &[u8]) -> Result<Bytes, Stop>
    ensures { Gives (lookup_answer name.now pc bytes.now) result }
{
    if bytes.len() > limits::TABLE {
        return Err(Stop::Refused(lines::too_long(alloc, name)?));
    }
    match Table::read(bytes) {
        Ok(table) => in_table(alloc, name, pc, &table),
        Err(fault) => Err(Stop::Refused(lines::table(alloc, name, fault)?)),
    }
}

fn in_table(alloc: Global, name: &[u8], pc: u64, table: &Table<'_>) -> Result<Bytes, Stop>
    ensures { Gives (lookup_in name.now pc table.now (func_at table.now pc)) result }
{
    match table.find(pc) {
        Some(func) => Ok(text(alloc, &func, pc)?),
        None => Err(Stop::Refused(lines::no_function(alloc, name, pc)?)),
    }
}

#[tactic(auto, unfolding(crate::specs::Lookup::lookup_text))]
fn text(alloc: Global, func: &Func<'_>, pc: u64) -> Result<Bytes, Memory>
    requires { HasPc func.now.bytes func.now.index pc }
    ensures { IfOk result (λ text. text ≡ lookup_text func.now.bytes func.now.index pc) }
{
    let mut text = Text::new(alloc);
    text.push(func.name())?;
    text.push(b" ")?;
    text.push(func.file(pc).unwrap_or(b"?"))?;
    text.push(b":")?;
    push_value(&mut text, func.line(pc))?;
    text.push(b" depth ")?;
    push_value(&mut text, func.depth(pc))?;
    text.push(b"\n")?;
    Ok(text.finish())
}

// Appends a value in decimal, or `?` where there is none.
fn push_value(text: &mut Text, answer: Answer) -> Result<(), Memory>
    ensures { OnOk result (text.new ≡ text.old ++ value_text answer) }
{
    match answer {
        Answer::Value(value) => text.push_decimal(i64::from(value)),
        Answer::Absent | Answer::Past | Answer::Bad => text.push(b"?"),
    }
}
