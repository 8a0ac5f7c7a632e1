ghost use Rattle.std.specs.Prelude.{◌≡◌, ◌⊎◌, List, [], ◌∷◌, ◌+◌, ◌≤◌, IfOk, IfErr};
ghost use Rattle.goasm_base.specs.Lines.{last_line};
ghost use Rattle.goasm_list.specs.Rules.{file_count};
ghost use Rattle.goasm_list.specs.Sound.{AreWithin};
ghost use Rattle.goasm_run.specs.declared.part.Part.{Part};
ghost use Rattle.goasm_run.specs.Limits.{source_limit};
ghost use Rattle.goasm_run.specs.Changes.{shelf_change, ReadsAll};
ghost use Rattle.goasm_run.specs.Plan.{Plan};
ghost use Rattle.goasm_run.specs.Parts.{file_part, value_part, ask_parts};
ghost use Rattle.goasm_run.specs.Stops.{IsRead, ReadStopped};
ghost use Rattle.goasm_run.specs.PartsRead.{LeadsTo, LineLeads, NumbersUpTo, LineStopped, PartsStopped};
ghost use Rattle.goasm_run.specs.SourcesLexed.{AreNumbered};

use crate::limits;
use crate::part::{Part, Role};
use crate::read::read_named;
use crate::stop::Stop;
use goasm_base::Shelf;
use goasm_list::{LineKind, ListLine};
use std::alloc::Global;

/// The parts of a build in the order of its list. Every file that the list names is read.
#[tactic(auto, using(crate::proofs::NumberLemmas::numbers_all))]
pub fn read_parts<F: Shelf>(
    alloc: Global,
    shelf: &mut F,
    lines: Vec<ListLine>,
) -> Result<Vec<Part>, Stop>
    requires files { file_count lines.items ≤ 1000 }
    requires lines { AreWithin last_line lines.items }
    ensures leads { IfOk result (λ parts. (next : List Part → Plan)
        → LeadsTo (F.holds shelf.old) (ask_parts 1 lines.items [] next) (F.reads shelf.old) (next parts.items) (F.reads shelf.new)) }
    ensures unfailed { IfOk result (λ _. ReadsAll (shelf_change F.holds F.faults F.reads shelf.old shelf.new)) }
    ensures numbered { IfOk result (λ parts. AreNumbered parts.items) }
    ensures stopped { IfErr result (PartsStopped (shelf_change F.holds F.faults F.reads shelf.old shelf.new) lines.items) }
{
    let mut parts = Vec::new(alloc);
    let mut number: u32 = 1;
    for line in lines {
        number = read_line(alloc, shelf, number, line, &mut parts)?;
    }
    Ok(parts)
}

// Reads the file of a line that names one, and answers the number of the next file.
#[tactic(auto, using(crate::proofs::NumberLemmas::numbers_file, crate::proofs::NumberLemmas::numbers_value))]
fn read_line<F: Shelf>(
    alloc: Global,
    shelf: &mut F,
    number: u32,
    line: ListLine,
    parts: &mut Vec<Part>,
) -> Result<u32, Stop>
    requires room { number + file_count (line ∷ []) ≤ 1001 }
    requires line { line.line ≤ last_line }
    ensures leads { IfOk result (λ next. LineLeads (F.holds shelf.old) line
        number parts.old.items (F.reads shelf.old) next parts.new.items (F.reads shelf.new)) }
    ensures next { IfOk result (λ next. next ≤ number + file_count (line ∷ [])) }
    ensures numbered { IfOk result (λ next. NumbersUpTo number parts.old.items → NumbersUpTo next parts.new.items) }
    ensures unfailed { IfOk result (λ _. ReadsAll (shelf_change F.holds F.faults F.reads shelf.old shelf.new)) }
    ensures stopped { IfErr result (LineStopped (shelf_change F.holds F.faults F.reads shelf.old shelf.new) line number parts.old.items) }
    ensures same { F.holds shelf.new ≡ F.holds shelf.old }
{
    match line.kind {
        LineKind::Asm => {
            parts.push(read_file(alloc, shelf, Role::Source, number, line)?)?;
            Ok(number + 1)
        }
        LineKind::Include => {
            parts.push(read_file(alloc, shelf, Role::Include, number, line)?)?;
            Ok(number + 1)
        }
        LineKind::Define => {
            parts.push(value(line))?;
            Ok(number)
        }
        LineKind::Stub | LineKind::Outside | LineKind::Entry => Ok(number),
    }
}

// Reads the file that a line names.
fn read_file<F: Shelf>(
    alloc: Global,
    shelf: &mut F,
    role: Role,
    number: u32,
    line: ListLine,
) -> Result<Part, Stop>
    ensures part { IfOk result (λ part. part ≡ file_part role number line part.bytes) }
    ensures read { IfOk result (λ part. IsRead (shelf_change F.holds F.faults F.reads shelf.old shelf.new) line.name source_limit part.bytes) }
    ensures stopped { IfErr result (ReadStopped (shelf_change F.holds F.faults F.reads shelf.old shelf.new) line.name) }
    ensures same { F.holds shelf.new ≡ F.holds shelf.old }
{
    let bytes = read_named(alloc, shelf, line.name.as_slice(), limits::SOURCE)?;
    Ok(Part {
        role,
        file: number,
        line: 1,
        name: line.name,
        bytes,
    })
}

// The value of a macro that a line defines.
fn value(line: ListLine) -> Part
    ensures { result ≡ value_part line }
{
    Part {
        role: Role::Value,
        file: 0,
        line: line.line,
        name: line.name,
        bytes: line.rest,
    }
}
