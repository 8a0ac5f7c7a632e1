ghost use Rattle.std.specs.Prelude.{◌≡◌, ℕ, [], ◌++◌, ◌+◌, ◌<◌, ◌^◌, ◌≤◌, All, length, drop, IfOk, IfErr, Ok};
ghost use Rattle.asm_directive.specs.LineNames.{line_names_of};
ghost use Rattle.asm_lex.specs.Form.{AreTokens};
ghost use Rattle.asm_macro.specs.Builds.{greatest_file, outcome_of};
ghost use Rattle.asm_macro.specs.Places.{ArePlaced, file_count};
ghost use Rattle.goasm_base.specs.Lines.{last_line};
ghost use Rattle.goasm_list.specs.Rules as list;
ghost use Rattle.goasm_list.specs.Sound.{AreWithin};
ghost use Rattle.goasm_run.specs.declared.stop.Stop.TheVariants as stops;
ghost use Rattle.goasm_run.specs.Builds.{over_outcome, over_sources, build_answer};
ghost use Rattle.goasm_run.specs.BuildsMade.{Makes, ReadsParts};
ghost use Rattle.goasm_run.specs.Changes.{shelf_change};
ghost use Rattle.goasm_run.specs.Lists.{list_plan, list_answer};
ghost use Rattle.goasm_run.specs.Parts.{ask_parts};
ghost use Rattle.goasm_run.specs.Sources.{seen};
ghost use Rattle.goasm_run.specs.SourcesLexed.{AreNumbered, AreLexed};

use crate::limits;
use crate::list::lines_of;
use crate::part::Part;
use crate::parts::read_parts;
use crate::read::read_named;
use crate::sources::{Sources, file_names, lexed};
use crate::stop::Stop;
use asm_directive::line_names;
use asm_lex::Tokens;
use asm_macro::{MacroNo, expand_named};
use goasm_base::{List, Name, Shelf};
use goasm_list::ListLine;
use goasm_text::{Refusal, line_of};
use std::alloc::Global;

/// A build after macros, inclusions and conditions.
#[derive(Drop)]
pub struct Build<'a> {
    /// The names of its files, by their numbers: those of `#line` directives come last.
    pub files: Vec<Name>,
    /// The tokens of each source.
    pub sources: Vec<Tokens<'a>>,
}

/// The parts of the build of a list: each file that the list names is read.
pub fn parts_of<F: Shelf>(alloc: Global, shelf: &mut F, list: &[u8]) -> Result<List<Part>, Stop>
    ensures { ReadsParts (shelf_change F.holds F.faults F.reads shelf.old shelf.new) (λ next. list_plan list.now (λ lines. ask_parts 1 lines [] next)) result }
{
    let bytes = read_named(alloc, shelf, list, limits::LIST)?;
    parts_in(alloc, shelf, list, bytes.as_slice())
}

// The parts that the bytes of the list name.
fn parts_in<F: Shelf>(
    alloc: Global,
    shelf: &mut F,
    name: &[u8],
    bytes: &[u8],
) -> Result<List<Part>, Stop>
    ensures { ReadsParts (shelf_change F.holds F.faults F.reads shelf.old shelf.new) (λ next. list_answer name.now (λ lines. ask_parts 1 lines [] next) bytes.now) result }
{
    let list = lines_of(alloc, name, bytes)?;
    parts_on(alloc, shelf, list.lines.into_vec())
}

// The parts that the lines of the list name.
fn parts_on<F: Shelf>(
    alloc: Global,
    shelf: &mut F,
    lines: Vec<ListLine>,
) -> Result<List<Part>, Stop>
    requires files { list.file_count lines.items ≤ 1000 }
    requires lines { AreWithin last_line lines.items }
    ensures { ReadsParts (shelf_change F.holds F.faults F.reads shelf.old shelf.new) (λ next. ask_parts 1 lines.items [] next) result }
{
    Ok(List::new(read_parts(alloc, shelf, lines)?))
}

/// The build of a list with these parts: all are lexed, and then all are expanded.
#[tactic(auto, unfolding(crate::specs::Builds::build_answer, crate::specs::Sources::file_names))]
pub fn built<'a>(alloc: Global, list: &[u8], parts: &'a [Part]) -> Result<Build<'a>, Stop>
    requires { AreNumbered parts.now }
    ensures { Makes (λ judge. build_answer judge list.now parts.now) result }
{
    let names = file_names(alloc, list, parts)?;
    let sources = lexed(alloc, names.as_slice(), parts)?;
    over_tokens(alloc, names, &sources)
}

// The build of tokens. Behind the names of files come those of `#line` directives.
#[tactic(auto, using(crate::proofs::FileLemmas::sources_formed, crate::proofs::FileLemmas::includes_formed, crate::proofs::FileLemmas::defines_formed, crate::proofs::FileLemmas::are_placed))]
fn over_tokens<'a>(alloc: Global, names: Vec<Name>, found: &Sources<'a>) -> Result<Build<'a>, Stop>
    requires lexed { AreLexed (length names.items) (seen found.now) }
    requires names { length names.items ≤ 1001 }
    requires named { 0 < length names.items }
    requires few { length found.now.sources.items + length found.now.includes.items ≤ 1000 }
    ensures { Makes (λ judge. over_sources judge names.items (Ok (seen found.now))) result }
{
    let more = line_names(alloc, found.sources.as_slice(), found.includes.as_slice())?;
    let count = names.len();
    let files = with_more(names, more)?;
    over_files(alloc, files, count, found)
}

// The build of tokens over the names of its files, of which those of `#line` directives stand behind this many.
#[tactic(auto, using(crate::proofs::FileLemmas::macro_named, crate::proofs::FileLemmas::macro_caused, crate::proofs::FileLemmas::macro_fault, crate::proofs::FileLemmas::are_expanded))]
fn over_files<'a>(
    alloc: Global,
    files: Vec<Name>,
    count: usize,
    found: &Sources<'a>,
) -> Result<Build<'a>, Stop>
    requires count { count ≤ length files.items }
    requires lines { drop count files.items ≡ line_names_of found.now.sources.items found.now.includes.items }
    requires sources { All AreTokens found.now.sources.items }
    requires includes { All (λ include. AreTokens include.1) found.now.includes.items }
    requires defines { All (λ define. AreTokens define.1) found.now.defines.items }
    requires placed { ArePlaced found.now.sources.items found.now.includes.items found.now.defines.items }
    requires room { greatest_file found.now.sources.items found.now.includes.items found.now.defines.items
        + length (line_names_of found.now.sources.items found.now.includes.items) < 2 ^ 32 }
    requires named { file_count found.now.sources.items found.now.includes.items found.now.defines.items ≤ length files.items }
    ensures { Makes (λ judge. over_outcome judge files.items
        (outcome_of (seen found.now).sources (seen found.now).includes (seen found.now).defines)) result }
{
    match expand_named(
        alloc,
        found.sources.as_slice(),
        found.includes.as_slice(),
        found.defines.as_slice(),
        names_behind(files.as_slice(), count),
    ) {
        Ok(sources) => Ok(Build { files, sources }),
        Err(MacroNo::Memory) => Err(Stop::Memory),
        Err(no) => Err(Stop::Refused(line_of(alloc, &Refusal::Macro(no), files.as_slice())?)),
    }
}

// The names behind this many others.
fn names_behind(files: &[Name], count: usize) -> &[Name]
    requires { count ≤ length files.now }
    ensures { result.now ≡ drop count files.now }
{
    &files[count..]
}

// The names with more behind them.
fn with_more(names: Vec<Name>, more: Vec<Name>) -> Result<Vec<Name>, Stop>
    ensures names { IfOk result (λ all. all.items ≡ names.items ++ more.items) }
    ensures memory { IfErr result (λ stop. stop ≡ stops.Memory) }
{
    let mut all = names;
    for name in more {
        all.push(name)?;
    }
    Ok(all)
}
