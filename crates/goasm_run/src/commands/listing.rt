ghost use Rattle.std.specs.Prelude.{◌≡◌, ◌≢◌, ◌↔◌, ◌≤◌, ℕ, Bool, All, List, length, IsTrue, IfErr, IfOk, MatchResult};
ghost use Rattle.asm_lex.specs.declared.token.Tokens.{Tokens};
ghost use Rattle.asm_parse.specs.Placed as placed;
ghost use Rattle.asm_parse.specs.Placed.{UnitIn};
ghost use Rattle.asm_parse.specs.Refusals.{Gives};
ghost use Rattle.asm_parse.specs.Valid.{IsValidUnit};
ghost use Rattle.asm_parse.specs.Words.{IsAskable, Tells};
ghost use Rattle.unit_listing.specs.Kit.{kit_of};
ghost use Rattle.unit_listing.specs.declared.listing_no.ListingNo.TheVariants as listings;
ghost use Rattle.goasm_text.specs.declared.refusal.Refusal.TheVariants as refusals;
ghost use Rattle.goasm_text.specs.Lines.{HasCause, HasName};
ghost use Rattle.goasm_run.specs.declared.architecture.Architecture.{Architecture};
ghost use Rattle.goasm_run.specs.declared.architecture.Architecture.TheVariants as spoken;
ghost use Rattle.goasm_run.specs.Builds.{build_answer};
ghost use Rattle.goasm_run.specs.BuildsMade.{AreExpanded};
ghost use Rattle.goasm_run.specs.Changes.{shelf_change};
ghost use Rattle.goasm_run.specs.Endings.{Text};
ghost use Rattle.goasm_run.specs.Listing.{units_of, listing_judge, listing_plan};
ghost use Rattle.goasm_run.specs.Questions.{IsListed, told_as};
ghost use Rattle.goasm_run.specs.SourcesLexed.{AreNumbered};
ghost use Rattle.goasm_run.specs.Stops.{Settles, Answers};
ghost use Rattle.goasm_run.specs.Targets.{speaks};
ghost use Rattle.goasm_run.specs.UnitsSaid.{Serves, ListingStopped, IsUnparsed, IsUnlisted};

use crate::architecture::Architecture;
use crate::build::{built, parts_of};
use crate::part::Part;
use crate::stop::Stop;
use amd64_select::Amd64;
use asm_lex::Tokens;
use asm_parse::{ParseNo, Unit, parse};
use asm_target::Target;
use branch_size::SizeNo;
use goasm_base::{Bytes, List, Memory, Name, Shelf};
use goasm_text::{Refusal, line_of};
use obj_rewrite::RewriteNo;
use std::alloc::Global;
use unit_listing::ListingNo;

/// `listing TARGET LIST`: the instructions of each function, with their places.
pub fn listing<F: Shelf>(
    alloc: Global,
    shelf: &mut F,
    architecture: Architecture,
    list: &[u8],
) -> Result<Bytes, Stop>
    ensures { Answers (shelf_change F.holds F.faults F.reads shelf.old shelf.new) (listing_plan architecture list.now) result }
{
    let parts = parts_of(alloc, shelf, list)?;
    over_parts(alloc, architecture, list, parts.as_slice())
}

// The listing of the build of parts.
fn over_parts(
    alloc: Global,
    architecture: Architecture,
    list: &[u8],
    parts: &[Part],
) -> Result<Bytes, Stop>
    requires { AreNumbered parts.now }
    ensures { Settles (build_answer (listing_judge architecture) list.now parts.now) result }
{
    let build = built(alloc, list, parts)?;
    over_sources(
        alloc,
        architecture,
        build.files.as_slice(),
        build.sources.as_slice(),
    )
}

// The listing of sources for an architecture.
fn over_sources(
    alloc: Global,
    architecture: Architecture,
    files: &[Name],
    sources: &[Tokens<'_>],
) -> Result<Bytes, Stop>
    requires { AreExpanded files.now sources.now }
    ensures { Settles (listing_judge architecture files.now sources.now) result }
{
    match architecture {
        Architecture::Amd64 => for_target::<Amd64, _>(alloc, files, sources, is_amd64_word),
    }
}

// Whether a name is a word of amd64.
#[tactic(auto, using(crate::proofs::WordLemmas::amd64_word))]
fn is_amd64_word(name: &[u8]) -> bool
    ensures { result ≡ speaks spoken.Amd64 name.now }
{
    Amd64::is_word(name)
}

// The listing of sources for a target with these words.
fn for_target<T: Target, W: Fn(&[u8]) -> bool + Copy>(
    alloc: Global,
    files: &[Name],
    sources: &[Tokens<'_>],
    is_word: W,
) -> Result<Bytes, Stop>
    requires askable { IsAskable (W.pre is_word) }
    requires expanded { AreExpanded files.now sources.now }
    ensures { let kit = kit_of T.instructions T.fits T.MACHINE T.QUANTUM T.SHAPE T.selection T.aiming T.entry T.check T.begins in
        (architecture : Architecture) → Tells (W.post is_word) (speaks architecture) → Serves kit architecture
        → Settles (listing_judge architecture files.now sources.now) result }
{
    match units(alloc, sources, is_word) {
        Ok(units) => of_units::<T>(alloc, files, units.as_slice()),
        Err(no) => Err(unparsed(alloc, files, no)),
    }
}

// Why sources say nothing.
#[tactic(auto, using(crate::proofs::ListingLemmas::parse_caused))]
fn unparsed(alloc: Global, files: &[Name], no: ParseNo) -> Stop
    requires { HasName files.now (refusals.Parse no) }
    ensures { IsUnparsed files.now no result }
{
    match no {
        ParseNo::Memory => Stop::Memory,
        no => match line_of(alloc, &Refusal::Parse(no), files) {
            Ok(line) => Stop::Refused(line),
            Err(Memory) => Stop::Memory,
        },
    }
}

// What the sources say, or the first refusal in their order.
fn units<W: Fn(&[u8]) -> bool + Copy>(
    alloc: Global,
    sources: &[Tokens<'_>],
    is_word: W,
) -> Result<List<Unit>, ParseNo>
    requires askable { IsAskable (W.pre is_word) }
    requires few { All (λ (tokens : Tokens). length tokens.list ≤ 4000000) sources.now }
    ensures exact { (word : List ℕ → Bool) → Tells (W.post is_word) word → Gives (units_of word sources.now) result }
    ensures valid { IfOk result (λ units. All IsValidUnit units) }
    ensures placed { (count : ℕ) → All (λ (tokens : Tokens). All (placed.TokenIn count) tokens.list) sources.now
        → MatchResult result (λ units. All (UnitIn count) units) (placed.NoIn count) }
{
    let mut units = Vec::new(alloc);
    for tokens in sources {
        let unit = parse(alloc, tokens, is_word)?;
        units.push(unit)?;
    }
    Ok(List::new(units))
}

// The listing of units for a target.
fn of_units<T: Target>(alloc: Global, files: &[Name], units: &[Unit]) -> Result<Bytes, Stop>
    requires valid { All IsValidUnit units.now }
    requires placed { All (UnitIn (length files.now)) units.now }
    ensures text { let kit = kit_of T.instructions T.fits T.MACHINE T.QUANTUM T.SHAPE T.selection T.aiming T.entry T.check T.begins in
        IfOk result (λ text. IsListed kit files.now units.now (Text text)) }
    ensures stopped { let kit = kit_of T.instructions T.fits T.MACHINE T.QUANTUM T.SHAPE T.selection T.aiming T.entry T.check T.begins in
        IfErr result (ListingStopped kit files.now units.now) }
{
    match unit_listing::listing::<T>(alloc, units) {
        Ok(text) => Ok(text),
        Err(no) => Err(unlisted(alloc, files, no)),
    }
}

// Why there is no listing.
fn unlisted(alloc: Global, files: &[Name], no: ListingNo) -> Stop
    requires cause { no ≢ listings.Memory → HasCause (told_as no) }
    requires files { HasName files.now (told_as no) }
    ensures { IsUnlisted files.now no result }
{
    match no {
        ListingNo::Memory => Stop::Memory,
        no => match line_of(alloc, &refusal_of(no), files) {
            Ok(line) => Stop::Refused(line),
            Err(Memory) => Stop::Memory,
        },
    }
}

fn refusal_of(no: ListingNo) -> Refusal
    ensures { result ≡ told_as no }
{
    match no {
        ListingNo::RW1(place, total) => Refusal::Rewrite(RewriteNo::RW1(place, total)),
        ListingNo::Select(place, why) => Refusal::Rewrite(RewriteNo::Select(place, why)),
        ListingNo::B1(place, distance) => Refusal::Size(SizeNo::B1(place, distance)),
        ListingNo::Memory => Refusal::Rewrite(RewriteNo::Memory),
    }
}
