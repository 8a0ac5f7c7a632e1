ghost use Rattle.std.specs.Prelude.{◌≡◌, ◌<◌, ◌≤◌, ◌+◌, ◌^◌, length, map, All, IfOk, IfErr, Ok};
ghost use Rattle.asm_lex.specs.Form.{AreTokens};
ghost use Rattle.asm_macro.specs.Refusals.{IsFault, Refuses};
ghost use Rattle.asm_directive.specs.Names.{nothing};
ghost use Rattle.asm_macro.specs.Builds as spec;
ghost use Rattle.asm_directive.specs.LineNames.{line_names_of, token_count};
ghost use Rattle.asm_macro.specs.Builds.{greatest_file, outcome_of, Done, Refused};
ghost use Rattle.asm_macro.specs.Places.{ArePlaced, StandIn, RefusedIn, IsBelow, file_count};
ghost use Rattle.asm_directive.specs.Views.{names_of};
ghost use Rattle.asm_macro.specs.Views.{definition_of, macros_in, files_in, context_of, AreBuiltIn};

use crate::built_in::Rows;
use crate::files::{Environment, Included, Progress, read_file};
use crate::limits::Limits;
use crate::macros::{Macro, Macros};
use crate::refusal::MacroNo;
use crate::work::Produced;
use asm_directive::{NameMap, line_names};
use asm_lex::Tokens;
use goasm_base::{List, Memory, Name, Pos};
use std::alloc::Global;

pub const LIMITS: Limits = Limits {
    tokens: 4_000_000,
    uses: 4_000_000,
    nesting: 100,
};

/// The tokens of each source with its macros, conditions and inclusions carried out.
///
/// The sources are expanded one after the other. Each begins with the macros of `defines` alone, a name and the
/// tokens of its value; `includes` are the files that `#include` finds by their names. They are refused exactly where
/// something in them is, with the first refusal by statements in the order in which they are read, and at one
/// statement the one with the lowest number. Only want of memory may come in place of any answer.
///
/// A result or a refusal stands in a file of the build or one that `#line` names, and a result on a line of at most
/// 2^31 - 2, where the tokens handed in do.
pub fn expand<'a>(
    alloc: Global,
    sources: &[Tokens<'a>],
    includes: &[(Name, Tokens<'a>)],
    defines: &[(Name, Tokens<'a>)],
) -> Result<Vec<Tokens<'a>>, MacroNo>
    requires sources { All AreTokens sources.now }
    requires includes { All (λ include. AreTokens include.1) includes.now }
    requires defines { All (λ define. AreTokens define.1) defines.now }
    requires files { greatest_file sources.now includes.now defines.now + length (line_names_of sources.now includes.now) < 2 ^ 32 }
    ensures expanded { IfOk result (λ all. outcome_of sources.now includes.now defines.now ≡ Done all.items) }
    ensures refused { IfErr result
        (λ no. IsFault no → outcome_of sources.now includes.now defines.now ≡ Refused no) }
    ensures form { IfOk result (λ all. All AreTokens all.items) }
    ensures few { IfOk result (λ all. token_count all.items ≤ 4000000) }
    ensures places { ArePlaced sources.now includes.now defines.now → IfOk result
        (λ all. All (StandIn (IsBelow (file_count sources.now includes.now defines.now))) all.items) }
    ensures place { ArePlaced sources.now includes.now defines.now → IfErr result
        (λ no. RefusedIn (IsBelow (file_count sources.now includes.now defines.now)) no) }
{
    let names = line_names(alloc, sources, includes)?;
    expand_named(alloc, sources, includes, defines, names.as_slice())
}

/// The same where the caller has the names in `#line` directives, as `line_names` gives them.
pub fn expand_named<'a>(
    alloc: Global,
    sources: &[Tokens<'a>],
    includes: &[(Name, Tokens<'a>)],
    defines: &[(Name, Tokens<'a>)],
    names: &[Name],
) -> Result<Vec<Tokens<'a>>, MacroNo>
    requires names { names.now ≡ line_names_of sources.now includes.now }
    requires sources { All AreTokens sources.now }
    requires includes { All (λ include. AreTokens include.1) includes.now }
    requires defines { All (λ define. AreTokens define.1) defines.now }
    requires files { greatest_file sources.now includes.now defines.now + length (line_names_of sources.now includes.now) < 2 ^ 32 }
    ensures expanded { IfOk result (λ all. outcome_of sources.now includes.now defines.now ≡ Done all.items) }
    ensures refused { IfErr result
        (λ no. IsFault no → outcome_of sources.now includes.now defines.now ≡ Refused no) }
    ensures form { IfOk result (λ all. All AreTokens all.items) }
    ensures few { IfOk result (λ all. token_count all.items ≤ 4000000) }
    ensures places { ArePlaced sources.now includes.now defines.now → IfOk result
        (λ all. All (StandIn (IsBelow (file_count sources.now includes.now defines.now))) all.items) }
    ensures place { ArePlaced sources.now includes.now defines.now → IfErr result
        (λ no. RefusedIn (IsBelow (file_count sources.now includes.now defines.now)) no) }
{
    let rows = Rows::new(alloc)?;
    expand_over(alloc, LIMITS, sources, includes, defines, names, &rows)
}

/// The same under other limits.
pub fn expand_within<'a>(
    alloc: Global,
    limits: Limits,
    sources: &[Tokens<'a>],
    includes: &[(Name, Tokens<'a>)],
    defines: &[(Name, Tokens<'a>)],
) -> Result<Vec<Tokens<'a>>, MacroNo>
    requires files { greatest_file sources.now includes.now defines.now + length (line_names_of sources.now includes.now) < 2 ^ 32 }
    ensures ok { IfOk result (λ all. spec.expansion limits sources.now includes.now defines.now ≡ Ok all.items) }
    ensures err { IfErr result (λ no. Refuses (spec.expansion limits sources.now includes.now defines.now) no) }
{
    let names = line_names(alloc, sources, includes)?;
    let rows = Rows::new(alloc)?;
    expand_over(
        alloc,
        limits,
        sources,
        includes,
        defines,
        names.as_slice(),
        &rows,
    )
}

// The same with the names in `#line` directives and the built-in files.
#[tactic(auto, unfolding(crate::specs::Builds::expansion))]
fn expand_over<'t, 'a>(
    alloc: Global,
    limits: Limits,
    sources: &'t [Tokens<'a>],
    includes: &'t [(Name, Tokens<'a>)],
    defines: &'t [(Name, Tokens<'a>)],
    names: &'t [Name],
    rows: &'t Rows<'a>,
) -> Result<Vec<Tokens<'a>>, MacroNo>
    requires files { greatest_file sources.now includes.now defines.now + length names.now < 2 ^ 32 }
    requires names { names.now ≡ line_names_of sources.now includes.now }
    requires rows { AreBuiltIn rows.now }
    ensures ok { IfOk result (λ all. spec.expansion limits sources.now includes.now defines.now ≡ Ok all.items) }
    ensures err { IfErr result (λ no. Refuses (spec.expansion limits sources.now includes.now defines.now) no) }
{
    let given = given_macros(alloc, defines)?;
    let environment = Environment {
        includes: included_files(alloc, includes)?,
        files: numbered_files(alloc, greatest_of(sources, includes, defines), names)?,
        built_in: rows,
    };
    expand_sources(alloc, limits, &environment, &given, sources)
}

// The sources one after the other.
fn expand_sources<'t, 'a>(
    alloc: Global,
    limits: Limits,
    environment: &Environment<'t, 'a>,
    given: &NameMap<'t, Macro<'t, 'a>>,
    sources: &'t [Tokens<'a>],
) -> Result<Vec<Tokens<'a>>, MacroNo>
    requires { AreBuiltIn environment.now.built_in.now }
    ensures ok { IfOk result (λ all. spec.expand_sources limits.nesting (context_of environment.now) (macros_in given.now)
        limits.tokens limits.uses sources.now ≡ Ok all.items) }
    ensures err { IfErr result (λ no. Refuses (spec.expand_sources limits.nesting (context_of environment.now) (macros_in given.now)
        limits.tokens limits.uses sources.now) no) }
{
    let mut all = Vec::new(alloc);
    let mut room = limits.tokens;
    let mut uses = limits.uses;
    for tokens in sources {
        let mut progress = Progress {
            macros: Macros::new(alloc, given),
            produced: Produced {
                out: Vec::new(alloc),
                room,
                uses,
            },
        };
        read_file(
            alloc,
            environment,
            limits.nesting,
            tokens.list.as_slice(),
            &mut progress,
        )?;
        room = progress.produced.room;
        uses = progress.produced.uses;
        all.push(Tokens {
            file: tokens.file,
            list: List::new(progress.produced.out),
        })?;
    }
    Ok(all)
}

// The macros that a build defines before its sources.
#[tactic(auto, unfolding(crate::specs::Builds::defined))]
fn given_macros<'t, 'a>(
    alloc: Global,
    defines: &'t [(Name, Tokens<'a>)],
) -> Result<NameMap<'t, Macro<'t, 'a>>, MacroNo>
    ensures ok { IfOk result (λ macros. spec.defined nothing defines.now ≡ Ok (macros_in macros)) }
    ensures err { IfErr result (λ no. Refuses (spec.defined nothing defines.now) no) }
{
    let mut macros = NameMap::new(alloc);
    for (name, tokens) in defines {
        if macros.has(name.as_slice()) {
            return Err(MacroNo::M6(first_pos(tokens)));
        }
        macros.put(name.as_slice(), value_macro(tokens))?;
    }
    Ok(macros)
}

// A macro of a value, whose body is all of it but its end.
fn value_macro<'t, 'a>(tokens: &'t Tokens<'a>) -> Macro<'t, 'a>
    ensures { definition_of result ≡ spec.value_definition tokens.now }
{
    let list = tokens.list.as_slice();
    Macro {
        parameters: None,
        body: &list[..list.len().saturating_sub(1)],
        origin: None,
    }
}

fn first_pos(tokens: &Tokens<'_>) -> Pos
    ensures { result ≡ spec.first_pos tokens.now.file tokens.now.list }
{
    match tokens.list.as_slice() {
        [] => Pos {
            file: tokens.file,
            line: 1,
        },
        [token, ..] => token.pos,
    }
}

// The files that may be included. Of several of one name the first counts.
#[tactic(auto, unfolding(crate::specs::Builds::included))]
fn included_files<'t, 'a>(
    alloc: Global,
    includes: &'t [(Name, Tokens<'a>)],
) -> Result<NameMap<'t, Included<'t, 'a>>, Memory>
    ensures { IfOk result (λ files. files_in files ≡ spec.included nothing includes.now) }
{
    let mut files = NameMap::new(alloc);
    for (name, tokens) in includes {
        let file = Included {
            tokens: tokens.list.as_slice(),
        };
        files.put_new(name.as_slice(), file)?;
    }
    Ok(files)
}

// The numbers of the files that `#line` names, which come behind the greatest other one.
#[tactic(auto, unfolding(crate::proofs::NumberLemmas::numbered_with), using(crate::proofs::NumberLemmas::numbered_is))]
fn numbered_files<'a>(
    alloc: Global,
    greatest: u32,
    names: &'a [Name],
) -> Result<NameMap<'a, u32>, Memory>
    requires { greatest + length names.now < 2 ^ 32 }
    ensures { IfOk result (λ files. names_of files ≡ spec.numbered (greatest + 1) names.now) }
{
    let mut files = NameMap::new(alloc);
    let mut number = greatest;
    for name in names {
        number += 1;
        files.put_new(name.as_slice(), number)?;
    }
    Ok(files)
}

// The greatest number of a file.
#[tactic(auto, unfolding(crate::specs::Builds::greatest_file))]
pub fn greatest_of(
    sources: &[Tokens<'_>],
    includes: &[(Name, Tokens<'_>)],
    defines: &[(Name, Tokens<'_>)],
) -> u32
    ensures { result ≡ greatest_file sources.now includes.now defines.now }
{
    let mut greatest = 0;
    for tokens in sources {
        greatest = tokens.file.max(greatest);
    }
    greatest_with(greatest_with(greatest, includes), defines)
}

fn greatest_with(most: u32, files: &[(Name, Tokens<'_>)]) -> u32
    ensures { result ≡ spec.greatest most (map (λ file. file.1.file) files.now) }
{
    let mut greatest = most;
    for (_, tokens) in files {
        greatest = tokens.file.max(greatest);
    }
    greatest
}
