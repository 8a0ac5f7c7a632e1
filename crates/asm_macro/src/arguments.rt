ghost use Rattle.std.specs.Prelude.{◌≡◌, IfOk, IsSome, None, Some};
ghost use Rattle.asm_macro.specs.Arguments as spec;
ghost use Rattle.asm_macro.specs.Arguments.{arguments_from, arguments_behind, taken_by, fit};
ghost use Rattle.asm_directive.specs.Views.{parameters_if};
ghost use Rattle.asm_macro.specs.Views.{arguments_of, taken_as};

use crate::pending::Pending;
use crate::placed::Placed;
use asm_directive::{ParameterMap, is_end, is_sign};
use goasm_base::{List, Memory};
use std::alloc::Global;
use std::mem::replace;

/// The arguments of a use.
#[derive(Drop)]
pub struct Arguments<'a> {
    pub lists: Vec<List<Placed<'a>>>,
    /// How many levels may nest behind them.
    pub levels: usize,
}

/// Takes the arguments behind a name; nothing is taken where they are missing or open.
#[tactic(auto, unfolding(crate::specs::Arguments::arguments_behind))]
pub fn take_arguments<'a>(
    alloc: Global,
    parameters: &Option<ParameterMap<'_>>,
    name: &Placed<'a>,
    pending: &mut Pending<'a>,
) -> Result<Option<Arguments<'a>>, Memory>
    ensures taken { IfOk result
        (λ taken. taken_by (parameters_if parameters.now) name.now pending.old ≡ taken_as taken pending.new) }
    ensures kept { IfOk result (λ taken. taken ≡ None → pending.new ≡ pending.old) }
{
    if parameters.is_none() {
        return Ok(Some(Arguments {
            lists: Vec::new(alloc),
            levels: name.levels,
        }));
    }
    if !pending.begins_list() {
        return Ok(None);
    }
    let _bracket = pending.pop();
    Ok(Some(read_lists(alloc, pending)?))
}

// What a token of a list is.
#[derive(Clone, Copy)]
pub enum Part {
    // The end of the statement.
    End,
    // The end of the list.
    Close,
    // The end of an argument.
    Comma,
    // Of an argument, inside so many further brackets.
    Inside(usize),
}

#[tactic(auto, unfolding(crate::specs::Arguments::part_of))]
fn part_of(nest: usize, placed: &Placed<'_>) -> Result<Part, Memory>
    ensures { IfOk result (λ part. part ≡ spec.part_of nest placed.now) }
{
    if is_end(&placed.token) {
        return Ok(Part::End);
    }
    if is_sign(b')', &placed.token) {
        return Ok(if nest == 0 {
            Part::Close
        } else {
            Part::Inside(nest - 1)
        });
    }
    if is_sign(b'(', &placed.token) {
        return Ok(Part::Inside(nest.checked_add(1).ok_or(Memory)?));
    }
    if nest == 0 && is_sign(b',', &placed.token) {
        return Ok(Part::Comma);
    }
    Ok(Part::Inside(nest))
}

// The lists up to the closing bracket.
#[tactic(auto, unfolding(crate::proofs::ArgumentLemmas::arguments_with), using(crate::proofs::ArgumentLemmas::from_is))]
fn read_lists<'a>(alloc: Global, pending: &mut Pending<'a>) -> Result<Arguments<'a>, Memory>
    requires { IsSome (arguments_from 0 pending.old) }
    ensures { IfOk result (λ read. arguments_from 0 pending.old ≡ Some (arguments_of read pending.new)) }
{
    let mut lists = Vec::new(alloc);
    let mut list = Vec::new(alloc);
    let mut nest = 0;
    while let Some(placed) = pending.pop() {
        match part_of(nest, &placed)? {
            Part::End => break,
            Part::Close => {
                lists.push(List::new(list))?;
                return Ok(Arguments {
                    lists,
                    levels: placed.levels,
                });
            }
            Part::Comma => lists.push(List::new(replace(&mut list, Vec::new(alloc))))?,
            Part::Inside(deeper) => {
                nest = deeper;
                list.push(placed)?;
            }
        }
    }
    unreachable!()
}

/// Whether there are as many arguments as parameters.
pub fn fits(parameters: &Option<ParameterMap<'_>>, lists: &[List<Placed<'_>>]) -> bool
    ensures { result ≡ fit (parameters_if parameters.now) lists.now }
{
    match parameters {
        None => true,
        Some(parameters) => lists.len() == parameters.count
            || (parameters.count == 0 && is_blank(lists)),
    }
}

fn is_blank(lists: &[List<Placed<'_>>]) -> bool
    ensures { result ≡ spec.is_blank lists.now }
{
    match lists {
        [list] => list.as_slice().is_empty(),
        _ => false,
    }
}
