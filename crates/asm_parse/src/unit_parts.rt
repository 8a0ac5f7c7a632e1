ghost use Rattle.std.specs.Prelude.{◌≡◌, ◌<◌, List, ℕ, Bool, All, length, map, IfOk, IfSome, MatchResult};
ghost use Rattle.goasm_base.specs.Statements.{IsValidFunction};
ghost use Rattle.asm_parse.specs.Refusals.{Gives, traversed};
ghost use Rattle.asm_parse.specs.Known.{AreFew, IsKnownBody, IsKnownValue, IsKnownData, IsKnownGlobal, most_tokens};
ghost use Rattle.asm_parse.specs.Valid.{IsValidData, IsValidGlobal};
ghost use Rattle.asm_parse.specs.Placed.{FunctionIn, BodyIn, NoIn};
ghost use Rattle.asm_parse.specs.Resolve as resolve;
ghost use Rattle.asm_parse.specs.Parse as spec;
ghost use Rattle.asm_parse.specs.Words.{IsAskable, Tells};

use crate::lines::Body;
use crate::numbering::Numbering;
use crate::parse_no::ParseNo;
use crate::progress::{PlacedData, PlacedGlobal};
use crate::resolve::{function_of, symbol_number};
use crate::unit::{DataPart, GlobalPart};
use asm_grammar::DataValue;
use goasm_base::{Bytes, Function, List as Items, Memory};
use std::alloc::Global;

/// The functions with these bodies, in their order.
pub fn functions_of<W: Fn(&[u8]) -> bool>(
    alloc: Global,
    symbols: &Numbering<'_>,
    is_word: &W,
    bodies: &[Body<'_>],
) -> Result<Items<Function>, ParseNo>
    requires askable { IsAskable (W.pre is_word.now) }
    requires few { AreFew symbols.now }
    requires known { All (IsKnownBody symbols.now most_tokens) bodies.now }
    ensures exact { (word : List ℕ → Bool) → Tells (W.post is_word.now) word → Gives (traversed (resolve.function_of word symbols.now) bodies.now) result }
    ensures valid { IfOk result (λ functions. All (IsValidFunction (length symbols.now)) functions) }
    ensures placed { (count : ℕ) → All (BodyIn count) bodies.now → MatchResult result (λ functions. All (FunctionIn count) functions) (NoIn count) }
{
    let mut functions = Vec::new(alloc);
    for body in bodies {
        let function = function_of(alloc, symbols, is_word, body)?;
        functions.push(function)?;
    }
    Ok(Items::new(functions))
}

/// What `DATA` statements say, in their order.
pub fn values_of(
    alloc: Global,
    symbols: &Numbering<'_>,
    placed: &[PlacedData<'_>],
) -> Result<Items<DataPart>, Memory>
    requires few { AreFew symbols.now }
    requires known { All (IsKnownData symbols.now) placed.now }
    ensures exact { IfOk result (λ values. values ≡ map (spec.value_of symbols.now) placed.now) }
    ensures valid { IfOk result (λ values. All (IsValidData (length symbols.now)) values) }
{
    let mut values = Vec::new(alloc);
    for data in placed {
        let value = value_of(alloc, symbols, data)?;
        values.push(value)?;
    }
    Ok(Items::new(values))
}

fn value_of(
    alloc: Global,
    symbols: &Numbering<'_>,
    placed: &PlacedData<'_>,
) -> Result<DataPart, Memory>
    requires few { AreFew symbols.now }
    requires known { IsKnownData symbols.now placed.now }
    ensures exact { IfOk result (λ part. part ≡ spec.value_of symbols.now placed.now) }
    ensures valid { IfOk result (IsValidData (length symbols.now)) }
{
    let sym = symbol_number(symbols, &placed.line.symbol);
    let address = address_in(symbols, &placed.line.value);
    let bytes = match &placed.line.value {
        DataValue::Bytes(bytes) => bytes.copy(alloc)?,
        DataValue::Address { symbol: _, off: _ } => Bytes::new(Vec::new(alloc)),
    };
    Ok(DataPart {
        sym,
        off: placed.line.off,
        bytes,
        address,
        pos: placed.pos,
    })
}

fn address_in(symbols: &Numbering<'_>, value: &DataValue<'_>) -> Option<(u32, i64)>
    requires few { AreFew symbols.now }
    requires known { IsKnownValue symbols.now value.now }
    ensures exact { result ≡ spec.address_in symbols.now value.now }
    ensures within { IfSome result (λ to. to.0 < length symbols.now) }
{
    match value {
        DataValue::Bytes(_) => None,
        DataValue::Address { symbol, off } => Some((symbol_number(symbols, symbol), *off)),
    }
}

/// What `GLOBL` statements say, in their order.
pub fn globals_of(
    alloc: Global,
    symbols: &Numbering<'_>,
    placed: &[PlacedGlobal<'_>],
) -> Result<Items<GlobalPart>, Memory>
    requires few { AreFew symbols.now }
    requires known { All (IsKnownGlobal symbols.now) placed.now }
    ensures exact { IfOk result (λ globals. globals ≡ map (spec.global_of symbols.now) placed.now) }
    ensures valid { IfOk result (λ globals. All (IsValidGlobal (length symbols.now)) globals) }
{
    let mut globals = Vec::new(alloc);
    for global in placed {
        globals.push(global_of(symbols, global))?;
    }
    Ok(Items::new(globals))
}

fn global_of(symbols: &Numbering<'_>, placed: &PlacedGlobal<'_>) -> GlobalPart
    requires few { AreFew symbols.now }
    requires known { IsKnownGlobal symbols.now placed.now }
    ensures exact { result ≡ spec.global_of symbols.now placed.now }
    ensures valid { IsValidGlobal (length symbols.now) result }
{
    GlobalPart {
        sym: symbol_number(symbols, &placed.line.symbol),
        flags: placed.line.flags,
        size: placed.line.size,
        pos: placed.pos,
    }
}
