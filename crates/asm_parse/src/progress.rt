ghost use Rattle.std.specs.Prelude.{◌≡◌, List, ℕ, Bool, is_some, IfOk, OnOk, MatchResult};
ghost use Rattle.asm_parse.specs.Refusals.{Gives};
ghost use Rattle.asm_parse.specs.Parse as parse;
ghost use Rattle.asm_parse.specs.Words.{IsAskable, Tells};
ghost use Rattle.asm_parse.specs.Progress as spec;
ghost use Rattle.asm_parse.specs.Known.{IsKnown, most_tokens};
ghost use Rattle.asm_parse.specs.Valid.{IsValidUnit};
ghost use Rattle.asm_parse.specs.Placed.{UnitIn, NoIn, StateIn};
ghost use Rattle.asm_parse.specs.Numbering.{place_of};
ghost use Rattle.asm_parse.specs.Lines.{are_new};

use crate::lines::{Body, Lines};
use crate::numbering::Numbering;
use crate::parse_no::ParseNo;
use crate::unit::Unit;
use crate::unit_parts::{functions_of, globals_of, values_of};
use asm_grammar::{CodeLine, DataLine, DataValue, Draft, GlobalLine, SymbolName, TextLine, Word};
use goasm_base::{Memory, Pos};
use indexmap::IndexMap;
use std::alloc::Global;
use std::marker::Model;

/// A `TEXT` and its place.
#[derive(Drop)]
pub struct Head<'a> {
    pub pos: Pos,
    pub line: TextLine<'a>,
}

/// A `DATA` and its place.
#[derive(Drop)]
pub struct PlacedData<'a> {
    pub pos: Pos,
    pub line: DataLine<'a>,
}

/// A `GLOBL` and its place.
#[derive(Drop)]
pub struct PlacedGlobal<'a> {
    pub pos: Pos,
    pub line: GlobalLine<'a>,
}

/// What was read of a source, up to some statement.
#[derive(Drop)]
pub struct Progress<'a> {
    alloc: Global,
    symbols: Numbering<'a>,
    // The offset of the last `DATA` of a symbol, by the symbol's number.
    offsets: IndexMap<usize, u32>,
    bodies: Vec<Body<'a>>,
    // The function that is being read, of which `lines` are the statements.
    head: Option<Head<'a>>,
    lines: Lines<'a>,
    // Whether a LOCK belongs to the next statement.
    locked: bool,
    values: Vec<PlacedData<'a>>,
    globals: Vec<PlacedGlobal<'a>>,
}

impl<'a> Model for Progress<'a> {
    ghost use Rattle.asm_parse.specs.Progress.{State};

    ghost Value = { State };

    ghost view = { λ p. record { symbols = p.symbols; offsets = p.offsets.entries; bodies = p.bodies.items; head = p.head; lines = p.lines; locked = p.locked; values = p.values.items; globals = p.globals.items } };
}

impl<'a> Progress<'a> {
    /// Nothing yet. It takes no memory.
    pub fn new(alloc: Global) -> Self
        ensures { result ≡ spec.nothing_yet }
    {
        Progress {
            alloc,
            symbols: Numbering::new(alloc),
            offsets: IndexMap::new(alloc),
            bodies: Vec::new(alloc),
            head: None,
            lines: Lines::new(alloc),
            locked: false,
            values: Vec::new(alloc),
            globals: Vec::new(alloc),
        }
    }

    /// Whether a function is being read.
    pub fn is_in_function(&self) -> bool
        ensures { result ≡ is_some self.now.head }
    {
        self.head.is_some()
    }

    /// Adds labels before the next statement, and says whether all of them are new.
    pub fn add_labels(&mut self, labels: &[Word<'a>]) -> Result<bool, Memory>
        ensures adds { OnOk result (self.new ≡ spec.with_labels self.old labels.now) }
        ensures added { IfOk result (λ added. added ≡ are_new self.old.lines labels.now) }
    {
        self.lines.add_labels(labels)
    }

    /// Keeps a LOCK for the next statement.
    pub fn lock(&mut self)
        ensures { self.new ≡ spec.with_lock self.old }
    {
        self.locked = true;
    }

    /// Begins a function, where the one before it ends.
    pub fn begin(&mut self, pos: Pos, line: TextLine<'a>) -> Result<(), Memory>
        ensures { OnOk result (self.new ≡ spec.begun self.old pos line.entry) }
    {
        self.end()?;
        self.name(&line.symbol)?;
        self.head = Some(Head { pos, line });
        Ok(())
    }

    /// Ends the function that is being read, if there is one.
    pub fn end(&mut self) -> Result<(), Memory>
        ensures { OnOk result (self.new ≡ spec.ended self.old) }
    {
        let lines = std::mem::replace(&mut self.lines, Lines::new(self.alloc));
        if let Some(head) = self.head.take() {
            self.bodies.push(lines.finish(head.pos, head.line))?;
        }
        Ok(())
    }

    /// Adds a statement to the function that is being read.
    pub fn add_code(&mut self, pos: Pos, code: CodeLine<'a>) -> Result<(), Memory>
        ensures { OnOk result (self.new ≡ spec.with_code self.old pos code.entry) }
    {
        self.name_all(code.operands.as_slice())?;
        self.lines.add(pos, self.locked, code)?;
        self.locked = false;
        Ok(())
    }

    /// Adds a `DATA`, and says whether it stands above the one before it of the same symbol.
    pub fn add_data(&mut self, pos: Pos, line: DataLine<'a>) -> Result<bool, Memory>
        ensures adds { OnOk result (self.new ≡ spec.with_data self.old pos line.entry) }
        ensures above { IfOk result (λ above. above ≡ spec.is_above self.old line.entry) }
    {
        let number = self.name(&line.symbol)?;
        let above = match self.offsets.get(&number) {
            Some(last) => *last < line.off,
            None => true,
        };
        self.offsets.insert(number, line.off)?;
        if let DataValue::Address { symbol, off: _ } = &line.value {
            self.name(symbol)?;
        }
        self.values.push(PlacedData { pos, line })?;
        Ok(above)
    }

    /// Adds a `GLOBL`.
    pub fn add_global(&mut self, pos: Pos, line: GlobalLine<'a>) -> Result<(), Memory>
        ensures { OnOk result (self.new ≡ spec.with_global self.old pos line.entry) }
    {
        self.name(&line.symbol)?;
        self.globals.push(PlacedGlobal { pos, line })?;
        Ok(())
    }

    /// What was read, with its names resolved.
    #[tactic(auto, unfolding(crate::specs::Parse::unit_of))]
    pub fn resolved<W: Fn(&[u8]) -> bool>(
        &self,
        alloc: Global,
        is_word: &W,
    ) -> Result<Unit, ParseNo>
        requires askable { IsAskable (W.pre is_word.now) }
        requires known { IsKnown most_tokens self.now }
        ensures exact { (word : List ℕ → Bool) → Tells (W.post is_word.now) word → Gives (parse.unit_of word self.now) result }
        ensures valid { IfOk result IsValidUnit }
        ensures placed { (count : ℕ) → StateIn count self.now → MatchResult result (UnitIn count) (NoIn count) }
    {
        let functions = functions_of(alloc, &self.symbols, is_word, self.bodies.as_slice())?;
        let values = values_of(alloc, &self.symbols, self.values.as_slice())?;
        let globals = globals_of(alloc, &self.symbols, self.globals.as_slice())?;
        Ok(Unit {
            symbols: self.symbols.symbols(alloc)?,
            functions,
            values,
            globals,
        })
    }

    // Names the symbols of operands.
    fn name_all(&mut self, operands: &[Draft<'a>]) -> Result<(), Memory>
        ensures { OnOk result (self.new ≡ spec.with_names self.old operands.now) }
    {
        for operand in operands {
            self.name_in(operand)?;
        }
        Ok(())
    }

    fn name_in(&mut self, operand: &Draft<'a>) -> Result<(), Memory>
        ensures { OnOk result (self.new ≡ spec.with_name_of self.old operand.now) }
    {
        if let Draft::Symbol {
            symbol,
            off: _,
            address: _,
        } = operand
        {
            self.name(symbol)?;
        }
        Ok(())
    }

    // Names a symbol, and gives its number.
    fn name(&mut self, symbol: &SymbolName<'a>) -> Result<usize, Memory>
        ensures names { OnOk result (self.new ≡ spec.with_symbol self.old symbol.now) }
        ensures number { IfOk result (λ number. number ≡ place_of self.old.symbols (spec.key_of symbol.now)) }
    {
        let name = unprefixed(symbol.name.as_slice());
        let added = self.symbols.add(name, symbol.fixed)?;
        Ok(added.0)
    }
}

/// A name without the package `main` before its U+00B7, which a name that begins with U+00B7 has too.
pub fn unprefixed(name: &[u8]) -> &[u8]
    ensures { result.now ≡ spec.unprefixed name.now }
{
    match name {
        [b'm', b'a', b'i', b'n', 0xC2, 0xB7, ..] => &name[4..],
        _ => name,
    }
}
