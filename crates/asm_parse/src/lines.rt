ghost use Rattle.std.specs.Prelude.{◌≡◌, ◌&&◌, false, not, IfOk, OnOk};
ghost use Rattle.asm_parse.specs.Lines as spec;
ghost use Rattle.asm_parse.specs.Numbering.{has_name};

use crate::numbering::Numbering;
use asm_grammar::{CodeLine, TextLine, Word};
use goasm_base::{List, Memory, Pos};
use std::alloc::Global;
use std::marker::Model;

/// A statement of a function, as it was read.
#[derive(Drop)]
pub struct Line<'a> {
    /// Its number among the statements of its function.
    pub index: usize,
    pub pos: Pos,
    pub lock: bool,
    /// Where it stands among the places of its function; a LOCK has a place of its own before it.
    pub place: usize,
    pub code: CodeLine<'a>,
}

/// A place of a source instruction among those of its function, as `n(PC)` counts them.
#[derive(Clone, Copy, Debug, PartialEq, Eq)]
pub struct Slot {
    /// The first place behind the last PCDATA or FUNCDATA before it.
    pub start: usize,
    /// The statement that begins there; none for what a LOCK belongs to, and for a PCDATA or FUNCDATA.
    pub goal: Option<usize>,
}

/// A function, all of it read and no name of it resolved.
#[derive(Drop)]
pub struct Body<'a> {
    pub pos: Pos,
    pub head: TextLine<'a>,
    pub lines: List<Line<'a>>,
    pub slots: List<Slot>,
    pub labels: Numbering<'a>,
    /// For each label the statement before which it stands.
    pub goals: List<usize>,
}

/// The statements and labels of a function, up to some place.
#[derive(Drop)]
pub struct Lines<'a> {
    lines: Vec<Line<'a>>,
    slots: Vec<Slot>,
    start: usize,
    labels: Numbering<'a>,
    goals: Vec<usize>,
}

impl<'a> Model for Lines<'a> {
    ghost use Rattle.asm_parse.specs.Lines.{Gathered};

    ghost Value = { Gathered };

    ghost view = { λ l. record { lines = l.lines.items; slots = l.slots.items; start = l.start; labels = l.labels; goals = l.goals.items } };
}

impl<'a> Lines<'a> {
    /// None yet. It takes no memory.
    pub fn new(alloc: Global) -> Self
        ensures { result ≡ spec.none_yet }
    {
        Lines {
            lines: Vec::new(alloc),
            slots: Vec::new(alloc),
            start: 0,
            labels: Numbering::new(alloc),
            goals: Vec::new(alloc),
        }
    }

    /// Adds labels before the next statement, and says whether all of them are new.
    pub fn add_labels(&mut self, labels: &[Word<'a>]) -> Result<bool, Memory>
        ensures adds { OnOk result (self.new ≡ spec.labelled self.old labels.now) }
        ensures added { IfOk result (λ added. added ≡ spec.are_new self.old labels.now) }
    {
        let mut added = true;
        for label in labels {
            let is_new = self.add_label(label)?;
            added = both(added, is_new);
        }
        Ok(added)
    }

    // Adds a label before the next statement, and says whether it is new.
    fn add_label(&mut self, label: &Word<'a>) -> Result<bool, Memory>
        ensures adds { OnOk result (self.new ≡ spec.with_label self.old label.now) }
        ensures added { IfOk result (λ added. added ≡ not (has_name self.old.labels (label.now, false))) }
    {
        let (_, added) = self.labels.add(label.as_slice(), false)?;
        self.goals.push(self.lines.len())?;
        Ok(added)
    }

    /// Adds a statement, which has a LOCK before it or not.
    pub fn add(&mut self, pos: Pos, lock: bool, code: CodeLine<'a>) -> Result<(), Memory>
        ensures { OnOk result (self.new ≡ spec.with_line self.old pos lock code.entry) }
    {
        let index = self.lines.len();
        if lock {
            self.add_slot(Some(index))?;
        }
        let place = self.slots.len();
        if is_aside(code.op.as_slice()) {
            self.add_slot(None)?;
            self.start = self.slots.len();
        } else {
            self.add_slot(if lock { None } else { Some(index) })?;
        }
        self.lines.push(Line {
            index,
            pos,
            lock,
            place,
            code,
        })?;
        Ok(())
    }

    fn add_slot(&mut self, goal: Option<usize>) -> Result<(), Memory>
        ensures { OnOk result (self.new ≡ spec.with_slot self.old goal) }
    {
        let start = self.start;
        self.slots.push(Slot { start, goal })?;
        Ok(())
    }

    /// The function with this head.
    pub fn finish(self, pos: Pos, head: TextLine<'a>) -> Body<'a>
        ensures { result ≡ spec.body_of self.entry pos head.entry }
    {
        Body {
            pos,
            head,
            lines: List::new(self.lines),
            slots: List::new(self.slots),
            labels: self.labels,
            goals: List::new(self.goals),
        }
    }
}

/// Whether a mnemonic's statements give no instruction and stand between those that do.
pub fn is_aside(op: &[u8]) -> bool
    ensures { result ≡ spec.is_aside op.now }
{
    op == b"PCDATA".as_slice() || op == b"FUNCDATA".as_slice()
}

fn both(one: bool, other: bool) -> bool
    ensures { result ≡ (one && other) }
{
    one && other
}
