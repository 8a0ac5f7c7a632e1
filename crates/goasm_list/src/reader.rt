ghost use Rattle.std.specs.Prelude.{◌≡◌, [], ◌∷◌, ◌++◌, false, IfOk};
ghost use Rattle.goasm_list.specs.Form.{form_of};
ghost use Rattle.goasm_list.specs.Rules as rules_of;
ghost use Rattle.goasm_list.specs.Rules.{is_excess};
ghost use Rattle.goasm_list.specs.Sound.{IsWhole, IsSound};
ghost use Rattle.goasm_list.specs.Lists.{line_of};
ghost use Rattle.goasm_list.specs.Views.{parts_in};
ghost use Rattle.goasm_list.specs.Reader.{Follows};

use crate::fault::ListNo;
use crate::form::{Draft, Reading, read_text};
use crate::line::{LineKind, ListLine};
use goasm_base::{Bytes, Memory, Name, NameSet};
use std::alloc::Global;
use std::marker::Model;

// How many files a list may name.
const MOST_FILES: u32 = 1000;

/// The lines of a list up to some place. Contracts see the lines alone.
#[derive(Drop)]
pub struct Reader<'a> {
    lines: Vec<ListLine>,
    // The names of the `outside` lines.
    outside: NameSet<'a>,
    // How many of the lines name files.
    files: u32,
    // Whether one of the lines is an `entry`.
    entry: bool,
}

impl<'a> Model for Reader<'a> {
    ghost use Rattle.std.specs.Prelude.{List};
    ghost use Rattle.goasm_list.specs.declared.line.ListLine.{ListLine};
    ghost use Rattle.goasm_list.specs.Reader.{Keeps};

    ghost Value = { List ListLine };

    ghost view = { λ r. r.lines.items };

    ghost invariant = { λ r. Keeps r.lines.items r.outside r.files r.entry };
}

impl<'a> Reader<'a> {
    /// A reader that has read no line.
    pub fn new(alloc: Global) -> Self
        ensures { result ≡ [] }
    {
        Reader {
            lines: Vec::new(alloc),
            outside: NameSet::new(alloc),
            files: 0,
            entry: false,
        }
    }

    /// Reads the next line, which has this number. Where it is refused the number is told.
    pub fn read(self, alloc: Global, number: u32, text: &'a [u8]) -> Result<Self, ListNo>
        ensures { Follows result self.entry number (form_of text.now) }
    {
        match read_text(text) {
            Reading::Skipped => Ok(self),
            Reading::Line(draft) => {
                if is_unread(draft.kind) || self.is_excess(&draft) {
                    return Err(ListNo::Q1(number));
                }
                Ok(self.with(alloc, number, &draft)?)
            }
            Reading::Faulty => Err(ListNo::Q1(number)),
        }
    }

    /// The lines that were read.
    pub fn finish(self) -> Vec<ListLine>
        ensures lines { result.items ≡ self.entry }
        ensures sound { IsSound self.entry }
    {
        self.lines
    }

    // Whether the lines so far leave no room for this one.
    fn is_excess(&self, draft: &Draft<'a>) -> bool
        ensures { result ≡ is_excess self.now draft.now.kind draft.now.name.now }
    {
        match draft.kind {
            LineKind::Asm | LineKind::Stub | LineKind::Include => self.files >= MOST_FILES,
            LineKind::Define => false,
            LineKind::Outside => self.outside.contains(draft.name),
            LineKind::Entry => self.entry,
        }
    }

    // The same reader with one more line.
    fn with(self, alloc: Global, number: u32, draft: &Draft<'a>) -> Result<Self, Memory>
        requires room { is_excess self draft.now.kind draft.now.name.now ≡ false }
        requires whole { IsWhole (parts_in draft.now) }
        ensures { IfOk result (λ reader. reader ≡ self.entry ++ line_of number (parts_in draft.now) ∷ []) }
    {
        let Reader {
            mut lines,
            mut outside,
            mut files,
            mut entry,
        } = self;
        lines.push(made_line(alloc, number, draft)?)?;
        match draft.kind {
            LineKind::Asm | LineKind::Stub | LineKind::Include => files += 1,
            LineKind::Define => {}
            LineKind::Outside => {
                outside.insert(draft.name)?;
            }
            LineKind::Entry => entry = true,
        }
        Ok(Reader {
            lines,
            outside,
            files,
            entry,
        })
    }
}

fn made_line(alloc: Global, number: u32, draft: &Draft<'_>) -> Result<ListLine, Memory>
    ensures { IfOk result (λ line. line ≡ line_of number (parts_in draft.now)) }
{
    Ok(ListLine {
        line: number,
        kind: draft.kind,
        name: Name::from_slice(alloc, draft.name)?,
        rest: Bytes::from_slice(alloc, draft.rest)?,
        at: draft.at,
    })
}

// Stub files can't be read yet. Where they can, this rule goes.
fn is_unread(kind: LineKind) -> bool
    ensures { result ≡ rules_of.is_unread kind }
{
    matches!(kind, LineKind::Stub)
}
