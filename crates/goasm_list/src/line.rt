use goasm_base::{Bytes, List, Name};

/// What a line of a build list is for.
#[derive(Clone, Copy, Debug, PartialEq, Eq)]
pub enum LineKind {
    /// `asm F`: the assembly source F.
    Asm,
    /// `stub F`: the Go file F, whose declarations the sources are held against. It can't be read yet, so such a
    /// line is refused.
    Stub,
    /// `include F`: the file F, for `#include "F"` in a source.
    Include,
    /// `define N V`: the macro N with the body V, which may be empty, in every source.
    Define,
    /// `outside SYMBOL ADDRESS`: a symbol that lies outside the image, at a multiple of 4 from 0x1000 to 0x3FFFFC.
    Outside,
    /// `entry SYMBOL`: the function at which the image begins.
    Entry,
}

/// A line of a build list. A part that its kind doesn't have is empty or 0.
#[derive(Debug, Drop)]
pub struct ListLine {
    /// Its number in the file, from 1.
    pub line: u32,
    /// What it is for.
    pub kind: LineKind,
    /// The file, macro or symbol that it names.
    pub name: Name,
    /// The body of a macro: the rest of the line, from its first byte on that isn't a space.
    pub rest: Bytes,
    /// The address of an outside symbol.
    pub at: u64,
}

/// What a build takes, line by line. Blank lines and comments aren't in it.
#[derive(Debug, Drop)]
pub struct BuildList {
    /// The lines in the order of the file.
    pub lines: List<ListLine>,
}
