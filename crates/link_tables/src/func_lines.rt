use asm_target::Line;
use goasm_base::Name;

/// A function of an image: its name, what its `TEXT` says, and its placed lines.
#[derive(Clone, Copy)]
pub struct FuncLines<'a, I> {
    /// Its name with the package's path.
    pub name: &'a Name,
    /// Its entry, in bytes from the text's address.
    pub entry: u32,
    /// The size of its arguments and results in bytes, where it is written.
    pub args: Option<u32>,
    /// The flags of its `TEXT`, as Go's `textflag.h` numbers them.
    pub flags: u32,
    /// The line of its `TEXT`.
    pub start_line: u32,
    pub lines: &'a [Line<I>],
    /// Where each line begins, in bytes from the entry.
    pub places: &'a [u32],
    /// How many bytes the lines have together.
    pub length: u32,
}
