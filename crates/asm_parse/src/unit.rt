use goasm_base::{Bytes, Function, List, Name, Pos};

/// What a source says: its functions and its data, with symbols by number.
#[derive(Debug, Drop)]
pub struct Unit {
    /// The symbols that it names, each once, in the order in which they come first.
    pub symbols: List<Symbol>,
    pub functions: List<Function>,
    /// What its `DATA` statements say, in their order.
    pub values: List<DataPart>,
    /// What its `GLOBL` statements say, in their order.
    pub globals: List<GlobalPart>,
}

/// A symbol of a source.
#[derive(Debug, Drop)]
pub struct Symbol {
    pub name: Name,
    /// Whether it is visible in this source alone, which `<>` behind its name says.
    pub fixed: bool,
}

/// A part of a symbol's data.
#[derive(Debug, Drop)]
pub struct DataPart {
    /// The number of its symbol.
    pub sym: u32,
    /// Where it stands in the symbol, in bytes.
    pub off: u32,
    /// Its bytes; none where it is an address.
    pub bytes: Bytes,
    /// Where it is an address, of eight bytes: the number of a symbol, and an offset from it.
    pub address: Option<(u32, i64)>,
    pub pos: Pos,
}

/// The declaration of a symbol with data.
#[derive(Debug, Drop)]
pub struct GlobalPart {
    /// The number of its symbol.
    pub sym: u32,
    /// Its flags, as Go's `textflag.h` numbers them.
    pub flags: u32,
    /// Its size in bytes.
    pub size: u64,
    pub pos: Pos,
}
