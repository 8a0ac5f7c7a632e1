use goasm_base::{Bytes, List, Name};

/// What an image is written of.
#[derive(Debug, Drop)]
pub struct ImageParts {
    /// ELF's number of the machine: 62 for amd64, 183 for arm64, 243 for riscv64.
    pub machine: u16,
    /// The address of the function at which the program begins.
    pub entry: u64,
    /// The bytes of the functions, loaded at 0x400000.
    pub text: Bytes,
    /// The function table.
    pub table: Bytes,
    /// The bytes of the values.
    pub values: Bytes,
    /// The symbols: local functions by rising address, local values, then functions by rising address, values, and what
    /// lies outside.
    pub symbols: List<SymbolPart>,
}

/// A symbol of an image that is written.
#[derive(Debug, Drop)]
pub struct SymbolPart {
    /// Its name, without a zero byte.
    pub name: Name,
    /// Its address.
    pub at: u64,
    /// Its size in bytes: of a function the length of its code, 0 for what lies outside.
    pub size: u64,
    /// 0 for a function, 1 for a value, 2 for what lies outside.
    pub kind: u8,
    /// Whether only this image sees it.
    pub local: bool,
}
