/// How many bytes an instruction reads or writes where a mnemonic has an operand in memory.
#[derive(Clone, Copy, Debug, Default, PartialEq, Eq)]
pub enum Width {
    /// Each listed instruction and each row of the selection with this mnemonic that has an operand in memory accesses
    /// this many bytes of it.
    Bytes(u8),
    /// The operand's address is taken, and nothing is accessed (LEAQ).
    Address,
    /// There is no one number.
    #[default]
    Unknown,
}
