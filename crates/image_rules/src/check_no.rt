use elf_image::ImageNo;
use flow_rules::FlowNo;
use pclntab::TableNo;

/// Why an image is refused: the first cause by function, in the order of their addresses, and in one function K2 before K4, K4 before
/// K3 and K3 before K5; K1 comes before all of these.
#[derive(Clone, Copy, Debug, PartialEq, Eq)]
pub enum CheckNo {
    /// The bytes are no image, its function table is none, or the two don't agree.
    K1(ProfileNo),
    /// The bytes of a function aren't instructions of the machine up to its padding, or there is no instruction. The address behind
    /// the last instruction that could be read, or the function's entry.
    K2(u64),
    /// A function breaks a flow rule: its first breach.
    K3(FlowNo),
    /// A depth, file or line table of a function doesn't cover exactly its instructions, isn't in its least form, changes inside an
    /// instruction, has a negative depth or line, or names no file. The function's entry.
    K4(u64),
    /// A direct call or jump goes to an address outside the text that is no outside symbol's. The instruction's address.
    K5(u64),
    /// There is no memory for what the check keeps.
    Memory,
}

/// Why an image can't be read, the first of these that stands.
#[derive(Clone, Copy, Debug, PartialEq, Eq)]
pub enum ProfileNo {
    /// The bytes are no image in the profile of ELF-64.
    Image(ImageNo),
    /// Its section `.gopclntab` is no function table; the offset counts from the section's first byte.
    Table(TableNo),
    /// The image is of another machine than the target, or its table tells of another text or of none: there is no function, the
    /// table's quantum or text start is another, entries don't rise from 0 at multiples of 16 within the text, or the last function doesn't
    /// end with it; or a symbol outside has an address of the text, the table or the values.
    Profile,
}
