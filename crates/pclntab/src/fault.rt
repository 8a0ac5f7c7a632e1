use thiserror::Error;

/// Why bytes are no function table: the first fault in the order in which a table is read, with the offset in
/// the bytes of the field at fault.
#[derive(Clone, Copy, Debug, PartialEq, Eq, Error)]
pub enum TableNo {
    /// The first four bytes are neither the magic number of the Go 1.20 form nor that of the Go 1.18 form.
    #[error("TB1 at {0}")]
    TB1(u64),
    /// The header is cut short, at the length, or a field of it has a value that it can't have.
    #[error("TB2 at {0}")]
    TB2(u64),
    /// An entry offset is below the one before.
    #[error("TB3 at {0}")]
    TB3(u64),
    /// An offset leads outside the bytes.
    #[error("TB4 at {0}")]
    TB4(u64),
    /// A record's depth, file or line table is no pc-value table.
    #[error("TB5 at {0}")]
    TB5(u64),
    /// No zero byte ends a function's name.
    #[error("TB6 at {0}")]
    TB6(u64),
}
