use thiserror::Error;

/// Why bytes are no image: the first fault in the order in which an image is read, with its place in the bytes.
#[derive(Clone, Copy, Debug, PartialEq, Eq, Error)]
pub enum ImageNo {
    /// The header is cut short, at the length, or a field of it isn't as the profile says.
    #[error("I1 at {0}")]
    I1(u64),
    /// A program header, a section header, the place of the section headers, a gap or the names of the sections isn't
    /// as the profile says.
    #[error("I2 at {0}")]
    I2(u64),
    /// A symbol, the number of local symbols, the names of the symbols or the entry isn't as the profile says.
    #[error("I3 at {0}")]
    I3(u64),
    /// There are bytes behind the section headers.
    #[error("I4 at {0}")]
    I4(u64),
}
