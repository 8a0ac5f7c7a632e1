//! The longest files that are read, in bytes.

/// A function table.
pub const TABLE: usize = 256 << 20;

/// An image.
pub const IMAGE: usize = 64 << 20;

/// A dump.
pub const DUMP: usize = 64 << 20;

/// A file of raw code.
pub const CODE: usize = 16 << 20;

/// A build list.
pub const LIST: usize = 1 << 20;

/// A source, or a file that sources include.
pub const SOURCE: usize = 16 << 20;
