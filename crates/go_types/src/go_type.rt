use goasm_base::Name;

/// A Go type, in which each name is replaced by what it names. Sizes are in bytes, those of a machine with pointers of
/// eight bytes.
#[derive(Debug, Drop)]
pub enum GoType {
    /// A type that isn't broken down: an integer, a float, a truth value, a pointer, a map, a channel, a function.
    Plain {
        /// In bytes.
        size: u32,
        /// 1, 2, 4 or 8.
        align: u32,
    },
    /// A string.
    Text,
    Slice,
    /// An interface without methods.
    EmptyFace,
    /// An interface with methods.
    Face,
    /// A complex number.
    Complex {
        /// 8 or 16.
        size: u32,
    },
    Array {
        /// How many elements it has.
        count: u32,
        /// The type of its elements.
        of: Box<GoType>,
    },
    Struct {
        /// The fields with their names, in order.
        fields: Vec<(Name, GoType)>,
    },
}
