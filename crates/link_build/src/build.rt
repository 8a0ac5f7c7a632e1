use asm_parse::Unit;
use goasm_base::{List, Name};

/// What an image is linked from.
#[derive(Debug, Drop)]
pub struct Build {
    /// Its units, in their order.
    pub units: List<Unit>,
    /// The names of its files, by the numbers that places in the units have.
    pub files: List<Name>,
    /// The names that lie outside the image, each with its address.
    pub outside: List<(Name, u64)>,
    /// The name of the function at which the program begins.
    pub entry: Name,
}
