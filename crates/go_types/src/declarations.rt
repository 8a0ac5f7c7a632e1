use crate::go_type::GoType;
use goasm_base::{List, Name, Pos};

/// A parameter or a result.
#[derive(Debug, Drop)]
pub struct Param {
    /// `None` where the list names none. `_` is a name.
    pub name: Option<Name>,
    pub kind: GoType,
}

/// A function that is declared without a body.
#[derive(Debug, Drop)]
pub struct Func {
    pub name: Name,
    /// Where its declaration begins.
    pub pos: Pos,
    pub params: List<Param>,
    pub results: List<Param>,
}

/// What stub files declare.
#[derive(Debug, Drop)]
pub struct Stubs {
    /// The names of the types, each with the place where its declaration begins.
    pub types: List<(Name, Pos)>,
    pub funcs: List<Func>,
}
