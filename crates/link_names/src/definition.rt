/// What a symbol of a build stands for. Units are numbered in their order, from 0.
#[derive(Clone, Copy, Debug, PartialEq, Eq)]
pub enum Meaning {
    /// The function of this number in a unit.
    Function { unit: usize, number: usize },
    /// The data that the `GLOBL` of this number in a unit declares.
    Value { unit: usize, number: usize },
    /// The outside name of this number.
    Outside(usize),
}

/// What defines a symbol.
#[derive(Clone, Copy, Debug, PartialEq, Eq)]
pub struct Definition {
    /// Whether it has the flag DUPOK of Go's `textflag.h`, which allows a further definition with that flag.
    pub dupok: bool,
    pub meaning: Meaning,
}
