use asm_parse::Unit;
use goasm_base::Function;
use unit_listing::Laid;

/// A function that counts, with its instructions.
#[derive(Drop)]
pub struct Part<'a, I> {
    /// Its number in its unit.
    pub number: usize,
    pub function: &'a Function,
    pub laid: Laid<I>,
}

/// A unit, with the functions of it that count, in their order.
#[derive(Drop)]
pub struct UnitCode<'a, I> {
    pub unit: &'a Unit,
    pub parts: Vec<Part<'a, I>>,
}
