/// What a pc-value table says of a place.
#[derive(Clone, Copy, Debug, PartialEq, Eq)]
pub enum Answer {
    /// There is no table: its offset is 0.
    Absent,
    /// The value of the run that has the place.
    Value(i32),
    /// The table ends at or before the place.
    Past,
    /// The bytes up to the place are no table.
    Bad,
}
