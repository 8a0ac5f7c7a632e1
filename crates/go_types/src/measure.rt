ghost use Rattle.std.specs.Prelude.{◌≡◌, ◌<◌, ◌≤◌, ◌+◌, ◌*◌, ◌^◌, min};
ghost use Rattle.std.specs.Int.{next_multiple_of};
ghost use Rattle.go_types.specs.Kinds.{kind_of, kinds_of, IsAligned, AreAligned};
ghost use Rattle.go_types.specs.Sizes.{size_of, align_of, end_of, widest, components_in, components_in_fields, most_size};

use crate::go_type::GoType;
use goasm_base::Name;

/// Sizes and counts are told up to here. Where one is greater, this is told.
pub const MOST_SIZE: u64 = 0x1_0000_0000;

/// What the layout of a value depends on.
#[derive(Clone, Copy, Debug, PartialEq, Eq)]
pub struct Measure {
    /// In bytes, up to `MOST_SIZE`.
    pub size: u64,
    /// 1, 2, 4 or 8.
    pub align: u64,
    /// How many parts that aren't broken down further it has, of those that take bytes; up to `MOST_SIZE`.
    pub components: u64,
}

/// What the layout of a value of the type depends on.
#[cycle(measuring)]
pub fn measure_of(kind: &GoType) -> Measure
    requires { IsAligned (kind_of kind.now) }
    ensures size { result.size ≡ min (size_of (kind_of kind.now)) most_size }
    ensures align { result.align ≡ align_of (kind_of kind.now) }
    ensures components { result.components ≡ min (components_in (kind_of kind.now)) most_size }
    ensures some { 0 < result.align }
    ensures few { result.align ≤ 8 }
{
    match kind {
        GoType::Plain { size, align } => Measure {
            size: u64::from(*size),
            align: u64::from(*align),
            components: u64::from(*size != 0),
        },
        GoType::Text | GoType::EmptyFace | GoType::Face => words(2),
        GoType::Slice => words(3),
        GoType::Complex { size } => Measure {
            size: u64::from(*size),
            align: u64::from(*size / 2),
            components: 2,
        },
        GoType::Array { count, of } => times(*count, measure_of(of)),
        GoType::Struct { fields } => measure_fields(fields),
    }
}

/// The measure of this many words of eight bytes.
fn words(count: u64) -> Measure
    requires { count ≤ 3 }
    ensures { result ≡ record { size = 8 * count; align = 8; components = count } }
{
    Measure {
        size: 8 * count,
        align: 8,
        components: count,
    }
}

fn times(count: u32, element: Measure) -> Measure
    requires size { element.size ≤ most_size }
    requires components { element.components ≤ most_size }
    ensures size { result.size ≡ min (count * element.size) most_size }
    ensures align { result.align ≡ element.align }
    ensures components { result.components ≡ min (count * element.components) most_size }
{
    let count = u64::from(count);
    Measure {
        size: (count * element.size).min(MOST_SIZE),
        align: element.align,
        components: (count * element.components).min(MOST_SIZE),
    }
}

#[cycle(measuring)]
fn measure_fields(fields: &Vec<(Name, GoType)>) -> Measure
    requires { AreAligned (kinds_of fields.now.items) }
    ensures size { result.size
        ≡ min (next_multiple_of (end_of 0 (kinds_of fields.now.items)) (widest (kinds_of fields.now.items))) most_size }
    ensures align { result.align ≡ widest (kinds_of fields.now.items) }
    ensures components { result.components ≡ min (components_in_fields (kinds_of fields.now.items)) most_size }
    ensures some { 0 < result.align }
    ensures few { result.align ≤ 8 }
{
    let mut end = 0;
    let mut align = 1;
    let mut components = 0;
    for field in fields {
        let inner = measure_of(&field.1);
        end = end_behind(end, inner);
        align = inner.align.max(align);
        components = sum(components, inner.components);
    }
    Measure {
        size: rounded(end, align),
        align,
        components,
    }
}

/// Where what has this measure ends behind what ends there, up to `MOST_SIZE`.
pub fn end_behind(end: u64, inner: Measure) -> u64
    requires end { end ≤ most_size }
    requires size { inner.size ≤ most_size }
    requires some { 0 < inner.align }
    requires few { inner.align ≤ 8 }
    ensures { result ≡ min (next_multiple_of end inner.align + inner.size) most_size }
{
    (end.next_multiple_of(inner.align) + inner.size).min(MOST_SIZE)
}

fn rounded(end: u64, align: u64) -> u64
    requires end { end ≤ most_size }
    requires some { 0 < align }
    requires few { align ≤ 8 }
    ensures { result ≡ min (next_multiple_of end align) most_size }
{
    end.next_multiple_of(align).min(MOST_SIZE)
}

fn sum(left: u64, right: u64) -> u64
    requires left { left ≤ most_size }
    requires right { right ≤ most_size }
    ensures { result ≡ min (left + right) most_size }
{
    (left + right).min(MOST_SIZE)
}
