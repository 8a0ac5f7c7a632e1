ghost use Rattle.std.specs.Prelude.{◌≡◌, ◌≤◌, ◌<◌, ◌+◌, ◌-◌, ◌*◌, [], ◌∷◌, ◌++◌, false, true, map, codes, IfOk, OnOk};
ghost use Rattle.std.specs.List.{AllByRecursion};
ghost use Rattle.go_types.specs.Kinds.{kind_of, kinds_of, IsAligned, AreAligned};
ghost use Rattle.go_types.specs.Sizes.{size_of, align_of, end_of};
ghost use Rattle.abi0_layout.specs.Parts.{part, listed, within, component, two, elements, element_suffix, parts_of, parts_of_fields, EndsBy};
ghost use Rattle.abi0_layout.specs.Layouts.{most_bytes};

use go_types::{GoType, Measure, measure_of};
use goasm_base::{Bytes, List, Memory, Name, Text};
use std::alloc::Global;

/// An argument or a result, or a component of one.
#[derive(Debug, Drop)]
pub struct PartOf {
    /// As an operand names it before its offset.
    pub name: Name,
    /// In bytes from the first argument.
    pub off: u32,
    /// In bytes.
    pub width: u32,
    /// Whether its components follow it.
    pub whole: bool,
    /// Whether it's a result or a part of one.
    pub result: bool,
}

/// Where the arguments and results of a function stand.
#[derive(Debug, Drop)]
pub struct Layout {
    /// By places; what is broken down stands just before its components. What takes no bytes isn't there.
    pub parts: List<PartOf>,
    /// In bytes.
    pub size: u32,
}

/// What a value is a part of.
#[derive(Clone, Copy)]
pub struct Place<'a> {
    pub name: &'a [u8],
    /// In bytes from the first argument.
    pub off: u64,
    pub result: bool,
}

/// Appends the parts of a value of this type.
#[cycle(parts)]
pub fn push_parts(
    alloc: Global,
    to: &mut Vec<PartOf>,
    place: &Place<'_>,
    kind: &GoType,
) -> Result<(), Memory>
    requires aligned { IsAligned (kind_of kind.now) }
    requires room { place.now.off + size_of (kind_of kind.now) ≤ most_bytes }
    ensures { OnOk result (to.new.items ≡ to.old.items
        ++ map (within place.now.name.now place.now.off) (parts_of place.now.result (kind_of kind.now))) }
{
    match kind {
        GoType::Plain { size, .. } => push_listed(alloc, to, place, false, u64::from(*size)),
        GoType::Text => push_two(alloc, to, place, 16, 8, b"_base", b"_len"),
        GoType::Slice => push_slice(alloc, to, place),
        GoType::EmptyFace => push_two(alloc, to, place, 16, 8, b"_type", b"_data"),
        GoType::Face => push_two(alloc, to, place, 16, 8, b"_itable", b"_data"),
        GoType::Complex { size } => {
            let size = u64::from(*size);
            push_two(alloc, to, place, size, size / 2, b"_real", b"_imag")
        }
        GoType::Array { count, of } => push_array(alloc, to, place, *count, of),
        GoType::Struct { fields } => {
            push_listed(alloc, to, place, true, measure_within(kind).size)?;
            push_fields(alloc, to, place, fields)
        }
    }
}

fn push_slice(alloc: Global, to: &mut Vec<PartOf>, place: &Place<'_>) -> Result<(), Memory>
    requires room { place.now.off + 24 ≤ most_bytes }
    ensures { OnOk result (to.new.items ≡ to.old.items ++ map (within place.now.name.now place.now.off)
        (two place.now.result 24 8 (codes "_base") (codes "_len")
        ++ component place.now.result (codes "_cap") 16 8 ∷ [])) }
{
    push_two(alloc, to, place, 24, 8, b"_base", b"_len")?;
    push_component(alloc, to, place, b"_cap", 16, 8)
}

// The elements have the same parts, so those of one are made and then copied.
#[cycle(parts)]
#[tactic(auto, using(crate::proofs::PartLemmas::one_within, crate::proofs::PartLemmas::parts_end))]
fn push_array(
    alloc: Global,
    to: &mut Vec<PartOf>,
    place: &Place<'_>,
    count: u32,
    of: &GoType,
) -> Result<(), Memory>
    requires aligned { IsAligned (kind_of of.now) }
    requires room { place.now.off + count * size_of (kind_of of.now) ≤ most_bytes }
    ensures { OnOk result (to.new.items ≡ to.old.items ++ map (within place.now.name.now place.now.off)
        (listed (part place.now.result true (count * size_of (kind_of of.now)))
        ++ elements count 0 (size_of (kind_of of.now)) (parts_of place.now.result (kind_of of.now)))) }
{
    if count == 0 {
        return Ok(());
    }
    let size = measure_within(of).size;
    let parts = element_parts(alloc, place.result, of)?;
    push_sized_array(alloc, to, place, count, size, &parts)
}

#[cycle(parts)]
#[tactic(auto, using(crate::proofs::PartLemmas::within_nothing))]
fn element_parts(alloc: Global, is_result: bool, of: &GoType) -> Result<Vec<PartOf>, Memory>
    requires aligned { IsAligned (kind_of of.now) }
    requires room { size_of (kind_of of.now) ≤ most_bytes }
    ensures { IfOk result (λ parts. parts.items ≡ parts_of is_result (kind_of of.now)) }
{
    let mut parts = Vec::new(alloc);
    let element = Place {
        name: b"",
        off: 0,
        result: is_result,
    };
    push_parts(alloc, &mut parts, &element, of)?;
    Ok(parts)
}

#[tactic(auto, using(crate::proofs::PartLemmas::appended))]
fn push_sized_array(
    alloc: Global,
    to: &mut Vec<PartOf>,
    place: &Place<'_>,
    count: u32,
    size: u64,
    parts: &[PartOf],
) -> Result<(), Memory>
    requires within { AllByRecursion (EndsBy size) parts.now }
    requires room { place.now.off + count * size ≤ most_bytes }
    requires size { size ≤ most_bytes }
    ensures { OnOk result (to.new.items ≡ to.old.items ++ map (within place.now.name.now place.now.off)
        (listed (part place.now.result true (count * size)) ++ elements count 0 size parts.now)) }
{
    push_listed(alloc, to, place, true, u64::from(count) * size)?;
    push_elements(alloc, to, place, count, size, parts)
}

#[tactic(auto, using(crate::proofs::PartLemmas::no_elements))]
fn push_elements(
    alloc: Global,
    to: &mut Vec<PartOf>,
    place: &Place<'_>,
    count: u32,
    size: u64,
    parts: &[PartOf],
) -> Result<(), Memory>
    requires within { AllByRecursion (EndsBy size) parts.now }
    requires room { place.now.off + count * size ≤ most_bytes }
    requires size { size ≤ most_bytes }
    ensures { OnOk result (to.new.items ≡ to.old.items
        ++ map (within place.now.name.now place.now.off) (elements count 0 size parts.now)) }
{
    // There may be many elements that take no bytes.
    if parts.is_empty() {
        return Ok(());
    }
    for index in 0..count {
        push_element(alloc, to, place, index, u64::from(index) * size, parts)?;
    }
    Ok(())
}

fn element_name(alloc: Global, front: &[u8], index: u32) -> Result<Bytes, Memory>
    ensures { IfOk result (λ name. name ≡ front.now ++ element_suffix index) }
{
    let mut name = Text::new(alloc);
    name.push(front)?;
    name.push(b"_")?;
    name.push_unsigned(u64::from(index))?;
    Ok(name.finish())
}

#[tactic(auto, using(crate::proofs::PartLemmas::within_within))]
fn push_element(
    alloc: Global,
    to: &mut Vec<PartOf>,
    place: &Place<'_>,
    index: u32,
    off: u64,
    parts: &[PartOf],
) -> Result<(), Memory>
    requires within { AllByRecursion (EndsBy (most_bytes - (place.now.off + off))) parts.now }
    requires room { place.now.off + off ≤ most_bytes }
    ensures { OnOk result (to.new.items ≡ to.old.items ++ map (within place.now.name.now place.now.off)
        (map (within (element_suffix index) off) parts.now)) }
{
    let name = element_name(alloc, place.name, index)?;
    let element = Place {
        name: name.as_slice(),
        off: place.off + off,
        result: place.result,
    };
    push_copies(alloc, to, &element, parts)
}

fn push_copies(
    alloc: Global,
    to: &mut Vec<PartOf>,
    place: &Place<'_>,
    parts: &[PartOf],
) -> Result<(), Memory>
    requires within { AllByRecursion (EndsBy (most_bytes - place.now.off)) parts.now }
    requires room { place.now.off ≤ most_bytes }
    ensures { OnOk result (to.new.items ≡ to.old.items ++ map (within place.now.name.now place.now.off) parts.now) }
{
    for part in parts {
        let copy = copy_within(alloc, place, part)?;
        to.push(copy)?;
    }
    Ok(())
}

fn copy_within(alloc: Global, place: &Place<'_>, part: &PartOf) -> Result<PartOf, Memory>
    requires room { place.now.off + part.now.off ≤ most_bytes }
    ensures { IfOk result (λ copy. copy ≡ within place.now.name.now place.now.off part.now) }
{
    Ok(PartOf {
        name: joined(alloc, place.name, part.name.as_slice())?,
        off: (place.off + u64::from(part.off)) as u32,
        width: part.width,
        whole: part.whole,
        result: part.result,
    })
}

// Types go at most 100 levels down, so each type within is measured at most 100 times.
#[cycle(parts)]
fn push_fields(
    alloc: Global,
    to: &mut Vec<PartOf>,
    place: &Place<'_>,
    fields: &Vec<(Name, GoType)>,
) -> Result<(), Memory>
    requires aligned { AreAligned (kinds_of fields.now.items) }
    requires room { place.now.off + end_of 0 (kinds_of fields.now.items) ≤ most_bytes }
    ensures { OnOk result (to.new.items ≡ to.old.items ++ map (within place.now.name.now place.now.off)
        (parts_of_fields place.now.result 0 (kinds_of fields.now.items))) }
{
    let mut end = 0;
    for field in fields {
        let inner = measure_within(&field.1);
        let off = u64::next_multiple_of(end, inner.align);
        push_field(alloc, to, place, &field.0, off, &field.1)?;
        end = off + inner.size;
    }
    Ok(())
}

fn field_name(alloc: Global, front: &[u8], name: &[u8]) -> Result<Bytes, Memory>
    ensures { IfOk result (λ whole. whole ≡ front.now ++ (codes "_" ++ name.now)) }
{
    let mut whole = Text::new(alloc);
    whole.push(front)?;
    whole.push(b"_")?;
    whole.push(name)?;
    Ok(whole.finish())
}

#[cycle(parts)]
#[tactic(auto, using(crate::proofs::PartLemmas::within_within))]
fn push_field(
    alloc: Global,
    to: &mut Vec<PartOf>,
    place: &Place<'_>,
    name: &Name,
    off: u64,
    kind: &GoType,
) -> Result<(), Memory>
    requires aligned { IsAligned (kind_of kind.now) }
    requires room { place.now.off + off + size_of (kind_of kind.now) ≤ most_bytes }
    ensures { OnOk result (to.new.items ≡ to.old.items ++ map (within place.now.name.now place.now.off)
        (map (within (codes "_" ++ name.now) off) (parts_of place.now.result (kind_of kind.now)))) }
{
    let whole = field_name(alloc, place.name, name.as_slice())?;
    let field = Place {
        name: whole.as_slice(),
        off: place.off + off,
        result: place.result,
    };
    push_parts(alloc, to, &field, kind)
}

// The measure of what lies within a layout, so that its size is told exactly.
pub fn measure_within(kind: &GoType) -> Measure
    requires aligned { IsAligned (kind_of kind.now) }
    requires room { size_of (kind_of kind.now) ≤ most_bytes }
    ensures size { result.size ≡ size_of (kind_of kind.now) }
    ensures within { result.size ≤ most_bytes }
    ensures align { result.align ≡ align_of (kind_of kind.now) }
    ensures some { 0 < result.align }
    ensures few { result.align ≤ 8 }
{
    measure_of(kind)
}

// Appends a value that takes bytes.
fn push_listed(
    alloc: Global,
    to: &mut Vec<PartOf>,
    place: &Place<'_>,
    whole: bool,
    width: u64,
) -> Result<(), Memory>
    requires room { place.now.off + width ≤ most_bytes }
    ensures { OnOk result (to.new.items ≡ to.old.items
        ++ map (within place.now.name.now place.now.off) (listed (part place.now.result whole width))) }
{
    if width == 0 {
        return Ok(());
    }
    push_part(alloc, to, place, whole, width)
}

// Appends a value and its first two components, each of this width.
fn push_two(
    alloc: Global,
    to: &mut Vec<PartOf>,
    place: &Place<'_>,
    size: u64,
    width: u64,
    first: &[u8],
    second: &[u8],
) -> Result<(), Memory>
    requires room { place.now.off + size ≤ most_bytes }
    requires within { 2 * width ≤ size }
    ensures { OnOk result (to.new.items ≡ to.old.items ++ map (within place.now.name.now place.now.off)
        (two place.now.result size width first.now second.now)) }
{
    push_part(alloc, to, place, true, size)?;
    push_component(alloc, to, place, first, 0, width)?;
    push_component(alloc, to, place, second, width, width)
}

fn push_part(
    alloc: Global,
    to: &mut Vec<PartOf>,
    place: &Place<'_>,
    whole: bool,
    width: u64,
) -> Result<(), Memory>
    requires room { place.now.off + width ≤ most_bytes }
    ensures { OnOk result (to.new.items ≡ to.old.items
        ++ within place.now.name.now place.now.off (part place.now.result whole width) ∷ []) }
{
    to.push(PartOf {
        name: Name::from_slice(alloc, place.name)?,
        off: place.off as u32,
        width: width as u32,
        whole,
        result: place.result,
    })?;
    Ok(())
}

fn push_component(
    alloc: Global,
    to: &mut Vec<PartOf>,
    place: &Place<'_>,
    suffix: &[u8],
    off: u64,
    width: u64,
) -> Result<(), Memory>
    requires room { place.now.off + off + width ≤ most_bytes }
    ensures { OnOk result (to.new.items ≡ to.old.items
        ++ within place.now.name.now place.now.off (component place.now.result suffix.now off width) ∷ []) }
{
    to.push(PartOf {
        name: joined(alloc, place.name, suffix)?,
        off: (place.off + off) as u32,
        width: width as u32,
        whole: false,
        result: place.result,
    })?;
    Ok(())
}

fn joined(alloc: Global, front: &[u8], back: &[u8]) -> Result<Name, Memory>
    ensures { IfOk result (λ name. name ≡ front.now ++ back.now) }
{
    let mut name = Vec::from_slice(alloc, front)?;
    name.extend_from_slice(back)?;
    Ok(Name::new(name))
}
