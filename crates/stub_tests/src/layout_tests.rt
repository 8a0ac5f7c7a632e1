ghost use Rattle.std.specs.Prelude.{◌≡◌, [], map, codes, IfOk};
ghost use Rattle.std.specs.List.{AllByRecursion};
ghost use Rattle.go_types.specs.Kinds.{kind_of, plain as plain_kind, array as array_kind, structure, field, no_fields, IsSoundKind};
ghost use Rattle.go_types.specs.Signatures.{parameter_of, signature_of, IsSoundParameter, IsSoundSignature};

use crate::made::{PLACE, array, func, named, param, plain, unnamed};
use abi0_layout::{Layout, LayoutNo, lay_out};
use go_types::{Func, GoType, Param};
use goasm_base::{Bytes, Memory, Text};
use std::alloc::Global;
use std::process::Abort;

// A line for each part, with `*` before what is broken down, and the size.
fn shown(alloc: Global, layout: &Layout) -> Result<Bytes, Memory> {
    let mut text = Text::new(alloc);
    for part in layout.parts.as_slice() {
        text.push(if part.whole { b"*" } else { b"" })?;
        text.push(part.name.as_slice())?;
        text.push(if part.result { b"! " } else { b" " })?;
        text.push_unsigned(u64::from(part.off))?;
        text.push(b" ")?;
        text.push_unsigned(u64::from(part.width))?;
        text.push(b"; ")?;
    }
    text.push_unsigned(u64::from(layout.size))?;
    Ok(text.finish())
}

fn laid_out(alloc: Global, func: &Func) -> Result<Bytes, LayoutNo>
    requires { IsSoundSignature (signature_of func.now) }
{
    let layout = lay_out(alloc, func)?;
    Ok(shown(alloc, &layout)?)
}

// func Cas(ptr *uint32, old, new uint32) bool
#[test]
fn arguments_stand_in_order(rt: HostRuntime) -> Result<(), LayoutNo> {
    let alloc = rt.alloc();
    let params = three(alloc)?;
    let results = one(alloc, unnamed(plain(1, 1)))?;
    let text = laid_out(alloc, &func(alloc, params, results)?)?;
    assert_eq!(rt;
        text.as_slice(),
        b"ptr 0 8; old 8 4; new 12 4; ret! 16 1; 17".as_slice()
    );
    Ok(())
}

fn three(alloc: Global) -> Result<Vec<Param>, Memory>
    ensures { IfOk result (λ list. AllByRecursion IsSoundParameter (map parameter_of list.items)) }
{
    let mut params = Vec::new(alloc);
    params.push(param(alloc, b"ptr", plain(8, 8))?)?;
    params.push(param(alloc, b"old", plain(4, 4))?)?;
    params.push(param(alloc, b"new", plain(4, 4))?)?;
    Ok(params)
}

fn one(alloc: Global, param: Param) -> Result<Vec<Param>, Memory>
    requires { IsSoundKind (kind_of param.kind) }
    ensures { IfOk result (λ list. AllByRecursion IsSoundParameter (map parameter_of list.items)) }
{
    let mut list = Vec::new(alloc);
    list.push(param)?;
    Ok(list)
}

fn two(alloc: Global, first: Param, second: Param) -> Result<Vec<Param>, Memory>
    requires first { IsSoundKind (kind_of first.kind) }
    requires second { IsSoundKind (kind_of second.kind) }
    ensures { IfOk result (λ list. AllByRecursion IsSoundParameter (map parameter_of list.items)) }
{
    let mut list = one(alloc, first)?;
    list.push(second)?;
    Ok(list)
}

// func f(s []byte, t string) (any, error)
#[test]
fn composites_are_broken_down(rt: HostRuntime) -> Result<(), LayoutNo> {
    let alloc = rt.alloc();
    let params = two(
        alloc,
        param(alloc, b"s", GoType::Slice)?,
        param(alloc, b"t", GoType::Text)?,
    )?;
    let results = two(alloc, unnamed(GoType::EmptyFace), unnamed(GoType::Face))?;
    let text = laid_out(alloc, &func(alloc, params, results)?)?;
    assert_eq!(rt;
        text.as_slice(),
        b"*s 0 24; s_base 0 8; s_len 8 8; s_cap 16 8; *t 24 16; t_base 24 8; t_len 32 8; *ret! 40 16; ret_type! 40 8; ret_data! 48 8; *ret1! 56 16; ret1_itable! 56 8; ret1_data! 64 8; 72".as_slice()
    );
    Ok(())
}

// func f(x [2]struct { f uint8; g [0]int64; h int32 }, _ int8) complex64
#[test]
fn elements_and_fields_are_named(rt: HostRuntime) -> Result<(), LayoutNo> {
    let alloc = rt.alloc();
    let elements = array(alloc, 2, fields(alloc)?)?;
    let params = two(
        alloc,
        param(alloc, b"x", elements)?,
        param(alloc, b"_", plain(1, 1))?,
    )?;
    let results = one(alloc, unnamed(GoType::Complex { size: 8 }))?;
    let text = laid_out(alloc, &func(alloc, params, results)?)?;
    assert_eq!(rt;
        text.as_slice(),
        b"*x 0 32; *x_0 0 16; x_0_f 0 1; x_0_h 8 4; *x_1 16 16; x_1_f 16 1; x_1_h 24 4; *ret! 40 8; ret_real! 40 4; ret_imag! 44 4; 48".as_slice()
    );
    Ok(())
}

fn fields(alloc: Global) -> Result<GoType, Memory>
    ensures { IfOk result (λ made. kind_of made ≡ structure (field (codes "f") (plain_kind 1 1)
        (field (codes "g") (array_kind 0 (plain_kind 8 8)) (field (codes "h") (plain_kind 4 4) no_fields)))) }
{
    let none = array(alloc, 0, plain(8, 8))?;
    let mut fields = Vec::new(alloc);
    fields.push(named(alloc, b"f", plain(1, 1))?)?;
    fields.push(named(alloc, b"g", none)?)?;
    fields.push(named(alloc, b"h", plain(4, 4))?)?;
    Ok(GoType::Struct { fields })
}

fn refusal_of(alloc: Global, kind: GoType) -> Result<Option<LayoutNo>, Memory>
    requires { IsSoundKind (kind_of kind) }
{
    let params = one(alloc, unnamed(kind))?;
    match lay_out(alloc, &func(alloc, params, Vec::new(alloc))?) {
        Ok(_) => Ok(None),
        Err(refusal) => Ok(Some(refusal)),
    }
}

#[test]
fn large_layouts_are_refused(rt: HostRuntime) -> Result<(), Memory> {
    let alloc = rt.alloc();
    let refused = Some(LayoutNo::Y1(PLACE));
    let most = refusal_of(alloc, array(alloc, 65_536, plain(1, 1))?)?;
    assert_eq!(rt; most, None);
    let more = refusal_of(alloc, array(alloc, 65_537, plain(1, 1))?)?;
    assert_eq!(rt; more, refused);
    let widest = refusal_of(alloc, plain(0x4000_0000, 8))?;
    assert_eq!(rt; widest, None);
    let wider = refusal_of(alloc, plain(0x4000_0001, 8))?;
    assert_eq!(rt; wider, refused);
    let deep = array(alloc, u32::MAX, array(alloc, u32::MAX, plain(8, 8))?)?;
    assert_eq!(rt; refusal_of(alloc, array(alloc, u32::MAX, deep)?)?, refused);
    Ok(())
}

// Many elements that take no bytes are passed in no time.
#[test]
fn empty_elements_are_passed(rt: HostRuntime) -> Result<(), LayoutNo> {
    let alloc = rt.alloc();
    let fields = Vec::new(alloc);
    let elements = array(alloc, u32::MAX, GoType::Struct { fields })?;
    let params = one(alloc, param(alloc, b"x", elements)?)?;
    let text = laid_out(alloc, &func(alloc, params, Vec::new(alloc))?)?;
    assert_eq!(rt; text.as_slice(), b"0".as_slice());
    Ok(())
}
