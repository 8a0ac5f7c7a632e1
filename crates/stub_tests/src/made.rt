// Types and functions for tests, with contracts that tell enough of them for the calls under test.
ghost use Rattle.std.specs.Prelude.{◌≡◌, map, IfOk};
ghost use Rattle.std.specs.List.{AllByRecursion};
ghost use Rattle.go_types.specs.Kinds as kinds;
ghost use Rattle.go_types.specs.Kinds.{kind_of};
ghost use Rattle.go_types.specs.Signatures.{parameter_of, signature_of, IsSoundParameter, IsSoundSignature};

use go_types::{Func, GoType, Param};
use goasm_base::{List, Memory, Name, Pos};
use std::alloc::Global;

pub const PLACE: Pos = Pos { file: 3, line: 7 };

pub fn plain(size: u32, align: u32) -> GoType
    ensures { kind_of result ≡ kinds.plain size align }
{
    GoType::Plain { size, align }
}

pub fn array(alloc: Global, count: u32, of: GoType) -> Result<GoType, Memory>
    ensures { IfOk result (λ made. kind_of made ≡ kinds.array count (kind_of of)) }
{
    let of = Box::new(alloc, of)?;
    Ok(GoType::Array { count, of })
}

pub fn named(alloc: Global, name: &[u8], kind: GoType) -> Result<(Name, GoType), Memory>
    ensures { IfOk result (λ made. made ≡ (name.now, kind)) }
{
    Ok((Name::from_slice(alloc, name)?, kind))
}

pub fn param(alloc: Global, name: &[u8], kind: GoType) -> Result<Param, Memory>
    ensures { IfOk result (λ made. made.kind ≡ kind) }
{
    let name = Some(Name::from_slice(alloc, name)?);
    Ok(Param { name, kind })
}

pub fn unnamed(kind: GoType) -> Param
    ensures { result.kind ≡ kind }
{
    Param { name: None, kind }
}

pub fn func(alloc: Global, params: Vec<Param>, results: Vec<Param>) -> Result<Func, Memory>
    requires params { AllByRecursion IsSoundParameter (map parameter_of params.items) }
    requires results { AllByRecursion IsSoundParameter (map parameter_of results.items) }
    ensures { IfOk result (λ made. IsSoundSignature (signature_of made)) }
{
    Ok(Func {
        name: Name::from_slice(alloc, b"f")?,
        pos: PLACE,
        params: List::new(params),
        results: List::new(results),
    })
}
