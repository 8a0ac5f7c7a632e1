ghost use Rattle.std.specs.Prelude.{◌≡◌, ◌<◌, length, IfOk};
ghost use Rattle.link_build.specs.Functions.{seen};
ghost use Rattle.link_flow.specs.Named as spec;
ghost use Rattle.unit_listing.specs.Lines as lines;

use asm_parse::Symbol;
use asm_target::{Refer, To};
use goasm_base::{Memory, Name};
use link_build::Func;
use link_functions::growth_of;
use std::alloc::Global;
use unit_listing::line_at;

// The name of the symbol of this number.
fn symbol_name(symbols: &[Symbol], number: u32) -> &[u8]
    ensures { result.now ≡ lines.symbol_name symbols.now number }
{
    match symbols.get(number as usize) {
        Some(symbol) => symbol.name.as_slice(),
        None => &[],
    }
}

// The name of what a line refers to, or the function's own.
fn refer_name<'a>(symbols: &'a [Symbol], flags: u32, own: u32, refer: Option<Refer>) -> &'a [u8]
    ensures { result.now ≡ spec.refer_name symbols.now flags (lines.symbol_name symbols.now own) refer }
{
    match refer {
        Some(
            Refer {
                to: To::Symbol(sym, _),
                ..
            },
        ) => symbol_name(symbols, sym),
        Some(Refer { to: To::Grow, .. }) => growth_of(flags),
        _ => symbol_name(symbols, own),
    }
}

/// The name of what the line of this number of a function refers to: of a symbol, or of the routine that grows the stack. Where it
/// refers to a line of the function or to nothing, it's the name of the function.
pub fn name_at<I: Copy>(
    alloc: Global,
    func: &Func<'_, '_, I>,
    number: usize,
) -> Result<Name, Memory>
    requires { number < length func.now.part.now.laid.body.code }
    ensures { IfOk result (spec.IsNamed (seen func.now) number) }
{
    let laid = &func.part.laid;
    let line = line_at(laid, number);
    let symbols = func.unit.symbols.as_slice();
    let name = refer_name(symbols, laid.flags, func.part.function.sym, line.refer);
    Ok(Name::from_slice(alloc, name)?)
}
