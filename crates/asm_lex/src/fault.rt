ghost use Rattle.std.specs.Prelude.{◌≡◌};
ghost use Rattle.asm_lex.specs.Faults as spec;

use crate::refusal::LexNo;
use goasm_base::Pos;

/// Why a place is refused.
#[derive(Clone, Copy)]
pub enum Cause {
    NotUtf8,
    Open,
    Form,
    Stray,
}

/// A place that is refused.
#[derive(Clone, Copy)]
pub struct Fault {
    pub line: u32,
    pub cause: Cause,
}

/// The first of a fault that was found and another: by lines, and at one line the one with the lowest number.
pub fn earlier(best: Option<Fault>, fault: Fault) -> Fault
    ensures { result ≡ spec.earlier best fault }
{
    match best {
        Some(best) if !comes_before(fault, best) => best,
        _ => fault,
    }
}

fn comes_before(one: Fault, other: Fault) -> bool
    ensures { result ≡ spec.comes_before one other }
{
    one.line < other.line || (one.line == other.line && number(one.cause) < number(other.cause))
}

fn number(cause: Cause) -> u8
    ensures { result ≡ spec.number cause }
{
    match cause {
        Cause::NotUtf8 => 1,
        Cause::Open => 2,
        Cause::Form => 3,
        Cause::Stray => 4,
    }
}

pub fn refusal(file: u32, fault: Fault) -> LexNo
    ensures { result ≡ spec.refusal file fault }
{
    let pos = Pos {
        file,
        line: fault.line,
    };
    match fault.cause {
        Cause::NotUtf8 => LexNo::L1(pos),
        Cause::Open => LexNo::L2(pos),
        Cause::Form => LexNo::L3(pos),
        Cause::Stray => LexNo::L4(pos),
    }
}
