ghost use Rattle.std.specs.Prelude.{◌≡◌};
ghost use Rattle.asm_grammar.specs.Causes as spec;

/// What is refused of a statement that has a form.
#[derive(Clone, Copy, Debug, PartialEq, Eq)]
pub enum Cause {
    /// A label of the function stands before two of its statements.
    DuplicateLabel,
    /// An argument is named by its offset alone.
    NamelessArgument,
    /// The size of the arguments is left out, and the flags have no NOSPLIT.
    ArgumentSizeMissing,
    /// A `DATA` doesn't stand above the one before it of the same symbol.
    DataOrder,
    /// A divisor is 0.
    ZeroDivisor,
    /// Code stands outside of a function.
    OutsideText,
    /// Code is given as bytes.
    RawCode,
}

/// The lower one, by its number, of a cause that was found and another.
pub fn lower(found: Option<Cause>, cause: Cause) -> Cause
    ensures { result ≡ spec.lower found cause }
{
    match found {
        Some(other) if number(other) <= number(cause) => other,
        _ => cause,
    }
}

// The number that a refusal is printed with.
fn number(cause: Cause) -> u8
    ensures { result ≡ spec.number cause }
{
    match cause {
        Cause::DuplicateLabel => 2,
        Cause::NamelessArgument => 4,
        Cause::ArgumentSizeMissing => 5,
        Cause::DataOrder => 6,
        Cause::ZeroDivisor => 7,
        Cause::OutsideText => 9,
        Cause::RawCode => 10,
    }
}
