ghost use Rattle.std.specs.Prelude.{◌≡◌};
ghost use Rattle.asm_grammar.specs.Operators as spec;

/// An operator between two values.
#[derive(Clone, Copy, Debug, PartialEq, Eq)]
pub enum Operator {
    Add,
    Sub,
    Or,
    Xor,
    Mul,
    Div,
    Rem,
    Shl,
    Shr,
    And,
}

/// The operators that bind equally.
#[derive(Clone, Copy, Debug, PartialEq, Eq)]
pub enum Group {
    /// `+`, `-`, `|` and `^`.
    Sum,
    /// `*`, `/`, `%`, `<<`, `>>` and `&`, which bind stronger.
    Product,
}

/// The operator of a group that a sign is.
pub fn operator_of(group: Group, sign: &[u8]) -> Option<Operator>
    ensures { result ≡ spec.operator_of group sign.now }
{
    match group {
        Group::Sum => sum_operator(sign),
        Group::Product => product_operator(sign),
    }
}

fn sum_operator(sign: &[u8]) -> Option<Operator>
    ensures { result ≡ spec.sum_operator sign.now }
{
    match sign {
        b"+" => Some(Operator::Add),
        b"-" => Some(Operator::Sub),
        b"|" => Some(Operator::Or),
        b"^" => Some(Operator::Xor),
        _ => None,
    }
}

fn product_operator(sign: &[u8]) -> Option<Operator>
    ensures { result ≡ spec.product_operator sign.now }
{
    match sign {
        b"*" => Some(Operator::Mul),
        b"/" => Some(Operator::Div),
        b"%" => Some(Operator::Rem),
        b"<<" => Some(Operator::Shl),
        b">>" => Some(Operator::Shr),
        b"&" => Some(Operator::And),
        _ => None,
    }
}

/// The value of an operation on numbers of 64 bits; `None` where the divisor is 0.
pub fn applied(operator: Operator, left: u64, right: u64) -> Option<u64>
    ensures { result ≡ spec.applied operator left right }
{
    match operator {
        Operator::Add => Some(left.wrapping_add(right)),
        Operator::Sub => Some(left.wrapping_sub(right)),
        Operator::Or => Some(left | right),
        Operator::Xor => Some(left ^ right),
        Operator::Mul => Some(left.wrapping_mul(right)),
        Operator::Div => quotient(left, right),
        Operator::Rem => remainder(left, right),
        Operator::Shl => Some(shifted_left(left, right)),
        Operator::Shr => Some(shifted_right(left, right)),
        Operator::And => Some(left & right),
    }
}

fn quotient(left: u64, right: u64) -> Option<u64>
    ensures { result ≡ spec.quotient left right }
{
    if right == 0 { None } else { Some(left / right) }
}

fn remainder(left: u64, right: u64) -> Option<u64>
    ensures { result ≡ spec.remainder left right }
{
    if right == 0 { None } else { Some(left % right) }
}

fn shifted_left(left: u64, right: u64) -> u64
    ensures { result ≡ spec.shifted_left left right }
{
    if right < 64 {
        left.wrapping_shl(right as u32)
    } else {
        0
    }
}

fn shifted_right(left: u64, right: u64) -> u64
    ensures { result ≡ spec.shifted_right left right }
{
    if right < 64 { left >> right } else { 0 }
}

/// The value behind a sign that stands before it: `+`, `-` or `~`.
pub fn prefixed(value: u64, sign: &[u8]) -> u64
    ensures { result ≡ spec.prefixed value sign.now }
{
    match sign {
        b"-" => 0u64.wrapping_sub(value),
        b"~" => !value,
        _ => value,
    }
}

/// Whether a sign may stand before a value.
pub fn is_prefix(sign: &[u8]) -> bool
    ensures { result ≡ spec.is_prefix sign.now }
{
    matches!(sign, b"+" | b"-" | b"~")
}
