ghost use Rattle.std.specs.Prelude.{◌≡◌, ◌+◌, ◌^◌, ◌≤◌, length, min, sum_by};
ghost use Rattle.link_symbols.specs.Table.{names_length};

use crate::defined::Defined;
use goasm_base::Name;

// No image has so many bytes.
const MOST: u64 = 0x1_0000_0000;

/// How many bytes the names of an image's symbols take in its string table: a zero byte, and then each name with the zero
/// byte that ends it. 2^32 stands for all lengths from there on.
pub fn names_size(functions: &[Defined<'_>], values: &[Defined<'_>], outside: &[(Name, u64)]) -> u64
    ensures { result ≡ min (1 + names_length functions.now values.now outside.now) (2 ^ 32) }
{
    let size = with_defined(1, functions);
    let size = with_defined(size, values);
    with_outside(size, outside)
}

fn with_name(size: u64, name: &[u8]) -> u64
    requires { size ≤ 2 ^ 32 }
    ensures { result ≡ min (size + (length name.now + 1)) (2 ^ 32) }
{
    (size + name.len() as u64 + 1).min(MOST)
}

fn with_defined(size: u64, defined: &[Defined<'_>]) -> u64
    requires { size ≤ 2 ^ 32 }
    ensures { result ≡ min (size + sum_by (λ one. length one.name.now + 1) defined.now) (2 ^ 32) }
{
    let mut total = size;
    for one in defined {
        total = with_name(total, one.name);
    }
    total
}

fn with_outside(size: u64, outside: &[(Name, u64)]) -> u64
    requires { size ≤ 2 ^ 32 }
    ensures { result ≡ min (size + sum_by (λ one. length one.0 + 1) outside.now) (2 ^ 32) }
{
    let mut total = size;
    for (name, _) in outside {
        total = with_name(total, name.as_slice());
    }
    total
}
