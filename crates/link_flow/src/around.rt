ghost use Rattle.std.specs.Prelude.{◌≡◌, ◌+◌, ◌^◌, ◌≤◌, ◌++◌, ◌∷◌, [], All, map, if◌then◌else◌, IfOk, OnOk};
ghost use Rattle.std.specs.List.Sorted.{IsNonDecreasing, IsPermutation};
ghost use Rattle.flow_rules.specs.Placing as placing;
ghost use Rattle.image_rules.specs.Parts as parts;
ghost use Rattle.link_plan.specs.Addresses.{text_address};
ghost use Rattle.link_flow.specs.Around as spec;

use flow_rules::Outside;
use goasm_base::{Memory, Name};
use link_plan::TEXT_ADDRESS;
use std::alloc::Global;

/// What surrounds the functions of an image.
#[derive(Drop)]
pub struct Around {
    /// The text's first address and the one behind it.
    pub text: (u64, u64),
    /// The entries of all functions, in order.
    pub entries: Vec<u64>,
    /// The addresses of the routines outside that have the stack grow, in order.
    pub growth: Vec<u64>,
    /// The addresses of all names outside, in order.
    pub symbols: Vec<u64>,
}

impl Around {
    /// What the flow rules see of it.
    pub fn outside(&self) -> Outside<'_>
        ensures { placing.around result ≡ spec.surroundings self.now }
    {
        Outside {
            first: self.text.0,
            past: self.text.1,
            entries: &self.entries,
            growth: &self.growth,
        }
    }
}

/// What surrounds functions that stand at these places of a text, from the address 0x400000 on, where these names lie outside. The
/// text has `text_len` bytes.
///
/// `Memory` comes only for want of memory.
pub fn surround(
    alloc: Global,
    at: &[u64],
    text_len: u64,
    outside: &[(Name, u64)],
) -> Result<Around, Memory>
    requires near { All (λ place. place ≤ 2 ^ 24) at.now }
    requires ordered { IsNonDecreasing at.now }
    requires short { text_len ≤ 2 ^ 24 }
    ensures { IfOk result (spec.IsAround at.now text_len outside.now) }
{
    Ok(Around {
        text: (TEXT_ADDRESS, TEXT_ADDRESS + text_len),
        entries: entries(alloc, at)?,
        growth: growth(alloc, outside)?,
        symbols: symbols(alloc, outside)?,
    })
}

// The entries of functions at these places.
fn entries(alloc: Global, at: &[u64]) -> Result<Vec<u64>, Memory>
    requires near { All (λ place. place ≤ 2 ^ 24) at.now }
    ensures { IfOk result (λ found. found.items ≡ map (λ place. text_address + place) at.now) }
{
    let mut found = Vec::new(alloc);
    for place in at {
        found.push(TEXT_ADDRESS + *place)?;
    }
    Ok(found)
}

// The addresses of the routines outside that have the stack grow, in order.
fn growth(alloc: Global, outside: &[(Name, u64)]) -> Result<Vec<u64>, Memory>
    ensures found { IfOk result (λ found. IsPermutation (spec.growth_of outside.now) found.items) }
    ensures ordered { IfOk result (λ found. IsNonDecreasing found.items) }
{
    let mut found = growth_routines(alloc, outside)?;
    found.sort_unstable();
    Ok(found)
}

// The addresses of all names outside, in order.
fn symbols(alloc: Global, outside: &[(Name, u64)]) -> Result<Vec<u64>, Memory>
    ensures found { IfOk result (λ found. IsPermutation (spec.addresses_of outside.now) found.items) }
    ensures ordered { IfOk result (λ found. IsNonDecreasing found.items) }
{
    let mut found = addresses(alloc, outside)?;
    found.sort_unstable();
    Ok(found)
}

// The addresses of the routines outside that have the stack grow, as they come.
fn growth_routines(alloc: Global, outside: &[(Name, u64)]) -> Result<Vec<u64>, Memory>
    ensures { IfOk result (λ found. found.items ≡ spec.growth_of outside.now) }
{
    let mut found = Vec::new(alloc);
    for name in outside {
        push_if(&mut found, is_growth_name(name.0.as_slice()), name.1)?;
    }
    Ok(found)
}

// Adds an address where the test holds.
fn push_if(found: &mut Vec<u64>, test: bool, address: u64) -> Result<(), Memory>
    ensures { OnOk result (found.new.items ≡ found.old.items ++ (if test then address ∷ [] else [])) }
{
    if test {
        found.push(address)?;
    }
    Ok(())
}

// The addresses of all names outside, as they come.
fn addresses(alloc: Global, outside: &[(Name, u64)]) -> Result<Vec<u64>, Memory>
    ensures { IfOk result (λ found. found.items ≡ spec.addresses_of outside.now) }
{
    let mut found = Vec::new(alloc);
    for name in outside {
        found.push(name.1)?;
    }
    Ok(found)
}

// Whether it's the name of a routine that has the stack grow.
fn is_growth_name(name: &[u8]) -> bool
    ensures { result ≡ parts.is_growth_name name.now }
{
    name == b"runtime.morestack".as_slice() || name == b"runtime.morestack_noctxt".as_slice()
}
