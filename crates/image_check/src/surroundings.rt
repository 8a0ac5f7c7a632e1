ghost use Rattle.std.specs.Prelude.{◌≡◌, ◌<◌, ◌^◌, ◌++◌, ◌∷◌, [], if◌then◌else◌, length, map, IfOk, OnOk};
ghost use Rattle.std.specs.List.{range_with_len};
ghost use Rattle.std.specs.List.Sorted.{IsNonDecreasing, IsPermutation};
ghost use Rattle.elf_image.specs.Contents.{table_in};
ghost use Rattle.elf_image.specs.Image.{IsImage};
ghost use Rattle.flow_rules.specs.Placing.{around};
ghost use Rattle.image_check.specs.Surrounding.{AreSurroundings, addresses_in, around_of};
ghost use Rattle.image_rules.specs.Parts as parts;
ghost use Rattle.pclntab.specs.Func.{entry_of};
ghost use Rattle.pclntab.specs.Places.{func_count};
ghost use Rattle.pclntab.specs.Table.{IsTable};

use crate::range::text_range;
use elf_image::Image;
use flow_rules::Outside;
use goasm_base::Memory;
use pclntab::Table;
use std::alloc::Global;

/// What surrounds the functions of an image.
#[derive(Drop)]
pub struct Surroundings {
    /// The text's first address and the one behind it.
    pub text: (u64, u64),
    /// The entries of all functions, in order.
    pub entries: Vec<u64>,
    /// The addresses of the routines outside that have the stack grow, in order.
    pub growth: Vec<u64>,
    /// The addresses of all symbols outside, in order.
    pub symbols: Vec<u64>,
}

impl Surroundings {
    /// What surrounds the functions of an image. `Memory` comes only for want of memory.
    pub fn new(alloc: Global, image: &Image, table: &Table) -> Result<Self, Memory>
        requires image { IsImage image.now }
        requires short { length image.now < 2 ^ 32 }
        requires form { IsTable (table_in image.now) }
        requires table { table.now ≡ table_in image.now }
        ensures { IfOk result (λ all. AreSurroundings image.now all) }
    {
        Ok(Surroundings {
            text: text_range(image),
            entries: entries(alloc, table)?,
            growth: growth(alloc, image)?,
            symbols: symbols(alloc, image)?,
        })
    }

    /// What the flow rules see of it.
    pub fn outside(&self) -> Outside<'_>
        ensures { around result ≡ around_of self.now }
    {
        Outside {
            first: self.text.0,
            past: self.text.1,
            entries: &self.entries,
            growth: &self.growth,
        }
    }
}

// The entries of all functions, in order.
fn entries(alloc: Global, table: &Table) -> Result<Vec<u64>, Memory>
    requires { IsTable table.now }
    ensures entries { IfOk result (λ found. found.items ≡ map (entry_of table.now) (range_with_len 0 (func_count table.now))) }
    ensures ordered { IfOk result (λ found. IsNonDecreasing found.items) }
{
    let mut found = Vec::new(alloc);
    for index in 0..table.count() {
        found.push(table.at(index).entry())?;
    }
    Ok(found)
}

// The routines outside that have the stack grow, in order.
fn growth(alloc: Global, image: &Image) -> Result<Vec<u64>, Memory>
    requires image { IsImage image.now }
    requires short { length image.now < 2 ^ 32 }
    ensures found { IfOk result (λ found. IsPermutation (parts.growth_in image.now) found.items) }
    ensures ordered { IfOk result (λ found. IsNonDecreasing found.items) }
{
    let mut found = growth_routines(alloc, image)?;
    found.sort_unstable();
    Ok(found)
}

// The addresses of all symbols outside, in order.
fn symbols(alloc: Global, image: &Image) -> Result<Vec<u64>, Memory>
    requires image { IsImage image.now }
    requires short { length image.now < 2 ^ 32 }
    ensures found { IfOk result (λ found. IsPermutation (addresses_in image.now) found.items) }
    ensures ordered { IfOk result (λ found. IsNonDecreasing found.items) }
{
    let mut found = addresses(alloc, image)?;
    found.sort_unstable();
    Ok(found)
}

// The routines outside that have the stack grow, in the order of the image.
fn growth_routines(alloc: Global, image: &Image) -> Result<Vec<u64>, Memory>
    requires image { IsImage image.now }
    requires short { length image.now < 2 ^ 32 }
    ensures { IfOk result (λ found. found.items ≡ parts.growth_in image.now) }
{
    let mut found = Vec::new(alloc);
    for index in 0..u32::MAX {
        let Some(symbol) = image.outside(index) else {
            return Ok(found);
        };
        push_if(&mut found, is_growth_name(symbol.0), symbol.1)?;
    }
    Ok(found)
}

// Adds an address where the test holds.
fn push_if(found: &mut Vec<u64>, test: bool, address: u64) -> Result<(), Memory>
    ensures { OnOk result (found.new.items ≡ found.old.items ++ (if test then address ∷ [] else [])) }
{
    if test {
        found.push(address)?;
    }
    Ok(())
}

// The addresses of all symbols outside, in the order of the image.
fn addresses(alloc: Global, image: &Image) -> Result<Vec<u64>, Memory>
    requires image { IsImage image.now }
    requires short { length image.now < 2 ^ 32 }
    ensures { IfOk result (λ found. found.items ≡ addresses_in image.now) }
{
    let mut found = Vec::new(alloc);
    for index in 0..u32::MAX {
        let Some(symbol) = image.outside(index) else {
            return Ok(found);
        };
        found.push(symbol.1)?;
    }
    Ok(found)
}

// Whether it's the name of a routine that has the stack grow.
fn is_growth_name(name: &[u8]) -> bool
    ensures { result ≡ parts.is_growth_name name.now }
{
    name == b"runtime.morestack".as_slice() || name == b"runtime.morestack_noctxt".as_slice()
}
