// The symbols of an image, read one by one.
ghost use Rattle.std.specs.Prelude.{◌≡◌, ℕ, ◌+◌, ◌-◌, ◌*◌, ◌^◌, ◌<◌, ◌≤◌, length, position, IfSome, Ok, Err};
ghost use Rattle.elf_image.specs.Rows.{symbol_size};
ghost use Rattle.elf_image.specs.Symbols as spec;

use crate::group::Group;
use crate::rows::Wanted::{self, Above, Any, InGroup, Is};
use crate::rows::{Row, Width, char, first_fault, half, word, xword};
use goasm_base::behind_or_empty;

/// What was read of the symbols so far.
#[derive(Clone, Copy)]
pub struct Reading {
    /// The group of the last symbol.
    pub group: Group,
    /// Which address a further function of this group may have.
    pub last: Wanted,
    /// The place of the next name among the names.
    pub place: u64,
    /// The number of local symbols, the first of all, which is none, among them.
    pub locals: u64,
    /// Whether a function begins at the entry.
    pub entered: bool,
}

/// The fields of a symbol.
pub fn symbol_rows(name: u64, info: Wanted, group: Group, address: Wanted, size: Wanted) -> [Row; 6]
    ensures { result ≡ spec.symbol_rows name info group address size }
{
    [
        word(Is(name)),
        char(info),
        char(Is(0)),
        half(Is(group.section())),
        xword(address),
        xword(size),
    ]
}

/// The first symbol, which is none.
pub fn null_symbol() -> [Row; 6]
    ensures { result ≡ spec.null_symbol }
{
    [
        word(Is(0)),
        char(Is(0)),
        char(Is(0)),
        half(Is(0)),
        xword(Is(0)),
        xword(Is(0)),
    ]
}

/// Before the first symbol.
pub fn first_reading() -> Reading
    ensures { result ≡ spec.first_reading }
{
    Reading {
        group: Group::LocalFunctions,
        last: Any,
        place: 1,
        locals: 1,
        entered: false,
    }
}

/// The group of the symbol at this place.
pub fn group_at(bytes: &[u8], at: usize) -> Group
    requires { at + symbol_size ≤ length bytes.now }
    ensures { result ≡ spec.group_at bytes.now at }
{
    Group::of_info(Width::Char.number_at(bytes, at + 4)).unwrap_or(Group::Outside)
}

fn size_in(group: Group) -> Wanted
    ensures { result ≡ spec.size_in group }
{
    if group.rank() == Group::Outside.rank() {
        Is(0)
    } else {
        Any
    }
}

/// How many bytes stand before the first zero byte, if there is one.
pub fn first_zero(bytes: &[u8]) -> Option<usize>
    ensures value { result ≡ position spec.is_zero bytes.now }
    ensures within { IfSome result (λ size. size < length bytes.now) }
{
    bytes.iter().position(|byte| *byte == 0)
}

// The place behind the zero byte that ends the name at a place.
#[tactic(auto, unfolding(crate::specs::Symbols::name_end))]
fn name_end(names: &[u8], place: u64) -> Option<u64>
    ensures { result ≡ spec.name_end names.now place }
{
    match first_zero(behind_or_empty(names, place as usize)) {
        Some(size) => Some(place + size as u64 + 1),
        None => None,
    }
}

impl Reading {
    fn address_in(&self, group: Group) -> Wanted
        ensures { result ≡ spec.address_in self.now group }
    {
        if group.is_function() && group.rank() == self.group.rank() {
            self.last
        } else {
            Any
        }
    }

    fn wanted_at(&self, bytes: &[u8], at: usize) -> [Row; 6]
        requires { at + symbol_size ≤ length bytes.now }
        ensures { result ≡ spec.wanted_at bytes.now self.now at }
    {
        let group = group_at(bytes, at);
        symbol_rows(
            self.place,
            InGroup(self.group),
            group,
            self.address_in(group),
            size_in(group),
        )
    }

    fn behind(&self, bytes: &[u8], entry: u64, at: usize, place: u64) -> Reading
        requires long { at + symbol_size ≤ length bytes.now }
        requires locals { self.now.locals < 2 ^ 63 }
        ensures { result ≡ spec.reading_behind bytes.now entry self.now at place }
    {
        let group = group_at(bytes, at);
        let address = Width::Xword.number_at(bytes, at + 8);
        Reading {
            group,
            last: Above(address),
            place,
            locals: self.locals + u64::from(group.is_local()),
            entered: self.entered || (group.is_function() && address == entry),
        }
    }

    /// Reads the symbol at a place, and says what is known behind it. `None` where a field or its name isn't as it has
    /// to be.
    #[tactic(auto, unfolding(crate::specs::Symbols::symbol_read))]
    fn read(&self, names: &[u8], bytes: &[u8], entry: u64, at: usize) -> Option<Reading>
        requires long { at + symbol_size ≤ length bytes.now }
        requires locals { self.now.locals < 2 ^ 63 }
        ensures value { result ≡ spec.symbol_read names.now bytes.now entry self.now at }
        ensures locals { IfSome result (λ next. next.locals ≤ self.now.locals + 1) }
    {
        if first_fault(bytes, at, &self.wanted_at(bytes, at)).is_some() {
            return None;
        }
        let place = name_end(names, self.place)?;
        Some(self.behind(bytes, entry, at, place))
    }
}

/// Reads so many symbols from a place on; otherwise the place of the first that isn't as it has to be.
#[tactic(auto, using(crate::proofs::SymbolLemmas::reads_next))]
pub fn read_symbols(
    names: &[u8],
    bytes: &[u8],
    entry: u64,
    count: u64,
    start: u64,
) -> Result<Reading, u64>
    requires { start + symbol_size * count ≤ length bytes.now }
    ensures { result ≡ spec.symbols_read names.now bytes.now entry count spec.first_reading start }
{
    let mut reading = first_reading();
    for index in 0..count {
        let at = start + 24 * index;
        match reading.read(names, bytes, entry, at as usize) {
            Some(next) => reading = next,
            None => return Err(at),
        }
    }
    Ok(reading)
}
