ghost use Rattle.std.specs.Prelude.{◌≡◌, ◌+◌, ◌↔◌, ◌≤◌, ◌<◌, ◌^◌, IsTrue};
ghost use Rattle.byte_layout.specs.Joined as joined;
ghost use Rattle.elf_image.specs.Layout.{image_length};
ghost use Rattle.link_symbols.specs.Table.{symbols_of};
ghost use Rattle.link_parts.specs.Image as spec;

use elf_image::{Sizes, image_size};
use goasm_base::Name;
use link_plan::TEXT_ADDRESS;
use link_symbols::{Defined, names_size};

/// How many bytes an image may have.
pub const MOST_BYTES: u64 = 0x0400_0000;

// The text begins at this place of an image's bytes; what is loaded behind it begins at a multiple of a page.
const TEXT_OFFSET: u64 = 4096;

const PAGE: u64 = 4096;

/// How many bytes a text has whose last function ends there: each function reaches up to a multiple of 16.
#[tactic(auto, unfolding(byte_layout::specs::Joined::aligned))]
pub fn text_size(end: u64) -> u32
    requires { end ≤ 2 ^ 24 }
    ensures size { result ≡ joined.aligned 16 end }
    ensures small { result ≤ 2 ^ 24 }
{
    end.next_multiple_of(16) as u32
}

/// The address of the data behind a text and a table of so many bytes.
pub fn address_behind(text: u64, table: u64) -> u64
    requires text { text ≤ 2 ^ 24 }
    requires table { table ≤ 2 ^ 26 }
    ensures address { result ≡ spec.address_behind text table }
    ensures small { result < 2 ^ 31 }
{
    let table_at = page_from(TEXT_OFFSET + text);
    TEXT_ADDRESS - TEXT_OFFSET + page_from(table_at + table)
}

// The next multiple of a page from a place on.
#[tactic(auto, unfolding(byte_layout::specs::Joined::aligned))]
fn page_from(at: u64) -> u64
    requires { at < 2 ^ 30 }
    ensures page { result ≡ joined.aligned 4096 at }
    ensures near { result < at + 4096 }
{
    at.next_multiple_of(PAGE)
}

/// Whether an image has at most 2^26 bytes, whose text, table and data have so many, and whose symbols are those of these functions,
/// this data and these outside names.
pub fn is_short(
    text: u64,
    table: u64,
    data_size: u64,
    functions: &[Defined<'_>],
    values: &[Defined<'_>],
    outside: &[(Name, u64)],
) -> bool
    requires text { text ≤ 2 ^ 24 }
    requires table { table ≤ 2 ^ 26 }
    requires data_size { data_size ≤ 2 ^ 24 }
    ensures { IsTrue result ↔ image_length (spec.sizes_with text table data_size (symbols_of functions.now values.now outside.now)) ≤ 2 ^ 26 }
{
    let strings = names_size(functions, values, outside);
    if strings > MOST_BYTES {
        return false;
    }
    let count = 1 + functions.len() as u64 + values.len() as u64 + outside.len() as u64;
    let size = image_size(Sizes {
        text,
        table,
        values: data_size,
        symbols: 24 * count,
        strings,
    });
    size <= MOST_BYTES
}
