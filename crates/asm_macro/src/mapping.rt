ghost use Rattle.std.specs.Prelude.{◌≡◌, ◌+◌, min};
ghost use Rattle.goasm_base.specs.Lines.{last_line};
ghost use Rattle.asm_macro.specs.Positions as spec;

use goasm_base::{LAST_LINE, Pos};

/// What a `#line` makes of the positions behind it.
#[derive(Clone, Copy)]
pub struct Mapping {
    /// The number of the file that it names.
    pub file: u32,
    /// The number that the line behind it has.
    pub number: u32,
    /// The line on which it ends.
    pub line: u32,
}

#[tactic(auto, unfolding(crate::specs::Positions::mapped_pos))]
pub fn mapped_pos(mapping: Option<Mapping>, pos: Pos) -> Pos
    ensures { result ≡ spec.mapped_pos mapping pos }
{
    match mapping {
        None => pos,
        Some(mapping) => {
            let past = pos.line.saturating_sub(mapping.line).saturating_sub(1);
            Pos {
                file: mapping.file,
                line: line_at(mapping.number, past),
            }
        }
    }
}

fn line_at(number: u32, past: u32) -> u32
    ensures { result ≡ min (number + past) last_line }
{
    if past <= LAST_LINE && number <= LAST_LINE - past {
        number + past
    } else {
        LAST_LINE
    }
}

/// The mapping of a directive that ends on this line.
#[tactic(auto, unfolding(crate::specs::Positions::mapping_from))]
pub fn mapping_from(file: u32, number: u64, line: u32) -> Mapping
    ensures { result ≡ spec.mapping_from file number line }
{
    Mapping {
        file,
        number: line_number(number),
        line,
    }
}

fn line_number(number: u64) -> u32
    ensures { result ≡ min number last_line }
{
    if number < u64::from(LAST_LINE) {
        number as u32
    } else {
        LAST_LINE
    }
}
