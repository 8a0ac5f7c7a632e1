ghost use Rattle.std.specs.Prelude.{◌≡◌, ◌^◌, ◌<◌, length, IfOk};
ghost use Rattle.goasm_base.specs.Refusals.{Judges};
ghost use Rattle.goasm_list.specs.Sound.{IsSound, AreWithin};
ghost use Rattle.goasm_list.specs.Lists.{refusal_of, list_of};

use crate::fault::ListNo;
use crate::line::BuildList;
use crate::reader::Reader;
use crate::words::split_at_first;
use goasm_base::List;
use std::alloc::Global;

/// Reads a build list: lines of UTF-8, of which the last may lack its newline, each with words between spaces.
///
/// A list is refused exactly where one of its lines is, with the number of the first such line, unless memory is
/// wanting. A line is refused where it has no form, names a stub file, is a second `entry`, gives an outside name
/// that an earlier line gives, or is the 1,001st that names a file. An outside address has the form that
/// `goasm_base::read_number` reads, and is a multiple of 4 from 0x1000 to 0x3FFFFC; another address is no form.
pub fn read_list(alloc: Global, bytes: &[u8]) -> Result<BuildList, ListNo>
    requires { length bytes.now < 2 ^ 32 }
    ensures exact { Judges ListNo.Memory result (refusal_of bytes.now) }
    ensures lines { IfOk result (λ list. list.lines ≡ list_of bytes.now) }
    ensures sound { IfOk result (λ list. IsSound list.lines) }
    ensures numbers { IfOk result (λ list. AreWithin (length bytes.now) list.lines) }
{
    let mut reader = Reader::new(alloc);
    let mut rest = bytes;
    let mut number: u32 = 0;
    while !rest.is_empty() {
        let (text, behind) = split_at_first(b'\n', rest);
        number += 1;
        reader = reader.read(alloc, number, text)?;
        rest = behind;
    }
    Ok(BuildList {
        lines: List::new(reader.finish()),
    })
}
