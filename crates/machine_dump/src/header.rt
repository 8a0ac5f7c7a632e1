ghost use Rattle.std.specs.Prelude.{◌≡◌, ◌<◌, ◌+◌, ◌≤◌, ◌^◌, length, drop, Some, None, codes, IfOk};
ghost use Rattle.machine_dump.specs.Lines.{lines_of, is_ended, line_at};
ghost use Rattle.machine_dump.specs.Form as spec;
ghost use Rattle.machine_dump.specs.Form.{field_of};
ghost use Rattle.machine_dump.specs.Faults.{Judges, unless, header_fault, machine_in, pc_in, sp_in, link_in, mem_lines};

use crate::digits::word;
use crate::fault::DumpNo;
use crate::line::split_line;
use goasm_base::behind;

/// What the first four lines say, and the text behind them.
#[derive(Clone, Copy)]
pub struct Header<'a> {
    /// The number of the machine, the ELF's `e_machine`.
    pub machine: u16,
    pub pc: u64,
    pub sp: u64,
    pub link: u64,
    pub body: &'a [u8],
}

/// Reads the first four lines.
#[tactic(auto, unfolding(crate::specs::Faults::header_fault))]
pub fn read_header(bytes: &[u8]) -> Result<Header<'_>, DumpNo>
    ensures exact { Judges result (header_fault bytes.now) }
    ensures machine { IfOk result (λ header. machine_in bytes.now ≡ Some header.machine) }
    ensures pc { IfOk result (λ header. pc_in bytes.now ≡ Some header.pc) }
    ensures sp { IfOk result (λ header. sp_in bytes.now ≡ Some header.sp) }
    ensures link { IfOk result (λ header. link_in bytes.now ≡ Some header.link) }
    ensures behind { IfOk result (λ header. lines_of header.body.now ≡ mem_lines bytes.now) }
    ensures ended { IfOk result (λ header. is_ended header.body.now ≡ is_ended bytes.now) }
    ensures shorter { IfOk result (λ header. length header.body.now + 4 ≤ length bytes.now) }
{
    let (machine, behind) = machine_line(bytes)?;
    let (pc, behind) = field_line(b"pc ", 2, behind)?;
    let (sp, behind) = field_line(b"sp ", 3, behind)?;
    let (link, body) = link_line(machine, behind)?;
    Ok(Header {
        machine,
        pc,
        sp,
        link,
        body,
    })
}

// The first line, and the text behind it.
fn machine_line(bytes: &[u8]) -> Result<(u16, &[u8]), DumpNo>
    ensures exact { Judges result (unless 1 (spec.machine_of (line_at (lines_of bytes.now) 0))) }
    ensures value { IfOk result (λ read. spec.machine_of (line_at (lines_of bytes.now) 0) ≡ Some read.0) }
    ensures behind { IfOk result (λ read. lines_of read.1.now ≡ drop 1 (lines_of bytes.now)) }
    ensures ended { IfOk result (λ read. is_ended read.1.now ≡ is_ended bytes.now) }
    ensures shorter { IfOk result (λ read. length read.1.now < length bytes.now) }
{
    let Some(split) = split_line(bytes) else {
        return Err(DumpNo::DU1(1));
    };
    match machine_of(split.0) {
        Some(machine) => Ok((machine, split.1)),
        None => Err(DumpNo::DU1(1)),
    }
}

// A line with this number that has a name and a word, and the text behind it.
fn field_line<'a>(name: &[u8], number: u32, bytes: &'a [u8]) -> Result<(u64, &'a [u8]), DumpNo>
    ensures exact { Judges result (unless number (field_of name.now (line_at (lines_of bytes.now) 0))) }
    ensures value { IfOk result (λ read. field_of name.now (line_at (lines_of bytes.now) 0) ≡ Some read.0) }
    ensures behind { IfOk result (λ read. lines_of read.1.now ≡ drop 1 (lines_of bytes.now)) }
    ensures ended { IfOk result (λ read. is_ended read.1.now ≡ is_ended bytes.now) }
    ensures shorter { IfOk result (λ read. length read.1.now < length bytes.now) }
{
    let Some(split) = split_line(bytes) else {
        return Err(DumpNo::DU1(number));
    };
    match field(name, split.0) {
        Some(value) => Ok((value, split.1)),
        None => Err(DumpNo::DU1(number)),
    }
}

// The fourth line of a dump of this machine, and the text behind it.
fn link_line(machine: u16, bytes: &[u8]) -> Result<(u64, &[u8]), DumpNo>
    ensures exact { Judges result (unless 4 (spec.link_of machine (line_at (lines_of bytes.now) 0))) }
    ensures value { IfOk result (λ read. spec.link_of machine (line_at (lines_of bytes.now) 0) ≡ Some read.0) }
    ensures behind { IfOk result (λ read. lines_of read.1.now ≡ drop 1 (lines_of bytes.now)) }
    ensures ended { IfOk result (λ read. is_ended read.1.now ≡ is_ended bytes.now) }
    ensures shorter { IfOk result (λ read. length read.1.now < length bytes.now) }
{
    let Some(split) = split_line(bytes) else {
        return Err(DumpNo::DU1(4));
    };
    match link_of(machine, split.0) {
        Some(link) => Ok((link, split.1)),
        None => Err(DumpNo::DU1(4)),
    }
}

#[tactic(auto, unfolding(crate::specs::Form::link_of))]
fn link_of(machine: u16, text: &[u8]) -> Option<u64>
    ensures { result ≡ spec.link_of machine text.now }
{
    let link = field(b"link ", text)?;
    // amd64 has no link register.
    if machine == 62 && link > 0 {
        None
    } else {
        Some(link)
    }
}

#[tactic(auto, unfolding(crate::specs::Form::machine_of))]
fn machine_of(text: &[u8]) -> Option<u16>
    ensures { result ≡ spec.machine_of text.now }
{
    if text == b"goasm-dump 1 amd64".as_slice() {
        Some(62)
    } else if text == b"goasm-dump 1 arm64".as_slice() {
        Some(183)
    } else if text == b"goasm-dump 1 riscv64".as_slice() {
        Some(243)
    } else {
        None
    }
}

/// The number of a text that begins with the name and has a word behind it, and nothing else.
#[tactic(auto, unfolding(crate::specs::Form::field_of))]
pub fn field(name: &[u8], text: &[u8]) -> Option<u64>
    ensures { result ≡ field_of name.now text.now }
{
    if text.len() < name.len() || &text[..name.len()] != name {
        return None;
    }
    word(behind(text, name.len()))
}
