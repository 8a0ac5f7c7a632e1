ghost use Rattle.std.specs.Prelude.{◌≡◌, IfSome, IsTrue};
ghost use Rattle.std.specs.Option.{option_map};
ghost use Rattle.std.specs.Str.{is_utf8};
ghost use Rattle.goasm_list.specs.Form as spec;
ghost use Rattle.goasm_list.specs.Form.{file_parts, define_parts, outside_parts, outside_at, entry_parts, parts_of, worded_form, form_of};
ghost use Rattle.goasm_list.specs.Rules.{names_file};
ghost use Rattle.goasm_list.specs.Sound.{IsWhole, IsWholeForm};
ghost use Rattle.goasm_list.specs.Views.{parts_in, form_in};

use crate::line::LineKind;
use crate::symbols::{is_outside_address, is_symbol};
use crate::words::split_word;
use goasm_base::read_number;

/// What a line says, in the bytes of its text.
#[derive(Clone, Copy)]
pub struct Draft<'a> {
    pub kind: LineKind,
    pub name: &'a [u8],
    pub rest: &'a [u8],
    pub at: u64,
}

/// The form of a line.
#[derive(Clone, Copy)]
pub enum Reading<'a> {
    /// A blank line or a comment.
    Skipped,
    Line(Draft<'a>),
    /// None of the forms.
    Faulty,
}

/// Reads the text of a line.
#[tactic(auto, unfolding(crate::specs::Form::form_of))]
pub fn read_text(text: &[u8]) -> Reading<'_>
    ensures form { form_in result ≡ form_of text.now }
    ensures whole { IsWholeForm (form_in result) }
{
    if !is_utf8(text) {
        return Reading::Faulty;
    }
    if is_comment(text) {
        return Reading::Skipped;
    }
    if text.contains(&0) {
        return Reading::Faulty;
    }
    read_words(text)
}

#[tactic(auto, unfolding(crate::specs::Form::worded_form))]
fn read_words(text: &[u8]) -> Reading<'_>
    ensures form { form_in result ≡ worded_form text.now }
    ensures whole { IsWholeForm (form_in result) }
{
    let (word, rest) = split_word(text);
    if word.is_empty() {
        return Reading::Skipped;
    }
    let Some(kind) = kind_of(word) else {
        return Reading::Faulty;
    };
    match draft_of(kind, rest) {
        Some(draft) => Reading::Line(draft),
        None => Reading::Faulty,
    }
}

#[tactic(auto, unfolding(crate::specs::Form::kind_of))]
fn kind_of(word: &[u8]) -> Option<LineKind>
    ensures { result ≡ spec.kind_of word.now }
{
    if word == b"asm".as_slice() {
        Some(LineKind::Asm)
    } else if word == b"stub".as_slice() {
        Some(LineKind::Stub)
    } else if word == b"include".as_slice() {
        Some(LineKind::Include)
    } else if word == b"define".as_slice() {
        Some(LineKind::Define)
    } else if word == b"outside".as_slice() {
        Some(LineKind::Outside)
    } else if word == b"entry".as_slice() {
        Some(LineKind::Entry)
    } else {
        None
    }
}

#[tactic(auto, unfolding(crate::specs::Form::parts_of))]
fn draft_of(kind: LineKind, text: &[u8]) -> Option<Draft<'_>>
    ensures parts { option_map parts_in result ≡ parts_of kind text.now }
    ensures whole { IfSome result (λ draft. IsWhole (parts_in draft)) }
{
    match kind {
        LineKind::Asm | LineKind::Stub | LineKind::Include => file_draft(kind, text),
        LineKind::Define => define_draft(text),
        LineKind::Outside => outside_draft(text),
        LineKind::Entry => entry_draft(text),
    }
}

#[tactic(auto, unfolding(crate::specs::Form::file_parts))]
fn file_draft(kind: LineKind, text: &[u8]) -> Option<Draft<'_>>
    requires { IsTrue (names_file kind) }
    ensures parts { option_map parts_in result ≡ file_parts kind text.now }
    ensures whole { IfSome result (λ draft. IsWhole (parts_in draft)) }
{
    let (name, behind) = split_word(text);
    if name.is_empty() || !behind.is_empty() {
        return None;
    }
    Some(Draft {
        kind,
        name,
        rest: &[],
        at: 0,
    })
}

#[tactic(auto, unfolding(crate::specs::Form::define_parts))]
fn define_draft(text: &[u8]) -> Option<Draft<'_>>
    ensures parts { option_map parts_in result ≡ define_parts text.now }
    ensures whole { IfSome result (λ draft. IsWhole (parts_in draft)) }
{
    let (name, rest) = split_word(text);
    if name.is_empty() {
        return None;
    }
    Some(Draft {
        kind: LineKind::Define,
        name,
        rest,
        at: 0,
    })
}

#[tactic(auto, unfolding(crate::specs::Form::outside_parts))]
fn outside_draft(text: &[u8]) -> Option<Draft<'_>>
    ensures parts { option_map parts_in result ≡ outside_parts text.now }
    ensures whole { IfSome result (λ draft. IsWhole (parts_in draft)) }
{
    let (name, behind) = split_word(text);
    let (address, behind) = split_word(behind);
    if !behind.is_empty() {
        return None;
    }
    outside_from(name, read_number(address)?)
}

#[tactic(auto, unfolding(crate::specs::Form::outside_at))]
fn outside_from(name: &[u8], at: u64) -> Option<Draft<'_>>
    ensures parts { option_map parts_in result ≡ outside_at name.now at }
    ensures whole { IfSome result (λ draft. IsWhole (parts_in draft)) }
{
    if !is_symbol(name) || !is_outside_address(at) {
        return None;
    }
    Some(Draft {
        kind: LineKind::Outside,
        name,
        rest: &[],
        at,
    })
}

#[tactic(auto, unfolding(crate::specs::Form::entry_parts))]
fn entry_draft(text: &[u8]) -> Option<Draft<'_>>
    ensures parts { option_map parts_in result ≡ entry_parts text.now }
    ensures whole { IfSome result (λ draft. IsWhole (parts_in draft)) }
{
    let (name, behind) = split_word(text);
    if !is_symbol(name) || !behind.is_empty() {
        return None;
    }
    Some(Draft {
        kind: LineKind::Entry,
        name,
        rest: &[],
        at: 0,
    })
}

fn is_utf8(text: &[u8]) -> bool
    ensures { result ≡ is_utf8 text.now }
{
    match std::str::from_utf8(text) {
        Ok(_) => true,
        Err(_) => false,
    }
}

fn is_comment(text: &[u8]) -> bool
    ensures { result ≡ spec.is_comment text.now }
{
    matches!(text, [b'#', ..])
}
