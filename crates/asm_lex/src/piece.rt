ghost use Rattle.std.specs.Prelude.{◌≡◌, ◌<◌, ◌≤◌, length, IsTrue};
ghost use Rattle.asm_lex.specs.Texts.{are_escapes};
ghost use Rattle.asm_lex.specs.Characters.{first, is_ascii_digit, quote};
ghost use Rattle.asm_lex.specs.Pieces as spec;

use crate::comments::{comment_end, line_len};
use crate::fault::Cause;
use crate::numbers::number_value;
use crate::signs::sign_len;
use crate::texts::{are_escapes, text_end};
use crate::token::Kind;
use crate::words::run_len;
use goasm_base::behind;

/// What the bytes at a place begin with.
#[derive(Clone, Copy)]
pub struct Piece {
    pub class: Class,
    /// How many bytes it takes, at least one.
    pub len: usize,
}

#[derive(Clone, Copy)]
pub enum Class {
    /// White space or a comment.
    Gap,
    /// A token.
    Part(Kind),
    /// What is refused.
    Wrong(Cause),
}

#[tactic(auto, unfolding(crate::specs::Pieces::piece_of))]
pub fn piece_of(bytes: &[u8]) -> Piece
    requires { 0 < length bytes.now }
    ensures piece { result ≡ spec.piece_of bytes.now }
    ensures some { 0 < result.len }
    ensures within { result.len ≤ length bytes.now }
{
    match bytes {
        [b' ' | b'\t' | b'\r', ..] => gap(1),
        [b'\\', b'\n', ..] => gap(2),
        [b'/', b'/', ..] => gap(line_len(bytes)),
        [b'/', b'*', ..] => comment_piece(bytes),
        _ => token_piece(bytes),
    }
}

fn gap(len: usize) -> Piece
    ensures { result ≡ spec.piece Class.Gap len }
{
    Piece {
        class: Class::Gap,
        len,
    }
}

#[tactic(auto, unfolding(crate::specs::Pieces::comment_piece))]
fn comment_piece(bytes: &[u8]) -> Piece
    requires { 2 ≤ length bytes.now }
    ensures piece { result ≡ spec.comment_piece bytes.now }
    ensures some { 0 < result.len }
    ensures within { result.len ≤ length bytes.now }
{
    match comment_end(behind(bytes, 2)) {
        Some(end) => gap(end + 2),
        None => wrong(Cause::Open, bytes.len()),
    }
}

fn wrong(cause: Cause, len: usize) -> Piece
    ensures { result ≡ spec.piece (Class.Wrong cause) len }
{
    Piece {
        class: Class::Wrong(cause),
        len,
    }
}

#[tactic(auto, unfolding(crate::specs::Pieces::token_piece))]
fn token_piece(bytes: &[u8]) -> Piece
    requires { 0 < length bytes.now }
    ensures piece { result ≡ spec.token_piece bytes.now }
    ensures some { 0 < result.len }
    ensures within { result.len ≤ length bytes.now }
{
    match bytes {
        [b'\n' | b';', ..] => part(Kind::End, 1),
        [b'"', ..] => text_piece(bytes),
        [b'0'..=b'9', ..] => number_piece(bytes),
        _ => word_piece(bytes),
    }
}

fn part(kind: Kind, len: usize) -> Piece
    ensures { result ≡ spec.piece (Class.Part kind) len }
{
    Piece {
        class: Class::Part(kind),
        len,
    }
}

#[tactic(auto, unfolding(crate::specs::Pieces::text_piece))]
fn text_piece(bytes: &[u8]) -> Piece
    requires { first bytes.now ≡ quote }
    ensures piece { result ≡ spec.text_piece bytes.now }
    ensures some { 0 < result.len }
    ensures within { result.len ≤ length bytes.now }
{
    let inner = behind(bytes, 1);
    match text_end(inner) {
        Some(end) => closed_text(&inner[..end - 1], end + 1),
        None => wrong(Cause::Open, line_len(bytes)),
    }
}

fn closed_text(inside: &[u8], len: usize) -> Piece
    ensures { result ≡ spec.piece (spec.text_class (are_escapes 0 inside.now)) len }
{
    if are_escapes(inside) {
        part(Kind::Text, len)
    } else {
        wrong(Cause::Form, len)
    }
}

#[tactic(auto, unfolding(crate::specs::Pieces::number_piece))]
fn number_piece(bytes: &[u8]) -> Piece
    requires { IsTrue (is_ascii_digit (first bytes.now)) }
    ensures piece { result ≡ spec.number_piece bytes.now }
    ensures some { 0 < result.len }
    ensures within { result.len ≤ length bytes.now }
{
    let len = run_len(bytes);
    match number_value(&bytes[..len]) {
        Some(value) => part(Kind::Number(value), len),
        None => wrong(Cause::Form, len),
    }
}

#[tactic(auto, unfolding(crate::specs::Pieces::word_piece))]
fn word_piece(bytes: &[u8]) -> Piece
    requires { 0 < length bytes.now }
    ensures piece { result ≡ spec.word_piece bytes.now }
    ensures some { 0 < result.len }
    ensures within { result.len ≤ length bytes.now }
{
    let word = run_len(bytes);
    if word > 0 {
        return part(Kind::Word, word);
    }
    let sign = sign_len(bytes);
    if sign > 0 {
        return part(Kind::Sign, sign);
    }
    wrong(Cause::Stray, 1)
}
