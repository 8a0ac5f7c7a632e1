ghost use Rattle.std.specs.Prelude.{◌≡◌, ◌≤◌, ◌++◌, length, take, IfOk, OnOk};
ghost use Rattle.asm_lex.specs.Cut as spec;
ghost use Rattle.asm_lex.specs.Cut.{tokens_at, faults_at, cut_of};
ghost use Rattle.asm_lex.specs.Faults.{first_after};
ghost use Rattle.asm_lex.specs.Places.{point_of};

use crate::fault::{Fault, earlier};
use crate::lines::line_after;
use crate::piece::{Class, Piece, piece_of};
use crate::spelling::Spelling;
use crate::token::{Kind, Token};
use goasm_base::{Memory, Pos};
use std::alloc::Global;

/// A place in a source.
#[derive(Clone, Copy)]
pub struct Place<'a> {
    pub line: u32,
    /// Whether a token ends directly before it.
    pub glued: bool,
    /// The bytes from there on.
    pub rest: &'a [u8],
}

/// A source that is cut, or the front of one.
#[derive(Drop)]
pub struct Cut<'a> {
    pub tokens: Vec<Token<'a>>,
    /// The first of the places that are refused.
    pub fault: Option<Fault>,
}

/// Cuts a source into its pieces, with a fault that is known already.
#[tactic(auto, unfolding(crate::specs::Cut::cut_of, crate::specs::Cut::cut_within))]
pub fn cut_source<'a>(
    alloc: Global,
    file: u32,
    bytes: &'a [u8],
    known: Option<Fault>,
) -> Result<Cut<'a>, Memory>
    ensures tokens { IfOk result (λ cut. cut.tokens.items ≡ (cut_of file bytes.now).tokens) }
    ensures fault { IfOk result
        (λ cut. cut.fault ≡ first_after known (cut_of file bytes.now).faults) }
{
    let mut cut = Cut {
        tokens: Vec::new(alloc),
        fault: known,
    };
    let mut place = Place {
        line: 1,
        glued: false,
        rest: bytes,
    };
    // Each piece takes a byte at least.
    'pieces: for _ in 0..bytes.len() {
        if place.rest.is_empty() {
            break;
        }
        let piece = piece_of(place.rest);
        cut.add(file, &place, piece)?;
        place = place_behind(&place, piece);
    }
    cut.end(file, &place)?;
    Ok(cut)
}

fn place_behind<'a>(place: &Place<'a>, piece: Piece) -> Place<'a>
    requires { piece.len ≤ length place.now.rest.now }
    ensures { point_of result ≡ spec.behind (point_of place.now) piece }
{
    let (passed, rest) = place.rest.split_at(piece.len);
    Place {
        line: line_after(place.line, passed),
        glued: is_part(piece.class),
        rest,
    }
}

fn is_part(class: Class) -> bool
    ensures { result ≡ spec.is_part class }
{
    matches!(class, Class::Part(_))
}

impl<'a> Cut<'a> {
    // Adds a piece: its token, or its fault.
    fn add(&mut self, file: u32, place: &Place<'a>, piece: Piece) -> Result<(), Memory>
        requires { piece.len ≤ length place.now.rest.now }
        ensures tokens { OnOk result (self.new.tokens.items ≡ self.old.tokens.items
            ++ tokens_at file (point_of place.now) piece.class (take piece.len place.now.rest.now)) }
        ensures fault { OnOk result (self.new.fault
            ≡ first_after self.old.fault (faults_at (point_of place.now) piece.class)) }
    {
        match piece.class {
            Class::Gap => {}
            Class::Part(kind) => {
                let text = &place.rest[..piece.len];
                self.tokens.push(token_at(file, place, kind, text))?;
            }
            Class::Wrong(cause) => {
                let fault = Fault {
                    line: place.line,
                    cause,
                };
                self.fault = Some(earlier(self.fault, fault));
            }
        }
        Ok(())
    }

    // Adds the end of the file, which counts as one newline more.
    fn end(&mut self, file: u32, place: &Place<'_>) -> Result<(), Memory>
        ensures tokens { OnOk result (self.new.tokens.items
            ≡ self.old.tokens.items ++ (spec.end_at file (point_of place.now)).tokens) }
        ensures fault { OnOk result (self.new.fault ≡ self.old.fault) }
    {
        self.tokens.push(token_at(file, place, Kind::End, b"\n"))?;
        Ok(())
    }
}

fn token_at<'a>(file: u32, place: &Place<'_>, kind: Kind, text: &'a [u8]) -> Token<'a>
    ensures { result ≡ spec.token_at file (point_of place.now) kind text.now }
{
    Token {
        pos: Pos {
            file,
            line: place.line,
        },
        glued: place.glued,
        kind,
        text: Spelling::new(text),
    }
}
