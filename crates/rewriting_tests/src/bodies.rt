//! The instructions of functions, as text.
ghost use Rattle.std.specs.Prelude.{ℕ};
ghost use Rattle.goasm_base.specs.Statements.{IsValidFunction};

use asm_parse::Symbol;
use asm_target::{FrameShape, Line, Part, Refer, SelectNo, Target, To};
use goasm_base::{Function, Memory, Pos, Text};
use obj_rewrite::{RewriteNo, rewrite};
use std::alloc::Global;

fn push_number(text: &mut Text, number: u32) -> Result<(), Memory> {
    text.push_unsigned(u64::from(number))?;
    text.push(b" ")
}

// The bytes of a frame and of its locals, and whether BP is saved.
fn push_frame(text: &mut Text, frame: FrameShape) -> Result<(), Memory> {
    text.push(b"frame ")?;
    push_number(text, frame.total)?;
    push_number(text, frame.locals)?;
    text.push(if frame.saves_bp { b"BP\n" } else { b"-\n" })
}

// What an instruction refers to: ` -> NAME+OFF`, ` -> #NUMBER` for a statement, or what stands in the function or grows the stack.
fn push_refer(text: &mut Text, symbols: &[Symbol], refer: Refer) -> Result<(), Memory> {
    text.push(match refer.part {
        Part::Whole => b" -> ",
        Part::High => b" high -> ",
        Part::Low => b" low -> ",
    })?;
    match refer.to {
        To::Symbol(number, off) => {
            if let Some(symbol) = symbols.get(number as usize) {
                text.push(symbol.name.as_slice())?;
            }
            text.push(b"+")?;
            text.push_decimal(off)
        }
        To::Stmt(number) => {
            text.push(b"#")?;
            text.push_unsigned(u64::from(number))
        }
        To::Entry => text.push(b"entry"),
        To::Grow => text.push(b"grow"),
        To::Block => text.push(b"block"),
        To::Past => text.push(b"past"),
    }
}

// The depth, the line in the source, the number of the statement or `-`, and the instruction as it is shown at address 0.
fn push_line<T: Target>(
    alloc: Global,
    text: &mut Text,
    symbols: &[Symbol],
    line: &Line<T::Instr>,
) -> Result<(), Memory> {
    push_number(text, line.depth)?;
    push_number(text, line.pos.line)?;
    match line.stmt {
        Some(number) => push_number(text, number)?,
        None => text.push(b"- ")?,
    }
    text.push(T::show(alloc, &line.instr, 0)?.as_slice())?;
    if let Some(refer) = line.refer {
        push_refer(text, symbols, refer)?;
    }
    text.push(b"\n")
}

/// Appends the code of a statement's refusal.
pub fn push_cause(text: &mut Text, no: SelectNo) -> Result<(), Memory> {
    text.push(match no {
        SelectNo::S1 => b"S1",
        SelectNo::S2 => b"S2",
        SelectNo::S3 => b"S3",
        SelectNo::S4 => b"S4",
        SelectNo::Memory => b"Memory",
    })
}

/// Appends `FILE:LINE `.
pub fn push_place(text: &mut Text, pos: Pos) -> Result<(), Memory> {
    text.push_unsigned(u64::from(pos.file))?;
    text.push(b":")?;
    push_number(text, pos.line)
}

fn push_refusal(text: &mut Text, no: RewriteNo) -> Result<(), Memory> {
    match no {
        RewriteNo::RW1(pos, total) => {
            push_place(text, pos)?;
            text.push(b"RW1 ")?;
            text.push_unsigned(total)?;
        }
        RewriteNo::Select(pos, why) => {
            push_place(text, pos)?;
            push_cause(text, why)?;
        }
        RewriteNo::Memory => text.push(b"Memory")?,
    }
    text.push(b"\n")
}

/// Appends the frame of a function and its instructions, a line each, or its refusal.
pub fn push_function<T: Target>(
    alloc: Global,
    text: &mut Text,
    symbols: &[Symbol],
    func: &Function,
) -> Result<(), Memory>
    requires { (count : ℕ) × IsValidFunction count func.now }
{
    match rewrite::<T>(alloc, func) {
        Ok(body) => {
            push_frame(text, body.frame)?;
            for line in body.code.as_slice() {
                push_line::<T>(alloc, text, symbols, line)?;
            }
            Ok(())
        }
        Err(no) => push_refusal(text, no),
    }
}
