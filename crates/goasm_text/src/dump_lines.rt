// The lines of dumps, and of walks over what they recorded.
ghost use Rattle.std.specs.Prelude.{◌≡◌, ◌≢◌, ◌++◌, IfOk, OnOk};
ghost use Rattle.goasm_base.specs.Numbers.{hex_text};
ghost use Rattle.goasm_text.specs.Lines.{chain_line, dump_line, number_line, walk_text};
ghost use Rattle.text_chain.specs.declared.stack.ChainNo.TheVariants as chains;

use goasm_base::{Bytes, Memory, Text};
use image_check::UnwindNo;
use machine_dump::DumpNo;
use std::alloc::Global;
use text_chain::ChainNo;

/// The line of a text that is no dump.
pub fn of_dump(alloc: Global, name: &[u8], no: DumpNo) -> Result<Bytes, Memory>
    ensures { IfOk result (λ line. line ≡ dump_line name.now no) }
{
    match no {
        DumpNo::DU1(number) => at_number(alloc, name, number, b"DU1"),
        DumpNo::DU2(number) => at_number(alloc, name, number, b"DU2"),
    }
}

// `FILE:LINE: CODE`
fn at_number(alloc: Global, name: &[u8], number: u32, code: &[u8]) -> Result<Bytes, Memory>
    ensures { IfOk result (λ line. line ≡ number_line name.now number code.now) }
{
    let mut line = Text::new(alloc);
    line.push(name)?;
    line.push(b":")?;
    line.push_unsigned(u64::from(number))?;
    line.push(b": ")?;
    line.push(code)?;
    line.push(b"\n")?;
    Ok(line.finish())
}

/// The line of an image and a dump that have no call chain.
pub fn of_chain(alloc: Global, name: &[u8], no: ChainNo) -> Result<Bytes, Memory>
    requires { no ≢ chains.Memory }
    ensures { IfOk result (λ line. line ≡ chain_line name.now no) }
{
    match no {
        ChainNo::Foreign => foreign(alloc, name),
        ChainNo::Walk(refusal) => of_walk(alloc, name, refusal),
        ChainNo::Memory => unreachable!(),
    }
}

// `FILE: DU3`
fn foreign(alloc: Global, name: &[u8]) -> Result<Bytes, Memory>
    ensures { IfOk result (λ line. line ≡ chain_line name.now chains.Foreign) }
{
    let mut line = Text::new(alloc);
    line.push(name)?;
    line.push(b": DU3\n")?;
    Ok(line.finish())
}

// `FILE: CODE VALUE`
fn of_walk(alloc: Global, name: &[u8], no: UnwindNo) -> Result<Bytes, Memory>
    ensures { IfOk result (λ line. line ≡ chain_line name.now (chains.Walk no)) }
{
    let mut line = Text::new(alloc);
    line.push(name)?;
    line.push(b": ")?;
    push_walk(&mut line, no)?;
    line.push(b"\n")?;
    Ok(line.finish())
}

// Appends where a walk can't go on.
fn push_walk(text: &mut Text, no: UnwindNo) -> Result<(), Memory>
    ensures { OnOk result (text.new ≡ text.old ++ walk_text no) }
{
    match no {
        UnwindNo::U1(pc) => push_at(text, b"U1 ", pc),
        UnwindNo::U2(pc) => push_at(text, b"U2 ", pc),
        UnwindNo::U3(address) => push_at(text, b"U3 ", address),
        UnwindNo::U4(word) => push_at(text, b"U4 ", word),
        UnwindNo::U5(sp, depth) => {
            push_at(text, b"U5 ", sp)?;
            text.push(b" ")?;
            text.push_unsigned(depth)
        }
    }
}

// Appends a code and a number.
fn push_at(text: &mut Text, code: &[u8], number: u64) -> Result<(), Memory>
    ensures { OnOk result (text.new ≡ text.old ++ code.now ++ hex_text number) }
{
    text.push(code)?;
    text.push_hex(number)
}
