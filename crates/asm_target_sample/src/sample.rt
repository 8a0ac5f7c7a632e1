ghost use Rattle.std.specs.Prelude.{◌≡◌, IfOk};
ghost use Rattle.asm_target_sample.specs.Instr as spec;

use crate::decode::decode;
use crate::instr::Instr;
use crate::make::{add_to_sp, copy, goal, going, push, writing};
use arrayvec::ArrayVec;
use asm_target::{Processor, Spelled, begins_with};
use goasm_base::{Bytes, Memory, Text};
use machine_effect::{Effect, Next, Shape};
use std::alloc::Global;

/// The processor of the six instructions.
pub struct Sample;

impl Processor for Sample {
    ghost use Rattle.asm_target_sample.specs.Instr.{sample, Fits};
    ghost use Rattle.asm_target.specs.Architecture.{amd64};
    ghost use Rattle.asm_target_sample.specs.Laws as proofs;

    type Instr = Instr;

    const MACHINE: u16 = 62;

    const QUANTUM: u8 = 1;

    const SHAPE: Shape = Shape { sp: 4, link: None };

    const GROWTH: Option<u8> = None;

    ghost MACHINE = { 62 };

    ghost QUANTUM = { 1 };

    ghost SHAPE = { amd64.shape };

    ghost GROWTH = { amd64.growth };

    ghost instructions = { sample };

    ghost fits = { Fits };

    ghost architecture = { proofs.architecture };

    ghost lengths = { proofs.lengths };

    ghost prefix_free = { proofs.prefix_free };

    ghost no_padding = { proofs.no_padding };

    ghost small_moves = { proofs.small_moves };

    ghost bounded = { proofs.bounded };

    ghost only_goes = { proofs.only_goes };

    ghost links = { proofs.links };

    fn spell(instr: &Instr) -> Spelled {
        let mut bytes = ArrayVec::new();
        match *instr {
            Instr::Nop => bytes.push(0x90),
            Instr::Move { from, to } => {
                bytes.push(0x48);
                bytes.push(0x89);
                bytes.push(0xc0 + 8 * from.number() + to.number());
            }
            Instr::Push(register) => bytes.push(0x50 + register.number()),
            Instr::AddSp(constant) => {
                bytes.push(0x48);
                bytes.push(0x83);
                bytes.push(0xc4);
                bytes.push(constant.cast_unsigned());
            }
            Instr::Jump(distance) => {
                bytes.push(0xe9);
                let [first, second, third, fourth] = distance.to_le_bytes();
                bytes.push(first);
                bytes.push(second);
                bytes.push(third);
                bytes.push(fourth);
            }
            Instr::Return => bytes.push(0xc3),
        }
        bytes
    }

    #[tactic(auto, using(crate::specs::Laws::begins_read))]
    fn read(bytes: &[u8]) -> Option<(Instr, usize)> {
        let instr = decode(bytes)?;
        let spelled = Self::spell(&instr);
        if begins_with(bytes, spelled.as_slice()) {
            Some((instr, spelled.len()))
        } else {
            None
        }
    }

    fn effect(instr: &Instr, pc: u64) -> Effect {
        match *instr {
            Instr::Nop => going(Next::Fall),
            Instr::Move { from, to } => writing(to, copy(from)),
            Instr::Push(register) => push(register),
            Instr::AddSp(constant) => add_to_sp(i64::from(constant).cast_unsigned()),
            Instr::Jump(distance) => going(Next::Jump(goal(pc, distance))),
            Instr::Return => going(Next::Return),
        }
    }

    fn show(alloc: Global, instr: &Instr, pc: u64) -> Result<Bytes, Memory> {
        let mut text = Text::new(alloc);
        match *instr {
            Instr::Nop => text.push(b"NOP")?,
            Instr::Move { from, to } => {
                text.push(b"MOVQ ")?;
                text.push(from.name())?;
                text.push(b", ")?;
                text.push(to.name())?;
            }
            Instr::Push(register) => {
                text.push(b"PUSHQ ")?;
                text.push(register.name())?;
            }
            Instr::AddSp(constant) => {
                text.push(b"ADDQ $")?;
                text.push_decimal(i64::from(constant))?;
                text.push(b", SP")?;
            }
            Instr::Jump(distance) => {
                text.push(b"JMP ")?;
                text.push_hex(goal(pc, distance))?;
            }
            Instr::Return => text.push(b"RET")?,
        }
        Ok(text.finish())
    }
}
