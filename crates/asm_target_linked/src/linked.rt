ghost use Rattle.std.specs.Prelude.{◌≡◌, IfOk};
ghost use Rattle.asm_target_linked.specs.Instr as spec;

use crate::decode::decode;
use crate::instr::Instr;
use crate::make::{cond, far_next, frame_effect, goal, going, plain_effect};
use crate::{aiming, frames, select};
use arrayvec::ArrayVec;
use asm_target::{
    Few, FrameShape, Guard, Part, Picked, Placed, Processor, SelectNo, Sequence, Site, Spelled,
    Target, Width, begins_with,
};
use goasm_base::{Bytes, Memory, Stmt, Text};
use machine_effect::{Effect, Next, Shape};
use std::alloc::Global;

/// The target of these instructions. It takes the place of riscv64, whose registers of calls it has: 2 is the stack pointer and
/// 1 the link register, which also keeps the return address when the stack grows.
pub struct Linked;

impl Processor for Linked {
    ghost use Rattle.asm_target_linked.specs.Instr.{linked, Fits};
    ghost use Rattle.asm_target.specs.Architecture.{riscv64};
    ghost use Rattle.asm_target_linked.specs.Laws as proofs;

    type Instr = Instr;

    const MACHINE: u16 = 243;

    const QUANTUM: u8 = 4;

    const SHAPE: Shape = Shape {
        sp: 2,
        link: Some(1),
    };

    const GROWTH: Option<u8> = Some(1);

    ghost MACHINE = { 243 };

    ghost QUANTUM = { 4 };

    ghost SHAPE = { riscv64.shape };

    ghost GROWTH = { riscv64.growth };

    ghost instructions = { linked };

    ghost fits = { Fits };

    ghost architecture = { proofs.architecture };

    ghost lengths = { proofs.lengths };

    ghost prefix_free = { proofs.prefix_free };

    ghost no_padding = { proofs.no_padding };

    ghost small_moves = { proofs.small_moves };

    ghost bounded = { proofs.bounded };

    ghost only_goes = { proofs.only_goes };

    ghost links = { proofs.links };

    fn spell(instr: &Instr) -> Spelled {
        match *instr {
            Instr::Plain(op) => short(op.code(), 0),
            Instr::Frame { op, bytes } => long(op.code(), bytes),
            Instr::Near { held, distance } => {
                short(if held { 16 } else { 17 }, distance.cast_unsigned())
            }
            Instr::Far { call, distance } => {
                far(if call { 49 } else { 48 }, distance.cast_unsigned())
            }
        }
    }

    #[tactic(auto, using(crate::specs::Laws::begins_read))]
    fn read(bytes: &[u8]) -> Option<(Instr, usize)> {
        let instr = decode(bytes)?;
        let spelled = Self::spell(&instr);
        if begins_with(bytes, spelled.as_slice()) {
            Some((instr, spelled.len()))
        } else {
            None
        }
    }

    fn effect(instr: &Instr, pc: u64) -> Effect {
        match *instr {
            Instr::Plain(op) => plain_effect(op),
            Instr::Frame { op, bytes } => frame_effect(op, bytes),
            Instr::Near { held, distance } => going(Next::Branch {
                cond: cond(held),
                goal: goal(pc, i64::from(distance)),
            }),
            Instr::Far { call, distance } => going(far_next(call, goal(pc, i64::from(distance)))),
        }
    }

    fn show(alloc: Global, instr: &Instr, pc: u64) -> Result<Bytes, Memory> {
        let mut text = Text::new(alloc);
        match *instr {
            Instr::Plain(op) => text.push(op.name())?,
            Instr::Frame { op, bytes } => {
                text.push(op.name())?;
                text.push_decimal(i64::from(bytes))?;
            }
            Instr::Near { held, distance } => {
                text.push(near_name(held))?;
                text.push_hex(goal(pc, i64::from(distance)))?;
            }
            Instr::Far { call, distance } => {
                text.push(far_name(call))?;
                text.push_hex(goal(pc, i64::from(distance)))?;
            }
        }
        Ok(text.finish())
    }
}

// Four bytes.
fn short(code: u8, number: u8) -> Spelled
    ensures { result.items ≡ spec.short code number }
{
    let mut bytes = ArrayVec::new();
    bytes.push(code);
    bytes.push(number);
    bytes.push(0);
    bytes.push(0);
    bytes
}

// Eight bytes, of which the last four are the number.
fn long(code: u8, number: u32) -> Spelled
    ensures { result.items ≡ spec.long code number }
{
    let mut bytes = short(code, 0);
    let [first, second, third, fourth] = number.to_le_bytes();
    bytes.push(first);
    bytes.push(second);
    bytes.push(third);
    bytes.push(fourth);
    bytes
}

// Eight bytes, of which the last two are the number.
fn far(code: u8, number: u16) -> Spelled
    ensures { result.items ≡ spec.far code number }
{
    let mut bytes = short(code, 0);
    let [first, second] = number.to_le_bytes();
    bytes.push(0);
    bytes.push(0);
    bytes.push(first);
    bytes.push(second);
    bytes
}

fn near_name(held: bool) -> &'static [u8]
    ensures { result.now ≡ spec.near_name held }
{
    if held { b"NEAR " } else { b"NOTNEAR " }
}

fn far_name(call: bool) -> &'static [u8]
    ensures { result.now ≡ spec.far_name call }
{
    if call { b"CALL " } else { b"JMP " }
}

impl Target for Linked {
    ghost use Rattle.asm_target_linked.specs.Forms.{aiming};
    ghost use Rattle.asm_target_linked.specs.Frames as frames;
    ghost use Rattle.asm_target_linked.specs.Selecting.{selection, widths};
    ghost use Rattle.asm_target_linked.specs.ActLaws as acts;
    ghost use Rattle.asm_target_linked.specs.FormLaws as forms;
    ghost use Rattle.asm_target_linked.specs.FrameLaws as sequences;
    ghost use Rattle.asm_target_linked.specs.SelectLaws as selects;

    ghost selection = { selection };

    ghost widths = { widths };

    ghost aiming = { aiming };

    ghost entry = { frames.entry };

    ghost exit = { frames.exit };

    ghost check = { frames.check };

    ghost begins = { frames.begins };

    ghost single = { selects.single };

    ghost known = { selects.known };

    ghost pickable = { λ stmt site code frame is. selects.pickable stmt site code is };

    ghost few_bytes = { λ stmt site code frame is. selects.few_bytes stmt site code is };

    ghost refers = { selects.refers };

    ghost ends = { λ stmt site code end is. selects.some stmt site code is };

    ghost formed = { forms.formed };

    ghost same_lengths = { forms.same_lengths };

    ghost holds_goals = { forms.holds_goals };

    ghost reaches = { forms.reaches };

    ghost steady = { forms.steady };

    ghost entering = { sequences.enters };

    ghost enters_listed = { acts.enters_listed };

    ghost leaving = { sequences.leaves };

    ghost checking = { acts.checks };

    ghost check_pickable = { acts.check_pickable };

    ghost stays_around = { λ frame is. acts.stays_around frame };

    ghost few_instructions = { acts.few_instructions };

    ghost apart = { sequences.apart };

    ghost told = { sequences.told };

    ghost grows_anywhere = { sequences.grows_anywhere };

    ghost acts = { acts.acts };

    fn is_word(name: &[u8]) -> bool {
        select::is_word(name)
    }

    fn width(_op: &[u8]) -> Width {
        Width::Unknown
    }

    fn select(alloc: Global, stmt: &Stmt, _site: Site) -> Result<Vec<Picked<Instr>>, SelectNo> {
        select::select(alloc, stmt)
    }

    fn forms(instr: &Instr, form: u8) -> Few<Instr> {
        aiming::forms(instr, form)
    }

    fn aim(instr: &Instr, part: Part, place: u64, goal: u64) -> Option<Instr> {
        aiming::aim(instr, part, place, goal)
    }

    fn enter(frame: FrameShape) -> Few<Instr> {
        frames::enter(frame)
    }

    fn leave(frame: FrameShape) -> Few<Instr> {
        frames::leave(frame)
    }

    fn guard(frame: FrameShape) -> Guard<Instr> {
        frames::guard(frame)
    }

    fn sequence(code: &[Placed<Instr>]) -> Sequence {
        frames::sequence(code)
    }
}
