use crate::listed::Listed;
use crate::{aiming, frames, guard, selecting, width};
use amd64_code::end_of;
use asm_target::{
    Few, FrameShape, Guard, Part, Picked, Placed, Processor, SelectNo, Sequence, Site, Spelled,
    Target, Width,
};
use goasm_base::{Bytes, Memory, Stmt};
use machine_effect::{Effect, Shape};
use std::alloc::Global;

/// The processor amd64, and what makes it a target: machine number 62 of ELF, instructions in units of one byte, and SP (4)
/// as the stack pointer. A call pushes its return address, so there is no link register, and none for growing the stack.
///
/// Its instructions are those that `Listed` holds.
pub struct Amd64;

impl Processor for Amd64 {
    ghost use Rattle.asm_target.specs.Architecture.{amd64 as architecture_of_amd64};
    ghost use Rattle.amd64_code.specs.InstructionSet.{amd64, Fits};
    ghost use Rattle.amd64_select.specs.Laws as proofs;

    type Instr = Listed;

    const MACHINE: u16 = 62;

    const QUANTUM: u8 = 1;

    const SHAPE: Shape = Shape { sp: 4, link: None };

    const GROWTH: Option<u8> = None;

    ghost MACHINE = { 62 };

    ghost QUANTUM = { 1 };

    ghost SHAPE = { architecture_of_amd64.shape };

    ghost GROWTH = { architecture_of_amd64.growth };

    ghost instructions = { amd64 };

    ghost fits = { Fits };

    ghost architecture = { proofs.architecture };

    ghost lengths = { proofs.lengths };

    ghost prefix_free = { proofs.prefix_free };

    ghost no_padding = { proofs.no_padding };

    ghost small_moves = { proofs.small_moves };

    ghost bounded = { proofs.bounded };

    ghost only_goes = { proofs.only_goes };

    ghost links = { proofs.links };

    fn spell(instr: &Listed) -> Spelled {
        amd64_code::spell(instr.instr())
    }

    fn read(bytes: &[u8]) -> Option<(Listed, usize)> {
        Listed::with_len(amd64_code::read(bytes))
    }

    fn effect(instr: &Listed, pc: u64) -> Effect {
        amd64_table::effect(instr.instr(), end_of(instr.instr(), pc))
    }

    fn show(alloc: Global, instr: &Listed, pc: u64) -> Result<Bytes, Memory> {
        amd64_table::show(alloc, instr.instr(), end_of(instr.instr(), pc))
    }
}

impl Target for Amd64 {
    ghost use Rattle.asm_target.specs.declared.sequence.Sequence.TheVariants as sequence;
    ghost use Rattle.amd64_select.specs.Aims.{aiming as aiming_of_amd64};
    ghost use Rattle.amd64_select.specs.AimLaws as aims;
    ghost use Rattle.amd64_select.specs.CheckLaws as checks;
    ghost use Rattle.amd64_select.specs.FrameLaws as frames;
    ghost use Rattle.amd64_select.specs.Frames.{entry_of, exit_of, check_of};
    ghost use Rattle.amd64_select.specs.JumpLaws as jumps;
    ghost use Rattle.amd64_select.specs.ReachLaws as reach;
    ghost use Rattle.amd64_select.specs.Selecting.{selection as selection_of_amd64};
    ghost use Rattle.amd64_select.specs.SelectLaws as selects;
    ghost use Rattle.amd64_select.specs.SequenceLaws as plain_laws;
    ghost use Rattle.amd64_select.specs.Widths.{width_of_text};

    ghost selection = { selection_of_amd64 };

    ghost widths = { width_of_text };

    ghost aiming = { aiming_of_amd64 };

    ghost entry = { entry_of };

    ghost exit = { exit_of };

    ghost check = { check_of };

    ghost begins = { frames.plain };

    ghost single = { selects.single };

    ghost known = { selects.known };

    ghost pickable = { selects.pickable };

    ghost few_bytes = { selects.few_bytes };

    ghost refers = { selects.refers_named };

    ghost ends = { selects.ends };

    ghost formed = { jumps.formed };

    ghost same_lengths = { aims.same_lengths };

    ghost holds_goals = { jumps.holds_goals };

    ghost reaches = { reach.reaches };

    ghost steady = { jumps.steady };

    ghost entering = { frames.entering };

    ghost enters_listed = { frames.fits_entry };

    ghost leaving = { frames.leaving };

    ghost checking = { checks.checking };

    ghost check_pickable = { checks.check_pickable };

    ghost stays_around = { checks.stays_around };

    ghost few_instructions = { plain_laws.few_instructions };

    ghost apart = { plain_laws.apart };

    ghost told = { plain_laws.told };

    ghost grows_anywhere = { plain_laws.grows_anywhere };

    ghost acts = { plain_laws.acts };

    fn is_word(name: &[u8]) -> bool {
        amd64_forms::is_word(name)
    }

    fn width(op: &[u8]) -> Width {
        width::width(op)
    }

    fn select(alloc: Global, stmt: &Stmt, site: Site) -> Result<Vec<Picked<Listed>>, SelectNo> {
        selecting::select(alloc, stmt, site)
    }

    fn forms(instr: &Listed, form: u8) -> Few<Listed> {
        aiming::forms(instr, form)
    }

    fn aim(instr: &Listed, part: Part, place: u64, goal: u64) -> Option<Listed> {
        aiming::aim(instr, part, place, goal)
    }

    fn enter(frame: FrameShape) -> Few<Listed> {
        frames::enter(frame)
    }

    fn leave(frame: FrameShape) -> Few<Listed> {
        frames::leave(frame)
    }

    fn guard(frame: FrameShape) -> Guard<Listed> {
        guard::guard(frame)
    }

    /// Each instruction is judged by itself: a call pushes its return address, so no frame saves a link register.
    fn sequence(code: &[Placed<Listed>]) -> Sequence {
        let _ = code;
        Sequence::Plain
    }
}
