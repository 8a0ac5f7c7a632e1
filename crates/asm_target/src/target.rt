ghost use Rattle.std.specs.Prelude.{◌≡◌, ◌↔◌, ◌<◌, ◌≤◌, ◌+◌, ℕ, Bool, List, All, map, length, IsTrue, Some, IfOk, IfSome, IfErr, MatchResult};
ghost use Rattle.asm_target.specs.declared.frame.FrameShape.{FrameShape};
ghost use Rattle.asm_target.specs.declared.frame.Guard.{Guard};
ghost use Rattle.asm_target.specs.declared.frame.Site.{Site};
ghost use Rattle.asm_target.specs.declared.refer.Picked.{Picked};
ghost use Rattle.asm_target.specs.declared.sequence.Sequence.{Sequence};
ghost use Rattle.asm_target.specs.declared.width.Width.{Width};
ghost use Rattle.goasm_base.specs.declared.statement.Stmt.{Stmt};
ghost use Rattle.asm_target.specs.Aiming as aim;
ghost use Rattle.asm_target.specs.Aiming.{Aiming};
ghost use Rattle.asm_target.specs.Frames.{IsFrame};
ghost use Rattle.asm_target.specs.References as references;
ghost use Rattle.asm_target.specs.Selection.{Selection, IsRefused};
ghost use Rattle.asm_target.specs.SequenceLaws as sequences;
ghost use Rattle.asm_target.specs.Standing as standing;

use crate::body::Placed;
use crate::few::Few;
use crate::frame::{FrameShape, Guard, Site};
use crate::processor::Processor;
use crate::refer::{Part, Picked};
use crate::select_no::SelectNo;
use crate::sequence::Sequence;
use crate::width::Width;
use goasm_base::Stmt;
use std::alloc::Global;

/// A target: a processor for which statements of Go assembly become instructions.
///
/// What only reads, spells, runs or shows instructions takes a `Processor`. As there, the ghost members above the methods
/// are what the methods give, and those below are laws. No law names a register or an instruction.
pub trait Target: Processor {
    /// Which statements become which instructions, and which names are words and registers.
    ghost selection: { Selection Self.Instr };

    /// How many bytes of an operand in memory a mnemonic accesses.
    ghost widths: { List ℕ → Width };

    /// The forms of an instruction, and the addresses that it holds.
    ghost aiming: { Aiming Self.Instr };

    /// The instructions by which a function enters a frame.
    ghost entry: { FrameShape → List Self.Instr };

    /// The instructions by which it leaves one.
    ghost exit: { FrameShape → List Self.Instr };

    /// The check whether the stack has room for a frame, and the block that has it grow.
    ghost check: { FrameShape → Guard Self.Instr };

    /// The sequence that instructions begin with.
    ghost begins: { List Self.Instr → Sequence };

    /// Whether the name is that of a register or of a condition.
    fn is_word(name: &[u8]) -> bool
        ensures { IsTrue result ↔ selection.word name.now };

    /// How many bytes of an operand in memory the mnemonic accesses.
    fn width(op: &[u8]) -> Width
        ensures { result ≡ widths op.now };

    /// The instructions that a statement becomes at its site. Of its causes of refusal, `S1` to `S4` each comes exactly where
    /// it stands and no lower one does; `Memory` comes only for want of memory.
    fn select(alloc: Global, stmt: &Stmt, site: Site) -> Result<Vec<Picked<Self::Instr>>, SelectNo>
        requires { IsFrame Self.MACHINE site.frame }
        ensures picked { IfOk result (λ code. selection.becomes stmt.now site code.items) }
        ensures only { (code : List (Picked Self.Instr)) → selection.becomes stmt.now site code
            → MatchResult result (λ found. found.items ≡ code) (λ no. no ≡ SelectNo.Memory) }
        ensures refused { IfErr result (λ no. IsRefused selection stmt.now site no) };

    /// The short form of an instruction, for 0, or its long form, for 1. An instruction that is no direct jump has itself
    /// alone in both.
    fn forms(instr: &Self::Instr, form: u8) -> Few<Self::Instr>
        requires { form ≤ 1 }
        ensures { result ≡ aiming.forms instr.now form };

    /// The instruction with the address `goal`, or the part of it, in place of its own; `None` exactly where it can't hold
    /// that. For `Whole`, `place` is the address of the instruction itself, and for a part that of the first instruction of
    /// its pair.
    fn aim(instr: &Self::Instr, part: Part, place: u64, goal: u64) -> Option<Self::Instr>
        ensures found { IfSome result (λ aimed. aim.Aims Self.instructions Self.fits aiming instr.now part place goal aimed) }
        ensures only { (aimed : Self.Instr) → aim.Aims Self.instructions Self.fits aiming instr.now part place goal aimed → result ≡ Some aimed };

    /// The instructions by which a function enters its frame.
    fn enter(frame: FrameShape) -> Few<Self::Instr>
        requires { IsFrame Self.MACHINE frame }
        ensures { result ≡ entry frame };

    /// The instructions by which a function leaves its frame.
    fn leave(frame: FrameShape) -> Few<Self::Instr>
        requires { IsFrame Self.MACHINE frame }
        ensures { result ≡ exit frame };

    /// The check whether the stack has room for a frame, and the block that has it grow.
    fn guard(frame: FrameShape) -> Guard<Self::Instr>
        requires { IsFrame Self.MACHINE frame }
        ensures { result ≡ check frame };

    /// The sequence that the instructions begin with: a saving, restoring or growing one, or `Plain` where none does. Their
    /// places don't matter.
    fn sequence(code: &[Placed<Self::Instr>]) -> Sequence
        ensures { result ≡ begins (map (λ placed. placed.instr) code.now) };

    // Laws.

    /// A statement becomes the same instructions each time.
    ghost single: { (stmt : Stmt) (site : Site) (code other : List (Picked Self.Instr))
        → selection.becomes stmt site code → selection.becomes stmt site other → code ≡ other };

    /// What becomes instructions has a mnemonic of the target.
    ghost known: { (stmt : Stmt) (site : Site) (code : List (Picked Self.Instr))
        → selection.becomes stmt site code → selection.knows stmt.op stmt.suffix };

    /// What a statement becomes is listed, and what refers to a whole address holds one.
    ghost pickable: { (stmt : Stmt) (site : Site) (code : List (Picked Self.Instr))
        → IsFrame Self.MACHINE site.frame → selection.becomes stmt site code
        → All (aim.IsPickable Self.fits aiming) code };

    /// What a statement becomes has at most 64 bytes, with each instruction in its long form.
    ghost few_bytes: { (stmt : Stmt) (site : Site) (code : List (Picked Self.Instr))
        → IsFrame Self.MACHINE site.frame → selection.becomes stmt site code
        → aim.most_bytes Self.instructions aiming code ≤ 64 };

    /// What the instructions of a statement refer to is among its operands.
    ghost refers: { (stmt : Stmt) (site : Site) (code : List (Picked Self.Instr)) → selection.becomes stmt site code
        → All (references.RefersTo (references.IsNamed stmt.operands)) code };

    /// Where RET, JMP or B becomes instructions, there is one.
    ghost ends: { (stmt : Stmt) (site : Site) (code : List (Picked Self.Instr)) → references.IsEnd stmt.op
        → selection.becomes stmt site code → 0 < length code };

    /// The short form of an instruction is one instruction and no longer than the long one, and both jump alike.
    ghost formed: { aim.HaveForms Self.instructions Self.fits aiming };

    /// An instruction has as many bytes, whatever address it holds.
    ghost same_lengths: { aim.KeepLengths Self.instructions Self.fits aiming };

    /// The machine goes on at the address that an instruction holds.
    ghost holds_goals: { aim.HoldGoals Self.instructions Self.fits aiming };

    /// An instruction reaches the goals whose distance lies in a range that has 0 in it.
    ghost reaches: { aim.HaveReach Self.instructions Self.fits aiming Self.QUANTUM };

    /// What an instruction does to the stack pointer, and how the machine goes on, is the same at each address.
    ghost steady: { aim.AreSteady Self.instructions Self.fits Self.SHAPE };

    /// Entering a frame breaks no flow rule and ends at the frame's depth.
    ghost entering: { standing.Enters Self.instructions Self.fits begins Self.SHAPE Self.MACHINE entry };

    /// What enters a frame is listed.
    ghost enters_listed: { (frame : FrameShape) → IsFrame Self.MACHINE frame → All Self.fits (entry frame) };

    /// Leaving a frame breaks no flow rule and ends at depth 0.
    ghost leaving: { standing.Leaves Self.instructions Self.fits begins Self.SHAPE Self.MACHINE exit };

    /// A check and its block break no flow rule and stay at depth 0.
    ghost checking: { (frame : FrameShape) → IsFrame Self.MACHINE frame
        → standing.KeepsLevel Self.instructions Self.fits begins Self.SHAPE aiming (check frame) };

    /// What a check picks is listed, and what refers to a whole address holds one.
    ghost check_pickable: { (frame : FrameShape) → IsFrame Self.MACHINE frame
        → All (aim.IsPickable Self.fits aiming) (check frame).head × All (aim.IsPickable Self.fits aiming) (check frame).block };

    /// A check refers to its own function and to the routine that grows the stack, and its block has an instruction.
    ghost stays_around: { (frame : FrameShape) → IsFrame Self.MACHINE frame → references.StaysAround (check frame) };

    /// A check and its block have, together with what enters the frame, at most 14 instructions.
    ghost few_instructions: { (frame : FrameShape) → IsFrame Self.MACHINE frame
        → length (check frame).head + length (check frame).block + length (entry frame) ≤ 14 };

    /// A sequence has at most five instructions, and no other begins inside it.
    ghost apart: { (code : List Self.Instr) → sequences.StandsApart begins code };

    /// A sequence is told by its own instructions.
    ghost told: { (code : List Self.Instr) → sequences.IsTold begins code };

    /// A sequence that has the stack grow is one wherever its call and jump go.
    ghost grows_anywhere: { sequences.GrowsAnywhere aiming begins };

    /// Each sequence does what it's for. There is none without a link register.
    ghost acts: { sequences.DoSequences Self.instructions Self.SHAPE Self.fits begins Self.GROWTH };
}
