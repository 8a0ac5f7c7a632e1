ghost use Rattle.std.specs.Prelude.{◌≡◌, ℕ, IfOk, IfSome, Option, Some};
ghost use Rattle.machine_effect.specs.declared.flow.Shape.{Shape};
ghost use Rattle.asm_target.specs.Architecture.{IsArchitecture};
ghost use Rattle.asm_target.specs.InstructionSet.{InstructionSet, IsFirst};
ghost use Rattle.asm_target.specs.Laws as laws;

use arrayvec::ArrayVec;
use goasm_base::{Bytes, Memory};
use machine_effect::{Effect, Shape};
use std::alloc::Global;

/// The bytes of one instruction.
pub type Spelled = ArrayVec<u8, 15>;

/// A processor: an instruction set with its spellings, effects and texts, and the registers of its calls.
///
/// The ghost members above the methods are what the instructions mean. Those below are laws, which hold of
/// every processor. A law speaks of all numbers where a field of an instruction has a type such as `u8`, so
/// each has the premise that the instruction `fits`; `spell` and `effect` tell that of every instruction
/// that code holds.
pub trait Processor {
    /// One instruction of the processor's list.
    type Instr: Copy + Default;

    /// The machine number in an ELF header: 62 for amd64, 183 for arm64, 243 for riscv64.
    const MACHINE: u16;

    /// The unit of an instruction's length, in bytes: 1 for amd64, 4 for arm64 and riscv64.
    const QUANTUM: u8;

    /// The registers of the stack pointer and of a call's return address.
    const SHAPE: Shape;

    /// The register that holds, before a call of the routine that grows the stack, what the link register held
    /// at the function's entry. Go's `runtime.morestack` finds the caller's return address there: R3 on arm64,
    /// the link register itself on riscv64, and no register on amd64, which has that address on the stack.
    const GROWTH: Option<u8>;

    ghost MACHINE: { ℕ };

    ghost QUANTUM: { ℕ };

    ghost SHAPE: { Shape };

    ghost GROWTH: { Option ℕ };

    /// The spelling of each instruction, and at each address its effect and its text.
    ghost instructions: { InstructionSet Self.Instr };

    /// The numbers of an instruction fit the fields of its spelling.
    ghost fits: { Self.Instr → Type 0 };

    /// The bytes of the instruction.
    fn spell(instr: &Self::Instr) -> Spelled
        ensures fits { fits instr.now }
        ensures spelling { result.items ≡ instructions.spelling instr.now };

    /// The instruction whose spelling the bytes begin with, and the spelling's length in bytes; `None`
    /// exactly where they begin with no spelling. What follows the spelling doesn't matter.
    fn read(bytes: &[u8]) -> Option<(Self::Instr, usize)>
        ensures found { IfSome result (λ found. IsFirst instructions fits bytes.now found.0 found.1) }
        ensures only { (i : Self.Instr) (n : ℕ) → IsFirst instructions fits bytes.now i n → result ≡ Some (i, n) };

    /// What the instruction does at the address `pc`.
    fn effect(instr: &Self::Instr, pc: u64) -> Effect
        ensures fits { fits instr.now }
        ensures effect { result ≡ instructions.effect instr.now pc };

    /// The text of the instruction at the address `pc`, as a disassembler prints it. `Memory` comes only for
    /// want of memory.
    fn show(alloc: Global, instr: &Self::Instr, pc: u64) -> Result<Bytes, Memory>
        ensures { IfOk result (λ text. text ≡ instructions.text instr.now pc) };

    // Laws. They stay below the last method: a ghost member above one is data.

    /// The machine, the quantum and the registers of calls are those of amd64, arm64 or riscv64.
    ghost architecture: { IsArchitecture (record { machine = MACHINE; quantum = QUANTUM; shape = SHAPE; growth = GROWTH }) };

    /// A spelling has 1 to 15 bytes, in whole quanta.
    ghost lengths: { laws.HasLengths instructions fits QUANTUM };

    /// Bytes begin with the spelling of at most one instruction. So no two instructions have one spelling,
    /// and none is the beginning of another.
    ghost prefix_free: { laws.IsPrefixFree instructions fits };

    /// No spelling begins with what pads a function: the byte CC of amd64, four zero bytes elsewhere.
    ghost no_padding: { laws.AvoidsPadding instructions fits MACHINE };

    /// Where an effect moves the stack pointer by a constant, that is from -2^31 to 2^31.
    ghost small_moves: { laws.HasSmallMoves instructions fits SHAPE };

    // At each address below 2^64.

    /// An effect names 33 general registers and 16 X registers, accesses of 1 to 16 bytes, operations of 1 to
    /// 128 bits, and the scales 1, 2, 4 and 8; what it loads isn't part of an address.
    ghost bounded: { laws.HasBoundedEffects instructions fits };

    /// Where the machine doesn't go on behind an instruction, the instruction stores nothing and writes no flag
    /// and no register, but for the link of a call.
    ghost only_goes: { laws.HasOnlyGoing instructions fits };

    /// A call has a link exactly where there is a link register, and the link isn't the stack pointer.
    ghost links: { laws.HasLinks instructions fits SHAPE };
}
