use crate::cond::Cond;
use crate::effect::Atom;

/// Where the machine goes on after an instruction. Goals are addresses.
#[derive(Clone, Copy, Debug, Default, PartialEq, Eq)]
pub enum Next {
    /// Behind the instruction.
    #[default]
    Fall,
    /// At the goal where the condition holds, otherwise behind the instruction.
    Branch { cond: Cond, goal: u64 },
    /// At this address.
    Jump(u64),
    /// At the address that the atom has.
    JumpTo(Atom),
    /// A call of the goal. The address behind the instruction goes into the register `link`; with none it is
    /// pushed.
    Call { goal: u64, link: Option<u8> },
    /// A call of the address that the atom has.
    CallTo { goal: Atom, link: Option<u8> },
    /// A return from a call: to the word at the stack pointer on amd64, to the link register elsewhere.
    Return,
    /// A system call.
    System,
    /// There is no further instruction (UNDEF).
    Stop,
}
