//! What an instruction does to registers, memory and flags, as data, and what follows from that data
//! about the stack pointer and the link register. The three instruction lists (amd64, arm64, riscv64)
//! give each of their instructions as an `Effect`; the meaning of an effect is the relation `Applies`
//! of `specs/Applies.antt`.
#![tactic(auto)]

mod cond;
mod effect;
mod flag_rule;
mod flow;
mod frame;
mod laws;
mod mem;
mod next;
mod op;
mod page;
mod pages;
mod state;

pub use cond::Cond;
pub use effect::{Access, Atom, Effect, Value, WideValue};
pub use flag_rule::FlagRule;
pub use flow::{Flow, Shape, SpMove, effect_flow};
pub use frame::{Calls, Frame};
pub use laws::{
    call_links, flow_tells, keeps_widths, letters_tell_flags, loads_numbers, one_write,
    stores_numbers, word_values,
};
pub use mem::Mem;
pub use next::Next;
pub use op::{Division, Logic, Op, Shift, Signs, Word};
pub use state::{Flags, State};
