// Laws about the definitions in specs/, each the contract of a function that does nothing.
ghost use Rattle.std.specs.Prelude.{◌≡◌, ℕ, ◌+◌, ◌-◌, ◌*◌, ◌%◌, ◌^◌, ◌<◌, Some, IsTrue, false, length};
ghost use Rattle.std.specs.List.{list_all};
ghost use Rattle.machine_effect.specs.OperationCases as operations;
ghost use Rattle.machine_effect.specs.FlagCases as flags;
ghost use Rattle.machine_effect.specs.declared.effect.Access.{Access};
ghost use Rattle.machine_effect.specs.declared.effect.Atom.{Atom};
ghost use Rattle.machine_effect.specs.declared.effect.Effect.{Effect};
ghost use Rattle.machine_effect.specs.declared.effect.Value.{Value};
ghost use Rattle.machine_effect.specs.declared.flag_rule.FlagRule.{FlagRule};
ghost use Rattle.machine_effect.specs.declared.flow.Shape.{Shape};
ghost use Rattle.machine_effect.specs.declared.state.Flags.{Flags};
ghost use Rattle.machine_effect.specs.declared.op.Op.TheVariants.{Copy, Add, Subtract};
ghost use Rattle.machine_effect.specs.declared.state.State.{State};
ghost use Rattle.machine_effect.specs.Memory.{Memory, number_at, word_at, bytes_of, put};
ghost use Rattle.machine_effect.specs.Values.{atom_of};
ghost use Rattle.machine_effect.specs.Applies.{IsState, link_of};
ghost use Rattle.machine_effect.specs.Flow.{flow_of};
ghost use Rattle.machine_effect.specs.FlagsAfter.{flags_by};
ghost use Rattle.machine_effect.specs.Witness.{flags_told, is_by_zero, AreTold};
ghost use Rattle.machine_effect.specs.Steps.{StateStays, FlowTells, LinksThrough, WritesOne, WritesValue, IsWord, GivesOnly};
ghost use Rattle.machine_effect.specs.Stores.{HasLowNumbers, BytesStay, LeavesMissed, LoadsNumber};

// The operations, flag rules and conditions give what is listed of them.
fn meets_cases()
    ensures operations { IsTrue (list_all operations.is_met operations.cases) }
    ensures flags { IsTrue (list_all flags.is_met flags.flag_cases) }
    ensures conditions { IsTrue (list_all flags.is_told flags.cond_cases) }
{}

/// Each effect keeps the widths of a state's numbers.
pub fn keeps_widths()
    ensures { (effect : Effect) → StateStays effect }
{}

/// What the flow of each effect says of its steps. `effect_flow` says it of the effect that it's given.
pub fn flow_tells()
    ensures { (effect : Effect) (shape : Shape) → FlowTells effect shape (flow_of effect shape) }
{}

/// A call through a link register leaves there the address just behind the instruction.
pub fn call_links()
    ensures { (effect : Effect) (link : ℕ) → link_of effect.next ≡ Some link → LinksThrough effect link }
{}

/// An effect with one write leaves that value in its register, and all other registers as they were.
pub fn one_write()
    ensures { (effect : Effect) (register : ℕ) (value : Value)
        → WritesOne effect register value → WritesValue effect register value }
{}

/// What a copy, a sum and a difference of 64 bits give.
pub fn word_values()
    ensures copy { (value : Value) (a b : Atom) → IsWord value Copy a b
        → GivesOnly value (λ state loaded. atom_of state loaded a % 2 ^ 64) }
    ensures sum { (value : Value) (a b : Atom) → IsWord value Add a b
        → GivesOnly value (λ state loaded. (atom_of state loaded a + atom_of state loaded b) % 2 ^ 64) }
    ensures difference { (value : Value) (a b : Atom) → IsWord value Subtract a b
        → GivesOnly value (λ state loaded. (atom_of state loaded a + (2 ^ 64 - atom_of state loaded b % 2 ^ 64)) % 2 ^ 64) }
{}

/// A load gives the number that stands at its address, and a number in memory has no more bits than its bytes.
pub fn loads_numbers()
    ensures loads { (effect : Effect) (access : Access) → effect.load ≡ Some access → LoadsNumber effect access }
    ensures low { (state : State) (width : ℕ) → IsState state → HasLowNumbers state width }
    ensures word { (state : State) (at word : ℕ) → IsState state → word_at state.mem at ≡ Some word → word < 2 ^ 64 }
{}

/// A store leaves the bytes that it misses, and so the number that they make; and a number that is put is there.
pub fn stores_numbers()
    ensures missed { (effect : Effect) → LeavesMissed effect }
    ensures number { (before after : Memory) (at count : ℕ)
        → BytesStay before after at count → number_at after at count ≡ number_at before at count }
    ensures put { (memory : Memory) (at count number : ℕ)
        → number_at (put memory at (bytes_of count number)) at count ≡ Some (number % 2 ^ (8 * count)) }
    ensures length { (count number : ℕ) → length (bytes_of count number) ≡ count }
{}

/// The letters of a flag rule tell what it does to each flag, but for a shift and a rotation by 0, which keep all.
pub fn letters_tell_flags()
    ensures { (rule : FlagRule) (before : Flags) (atom : Atom → ℕ) → is_by_zero atom rule ≡ false
        → AreTold (flags_told rule) before (flags_by before atom rule) }
{}
