ghost use Rattle.std.specs.Prelude.{◌≡◌, ℤ, ◌<◌};
ghost use Rattle.machine_effect.specs.declared.flow.SpMove.TheVariants.{By};
ghost use Rattle.machine_effect.specs.Shapes.{IsStackDistance};
ghost use Rattle.asm_target.specs.FlowFunction as functions;
ghost use Rattle.asm_target.specs.FlowFunction.{FlowFunction};
ghost use Rattle.flow_rules.specs.Lawful.{IsLawful};

use asm_target::Sequence;
use machine_effect::Flow;

/// A function's instructions in order, with their depths and what surrounds them. Each method is asked often, so that it should
/// take no more than constant time, or that of a search by halves.
pub trait Listing {
    /// What the rules see of it.
    ghost function: { Self → FlowFunction };

    /// How many instructions there are.
    fn count(&self) -> usize
        ensures { result ≡ (function self.now).count };

    /// Where the instruction stands.
    fn address(&self, number: usize) -> u64
        requires { number < (function self.now).count }
        ensures { result ≡ (function self.now).at number };

    /// Its depth by the function's table, in bytes.
    fn depth(&self, number: usize) -> u32
        requires { number < (function self.now).count }
        ensures { result ≡ (function self.now).depth number };

    /// What it does there.
    fn flow(&self, number: usize) -> Flow
        requires { number < (function self.now).count }
        ensures exact { result ≡ (function self.now).flow number }
        ensures small { (k : ℤ) → result.sp ≡ By k → IsStackDistance k };

    /// Which sequence begins with it, by the instructions alone.
    fn found(&self, number: usize) -> Sequence
        requires { number < (function self.now).count }
        ensures { result ≡ (function self.now).found number };

    /// The link register.
    fn link(&self) -> Option<u8>
        ensures { result ≡ (function self.now).link };

    /// Whether the address lies in the text.
    fn is_in_text(&self, address: u64) -> bool
        ensures { result ≡ functions.is_within (function self.now).text address };

    /// Whether it's that of one of the function's own bytes. There has to be an instruction.
    fn is_own(&self, address: u64) -> bool
        requires { 0 < (function self.now).count }
        ensures { result ≡ functions.is_within (function self.now).own address };

    /// Whether it's the entry of a function of the text.
    fn is_entry(&self, address: u64) -> bool
        ensures { result ≡ (function self.now).is_entry address };

    /// Whether it's that of a routine outside which has the stack grow.
    fn is_growth_routine(&self, address: u64) -> bool
        ensures { result ≡ (function self.now).is_growth_routine address };

    // A law. It stays below the last method: a ghost member above one is data.

    /// Instructions stand one behind the other, and sequences lie apart.
    ghost lawful: { (listing : Self) → IsLawful (function listing) };
}
