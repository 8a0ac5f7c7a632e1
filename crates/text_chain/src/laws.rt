// Laws about the definitions in specs/, each the contract of a function that does nothing but cite laws of the crates below.
ghost use Rattle.std.specs.Prelude.{◌≡◌, ◌<◌, ◌^◌, ◌∷◌, ℕ, List, All, length};
ghost use Rattle.flow_rules.specs.Placing.{Surroundings};
ghost use Rattle.image_model.specs.Kept.{Opens, RunsKept};
ghost use Rattle.image_model.specs.Listed.{Listed};
ghost use Rattle.image_model.specs.Steps.{Moment};
ghost use Rattle.image_rules.specs.Functions.{AreFunctionsOf};
ghost use Rattle.image_rules.specs.Machine.{machine_of};
ghost use Rattle.image_rules.specs.Parts.{Surrounds, count_in};
ghost use Rattle.image_rules.specs.Sound.{IsSoundImage};
ghost use Rattle.text_chain.specs.declared.stack.ChainNo.{ChainNo};
ghost use Rattle.text_chain.specs.Chain.{IsChainRefused, IsChainText};
ghost use Rattle.text_chain.specs.Moments.{IsPrinted};
ghost use Rattle.unwind.specs.Looks.{image_of};

use asm_target::Target;
use image_rules::one_function;
use unwind::walks_are_chains;

/// An image and a dump have one text, or are refused for one cause. So what `chain` gives is settled by them.
pub fn one_chain<T: Target>()
    ensures text { let machine = machine_of T.instructions T.fits T.MACHINE T.QUANTUM T.SHAPE T.GROWTH T.begins in
        (image dump text other : List ℕ) → IsChainText machine image dump text → IsChainText machine image dump other → text ≡ other }
    ensures never { let machine = machine_of T.instructions T.fits T.MACHINE T.QUANTUM T.SHAPE T.GROWTH T.begins in
        (image dump text : List ℕ) (refusal : ChainNo) → IsChainText machine image dump text → ¬ IsChainRefused machine image dump refusal }
    ensures refusal { let machine = machine_of T.instructions T.fits T.MACHINE T.QUANTUM T.SHAPE T.GROWTH T.begins in
        (image dump : List ℕ) (refusal other : ChainNo)
        → IsChainRefused machine image dump refusal → IsChainRefused machine image dump other → refusal ≡ other }
{
    one_function::<T>();
}

/// Each dump of each moment of a kept run over a sound image has exactly the text of the moment's calls: those made and not yet
/// returned, innermost first, up to the first function in which a stack ends. No such dump is refused.
pub fn kept_runs_are_printed<T: Target>()
    ensures { let machine = machine_of T.instructions T.fits T.MACHINE T.QUANTUM T.SHAPE T.GROWTH T.begins in
        (bytes : List ℕ) (around : Surroundings) (functions : ℕ → Listed T.Instr) (first : Moment) (more : List Moment)
        → length bytes < 2 ^ 63 → IsSoundImage machine bytes → Surrounds bytes around → AreFunctionsOf machine bytes functions (count_in bytes)
        → Opens (image_of machine bytes around functions) first → RunsKept (image_of machine bytes around functions) first more
        → All (IsPrinted machine bytes (image_of machine bytes around functions)) (first ∷ more) }
{
    one_function::<T>();
    walks_are_chains::<T>();
}
