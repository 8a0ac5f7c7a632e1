// Laws about the definitions in specs/, each the contract of a function that does nothing.
ghost use Rattle.std.specs.Prelude.{◌≡◌, ◌<◌, ◌^◌, ◌∷◌, ℕ, List, All, Some, IsSome, length};
ghost use Rattle.elf_image.specs.Contents.{table_in};
ghost use Rattle.flow_rules.specs.Placing.{Surroundings};
ghost use Rattle.image_model.specs.Kept.{Opens, RunsKept};
ghost use Rattle.image_model.specs.Listed.{Listed};
ghost use Rattle.image_model.specs.Steps.{Moment};
ghost use Rattle.image_rules.specs.Functions.{AreFunctionsOf};
ghost use Rattle.image_rules.specs.Machine.{machine_of};
ghost use Rattle.image_rules.specs.Parts.{Surrounds, count_in};
ghost use Rattle.image_rules.specs.Sound.{IsSoundImage};
ghost use Rattle.pclntab.specs.Func.{func_at};
ghost use Rattle.unwind.specs.Looks.{WalksToChain, image_of};

use asm_target::Target;
use image_model::listed_is_text;
use image_rules::sound_in_model;
use image_runs::runs_are_known;
use pcvalue::values_are_settled;

/// From each moment of a kept run over a sound image, and over any memory that has the saved return addresses, the walk gives exactly
/// the calls made and not yet returned, innermost first, up to the first function in which a stack ends; and then it ends. So of such
/// moments no walk is refused.
pub fn walks_are_chains<T: Target>()
    ensures { let machine = machine_of T.instructions T.fits T.MACHINE T.QUANTUM T.SHAPE T.GROWTH T.begins in
        (bytes : List ℕ) (around : Surroundings) (functions : ℕ → Listed T.Instr) (first : Moment) (more : List Moment)
        → length bytes < 2 ^ 63 → IsSoundImage machine bytes → Surrounds bytes around → AreFunctionsOf machine bytes functions (count_in bytes)
        → Opens (image_of machine bytes around functions) first → RunsKept (image_of machine bytes around functions) first more
        → All (WalksToChain machine bytes around functions) (first ∷ more) }
{
    values_are_settled();
    sound_in_model::<T>();
    listed_is_text::<T>();
    runs_are_known();
}

/// Each call of a sound image stands in a function. So a return address in the text has a caller exactly where a call ends there that
/// is no call of a routine that grows the stack.
pub fn calls_have_functions<T: Target>()
    ensures { let machine = machine_of T.instructions T.fits T.MACHINE T.QUANTUM T.SHAPE T.GROWTH T.begins in
        (bytes : List ℕ) (around : Surroundings) (functions : ℕ → Listed T.Instr) (past at : ℕ)
        → length bytes < 2 ^ 63 → IsSoundImage machine bytes → Surrounds bytes around → AreFunctionsOf machine bytes functions (count_in bytes)
        → (image_of machine bytes around functions).after_call past ≡ Some at → IsSome (func_at (table_in bytes) at) }
{
    values_are_settled();
    sound_in_model::<T>();
    listed_is_text::<T>();
}
