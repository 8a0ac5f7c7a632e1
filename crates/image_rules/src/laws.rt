// Laws about the definitions in specs/, each the contract of a function that does nothing but cite laws of the crates below.
ghost use Rattle.std.specs.Prelude.{◌≡◌, ◌<◌, ◌^◌, ℕ, List, length};
ghost use Rattle.flow_rules.specs.Placing.{Surroundings};
ghost use Rattle.image_model.specs.Joined.{joined};
ghost use Rattle.image_model.specs.Listed.{AreFunctions, Listed, text_of};
ghost use Rattle.image_model.specs.Soundness.{IsSound};
ghost use Rattle.image_rules.specs.declared.check_no.CheckNo.{CheckNo};
ghost use Rattle.image_rules.specs.Functions.{AreFunctionsOf, IsFunction};
ghost use Rattle.image_rules.specs.Machine.{machine_of};
ghost use Rattle.image_rules.specs.Parts.{Surrounds, count_in};
ghost use Rattle.image_rules.specs.Refusals.{IsRefused};
ghost use Rattle.image_rules.specs.Sound.{IsReadable, IsSoundImage};

use asm_target::Target;
use image_model::{image_is_sound, listed_is_text};
use pcvalue::values_are_settled;

/// The bytes of an image and its table settle what surrounds its functions, and the instructions of each function with their depths.
pub fn one_function<T: Target>()
    ensures around { (bytes : List ℕ) (around other : Surroundings) → Surrounds bytes around → Surrounds bytes other → around ≡ other }
    ensures function { let machine = machine_of T.instructions T.fits T.MACHINE T.QUANTUM T.SHAPE T.GROWTH T.begins in
        (bytes : List ℕ) (index : ℕ) (listed other : Listed T.Instr)
        → IsFunction machine bytes index listed → IsFunction machine bytes index other → listed ≡ other }
{
    values_are_settled();
}

/// An image that is refused is not sound. So a check that accepts sound images alone, and refuses each other one by these rules, accepts
/// exactly the sound ones.
pub fn refused_is_unsound<T: Target>()
    ensures { let machine = machine_of T.instructions T.fits T.MACHINE T.QUANTUM T.SHAPE T.GROWTH T.begins in
        (bytes : List ℕ) (refusal : CheckNo) → IsRefused machine bytes refusal → ¬ IsSoundImage machine bytes }
{
    values_are_settled();
}

/// An image is refused for one cause.
pub fn one_refusal<T: Target>()
    ensures { let machine = machine_of T.instructions T.fits T.MACHINE T.QUANTUM T.SHAPE T.GROWTH T.begins in
        (bytes : List ℕ) (refusal other : CheckNo)
        → IsRefused machine bytes refusal → IsRefused machine bytes other → refusal ≡ other }
{
    values_are_settled();
}

/// The functions of a sound image are a sound image as the machine sees it. The bytes are no more than a slice can have.
pub fn sound_in_model<T: Target>()
    ensures functions { let machine = machine_of T.instructions T.fits T.MACHINE T.QUANTUM T.SHAPE T.GROWTH T.begins in
        (bytes : List ℕ) (around : Surroundings) (functions : ℕ → Listed T.Instr) → length bytes < 2 ^ 63
        → IsReadable machine bytes → Surrounds bytes around → AreFunctionsOf machine bytes functions (count_in bytes)
        → AreFunctions T.instructions T.fits around (count_in bytes) functions }
    ensures sound { let machine = machine_of T.instructions T.fits T.MACHINE T.QUANTUM T.SHAPE T.GROWTH T.begins in
        (bytes : List ℕ) (around : Surroundings) (functions : ℕ → Listed T.Instr) → length bytes < 2 ^ 63
        → IsSoundImage machine bytes → Surrounds bytes around → AreFunctionsOf machine bytes functions (count_in bytes)
        → IsSound (joined (text_of T.instructions T.SHAPE T.GROWTH T.begins around (count_in bytes) functions)) }
{
    values_are_settled();
    listed_is_text::<T>();
    image_is_sound();
}
