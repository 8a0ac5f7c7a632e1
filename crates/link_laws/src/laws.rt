ghost use Rattle.std.specs.Prelude.{ℕ, List};
ghost use Rattle.image_rules.specs.Machine.{machine_of};
ghost use Rattle.image_rules.specs.Sound.{IsSoundImage};
ghost use Rattle.link_laws.specs.Made.{IsMadeOf, Made};

use asm_target::Target;

/// An image that is made of functions which break no rule is sound.
pub fn made_is_sound<T: Target>()
    ensures { let machine = machine_of T.instructions T.fits T.MACHINE T.QUANTUM T.SHAPE T.GROWTH T.begins in
        (bytes : List ℕ) (functions : List (Made T.Instr)) → IsMadeOf machine bytes functions → IsSoundImage machine bytes }
{}
