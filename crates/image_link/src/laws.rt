ghost use Rattle.std.specs.Prelude.{ℕ, List};
ghost use Rattle.image_rules.specs.Machine.{machine_of};
ghost use Rattle.image_rules.specs.Sound.{IsSoundImage};
ghost use Rattle.link_build.specs.declared.build.Build.{Build};
ghost use Rattle.link_build.specs.Resolved.{IsValidBuild};
ghost use Rattle.unit_listing.specs.Kit.{kit_of};
ghost use Rattle.image_link.specs.Linked.{IsLinked};

use asm_target::Target;
use link_assembly::assembled_is_sound;
use link_build::functions_are_sound;
use link_lines::laid_lines;
use link_tables::linked_are_told;
use link_text::functions_stand;

/// The image of a build is sound, so that each check of images accepts it.
pub fn linked_is_sound<T: Target>()
    ensures { let kit = kit_of T.instructions T.fits T.MACHINE T.QUANTUM T.SHAPE T.selection T.aiming T.entry T.check T.begins in
        let machine = machine_of T.instructions T.fits T.MACHINE T.QUANTUM T.SHAPE T.GROWTH T.begins in
        (build : Build) (bytes : List ℕ) → IsValidBuild build → IsLinked kit build T.GROWTH bytes → IsSoundImage machine bytes }
{
    functions_are_sound::<T>();
    laid_lines::<T>();
    linked_are_told::<T::Instr>();
    functions_stand::<T>();
    assembled_is_sound::<T>();
}
