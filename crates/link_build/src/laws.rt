ghost use Rattle.std.specs.Prelude.{ℕ, List, All};
ghost use Rattle.link_build.specs.declared.build.Build.{Build};
ghost use Rattle.link_build.specs.Functions.{IsSound, functions_in};
ghost use Rattle.link_build.specs.Resolved.{IsResolved, IsValidBuild};
ghost use Rattle.link_functions.specs.declared.code.UnitCode.{UnitCode};
ghost use Rattle.link_names.specs.Definitions.{Entry};
ghost use Rattle.unit_listing.specs.Kit.{kit_of};

use asm_target::Target;

/// What is known of each function that the image of a build has: it's one of a unit of the build, and its instructions are those of it.
pub fn functions_are_sound<T: Target>()
    ensures { let kit = kit_of T.instructions T.fits T.MACHINE T.QUANTUM T.SHAPE T.selection T.aiming T.entry T.check T.begins in
        (build : Build) (names : List Entry) (code : List (UnitCode T.Instr)) → IsValidBuild build → IsResolved kit build names code
        → All (IsSound kit build) (functions_in code) }
{}
