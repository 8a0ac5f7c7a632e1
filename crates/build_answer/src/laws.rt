ghost use Rattle.std.specs.Prelude.{◌≡◌, List};
ghost use Rattle.build_answer.specs.Same.{IsSameCode};
ghost use Rattle.link_build.specs.declared.build.Build.{Build};
ghost use Rattle.link_build.specs.declared.link_no.LinkNo.{LinkNo};
ghost use Rattle.link_build.specs.Refusals.{IsUnresolved};
ghost use Rattle.link_build.specs.Resolved.{IsResolved, IsValidBuild};
ghost use Rattle.link_functions.specs.declared.code.UnitCode.{UnitCode};
ghost use Rattle.link_names.specs.Definitions.{Entry, MeansAs};
ghost use Rattle.unit_listing.specs.Kit.{kit_of};

use asm_target::Target;
use unit_listing::one_listing;

/// A build has one answer: its symbols stand for the same and its functions have the same instructions by each, or it's refused for one
/// cause.
pub fn one_build<T: Target>()
    ensures names { let kit = kit_of T.instructions T.fits T.MACHINE T.QUANTUM T.SHAPE T.selection T.aiming T.entry T.check T.begins in
        (build : Build) (names others : List Entry) (code again : List (UnitCode T.Instr))
        → IsResolved kit build names code → IsResolved kit build others again → MeansAs names others }
    ensures code { let kit = kit_of T.instructions T.fits T.MACHINE T.QUANTUM T.SHAPE T.selection T.aiming T.entry T.check T.begins in
        (build : Build) (names others : List Entry) (code again : List (UnitCode T.Instr)) → IsValidBuild build
        → IsResolved kit build names code → IsResolved kit build others again → IsSameCode code again }
    ensures never { let kit = kit_of T.instructions T.fits T.MACHINE T.QUANTUM T.SHAPE T.selection T.aiming T.entry T.check T.begins in
        (build : Build) (names : List Entry) (code : List (UnitCode T.Instr)) (no : LinkNo) → IsValidBuild build
        → IsResolved kit build names code → ¬ IsUnresolved kit build no }
    ensures first { let kit = kit_of T.instructions T.fits T.MACHINE T.QUANTUM T.SHAPE T.selection T.aiming T.entry T.check T.begins in
        (build : Build) (no other : LinkNo) → IsValidBuild build → IsUnresolved kit build no → IsUnresolved kit build other → no ≡ other }
{
    one_listing::<T>();
}
