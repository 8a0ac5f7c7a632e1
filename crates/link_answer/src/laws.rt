ghost use Rattle.std.specs.Prelude.{◌≡◌, ℕ, List, length};
ghost use Rattle.link_build.specs.declared.build.Build.{Build};
ghost use Rattle.link_build.specs.declared.link_no.LinkNo.{LinkNo};
ghost use Rattle.link_build.specs.Resolved.{IsValidBuild};
ghost use Rattle.image_link.specs.Linked.{IsLinked};
ghost use Rattle.image_link.specs.Refusals.{IsFirstRefusal};
ghost use Rattle.link_answer.specs.Placed.{IsPlacedIn};
ghost use Rattle.unit_listing.specs.Kit.{kit_of};

use asm_target::Target;
use build_answer::one_build;
use code_answer::one_code;
use link_build::functions_are_sound;
use parts_answer::one_fit;

/// A build has one answer: one image, or one refusal. So linking gives an image exactly where nothing is wrong with the build.
pub fn one_link<T: Target>()
    ensures one { let kit = kit_of T.instructions T.fits T.MACHINE T.QUANTUM T.SHAPE T.selection T.aiming T.entry T.check T.begins in
        (build : Build) (bytes other : List ℕ) → IsValidBuild build
        → IsLinked kit build T.GROWTH bytes → IsLinked kit build T.GROWTH other → bytes ≡ other }
    ensures never { let kit = kit_of T.instructions T.fits T.MACHINE T.QUANTUM T.SHAPE T.selection T.aiming T.entry T.check T.begins in
        (build : Build) (bytes : List ℕ) (no : LinkNo) → IsValidBuild build
        → IsLinked kit build T.GROWTH bytes → ¬ IsFirstRefusal kit build no }
    ensures first { let kit = kit_of T.instructions T.fits T.MACHINE T.QUANTUM T.SHAPE T.selection T.aiming T.entry T.check T.begins in
        (build : Build) (no other : LinkNo) → IsValidBuild build
        → IsFirstRefusal kit build no → IsFirstRefusal kit build other → no ≡ other }
{
    functions_are_sound::<T>();
    one_build::<T>();
    one_code::<T>();
    one_fit::<T::Instr>();
}

/// What refuses a build is told with a place in one of its files, where it's a function that is refused. It's never want of memory.
pub fn refusals_are_placed<T: Target>()
    ensures { let kit = kit_of T.instructions T.fits T.MACHINE T.QUANTUM T.SHAPE T.selection T.aiming T.entry T.check T.begins in
        (build : Build) (no : LinkNo) → IsValidBuild build → IsFirstRefusal kit build no → IsPlacedIn (length build.files) no }
{
    functions_are_sound::<T>();
}
