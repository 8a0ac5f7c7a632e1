ghost use Rattle.std.specs.Prelude.{◌≡◌, ◌<◌, ◌^◌, ℕ, List, All, length};
ghost use Rattle.unit_listing.specs.Kit.{kit_of};
ghost use Rattle.link_assembly.specs.Assembly.{TellsLines};
ghost use Rattle.link_build.specs.declared.build.Build.{Build};
ghost use Rattle.link_build.specs.Functions.{IsSound, Seen};
ghost use Rattle.link_lines.specs.Told.{AreToldBy, IsToldBy};
ghost use Rattle.link_tables.specs.Table.{CanTell, IsLinked, part_of};
ghost use Rattle.link_tables.specs.declared.func_lines.FuncLines.{FuncLines};

use asm_target::Target;
use link_tables::merged_covers;

/// What is told of a build's functions can be told by a function table, and the table then tells of their lines.
pub fn laid_lines<T: Target>()
    ensures linked { let kit = kit_of T.instructions T.fits T.MACHINE T.QUANTUM T.SHAPE T.selection T.aiming T.entry T.check T.begins in
        (build : Build) (func : Seen T.Instr) (entry : ℕ) (lines : FuncLines T.Instr) → IsSound kit build func → entry < 2 ^ 32
        → IsToldBy func entry lines → IsLinked T.QUANTUM (length build.files) lines }
    ensures all_linked { let kit = kit_of T.instructions T.fits T.MACHINE T.QUANTUM T.SHAPE T.selection T.aiming T.entry T.check T.begins in
        (build : Build) (funcs : List (Seen T.Instr)) (entries : List ℕ) (all : List (FuncLines T.Instr)) → All (IsSound kit build) funcs
        → length entries ≡ length funcs → All (λ entry. entry < 2 ^ 32) entries → AreToldBy funcs entries all
        → All (IsLinked T.QUANTUM (length build.files)) all }
    ensures told { let kit = kit_of T.instructions T.fits T.MACHINE T.QUANTUM T.SHAPE T.selection T.aiming T.entry T.check T.begins in
        (build : Build) (used : List (List ℕ)) (func : Seen T.Instr) (entry : ℕ) (lines : FuncLines T.Instr) → IsSound kit build func
        → IsToldBy func entry lines → CanTell build.files used lines
        → TellsLines kit (length used) func.part.laid (part_of build.files used lines) }
{
    merged_covers();
}
