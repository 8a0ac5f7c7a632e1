ghost use Rattle.std.specs.Prelude.{ℕ, List};
ghost use Rattle.elf_image.specs.declared.parts.ImageParts.{ImageParts};
ghost use Rattle.image_rules.specs.Machine.{machine_of};
ghost use Rattle.image_rules.specs.Sound.{IsSoundImage};
ghost use Rattle.link_assembly.specs.Assembly.{Assembled, IsAssembly};
ghost use Rattle.pclntab.specs.declared.parts.TableParts.{TableParts};
ghost use Rattle.unit_listing.specs.Kit.{kit_of};

use asm_target::Target;
use link_laws::made_is_sound;
use link_spans::lines_cover_instructions;

/// An image that is assembled of functions which break no rule is sound.
pub fn assembled_is_sound<T: Target>()
    ensures { let kit = kit_of T.instructions T.fits T.MACHINE T.QUANTUM T.SHAPE T.selection T.aiming T.entry T.check T.begins in
        let machine = machine_of T.instructions T.fits T.MACHINE T.QUANTUM T.SHAPE T.GROWTH T.begins in
        (table : TableParts) (image : ImageParts) (all : List (Assembled T.Instr)) (bytes : List ℕ)
        → IsAssembly kit T.GROWTH table image all bytes → IsSoundImage machine bytes }
{
    made_is_sound::<T>();
    lines_cover_instructions::<T>();
}
