ghost use Rattle.std.specs.Prelude.{◌≡◌, ◌<◌, ℕ, List, length, slice_index, take};
ghost use Rattle.std.specs.List.{AllZip};
ghost use Rattle.byte_layout.specs.Joined.{aligned};
ghost use Rattle.link_code.specs.declared.placing.Code.{Code};
ghost use Rattle.link_places.specs.Places.{end_from, places_from};
ghost use Rattle.link_text.specs.Text.{HasSize, image_text};
ghost use Rattle.unit_listing.specs.Kit.{kit_of};

use asm_target::Target;
use link_plan::padded_sizes_add_up;

/// Functions of these sizes stand in the text of an image where those before them end, each reaching up to a multiple of 16, and the text
/// ends behind the last of them.
pub fn functions_stand<T: Target>()
    ensures place { let kit = kit_of T.instructions T.fits T.MACHINE T.QUANTUM T.SHAPE T.selection T.aiming T.entry T.check T.begins in
        (sizes : List ℕ) (codes : List (Code T.Instr)) (number : ℕ) → AllZip (HasSize kit) sizes codes → number < length codes
        → slice_index (places_from 0 sizes) number ≡ length (image_text kit T.GROWTH (take number codes)) }
    ensures end { let kit = kit_of T.instructions T.fits T.MACHINE T.QUANTUM T.SHAPE T.selection T.aiming T.entry T.check T.begins in
        (sizes : List ℕ) (codes : List (Code T.Instr)) → AllZip (HasSize kit) sizes codes
        → aligned 16 (end_from 0 sizes) ≡ length (image_text kit T.GROWTH codes) }
{
    padded_sizes_add_up();
}
