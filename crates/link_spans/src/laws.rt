ghost use Rattle.std.specs.Prelude.{ℕ, List, length, pos, map};
ghost use Rattle.asm_target.specs.declared.body.Line.{Line};
ghost use Rattle.asm_target.specs.declared.body.Placed.{Placed};
ghost use Rattle.image_rules.specs.Functions.{ends_from};
ghost use Rattle.link_code.specs.Code.{HaveDepths, IsCode, IsOfUnit};
ghost use Rattle.link_code.specs.declared.site.Site.{Site};
ghost use Rattle.link_spans.specs.Spans.{CoverCode, CoverLines};
ghost use Rattle.pcvalue.specs.Cover.{Covers};
ghost use Rattle.pcvalue.specs.declared.run.Run.{Run};
ghost use Rattle.unit_listing.specs.declared.laid.Laid.{Laid};
ghost use Rattle.unit_listing.specs.Kit.{kit_of};

use asm_target::Target;
use link_tables::finer_stretches;

/// Runs that give each line of a function its depth give each of its instructions that depth; and so it is with any other value.
pub fn lines_cover_instructions<T: Target>()
    ensures depths { let kit = kit_of T.instructions T.fits T.MACHINE T.QUANTUM T.SHAPE T.selection T.aiming T.entry T.check T.begins in
        (site : Site) (laid : Laid T.Instr) (items : List (Placed T.Instr)) (depths : List ℕ) (runs : List Run)
        → IsOfUnit kit (length site.addresses.now) laid → (is : IsCode kit site laid items) → HaveDepths kit laid depths
        → CoverLines kit laid (λ line. line.depth) runs → Covers 0 (ends_from T.instructions 0 is.code) (map pos depths) runs }
    ensures values { let kit = kit_of T.instructions T.fits T.MACHINE T.QUANTUM T.SHAPE T.selection T.aiming T.entry T.check T.begins in
        (site : Site) (laid : Laid T.Instr) (items : List (Placed T.Instr)) (value : Line T.Instr → ℕ) (runs : List Run)
        → IsOfUnit kit (length site.addresses.now) laid → (is : IsCode kit site laid items) → CoverLines kit laid value runs
        → CoverCode kit laid is.code value runs }
{
    finer_stretches();
}
