ghost use Rattle.std.specs.Prelude.{◌≡◌, ℕ, List};
ghost use Rattle.asm_target.specs.declared.body.Placed.{Placed};
ghost use Rattle.goasm_base.specs.declared.pos.Pos.{Pos};
ghost use Rattle.link_code.specs.declared.site.Site.{Site};
ghost use Rattle.link_code.specs.Code.{HaveDepths, IsCode, IsOfUnit, IsUnreached};
ghost use Rattle.link_code.specs.Positions.{HasPos, IsOfLine};
ghost use Rattle.unit_listing.specs.declared.laid.Laid.{Laid};
ghost use Rattle.unit_listing.specs.Kit.{kit_of};
ghost use Rattle.unit_listing.specs.Laid.{IsSameLaid};

use asm_target::Target;

/// A function at an address has one answer: the same instructions with the same depths, or one first line that can't hold what it refers
/// to, if it's a function of a unit: so each of its lines has an instruction. An instruction comes from one line, and has one position in
/// the sources.
pub fn one_code<T: Target>()
    ensures code { let kit = kit_of T.instructions T.fits T.MACHINE T.QUANTUM T.SHAPE T.selection T.aiming T.entry T.check T.begins in
        (site : Site) (laid other : Laid T.Instr) (code again : List (Placed T.Instr)) → IsSameLaid laid other
        → IsCode kit site laid code → IsCode kit site other again → code ≡ again }
    ensures depths { let kit = kit_of T.instructions T.fits T.MACHINE T.QUANTUM T.SHAPE T.selection T.aiming T.entry T.check T.begins in
        (laid other : Laid T.Instr) (depths again : List ℕ) → IsSameLaid laid other
        → HaveDepths kit laid depths → HaveDepths kit other again → depths ≡ again }
    ensures never { let kit = kit_of T.instructions T.fits T.MACHINE T.QUANTUM T.SHAPE T.selection T.aiming T.entry T.check T.begins in
        (symbols : ℕ) (site : Site) (laid other : Laid T.Instr) (code : List (Placed T.Instr)) (line : ℕ) → IsOfUnit kit symbols laid
        → IsSameLaid laid other → IsCode kit site laid code → ¬ IsUnreached kit site other line }
    ensures first { let kit = kit_of T.instructions T.fits T.MACHINE T.QUANTUM T.SHAPE T.selection T.aiming T.entry T.check T.begins in
        (symbols : ℕ) (site : Site) (laid other : Laid T.Instr) (line number : ℕ) → IsOfUnit kit symbols laid
        → IsSameLaid laid other → IsUnreached kit site laid line → IsUnreached kit site other number → line ≡ number }
    ensures line { let kit = kit_of T.instructions T.fits T.MACHINE T.QUANTUM T.SHAPE T.selection T.aiming T.entry T.check T.begins in
        (laid other : Laid T.Instr) (number line its : ℕ) → IsSameLaid laid other
        → IsOfLine kit laid number line → IsOfLine kit other number its → line ≡ its }
    ensures place { let kit = kit_of T.instructions T.fits T.MACHINE T.QUANTUM T.SHAPE T.selection T.aiming T.entry T.check T.begins in
        (site : Site) (laid other : Laid T.Instr) (code : List (Placed T.Instr)) (address : ℕ) (place its : Pos) → IsSameLaid laid other
        → IsCode kit site laid code → HasPos kit laid code address place → HasPos kit other code address its → place ≡ its }
{}
