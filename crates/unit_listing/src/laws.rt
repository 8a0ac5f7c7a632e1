ghost use Rattle.std.specs.Prelude.{◌≡◌, ℕ, All, List};
ghost use Rattle.goasm_base.specs.declared.statement.Function.{Function};
ghost use Rattle.goasm_base.specs.Statements.{IsValidFunction};
ghost use Rattle.asm_parse.specs.declared.unit.Unit.{Unit};
ghost use Rattle.asm_parse.specs.Valid.{IsValidUnit};
ghost use Rattle.unit_listing.specs.Kit.{kit_of};
ghost use Rattle.unit_listing.specs.Laid.{IsLaid, IsSameLaid};
ghost use Rattle.unit_listing.specs.Listing.{IsFirstRefusal, IsRefused, IsText};
ghost use Rattle.unit_listing.specs.declared.laid.Laid.{Laid};
ghost use Rattle.unit_listing.specs.declared.listing_no.ListingNo.{ListingNo};

use asm_target::Target;

/// Units have one answer: one text, or one first refusal. So has each function: its instructions and their places, or one refusal.
pub fn one_listing<T: Target>()
    ensures one { let kit = kit_of T.instructions T.fits T.MACHINE T.QUANTUM T.SHAPE T.selection T.aiming T.entry T.check T.begins in
        (units : List Unit) (text other : List ℕ) → IsText kit units text → IsText kit units other → text ≡ other }
    ensures never { let kit = kit_of T.instructions T.fits T.MACHINE T.QUANTUM T.SHAPE T.selection T.aiming T.entry T.check T.begins in
        (units : List Unit) (text : List ℕ) (no : ListingNo) → All IsValidUnit units → IsText kit units text
        → ¬ IsFirstRefusal kit units no }
    ensures first { let kit = kit_of T.instructions T.fits T.MACHINE T.QUANTUM T.SHAPE T.selection T.aiming T.entry T.check T.begins in
        (units : List Unit) (no other : ListingNo) → All IsValidUnit units → IsFirstRefusal kit units no → IsFirstRefusal kit units other
        → no ≡ other }
    ensures one_laid { let kit = kit_of T.instructions T.fits T.MACHINE T.QUANTUM T.SHAPE T.selection T.aiming T.entry T.check T.begins in
        (function : Function) (laid other : Laid T.Instr) → IsLaid kit function laid → IsLaid kit function other → IsSameLaid laid other }
    ensures never_laid { let kit = kit_of T.instructions T.fits T.MACHINE T.QUANTUM T.SHAPE T.selection T.aiming T.entry T.check T.begins in
        (symbols : ℕ) (function : Function) (laid : Laid T.Instr) (no : ListingNo) → IsValidFunction symbols function
        → IsLaid kit function laid → ¬ IsRefused kit function no }
    ensures first_laid { let kit = kit_of T.instructions T.fits T.MACHINE T.QUANTUM T.SHAPE T.selection T.aiming T.entry T.check T.begins in
        (symbols : ℕ) (function : Function) (no other : ListingNo) → IsValidFunction symbols function → IsRefused kit function no
        → IsRefused kit function other → no ≡ other }
{}
