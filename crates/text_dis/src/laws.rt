ghost use Rattle.std.specs.Prelude.{◌≡◌, ℕ, List, Option};
ghost use Rattle.image_rules.specs.Machine.{machine_of};
ghost use Rattle.text_dis.specs.Listing.{IsText};
ghost use Rattle.text_dis.specs.Raw.{IsRaw};
ghost use Rattle.text_dis.specs.Reading.{IsReading, raw_text};

use asm_target::{Processor, Target, one_listing};

/// Bytes at a place have at most one text. So what `raw` gives is settled by the bytes.
pub fn one_raw_text<T: Processor>()
    ensures { (offset : ℕ) (bytes text other : List ℕ)
        → IsRaw T.instructions T.fits T.QUANTUM offset bytes text
        → IsRaw T.instructions T.fits T.QUANTUM offset bytes other
        → text ≡ other }
{}

/// Where a function tells which instruction bytes begin with, bytes have a text, and that is a function of them.
pub fn raw_text_by_reading<T: Processor>()
    ensures some { (reading : List ℕ → Option (T.Instr × ℕ)) (bytes : List ℕ)
        → IsReading T.instructions T.fits reading
        → IsRaw T.instructions T.fits T.QUANTUM 0 bytes (raw_text T.instructions T.QUANTUM reading bytes) }
    ensures one { (reading : List ℕ → Option (T.Instr × ℕ)) (bytes text : List ℕ)
        → IsReading T.instructions T.fits reading
        → IsRaw T.instructions T.fits T.QUANTUM 0 bytes text
        → text ≡ raw_text T.instructions T.QUANTUM reading bytes }
{}

/// An image has at most one text. So what `listing` gives is settled by the image.
pub fn one_text<T: Target>()
    ensures { let machine = machine_of T.instructions T.fits T.MACHINE T.QUANTUM T.SHAPE T.GROWTH T.begins in
        (bytes text other : List ℕ) → IsText machine bytes text → IsText machine bytes other → text ≡ other }
{
    one_listing::<T>();
}
