ghost use Rattle.std.specs.Prelude.{◌≡◌, IfOk};
ghost use Rattle.unit_listing.specs.Kit.{kit_of};
ghost use Rattle.link_text.specs.Text as spec;

use asm_target::Target;
use goasm_base::{Bytes, Memory};
use link_code::{Code, push_code};
use std::alloc::Global;

/// The text of an image: the bytes of these functions in their order, each with padding behind it up to a multiple of 16.
///
/// `Memory` comes only for want of memory.
pub fn text_of<T: Target>(alloc: Global, codes: &[Code<T::Instr>]) -> Result<Bytes, Memory>
    ensures { let kit = kit_of T.instructions T.fits T.MACHINE T.QUANTUM T.SHAPE T.selection T.aiming T.entry T.check T.begins in
        IfOk result (λ text. text ≡ spec.image_text kit T.GROWTH codes.now) }
{
    let mut text = Vec::new(alloc);
    for code in codes {
        push_code::<T>(&mut text, code.placed.as_slice())?;
    }
    Ok(Bytes::new(text))
}
