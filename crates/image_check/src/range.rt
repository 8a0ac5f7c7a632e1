ghost use Rattle.std.specs.Prelude.{◌≡◌, ◌+◌, ◌<◌, ◌^◌, length};
ghost use Rattle.asm_target.specs.FlowFunction as functions;
ghost use Rattle.elf_image.specs.Contents.{text_address, text_in, values_address, values_in};
ghost use Rattle.elf_image.specs.Image.{IsImage};
ghost use Rattle.image_check.specs.Surrounding.{range_of};

use elf_image::Image;

/// The text's first address and the one behind it.
#[tactic(auto, using(crate::proofs::SizeLemmas::text_low))]
pub fn text_range(image: &Image) -> (u64, u64)
    requires image { IsImage image.now }
    requires short { length image.now < 2 ^ 32 }
    ensures { result ≡ (text_address, text_address + length (text_in image.now)) }
{
    let first = image.text_at();
    (first, first + image.text().len() as u64)
}

/// The text's first address and the one behind the values.
#[tactic(auto, using(crate::proofs::SizeLemmas::values_low))]
pub fn image_range(image: &Image) -> (u64, u64)
    requires image { IsImage image.now }
    requires short { length image.now < 2 ^ 32 }
    ensures { result ≡ (text_address, values_address image.now + length (values_in image.now)) }
{
    (
        image.text_at(),
        image.values_at() + image.values().len() as u64,
    )
}

/// Whether an address is among those from the first on and before the other.
pub fn is_within(range: (u64, u64), address: u64) -> bool
    ensures { result ≡ functions.is_within (range_of range) address }
{
    range.0 <= address && address < range.1
}
