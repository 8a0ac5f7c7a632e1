ghost use Rattle.std.specs.Prelude.{◌≡◌, ℕ, List, ◌+◌, ◌*◌, length, sum_by};
ghost use Rattle.elf_image.specs.declared.parts.ImageParts.{ImageParts};
ghost use Rattle.elf_image.specs.declared.parts.SymbolPart.{SymbolPart};
ghost use Rattle.elf_image.specs.Layout.{image_length};
ghost use Rattle.elf_image.specs.Written.{symbol_bytes, string_bytes, sizes_of, image_bytes};

/// How long an image is that is written of some parts, and how long its symbol table and the names of its symbols are. So
/// the length of an image is known before it is written, as `image_size` of its `Sizes`.
#[tactic(auto, using(crate::proofs::ShortLemmas::length_image, crate::proofs::ShortLemmas::length_symbols, crate::proofs::ShortLemmas::sum_strings))]
pub fn image_lengths()
    ensures image { (parts : ImageParts) → length (image_bytes parts) ≡ image_length (sizes_of parts) }
    ensures symbols { (symbols : List SymbolPart) → length (symbol_bytes symbols) ≡ 24 * (1 + length symbols) }
    ensures strings { (symbols : List SymbolPart)
        → length (string_bytes symbols) ≡ 1 + sum_by (λ symbol. length symbol.name + 1) symbols }
{}
