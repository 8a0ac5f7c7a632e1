ghost use Rattle.std.specs.Prelude.{◌≡◌, ℕ, ◌+◌, ◌*◌, List, length, sum_by, None, Some, IsTrue};
ghost use Rattle.std.specs.List.{list_any, slice_get};
ghost use Rattle.std.specs.List.Sorted.{IsStrictlyIncreasing};
ghost use Rattle.elf_image.specs.Parts.{AreOrdered, is_entry};
ghost use Rattle.elf_image.specs.Contents.{outside_of};
ghost use Rattle.elf_image.specs.Written.{symbol_bytes, string_bytes};
ghost use Rattle.link_symbols.specs.Table.{symbols_of, names_length, addresses_of};
ghost use Rattle.link_symbols.specs.declared.defined.Defined.{Defined};

/// What is known of an image's symbols before they are made: how many there are and how long their names are together,
/// and so the sizes of the symbol table and of the string table, as `elf_image::Sizes` has them; that they are in order
/// where the functions rise by address; that the names outside are told; and that each function can be the entry.
#[tactic(auto, using(crate::proofs::TableLemmas::count_all, crate::proofs::TableLemmas::sum_all, crate::proofs::TableLemmas::table_length, crate::proofs::TableLemmas::strings_length, crate::proofs::OrderLemmas::all_ordered, crate::proofs::TableLemmas::all_outside, crate::proofs::TableLemmas::has_entry))]
pub fn symbol_laws()
    ensures count { (functions values : List Defined) (outside : List (List ℕ × ℕ))
        → length (symbols_of functions values outside) ≡ length functions + length values + length outside }
    ensures names { (functions values : List Defined) (outside : List (List ℕ × ℕ))
        → sum_by (λ symbol. length symbol.name + 1) (symbols_of functions values outside) ≡ names_length functions values outside }
    ensures table { (functions values : List Defined) (outside : List (List ℕ × ℕ))
        → length (symbol_bytes (symbols_of functions values outside)) ≡ 24 * (1 + (length functions + length values + length outside)) }
    ensures strings { (functions values : List Defined) (outside : List (List ℕ × ℕ))
        → length (string_bytes (symbols_of functions values outside)) ≡ 1 + names_length functions values outside }
    ensures order { (functions values : List Defined) (outside : List (List ℕ × ℕ))
        → IsStrictlyIncreasing (addresses_of functions) → AreOrdered None (symbols_of functions values outside) }
    ensures outside { (functions values : List Defined) (outside : List (List ℕ × ℕ))
        → outside_of (symbols_of functions values outside) ≡ outside }
    ensures entry { (functions values : List Defined) (outside : List (List ℕ × ℕ)) (number : ℕ) (function : Defined)
        → slice_get functions number ≡ Some function → IsTrue (list_any (is_entry function.at) (symbols_of functions values outside)) }
{}
