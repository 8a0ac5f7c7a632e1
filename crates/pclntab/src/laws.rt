ghost use Rattle.std.specs.Prelude.{◌≡◌, ℕ, List, ◌+◌, ◌≤◌, length, sum_by};
ghost use Rattle.pclntab.specs.declared.parts.TableParts.{TableParts};
ghost use Rattle.pclntab.specs.Written.{texts, names_of, written, length_bound};

/// How long a table is that is written from some parts: at least as long as its names, and at most `length_bound`. So that
/// it is shorter than 2^32 bytes, as `write` wants, can be known before it is written.
#[tactic(auto, using(crate::proofs::BoundLemmas::written_least, crate::proofs::BoundLemmas::written_most, crate::proofs::BoundLemmas::texts_sum))]
pub fn written_lengths()
    ensures least { (parts : TableParts)
        → length (texts (names_of parts.funcs)) + length (texts parts.files) ≤ length (written parts) }
    ensures most { (parts : TableParts) → length (written parts) ≤ length_bound parts }

    // The names, each before a zero byte.
    ensures names { (names : List (List ℕ)) → length (texts names) ≡ sum_by (λ name. length name + 1) names }
{}
