ghost use Rattle.std.specs.Prelude.{◌<◌, ◌≤◌, ◌^◌, ℕ, All, List, length, map, sum};
ghost use Rattle.pcvalue.specs.Cover.{Covers};
ghost use Rattle.link_tables.specs.Finer.{HoldsOfFiner};
ghost use Rattle.link_tables.specs.Stretches.{AreStretches, ends_of, merged, values_of};
ghost use Rattle.link_tables.specs.Table.{CanTell, IsLinked, files_of};
ghost use Rattle.link_tables.specs.declared.func_lines.FuncLines.{FuncLines};
ghost use Rattle.link_tables.specs.declared.stretch.Stretch.{Stretch};

/// Runs that cover the stretches of lines cover those of their instructions too, each with the value of its line.
#[tactic(auto, using(crate::proofs::FinerLemmas::holds_of_finer))]
pub fn finer_stretches()
    ensures { HoldsOfFiner }
{}

/// The runs of stretches give each place of a stretch its value, and none behind the last one.
#[tactic(auto, using(crate::proofs::MergedLemmas::merged_covers))]
pub fn merged_covers()
    ensures { (stretches : List Stretch) → AreStretches stretches
        → Covers 0 (ends_of stretches) (values_of stretches) (merged stretches) }
{}

/// What a linker knows of functions is enough to tell each of them by a table with the files that their lines use. These are no more than
/// the functions have bytes.
pub fn linked_are_told<I>()
    ensures told { (build : List (List ℕ)) (quantum : ℕ) (funcs : List (FuncLines I)) → length (files_of build funcs) < 2 ^ 31
        → All (IsLinked quantum (length build)) funcs → All (CanTell build (files_of build funcs)) funcs }
    ensures few { (build : List (List ℕ)) (quantum files : ℕ) (funcs : List (FuncLines I)) → All (IsLinked quantum files) funcs
        → length (files_of build funcs) ≤ sum (map (λ func. func.length) funcs) }
{}
