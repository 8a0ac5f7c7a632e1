ghost use Rattle.std.specs.Prelude.{◌≡◌, ◌⊎◌, ℕ, List};
ghost use Rattle.build_answer.specs.Same.{IsSameCode};
ghost use Rattle.link_build.specs.declared.build.Build.{Build};
ghost use Rattle.link_functions.specs.declared.code.UnitCode.{UnitCode};
ghost use Rattle.link_names.specs.Definitions.{Entry, MeansAs};
ghost use Rattle.link_parts.specs.declared.fitting.Fitted.{Fitted};
ghost use Rattle.link_parts.specs.Fitted.{IsFitted, IsTooLong};
ghost use Rattle.link_parts.specs.Image.{function_places};
ghost use Rattle.link_places.specs.Addresses.{TellsAs};
ghost use Rattle.link_plan.specs.Plan.{PassesLimit, text_size};
ghost use Rattle.link_values.specs.Values.{value_bytes};

/// What an image has beside its code is settled by what the symbols of its build stand for and by the instructions of its functions, and
/// a build that has it passes no limit.
pub fn one_fit<I>()
    ensures places { (code again : List (UnitCode I)) → IsSameCode code again → function_places code ≡ function_places again }
    ensures size { (code again : List (UnitCode I)) → IsSameCode code again → text_size code ≡ text_size again }
    ensures table { (quantum : ℕ) (build : Build) (names others : List Entry) (code again : List (UnitCode I)) (fitted other : Fitted)
        → MeansAs names others → IsSameCode code again → IsFitted quantum build names code fitted → IsFitted quantum build others again other
        → fitted.table ≡ other.table }
    ensures symbols { (quantum : ℕ) (build : Build) (names others : List Entry) (code again : List (UnitCode I)) (fitted other : Fitted)
        → MeansAs names others → IsSameCode code again → IsFitted quantum build names code fitted → IsFitted quantum build others again other
        → fitted.symbols ≡ other.symbols }
    ensures addresses { (quantum : ℕ) (build : Build) (names others : List Entry) (code again : List (UnitCode I)) (fitted other : Fitted)
        → MeansAs names others → IsSameCode code again → IsFitted quantum build names code fitted → IsFitted quantum build others again other
        → TellsAs fitted.addresses other.addresses }
    ensures values { (build : Build) (names others : List Entry) (fitted other : Fitted)
        → MeansAs names others → TellsAs fitted.addresses other.addresses
        → value_bytes names build.units fitted.addresses ≡ value_bytes others build.units other.addresses }
    ensures never { (quantum : ℕ) (build : Build) (names others : List Entry) (code again : List (UnitCode I)) (fitted : Fitted)
        → MeansAs names others → IsSameCode code again → IsFitted quantum build names code fitted
        → ¬ (PassesLimit others build.units again ⊎ IsTooLong quantum build others again) }
{}
