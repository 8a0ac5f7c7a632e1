// Laws about the definitions in specs/, each the contract of a function that does nothing.
ghost use Rattle.std.specs.Prelude.{List, [], ◌∷◌};
ghost use Rattle.image_model.specs.Image.{Image};
ghost use Rattle.image_model.specs.Kept.{IsKept, Opens, RunsKept};
ghost use Rattle.image_model.specs.Joined.{joined};
ghost use Rattle.image_model.specs.Sample.{calling};
ghost use Rattle.image_model.specs.Soundness.{IsSound};
ghost use Rattle.image_model.specs.Steps.{Moment, Step};
ghost use Rattle.image_runs.specs.Known.{AreKnown, IsKnown};
ghost use Rattle.image_runs.specs.Sample.{first, second, third};

/// A run's first moment is known, and a step that is kept leads from a known moment to a known one.
pub fn steps_keep_known()
    ensures opens { (img : Image) (first : Moment) → IsSound img → Opens img first → IsKnown img first }
    ensures step { (img : Image) (before after : Moment) (step : Step img before after)
        → IsSound img → IsKnown img before → IsKept img before after step → IsKnown img after }
{}

/// So each moment of a run is known whose steps are kept.
pub fn runs_are_known()
    ensures { (img : Image) (first : Moment) (more : List Moment)
        → IsSound img → Opens img first → RunsKept img first more → AreKnown img first more }
{}

// There are such runs: two functions, of which one calls the other and goes on once that has returned.
fn can_hold()
    ensures sound { IsSound (joined calling) }
    ensures opens { Opens (joined calling) first }
    ensures runs { RunsKept (joined calling) first (second ∷ third ∷ []) }
{}
