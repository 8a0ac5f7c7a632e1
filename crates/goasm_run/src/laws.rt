ghost use Rattle.std.specs.Prelude.{◌≤◌, ◌∷◌, ℕ, List, All, length};
ghost use Rattle.amd64_table.specs.declared.instr.Instr.{Instr};
ghost use Rattle.flow_rules.specs.Placing.{Surroundings};
ghost use Rattle.image_model.specs.Kept.{Opens, RunsKept};
ghost use Rattle.image_model.specs.Listed.{Listed};
ghost use Rattle.image_model.specs.Steps.{Moment};
ghost use Rattle.image_rules.specs.Functions.{AreFunctionsOf};
ghost use Rattle.image_rules.specs.Parts.{Surrounds, count_in};
ghost use Rattle.image_rules.specs.Sound.{IsSoundImage};
ghost use Rattle.unwind.specs.Looks.{image_of};
ghost use Rattle.goasm_run.specs.Limits.{image_limit};
ghost use Rattle.goasm_run.specs.Targets.{amd64_machine};
ghost use Rattle.goasm_run.specs.Chains.{PrintsChain};

use amd64_select::Amd64;
use text_chain::kept_runs_are_printed;

/// Over a sound image of amd64, and over any dump of any moment of a run that leaves saved return addresses alone, `unwind` has the text
/// of the moment's calls: those made and not yet returned, innermost first, up to the first function in which a stack ends. So `goasm_main`
/// writes exactly this text, by its clause `succeeds`, where files can be read, memory is there and the standard output takes it.
pub fn kept_runs_are_unwound()
    ensures { (image : List ℕ) (around : Surroundings) (functions : ℕ → Listed Instr) (first : Moment) (more : List Moment)
        → length image ≤ image_limit → IsSoundImage amd64_machine image → Surrounds image around
        → AreFunctionsOf amd64_machine image functions (count_in image)
        → Opens (image_of amd64_machine image around functions) first → RunsKept (image_of amd64_machine image around functions) first more
        → All (PrintsChain image (image_of amd64_machine image around functions)) (first ∷ more) }
{
    kept_runs_are_printed::<Amd64>();
}
