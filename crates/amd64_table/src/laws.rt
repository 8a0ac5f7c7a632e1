// Laws about the definitions in specs/, each the contract of a function that does nothing.
ghost use Rattle.std.specs.Prelude.{◌≡◌, ℕ, ◌<◌, ◌^◌, IsTrue};
ghost use Rattle.std.specs.List.{list_all};
ghost use Rattle.machine_effect.specs.Bounds.{IsBounded, OnlyGoes, LinksBy};
ghost use Rattle.machine_effect.specs.Shapes.{amd64_shape};
ghost use Rattle.machine_effect.specs.Witness.{is_allowed, flags_told};
ghost use Rattle.amd64_table.specs.declared.instr.Instr.{Instr};
ghost use Rattle.amd64_table.specs.Effects.{effect_at};
ghost use Rattle.amd64_table.specs.Fits.{fits};
ghost use Rattle.amd64_table.specs.FlagTable.{manual_flags};
ghost use Rattle.amd64_table.specs.Flows.{next_of};
ghost use Rattle.amd64_table.specs.Mnemonics.{mnemonic_of};
ghost use Rattle.amd64_table.specs.Runs.{runs};
ghost use Rattle.amd64_table.specs.StepLaws.{MeansItsText, ClearsUpper};

// The effects allow what an Intel processor made of registers, memory and flags.
fn allows_runs()
    ensures { IsTrue (list_all is_allowed runs) }
{}

// What bounds an effect, and where the machine goes on.
fn bounds()
    ensures bounded { (i : Instr) (end : ℕ) → IsTrue (fits i) → IsBounded (effect_at i end) }
    ensures next { (i : Instr) (end : ℕ) → (effect_at i end).next ≡ next_of i end }
    ensures only_goes { (i : Instr) (end : ℕ) → OnlyGoes (effect_at i end) }
    ensures links { (i : Instr) (end : ℕ) → LinksBy amd64_shape (effect_at i end).next }
{}

// Each instruction sets, keeps and frees the flags that the manual's tables say.
fn flags()
    ensures { (i : Instr) (end : ℕ) → flags_told (effect_at i end).flags ≡ manual_flags (mnemonic_of i) }
{}

// Each step of a move, a branch or what leaves the program is as its text tells.
fn means_its_text()
    ensures { (i : Instr) → MeansItsText i }
{}

// Each write of 32 bits clears the upper half of its register.
fn clears_upper()
    ensures { (i : Instr) → ClearsUpper i }
{}
