ghost use Rattle.std.specs.Prelude.{◌≡◌, ◌<◌, All, length, map, OnOk};
ghost use Rattle.std.specs.List.{flat_map};
ghost use Rattle.link_tables.specs.Files.{file_name};
ghost use Rattle.link_tables.specs.Table.{names_in, names_of_lines, HaveFiles};
ghost use Rattle.link_tables.specs.UsedNames.{used_after};

use crate::files::Files;
use crate::func_lines::FuncLines;
use asm_target::Line;
use goasm_base::Memory;

/// Numbers the files of all lines, in their order.
#[tactic(auto, using(crate::proofs::NumberingLemmas::all_funcs))]
pub fn number_all<I>(files: &mut Files<'_>, funcs: &[FuncLines<'_, I>]) -> Result<(), Memory>
    requires { All (λ func. HaveFiles (length files.old.build) func.lines.now) funcs.now }
    ensures build { OnOk result (files.new.build ≡ files.old.build) }
    ensures used { OnOk result (files.new.used ≡ used_after files.old.used (flat_map (names_in files.old.build) funcs.now)) }
{
    for func in funcs {
        number_lines(files, func.lines)?;
    }
    Ok(())
}

#[tactic(auto, using(crate::proofs::NumberingLemmas::all_lines))]
fn number_lines<I>(files: &mut Files<'_>, lines: &[Line<I>]) -> Result<(), Memory>
    requires { HaveFiles (length files.old.build) lines.now }
    ensures build { OnOk result (files.new.build ≡ files.old.build) }
    ensures used { OnOk result (files.new.used ≡ used_after files.old.used (names_of_lines files.old.build lines.now)) }
{
    for line in lines {
        files.number(line.pos.file)?;
    }
    Ok(())
}
