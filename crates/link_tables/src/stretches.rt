ghost use Rattle.std.specs.Prelude.{◌≡◌, ◌<◌, All, length, map, IfOk, OnOk};
ghost use Rattle.link_tables.specs.Rows as spec;
ghost use Rattle.link_tables.specs.Rows.{AreUsed, depth_stretch, line_stretch};
ghost use Rattle.link_tables.specs.Files.{file_name};
ghost use Rattle.link_tables.specs.Stretches.{AreStretches, merged};
ghost use Rattle.link_tables.specs.UsedNames.{place_of};

use crate::files::Files;
use crate::row::Row;
use crate::runs::runs_of;
use crate::stretch::Stretch;
use goasm_base::Memory;
use pcvalue::Run;
use std::alloc::Global;

/// The runs of the rows' stack depths.
pub fn depth_runs(alloc: Global, rows: &[Row]) -> Result<Vec<Run>, Memory>
    requires { AreStretches (map depth_stretch rows.now) }
    ensures { IfOk result (λ runs. runs.items ≡ merged (map depth_stretch rows.now)) }
{
    let stretches = depth_stretches(alloc, rows)?;
    let runs = runs_of(alloc, stretches.as_slice())?;
    Ok(runs)
}

fn depth_stretches(alloc: Global, rows: &[Row]) -> Result<Vec<Stretch>, Memory>
    ensures { IfOk result (λ stretches. stretches.items ≡ map depth_stretch rows.now) }
{
    let mut stretches = Vec::with_capacity(alloc, rows.len())?;
    for row in rows {
        stretches.push(Stretch {
            end: row.end,
            value: row.depth,
        })?;
    }
    Ok(stretches)
}

/// The runs of the rows' lines.
pub fn line_runs(alloc: Global, rows: &[Row]) -> Result<Vec<Run>, Memory>
    requires { AreStretches (map line_stretch rows.now) }
    ensures { IfOk result (λ runs. runs.items ≡ merged (map line_stretch rows.now)) }
{
    let stretches = line_stretches(alloc, rows)?;
    let runs = runs_of(alloc, stretches.as_slice())?;
    Ok(runs)
}

fn line_stretches(alloc: Global, rows: &[Row]) -> Result<Vec<Stretch>, Memory>
    ensures { IfOk result (λ stretches. stretches.items ≡ map line_stretch rows.now) }
{
    let mut stretches = Vec::with_capacity(alloc, rows.len())?;
    for row in rows {
        stretches.push(Stretch {
            end: row.end,
            value: row.line,
        })?;
    }
    Ok(stretches)
}

/// The runs of the rows' files, whose names are used.
pub fn file_runs(alloc: Global, files: &mut Files<'_>, rows: &[Row]) -> Result<Vec<Run>, Memory>
    requires stretches { AreStretches (map (spec.file_stretch files.old.build files.old.used) rows.now) }
    requires files { All (λ row. row.file < length files.old.build) rows.now }
    requires there { AreUsed files.old.build files.old.used rows.now }
    ensures files { OnOk result (files.new ≡ files.old) }
    ensures runs { IfOk result (λ runs. runs.items ≡ merged (map (spec.file_stretch files.old.build files.old.used) rows.now)) }
{
    let stretches = file_stretches(alloc, files, rows)?;
    let runs = runs_of(alloc, stretches.as_slice())?;
    Ok(runs)
}

fn file_stretches(
    alloc: Global,
    files: &mut Files<'_>,
    rows: &[Row],
) -> Result<Vec<Stretch>, Memory>
    requires files { All (λ row. row.file < length files.old.build) rows.now }
    requires there { AreUsed files.old.build files.old.used rows.now }
    ensures files { OnOk result (files.new ≡ files.old) }
    ensures stretches { IfOk result (λ stretches. stretches.items ≡ map (spec.file_stretch files.old.build files.old.used) rows.now) }
{
    let mut stretches = Vec::with_capacity(alloc, rows.len())?;
    for row in rows {
        let stretch = file_stretch(files, row)?;
        stretches.push(stretch)?;
    }
    Ok(stretches)
}

// A row whose file's name is used.
#[tactic(auto, using(crate::proofs::PlaceLemmas::with_there))]
fn file_stretch(files: &mut Files<'_>, row: &Row) -> Result<Stretch, Memory>
    requires file { row.now.file < length files.old.build }
    requires there { place_of files.old.used (file_name files.old.build row.now.file) < length files.old.used }
    ensures files { OnOk result (files.new ≡ files.old) }
    ensures stretch { IfOk result (λ stretch. stretch ≡ spec.file_stretch files.old.build files.old.used row.now) }
{
    let value = files.number(row.file)?;
    Ok(Stretch {
        end: row.end,
        value,
    })
}
