ghost use Rattle.std.specs.Prelude.{◌≡◌, ℕ, pos, ◌+ℤ◌, ◌^◌, ◌<◌, ◌≤◌, ◌++◌, ◌∷◌, [], length, None, Some, false, OnOk};
ghost use Rattle.obj_rewrite.specs.Draft.{IsDraft, written};
ghost use Rattle.obj_rewrite.specs.Rewriting as spec;
ghost use Rattle.obj_rewrite.specs.Rewriting.{added, all_added, clamped, code_of, last_change};

use asm_target::{Few, Line, Picked, Placed, Target, change};
use goasm_base::{Memory, Pos};
use std::alloc::Global;

/// The greatest depth that a line has.
const DEEPEST: u64 = 0x7FFF_FFFF;

/// The lines so far, as `Code` of `specs/Rewriting.antt` has them.
#[derive(Drop)]
pub struct Draft<I> {
    pub lines: Vec<Line<I>>,
    /// The lines' instructions.
    pub code: Vec<Placed<I>>,
    /// The lines' depths, in bytes.
    pub depths: Vec<u32>,
    /// Whether a jump goes to each line.
    pub targets: Vec<bool>,
    /// The depth behind the lines, in bytes.
    pub depth: u32,
    /// Whether a jump goes to the next line.
    pub awaited: bool,
}

/// No lines, at a function's entry.
pub fn empty<I>(alloc: Global) -> Draft<I>
    ensures draft { IsDraft result }
    ensures empty { written result ≡ code_of [] [] 0 false }
{
    Draft {
        lines: Vec::new(alloc),
        code: Vec::new(alloc),
        depths: Vec::new(alloc),
        targets: Vec::new(alloc),
        depth: 0,
        awaited: false,
    }
}

// Appends a line to each list.
fn append<I: Copy>(draft: &mut Draft<I>, line: Line<I>) -> Result<(), Memory>
    ensures lines { OnOk result (draft.new.lines.items ≡ draft.old.lines.items ++ line ∷ []) }
    ensures code { OnOk result (draft.new.code.items ≡ draft.old.code.items ++ record { at = 0; len = 0; instr = line.instr } ∷ []) }
    ensures depths { OnOk result (draft.new.depths.items ≡ draft.old.depths.items ++ line.depth ∷ []) }
    ensures targets { OnOk result (draft.new.targets.items ≡ draft.old.targets.items ++ draft.old.awaited ∷ []) }
    ensures depth { draft.new.depth ≡ draft.old.depth }
    ensures awaited { OnOk result (draft.new.awaited ≡ false) }
{
    draft.lines.push(line)?;
    draft.code.push(Placed {
        at: 0,
        len: 0,
        instr: line.instr,
    })?;
    draft.depths.push(line.depth)?;
    draft.targets.push(draft.awaited)?;
    draft.awaited = false;
    Ok(())
}

/// Adds a line of a statement, or of none.
pub fn add<T: Target>(
    draft: &mut Draft<T::Instr>,
    pick: Picked<T::Instr>,
    pos: Pos,
    stmt: Option<u32>,
) -> Result<(), Memory>
    requires { IsDraft draft.old }
    ensures draft { OnOk result (IsDraft draft.new) }
    ensures added { OnOk result (written draft.new
        ≡ added (last_change T.instructions T.SHAPE T.begins) (written draft.old) pick pos stmt) }
{
    let depth = draft.depth;
    append(
        draft,
        Line {
            instr: pick.instr,
            refer: pick.refer,
            pos,
            depth,
            stmt,
        },
    )?;
    let number = draft.code.len() - 1;
    let by = change::<T>(
        draft.code.as_slice(),
        draft.depths.as_slice(),
        draft.targets.as_slice(),
        number,
    );
    draft.depth = depth_behind(depth, by);
    Ok(())
}

// The depth behind an instruction at this depth that changes it.
fn depth_behind(depth: u32, change: i64) -> u32
    requires { depth < 2 ^ 31 }
    ensures clamped { result ≡ clamped (pos depth +ℤ change) }
    ensures small { result < 2 ^ 31 }
{
    let depth = u64::from(depth);
    let by = change.unsigned_abs();
    let behind = if change < 0 {
        depth.saturating_sub(by)
    } else {
        depth.saturating_add(by).min(DEEPEST)
    };
    behind as u32
}

/// Adds the lines of a statement, or of none.
pub fn add_all<T: Target>(
    draft: &mut Draft<T::Instr>,
    picks: &[Picked<T::Instr>],
    pos: Pos,
    stmt: Option<u32>,
) -> Result<(), Memory>
    requires { IsDraft draft.old }
    ensures draft { OnOk result (IsDraft draft.new) }
    ensures added { OnOk result (written draft.new
        ≡ all_added (last_change T.instructions T.SHAPE T.begins) (written draft.old) picks.now pos stmt) }
{
    for pick in picks {
        add::<T>(draft, *pick, pos, stmt)?;
    }
    Ok(())
}

/// Adds the lines of a short list, which belong to no statement.
pub fn add_few<T: Target>(
    draft: &mut Draft<T::Instr>,
    picks: &Few<Picked<T::Instr>>,
    pos: Pos,
) -> Result<(), Memory>
    requires { IsDraft draft.old }
    ensures draft { OnOk result (IsDraft draft.new) }
    ensures added { OnOk result (written draft.new
        ≡ all_added (last_change T.instructions T.SHAPE T.begins) (written draft.old) picks.now pos None) }
{
    for number in 0..picks.len() {
        add::<T>(draft, picks.get(number), pos, None)?;
    }
    Ok(())
}
