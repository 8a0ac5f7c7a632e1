ghost use Rattle.std.specs.Prelude.{◌≡◌, ◌<◌, ◌^◌, IfSome, None, Some};
ghost use Rattle.asm_target.specs.Frames.{IsFrame};
ghost use Rattle.branch_size.specs.Tables.{HasGoals};
ghost use Rattle.unit_listing.specs.Kit.{kit_of};
ghost use Rattle.unit_listing.specs.Lines as spec;

use crate::laid::Laid;
use asm_target::{Line, Part, Refer, Target, To};

/// A line, and where it stands, in bytes from the function's first instruction.
#[derive(Clone, Copy, Debug, Default, PartialEq, Eq)]
pub struct Spot<I> {
    pub line: Line<I>,
    /// The place of the line before it.
    pub back: u64,
    /// The place of an instruction of the line.
    pub at: u64,
}

/// The place of the line that a reference leads to inside the function.
#[tactic(auto, using(branch_size::proofs::GoalLemmas::same_line))]
pub fn place_to<T: Target>(laid: &Laid<T::Instr>, to: To) -> Option<u64>
    requires { HasGoals (T.check laid.now.body.frame) laid.now.body.code laid.now.goals }
    ensures place { result ≡ spec.place_to (T.check laid.now.body.frame) laid.now.body.code laid.now.sizes.places to }
    ensures small { IfSome result (λ place. place < 2 ^ 32) }
{
    let line = laid.goals.line(to)?;
    let place = laid.sizes.places.as_slice().get(line)?;
    Some(u64::from(*place))
}

/// From where a part of an address is seen: `at` is the place of its instruction, and `back` that of the line before.
pub fn seen_from(part: Part, back: u64, at: u64) -> u64
    ensures { result ≡ spec.seen_from part back at }
{
    match part {
        Part::Whole | Part::High => at,
        Part::Low => back,
    }
}

// From where a reference is aimed, and at what.
fn aim_of<T: Target>(laid: &Laid<T::Instr>, refer: Refer, back: u64, at: u64) -> Option<(u64, u64)>
    requires { HasGoals (T.check laid.now.body.frame) laid.now.body.code laid.now.goals }
    ensures { result ≡ spec.aim_to (spec.place_to (T.check laid.now.body.frame) laid.now.body.code laid.now.sizes.places) refer.to refer.part back at }
{
    match refer.to {
        To::Symbol(..) | To::Grow => Some((0, 0)),
        inside => {
            let goal = place_to::<T>(laid, inside)?;
            Some((seen_from(refer.part, back, at), goal))
        }
    }
}

// The instruction aimed at a goal; as it is where it can't hold that.
fn aimed<T: Target>(instr: &T::Instr, part: Part, place: u64, goal: u64) -> T::Instr
    ensures { spec.IsAimed (kit_of T.instructions T.fits T.MACHINE T.QUANTUM T.SHAPE T.selection T.aiming T.entry T.check T.begins)
        instr.now part place goal result }
{
    match T::aim(instr, part, place, goal) {
        Some(aimed) => aimed,
        None => *instr,
    }
}

/// The instruction that is shown for one of a line: aimed at what it refers to.
pub fn shown<T: Target>(
    laid: &Laid<T::Instr>,
    spot: &Spot<T::Instr>,
    instr: &T::Instr,
    refer: Option<Refer>,
) -> T::Instr
    requires { HasGoals (T.check laid.now.body.frame) laid.now.body.code laid.now.goals }
    ensures { spec.StandsFor (kit_of T.instructions T.fits T.MACHINE T.QUANTUM T.SHAPE T.selection T.aiming T.entry T.check T.begins)
        (spec.place_to (T.check laid.now.body.frame) laid.now.body.code laid.now.sizes.places) refer spot.now.back spot.now.at
        instr.now result }
{
    match refer {
        None => *instr,
        Some(refer) => match aim_of::<T>(laid, refer, spot.back, spot.at) {
            None => *instr,
            Some((place, goal)) => aimed::<T>(instr, refer.part, place, goal),
        },
    }
}

/// The address at which an instruction is shown that stands at this place: 0 where it refers to a symbol.
pub fn shown_at(refer: Option<Refer>, at: u64) -> u64
    ensures { result ≡ spec.shown_at refer at }
{
    match refer {
        Some(
            Refer {
                to: To::Symbol(..) | To::Grow,
                ..
            },
        ) => 0,
        _ => at,
    }
}
