use least_forms::Lines;

/// Jumps among instructions of one byte. The short form of a jump, `eb` and a byte, has 2 bytes, and goes from 128 bytes
/// before its end to 127 behind it; the long form, `e9` and four bytes, has 5.
#[derive(Drop)]
pub struct Jumps {
    /// The line that each line jumps to, if it jumps. What jumps past the last line counts as an instruction of one
    /// byte.
    pub goals: Vec<Option<usize>>,
    /// The greatest distance from its place to its goal that a long jump goes over.
    pub reach: u32,
}

impl Jumps {
    ghost use Rattle.std.specs.Prelude.{IsTrue};
    ghost use Rattle.least_forms.specs.Problem.{HasRoom};
    ghost use Rattle.least_forms_sample.specs.Jumps.{jumps_problem};

    /// Whether there are at most 2^24 lines. So many have room.
    #[tactic(auto, using(crate::specs::Jumps::few_fit))]
    pub fn has_room(&self) -> bool
        ensures { IsTrue result → HasRoom (jumps_problem self.now.goals.items self.now.reach) }
    {
        self.goals.len() <= 1 << 24
    }
}

impl Lines for Jumps {
    ghost use Rattle.least_forms_sample.specs.Jumps.{jumps_problem, lawful_jumps};

    ghost problem = { λ jumps. jumps_problem jumps.goals.items jumps.reach };

    ghost fine = { λ jumps. Unit {0} };

    ghost lawful = { λ jumps fine. lawful_jumps jumps.goals.items jumps.reach };

    #[tactic(auto, unfolding(crate::specs::Jumps::jumps_problem))]
    fn count(&self) -> usize {
        self.goals.len()
    }

    #[tactic(auto, unfolding(crate::specs::Jumps::jumps_problem))]
    fn width(&self, line: usize, form: u8) -> u32 {
        match self.goal(line) {
            Some(_) if form == 0 => 2,
            Some(_) => 5,
            None => 1,
        }
    }

    #[tactic(auto, unfolding(crate::specs::Jumps::jumps_problem))]
    fn goal(&self, line: usize) -> Option<usize> {
        match self.goals[line] {
            Some(goal) if goal < self.goals.len() => Some(goal),
            _ => None,
        }
    }

    #[tactic(auto, unfolding(crate::specs::Jumps::jumps_problem))]
    fn reaches(&self, line: usize, form: u8, place: u32, goal: u32) -> bool {
        if form == 0 {
            u64::from(goal) <= u64::from(place) + 129 && u64::from(place) <= u64::from(goal) + 126
        } else {
            place.abs_diff(goal) <= self.reach
        }
    }
}
