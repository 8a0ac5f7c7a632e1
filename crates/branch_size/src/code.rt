use crate::forms::form_reaches;
use crate::rows::Row;
use asm_target::Target;
use least_forms::Lines;

/// A function's lines for branch relaxation.
#[derive(Drop)]
pub struct Code<T: Target> {
    pub rows: Vec<Row<T::Instr>>,
}

impl<T: Target> Lines for Code<T> {
    ghost use Rattle.branch_size.specs.Rows.{problem_of, AreRows};
    ghost use Rattle.branch_size.specs.Lawful.{lawful_rows, quantum_kinds};

    ghost problem = { λ code. problem_of T.instructions T.fits T.aiming T.QUANTUM code.rows.items };

    ghost fine = { λ code. AreRows T.instructions T.fits T.aiming code.rows.items };

    ghost lawful = { λ code fine. lawful_rows T.instructions T.fits T.aiming T.QUANTUM
        (record { quantum_kind = quantum_kinds T.MACHINE T.QUANTUM T.SHAPE T.GROWTH T.architecture; lengths = T.lengths; formed = T.formed; reaches = T.reaches })
        code.rows.items fine };

    #[tactic(auto, unfolding(crate::specs::Rows::problem_of))]
    fn count(&self) -> usize {
        self.rows.len()
    }

    #[tactic(auto, unfolding(crate::specs::Rows::problem_of))]
    fn width(&self, line: usize, form: u8) -> u32 {
        let row = &self.rows[line];
        if form == 0 { row.short } else { row.long }
    }

    #[tactic(auto, unfolding(crate::specs::Rows::problem_of))]
    fn goal(&self, line: usize) -> Option<usize> {
        self.rows[line].goal
    }

    #[tactic(auto, unfolding(crate::specs::Rows::problem_of))]
    fn reaches(&self, line: usize, form: u8, place: u32, goal: u32) -> bool {
        let instr = self.rows[line].instr;
        form_reaches::<T>(&T::forms(&instr, form), u64::from(place), u64::from(goal))
    }
}
