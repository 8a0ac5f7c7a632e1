ghost use Rattle.std.specs.Prelude.{◌≡◌, Some, IfNone, IfSome};
ghost use Rattle.amd64_table.specs.declared.instr.Instr.{Instr};
ghost use Rattle.amd64_table.specs.declared.instr.Instr.TheVariants as instr;
ghost use Rattle.amd64_table.specs.declared.op.Plain.TheVariants as plain;
ghost use Rattle.amd64_code.specs.InstructionSet.{Fits};

use amd64_table::{Instr, fits};
use std::marker::Model;

/// An instruction that amd64's list has. Contracts see it as the instruction itself.
///
/// The type `Instr` leaves some things open, as LOCK before a register or a shift by more than the width; what fits the
/// list is told by `fits` of `amd64_table`. The laws of a target speak of what fits, so code holds nothing else.
#[derive(Clone, Copy, Debug)]
pub struct Listed {
    instr: Instr,
}

impl Model for Listed {
    ghost use Rattle.amd64_table.specs.declared.instr.Instr.{Instr};
    ghost use Rattle.amd64_code.specs.InstructionSet.{Fits};

    ghost Value = { Instr };

    ghost view = { λ listed. listed.instr };

    ghost invariant = { λ listed. Fits listed.instr };

    ghost inverse = { λ instr. record { instr = instr } };
}

impl Listed {
    /// The instruction; `None` exactly where the list doesn't have it.
    pub fn new(instr: Instr) -> Option<Listed>
        ensures same { IfSome result (λ listed. listed ≡ instr) }
        ensures unlisted { IfNone result (¬ Fits instr) }
    {
        if fits(&instr) {
            Some(Listed::known(instr))
        } else {
            None
        }
    }

    /// An instruction that is known to be listed.
    pub fn known(instr: Instr) -> Listed
        requires { Fits instr }
        ensures { result ≡ instr }
    {
        Listed { instr }
    }

    /// An instruction that was read, with its length in bytes; `None` where none was.
    pub fn with_len(found: Option<(Instr, usize)>) -> Option<(Listed, usize)>
        requires { IfSome found (λ found. Fits found.0) }
        ensures { result ≡ found }
    {
        match found {
            Some((instr, len)) => Some((Listed::known(instr), len)),
            None => None,
        }
    }

    /// An instruction that was chosen; `None` where none was.
    pub fn chosen(found: Option<Instr>) -> Option<Listed>
        requires { IfSome found (λ instr. Fits instr) }
        ensures { result ≡ found }
    {
        match found {
            Some(instr) => Some(Listed::known(instr)),
            None => None,
        }
    }

    /// The instruction itself.
    pub fn instr(&self) -> &Instr
        ensures same { result.now ≡ self.now }
        ensures fits { Fits result.now }
    {
        &self.instr
    }
}

impl Default for Listed {
    /// PAUSE.
    #[tactic(auto, unfolding(amd64_table::specs::Fits::fits))]
    fn default() -> Self
        ensures { result ≡ instr.Plain plain.Pause }
    {
        Listed::known(Instr::default())
    }
}
