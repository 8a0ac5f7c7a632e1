ghost use Rattle.std.specs.Prelude.{◌≡◌, IfOk, IfErr, None, Some, if◌then◌else◌};
ghost use Rattle.asm_macro.specs.Refusals as refusals;
ghost use Rattle.asm_macro.specs.Refusals.{IsFault};
ghost use Rattle.asm_macro.specs.declared.cause.Cause.TheVariants as causes;
ghost use Rattle.asm_macro.specs.Uses as spec;
ghost use Rattle.asm_macro.specs.Views.{definitions_of, work_of, front_of};

use crate::cause::{Cause, lower, refusal};
use crate::macros::{Macro, Macros};
use crate::pending::Pending;
use crate::placed::Placed;
use crate::refusal::MacroNo;
use asm_lex::Token;
use goasm_base::{Memory, Pos};

/// What is made of a source so far, and what may still be made of the build.
#[derive(Drop)]
pub struct Produced<'a> {
    pub out: Vec<Token<'a>>,
    /// How many tokens more the results may have.
    pub room: usize,
    /// How many uses more there may be.
    pub uses: usize,
}

/// A name that is used, and its macro.
#[derive(Drop)]
pub struct Met<'m, 't, 'a> {
    pub name: Placed<'a>,
    pub definition: &'m Macro<'t, 'a>,
}

impl<'a> Produced<'a> {
    // Puts out a token, where there is room for it.
    fn put(&mut self, token: Token<'a>) -> Result<bool, Memory>
        ensures uses { self.new.uses ≡ self.old.uses }
        ensures put { IfOk result
            (λ put. spec.put (work_of self.old) token.entry ≡ (if put then Some (work_of self.new) else None)) }
    {
        if self.room == 0 {
            return Ok(false);
        }
        self.room -= 1;
        self.out.push(token)?;
        Ok(true)
    }

    /// Puts out the tokens before the next use.
    #[tactic(auto, unfolding(crate::specs::Uses::front))]
    pub fn put_front<'m, 't>(
        &mut self,
        macros: &'m Macros<'_, 't, 'a>,
        pending: &mut Pending<'a>,
        found: Option<Cause>,
        pos: Pos,
    ) -> Result<Option<Met<'m, 't, 'a>>, MacroNo>
        ensures uses { self.new.uses ≡ self.old.uses }
        ensures ok { IfOk result (λ met. spec.front (definitions_of macros.now) pending.old (work_of self.old)
            ≡ front_of met pending.new (work_of self.new)) }
        ensures err { IfErr result (λ no. IsFault no
            → (spec.front (definitions_of macros.now) pending.old (work_of self.old) ≡ spec.Full)
            × (no ≡ refusals.refusal (refusals.lower found causes.TooMany) pos)) }
    {
        while let Some(placed) = pending.pop() {
            if let Some(definition) = macros.named_by(&placed.token) {
                return Ok(Some(Met {
                    name: placed,
                    definition,
                }));
            }
            if !self.put(placed.token)? {
                return Err(refusal(lower(found, Cause::TooMany), pos));
            }
        }
        Ok(None)
    }
}
