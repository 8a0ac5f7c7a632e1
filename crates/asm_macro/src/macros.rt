ghost use Rattle.std.specs.Prelude.{◌≡◌, OnOk, Some, None};
ghost use Rattle.std.specs.Option.{option_map, option_copied};
ghost use Rattle.asm_directive.specs.Names.{nothing, with_name};
ghost use Rattle.asm_macro.specs.Definitions.{in_force};
ghost use Rattle.asm_directive.specs.Views.{names_of, parameters_of};
ghost use Rattle.asm_macro.specs.Views.{definition_of, definitions_of};

use crate::built_in::BuiltIn;
use asm_directive::{NameMap, ParameterMap, is_word};
use asm_lex::Token;
use goasm_base::Memory;
use std::alloc::Global;

/// A macro.
#[derive(Drop)]
pub struct Macro<'t, 'a> {
    /// The parameters of one that takes arguments.
    pub parameters: Option<ParameterMap<'a>>,
    pub body: &'t [Token<'a>],
    /// The built-in file that defines it, where one does.
    pub origin: Option<BuiltIn>,
}

/// The macros in force: those of the build, as far as a source hasn't changed them.
#[derive(Drop)]
pub struct Macros<'g, 't, 'a> {
    given: &'g NameMap<'t, Macro<'t, 'a>>,
    // What the source made of names.
    own: NameMap<'a, Option<Macro<'t, 'a>>>,
}

impl<'g, 't, 'a> Macros<'g, 't, 'a> {
    /// Those of the build. It takes no memory.
    pub fn new(alloc: Global, given: &'g NameMap<'t, Macro<'t, 'a>>) -> Self
        ensures { definitions_of result ≡ (λ name. option_map definition_of (names_of given.now name)) }
    {
        Macros {
            given,
            own: NameMap::new(alloc),
        }
    }

    /// The macro of a name.
    #[tactic(auto, unfolding(crate::specs::Views::definitions_of))]
    pub fn get(&self, name: &[u8]) -> Option<&Macro<'t, 'a>>
        ensures { option_map definition_of (option_copied result) ≡ definitions_of self.now name.now }
    {
        match self.own.get(name) {
            Some(own) => own.as_ref(),
            None => self.given.get(name),
        }
    }

    /// The macro that a token names.
    #[tactic(auto, unfolding(crate::specs::Definitions::in_force))]
    pub fn named_by(&self, token: &Token<'_>) -> Option<&Macro<'t, 'a>>
        ensures { option_map definition_of (option_copied result) ≡ in_force (definitions_of self.now) token.now }
    {
        if is_word(token) {
            self.get(token.text.as_slice())
        } else {
            None
        }
    }

    /// Defines a name, in place of what it was.
    pub fn define(&mut self, name: &'a [u8], definition: Macro<'t, 'a>) -> Result<(), Memory>
        ensures { OnOk result
            (definitions_of self.new ≡ with_name (definitions_of self.old) name.now (Some (definition_of definition.entry))) }
    {
        self.own.put(name, Some(definition))?;
        Ok(())
    }

    /// Undefines a name.
    pub fn undefine(&mut self, name: &'a [u8]) -> Result<(), Memory>
        ensures { OnOk result (definitions_of self.new ≡ with_name (definitions_of self.old) name.now None) }
    {
        self.own.put(name, None)?;
        Ok(())
    }
}
