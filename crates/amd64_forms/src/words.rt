ghost use Rattle.std.specs.Prelude.{◌≡◌, ◌↔◌, Some, IfSome, IsTrue};
ghost use Rattle.amd64_forms.specs.declared.rows.Spoken.{Spoken};
ghost use Rattle.amd64_forms.specs.Words.{Says, IsTls, IsRegister, IsCondition, IsWord};

use crate::alias::alias_named;
use crate::names::mnemonic_named;
use crate::registers::{cc_named, reg_named, xmm_named};
use crate::rows::{Spoken, meaning_of};

/// What a statement's name says; `None` exactly where there is no such name.
#[tactic(auto, using(crate::proofs::Apart::aliases_apart), unfolding(crate::specs::Words::Says))]
pub fn spoken(name: &[u8]) -> Option<Spoken>
    ensures found { IfSome result (λ spoken. Says name.now spoken) }
    ensures only { (spoken : Spoken) → Says name.now spoken → result ≡ Some spoken }
{
    match mnemonic_named(name) {
        Some(mnemonic) => Some(Spoken::Listed(mnemonic)),
        None => Some(meaning_of(alias_named(name)?)),
    }
}

/// Whether the name is that of the base of thread-local storage.
pub fn is_tls(name: &[u8]) -> bool
    ensures { IsTrue result ↔ IsTls name.now }
{
    matches!(name, b"TLS")
}

/// Whether the name is that of a register.
#[tactic(auto, unfolding(crate::specs::Words::IsRegister))]
pub fn is_register(name: &[u8]) -> bool
    ensures { IsTrue result ↔ IsRegister name.now }
{
    reg_named(name).is_some() || xmm_named(name).is_some() || is_tls(name)
}

/// Whether the name is that of a condition.
#[tactic(auto, unfolding(crate::specs::Words::IsCondition))]
pub fn is_condition(name: &[u8]) -> bool
    ensures { IsTrue result ↔ IsCondition name.now }
{
    cc_named(name).is_some() || matches!(name, b"LO" | b"HS")
}

/// Whether the name is that of a register or a condition.
pub fn is_word(name: &[u8]) -> bool
    ensures { IsTrue result ↔ IsWord name.now }
{
    is_register(name) || is_condition(name)
}
