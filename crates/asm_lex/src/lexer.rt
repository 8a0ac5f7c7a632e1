ghost use Rattle.std.specs.Prelude.{◌≡◌, ◌≢◌, ◌≤◌, ◌+◌, [], ◌++◌, length, All, IfOk, IfErr, OnOk};
ghost use Rattle.asm_lex.specs.Cut.{tokens_of};
ghost use Rattle.asm_lex.specs.Faults.{IsFirstRefusal, IsInFile, refusal_of, faults_of, first_fault};
ghost use Rattle.goasm_base.specs.Refusals.{Judges};
ghost use Rattle.std.specs.Option.{option_to_list};
ghost use Rattle.asm_lex.specs.Faults as spec;
ghost use Rattle.asm_lex.specs.Form.{AreTokens};
ghost use Rattle.asm_lex.specs.Lines.{last_line};

use crate::byte_faults::{utf8_fault, zero_fault};
use crate::cut::cut_source;
use crate::fault::{Fault, earlier, refusal};
use crate::refusal::LexNo;
use crate::token::Tokens;
use goasm_base::List;
use std::alloc::Global;

/// The tokens of the bytes of a file, which has this number in the build.
///
/// They are refused exactly where something in them is, with the first refusal: by lines, where an open text or
/// comment counts at the line where it begins, and at one line the refusal with the lowest number. Only want of
/// memory may come in place of any answer.
///
/// Lines count from 1. The count stays at 2^31 - 2, so that no token has a greater one.
#[tactic(auto, using(crate::proofs::CutLemmas::first_of_all, crate::proofs::FormLemmas::cut_formed, crate::proofs::FirstLemmas::refused_first, crate::proofs::FirstLemmas::none_found, crate::proofs::PlaceLemmas::tokens_in, crate::proofs::PlaceLemmas::tokens_counted, crate::proofs::PlaceLemmas::tokens_few, crate::proofs::PlaceLemmas::refusal_in))]
pub fn lex<'a>(alloc: Global, file: u32, bytes: &'a [u8]) -> Result<Tokens<'a>, LexNo>
    ensures exact { Judges LexNo.Memory result (refusal_of file bytes.now) }
    ensures first { IfErr result (λ no. no ≢ LexNo.Memory → IsFirstRefusal file (faults_of file bytes.now) no) }
    ensures none { OnOk result (faults_of file bytes.now ≡ []) }
    ensures tokens { IfOk result (λ tokens. tokens ≡ tokens_of file bytes.now) }
    ensures formed { IfOk result (λ tokens. AreTokens tokens) }
    // All stand in the file, on lines up to the greatest one, and each but the last takes a byte at least.
    ensures places { All (λ token. token.pos.file ≡ file) (tokens_of file bytes.now).list }
    ensures lines { All (λ token. token.pos.line ≤ last_line) (tokens_of file bytes.now).list }
    ensures few { length (tokens_of file bytes.now).list ≤ length bytes.now + 1 }
    ensures place { IfErr result (IsInFile file) }
{
    let cut = cut_source(alloc, file, bytes, fault_anywhere(bytes))?;
    match cut.fault {
        Some(fault) => Err(refusal(file, fault)),
        None => Ok(Tokens {
            file,
            list: List::new(cut.tokens),
        }),
    }
}

// The first fault that may stand in a comment or a text too.
fn fault_anywhere(bytes: &[u8]) -> Option<Fault>
    ensures { result
        ≡ first_fault (option_to_list (spec.utf8_fault bytes.now) ++ option_to_list (spec.zero_fault bytes.now)) }
{
    let utf8 = utf8_fault(bytes);
    match zero_fault(bytes) {
        Some(zero) => Some(earlier(utf8, zero)),
        None => utf8,
    }
}
