ghost use Rattle.std.specs.Prelude.{◌≡◌, ℕ, List, Option, None, Some, IfOk, slice_get};

use goasm_base::{Bytes, Memory};
use goasm_run::Words;
use std::alloc::Global;
use std::env::FillError;
use std::rt::Env;

/// Where a program's words are read.
pub trait Arguments {
    /// The words in their order, where they are told.
    ghost list: { Self → Option (List (List ℕ)) };

    /// The word with this number, from 0; `None` past the last.
    fn word(&self, alloc: Global, number: usize) -> Result<Option<Bytes>, Memory>
        ensures { IfOk result (λ word. (words : List (List ℕ)) → list self.now ≡ Some words → word ≡ slice_get words number) };
}

/// All words in their order.
pub fn words<A: Arguments>(arguments: &A, alloc: Global) -> Result<Words, Memory>
    ensures { IfOk result (λ found. (words : List (List ℕ)) → A.list arguments.now ≡ Some words → found ≡ words) }
{
    let mut list = Vec::new(alloc);
    for number in 0..usize::MAX {
        match arguments.word(alloc, number)? {
            Some(word) => list.push(word)?,
            None => return Ok(Words::new(list)),
        }
    }
    Err(Memory)
}

/// The words that the process was called with, as bytes, without its own name. The runtime tells nothing of them.
#[derive(Drop)]
pub struct Called<'a, R: Env> {
    rt: &'a R,
}

impl<'a, R: Env> Called<'a, R> {
    pub fn new(rt: &'a R) -> Self {
        Called { rt }
    }
}

impl<'a, R: Env> Arguments for Called<'a, R> {
    ghost list = { λ _. None };

    fn word(&self, alloc: Global, number: usize) -> Result<Option<Bytes>, Memory> {
        argument(self.rt, alloc, number.saturating_add(1))
    }
}

// The argument with this number; `None` past the last.
fn argument<R: Env>(rt: &R, alloc: Global, index: usize) -> Result<Option<Bytes>, Memory> {
    let mut size: usize = 256;
    for _ in 0..64 {
        let mut buffer = vec![in alloc; 0u8; size]?;
        match rt.arg(index, &mut buffer) {
            Ok(len) => {
                buffer.truncate(len);
                return Ok(Some(Bytes::new(buffer)));
            }
            Err(FillError::NotPresent) => return Ok(None),
            Err(FillError::TooLong) => size = size.saturating_mul(2),
        }
    }
    Err(Memory)
}
