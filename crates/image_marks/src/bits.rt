ghost use Rattle.std.specs.Prelude.{◌≡◌, ℕ, false, ◌+◌, ◌<◌, ◌≤◌, ◌==◌, ◌||◌, IfOk, IfSome, IfNone};
ghost use Rattle.image_marks.specs.Bits.{has, room, IsNearest};

use goasm_base::Memory;
use std::alloc::Global;
use std::marker::Model;

/// A set of numbers, one bit a number. Contracts see the words that hold the bits, and ask `has` which numbers they say, and
/// `room` how many numbers they can say.
#[derive(Drop)]
pub struct Bits {
    words: Vec<u64>,
}

impl Model for Bits {
    ghost use Rattle.std.specs.Prelude.{ℕ, List};

    ghost Value = { List ℕ };

    ghost view = { λ b. b.words.items };
}

impl Bits {
    /// The empty set, with room for the numbers below a bound.
    pub fn new(alloc: Global, bound: usize) -> Result<Bits, Memory>
        ensures room { IfOk result (λ bits. bound ≤ room bits) }
        ensures empty { IfOk result (λ bits. (number : ℕ) → has bits number ≡ false) }
    {
        Ok(Bits {
            words: vec![in alloc; 0; bound / 64 + 1]?,
        })
    }

    /// Adds a number, for which there has to be room.
    #[tactic(auto, using(crate::proofs::BitLemmas::added_has))]
    pub fn add(&mut self, number: usize)
        requires { number < room self.old }
        ensures added { (other : ℕ) → has self.new other ≡ (other == number || has self.old other) }
        ensures room { room self.new ≡ room self.old }
    {
        self.words[number / 64] |= 1 << (number % 64);
    }

    /// Whether the number is in the set; past its room none is.
    #[tactic(auto, using(crate::proofs::BitLemmas::read_has, crate::proofs::BitLemmas::past_has))]
    pub fn has(&self, number: usize) -> bool
        ensures { result ≡ has self.now number }
    {
        let place = number / 64;
        place < self.words.len() && self.words[place] >> (number % 64) & 1 == 1
    }

    /// The greatest number of the set that is below another, if it's at most 15 below it: an instruction has no more bytes.
    pub fn nearest_before(&self, before: usize) -> Option<usize>
        ensures found { IfSome result (λ number. IsNearest self.now before number) }
        ensures none { IfNone result ((number : ℕ) → number < before → before ≤ number + 15 → has self.now number ≡ false) }
    {
        for back in 1..16 {
            if back > before {
                return None;
            }
            if self.has(before - back) {
                return Some(before - back);
            }
        }
        None
    }
}
