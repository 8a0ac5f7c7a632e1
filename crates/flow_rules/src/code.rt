ghost use Rattle.std.specs.Prelude.{◌≡◌, length};
ghost use Rattle.std.specs.List.Sorted.{IsNonDecreasing};
ghost use Rattle.flow_rules.specs.Placing.{ArePlaced};

use crate::listing::Listing;
use crate::outside::Outside;
use asm_target::{Placed, Sequence, Target, flow_at};
use machine_effect::Flow;

/// A function in slices.
#[derive(Drop)]
pub struct Code<'a, T: Target> {
    pub code: &'a [Placed<T::Instr>],
    pub depths: &'a [u32],
    pub out: &'a Outside<'a>,
    ghost as_many: { length depths.now ≡ length code.now },
    ghost placed: { ArePlaced code.now },
    ghost ordered: { IsNonDecreasing out.now.entries.now },
    ghost routines: { IsNonDecreasing out.now.growth.now },
}

impl<'a, T: Target> Listing for Code<'a, T> {
    ghost use Rattle.flow_rules.specs.Placing.{around, function_of};
    ghost use Rattle.flow_rules.specs.CodeLaws.{lawful_code};

    ghost function = { λ listing. function_of T.instructions T.SHAPE T.begins listing.code.now listing.depths.now (around listing.out.now) };

    ghost lawful = { λ listing. lawful_code T.instructions T.SHAPE T.begins T.apart listing.code.now listing.depths.now
        (around listing.out.now) listing.placed };

    fn count(&self) -> usize {
        self.code.len()
    }

    fn address(&self, number: usize) -> u64 {
        self.code[number].at
    }

    fn depth(&self, number: usize) -> u32 {
        self.depths[number]
    }

    fn flow(&self, number: usize) -> Flow {
        let placed = &self.code[number];
        flow_at::<T>(&placed.instr, placed.at)
    }

    fn found(&self, number: usize) -> Sequence {
        T::sequence(&self.code[number..])
    }

    fn link(&self) -> Option<u8> {
        T::SHAPE.link
    }

    fn is_in_text(&self, address: u64) -> bool {
        self.out.first <= address && address < self.out.past
    }

    fn is_own(&self, address: u64) -> bool {
        let last = &self.code[self.code.len() - 1];
        let before_last = address < last.at;
        self.code[0].at <= address && (before_last || address - last.at < u64::from(last.len))
    }

    fn is_entry(&self, address: u64) -> bool {
        self.out.entries.binary_search(&address).is_ok()
    }

    fn is_growth_routine(&self, address: u64) -> bool {
        self.out.growth.binary_search(&address).is_ok()
    }
}
