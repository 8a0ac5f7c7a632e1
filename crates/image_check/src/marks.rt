ghost use Rattle.std.specs.Prelude.{◌≡◌, ◌<◌, ◌≤◌, ◌+◌, ◌^◌, ◌||◌, ℕ, List, length, IfOk};
ghost use Rattle.std.specs.List.{list_any};
ghost use Rattle.std.specs.List.Sorted.{IsNonDecreasing};
ghost use Rattle.elf_image.specs.Contents.{text_address, text_in};
ghost use Rattle.flow_rules.specs.Placing.{Surroundings, is_listed};
ghost use Rattle.image_check.specs.Marks.{AreInText, IsOfImage, MarkFirst, begins_at, call_ends_at};
ghost use Rattle.image_check.specs.Readers.{listed_of};
ghost use Rattle.image_marks.specs.Bits.{has, room};
ghost use Rattle.image_model.specs.Image as image;
ghost use Rattle.image_rules.specs.Functions.{IsFunction};
ghost use Rattle.image_rules.specs.Machine.{machine_of};

use crate::function::Function;
use asm_target::{Placed, Target};
use elf_image::Image;
use goasm_base::Memory;
use image_marks::Bits;
use image_rules::one_function;
use machine_effect::Next;
use std::alloc::Global;

/// Where instructions begin and where calls end, in bytes from the text's first one. Calls of routines that grow the stack don't
/// count.
#[derive(Drop)]
pub(crate) struct Marks {
    pub(crate) starts: Bits,
    pub(crate) ends: Bits,
}

impl Marks {
    /// The marks of no function, with room for those of a text of so many bytes.
    pub(crate) fn new<T: Target>(alloc: Global, size: usize) -> Result<Marks, Memory>
        requires { size < 2 ^ 63 }
        ensures marks { let machine = machine_of T.instructions T.fits T.MACHINE T.QUANTUM T.SHAPE T.GROWTH T.begins in
            IfOk result (λ marks. (bytes : List ℕ) (around : Surroundings) → MarkFirst machine bytes around 0 marks.starts marks.ends) }
        ensures start_room { IfOk result (λ marks. size < room marks.starts) }
        ensures end_room { IfOk result (λ marks. size < room marks.ends) }
    {
        Ok(Marks {
            starts: Bits::new(alloc, size + 1)?,
            ends: Bits::new(alloc, size + 1)?,
        })
    }

    /// Adds the marks of a function of an image, whose calls of these routines have the stack grow.
    pub(crate) fn mark<T: Target>(
        &mut self,
        image: &Image,
        function: &Function<T::Instr>,
        growth: &[u64],
    )
        requires ordered { IsNonDecreasing growth.now }
        requires function { let machine = machine_of T.instructions T.fits T.MACHINE T.QUANTUM T.SHAPE T.GROWTH T.begins in
            IsOfImage machine image.now (listed_of function.now) }
        requires start_room { length (text_in image.now) < room self.old.starts }
        requires end_room { length (text_in image.now) < room self.old.ends }
        ensures marks { let machine = machine_of T.instructions T.fits T.MACHINE T.QUANTUM T.SHAPE T.GROWTH T.begins in
            (around : Surroundings) (index : ℕ) → around.growth ≡ growth.now → IsFunction machine image.now index (listed_of function.now)
            → MarkFirst machine image.now around index self.old.starts self.old.ends
            → MarkFirst machine image.now around (index + 1) self.new.starts self.new.ends }
        ensures start_room { room self.new.starts ≡ room self.old.starts }
        ensures end_room { room self.new.ends ≡ room self.old.ends }
    {
        one_function::<T>();
        self.add::<T>(image.text_at(), &function.code, growth);
    }

    // Adds the marks of instructions.
    fn add<T: Target>(&mut self, first: u64, code: &[Placed<T::Instr>], growth: &[u64])
        requires first { first ≡ text_address }
        requires ordered { IsNonDecreasing growth.now }
        requires starts { AreInText (room self.old.starts) code.now }
        requires ends { AreInText (room self.old.ends) code.now }
        ensures starts { (offset : ℕ) → has self.new.starts offset
            ≡ (has self.old.starts offset || list_any (begins_at (text_address + offset)) code.now) }
        ensures ends { (offset : ℕ) → has self.new.ends offset
            ≡ (has self.old.ends offset || list_any (call_ends_at T.instructions growth.now (text_address + offset)) code.now) }
        ensures start_room { room self.new.starts ≡ room self.old.starts }
        ensures end_room { room self.new.ends ≡ room self.old.ends }
    {
        for one in code {
            self.add_one::<T>(first, one, growth);
        }
    }

    // Adds those of one instruction.
    fn add_one<T: Target>(&mut self, first: u64, one: &Placed<T::Instr>, growth: &[u64])
        requires first { first ≡ text_address }
        requires ordered { IsNonDecreasing growth.now }
        requires low { text_address ≤ one.now.at }
        requires start_room { one.now.at + one.now.len < text_address + room self.old.starts }
        requires end_room { one.now.at + one.now.len < text_address + room self.old.ends }
        ensures starts { (offset : ℕ) → has self.new.starts offset
            ≡ (has self.old.starts offset || begins_at (text_address + offset) one.now) }
        ensures ends { (offset : ℕ) → has self.new.ends offset
            ≡ (has self.old.ends offset || call_ends_at T.instructions growth.now (text_address + offset) one.now) }
        ensures start_room { room self.new.starts ≡ room self.old.starts }
        ensures end_room { room self.new.ends ≡ room self.old.ends }
    {
        let start = (one.at - first) as usize;
        self.starts.add(start);
        if is_served(T::effect(&one.instr, one.at).next, growth) {
            self.ends.add(start + one.len as usize);
        }
    }
}

// Whether it's a call, and no direct one of these routines.
#[tactic(auto, using(flow_rules::proofs::EntryLemmas::searched_entries))]
fn is_served(next: Next, routines: &[u64]) -> bool
    requires { IsNonDecreasing routines.now }
    ensures { result ≡ image.is_served (is_listed routines.now) next }
{
    match next {
        Next::Call { goal, .. } => routines.binary_search(&goal).is_err(),
        Next::CallTo { .. } => true,
        _ => false,
    }
}
