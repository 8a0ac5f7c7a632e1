ghost use Rattle.std.specs.Prelude.{◌≡◌, ◌<◌, ◌^◌, length};
ghost use Rattle.image_rules.specs.Machine.{machine_of};
ghost use Rattle.unwind.specs.Looks.{IsStageBy, IsToldBy};
ghost use Rattle.unwind.specs.Walk as walk;
ghost use Rattle.unwind.specs.Walk.{FallsAt, IsOver, answer_at};

use crate::peek::Peek;
use crate::stage::Stage;
use crate::steps::{next_stage, reaches};
use crate::walked::Walked;
use asm_target::Target;
use image_check::Accepted;
use std::marker::Model;

/// The walk of a stack. Contracts see the bytes of its image, where it stands, and the memory that it asks.
#[derive(Drop)]
pub struct Walker<'i, 'a, T: Target, R: Peek> {
    image: &'i Accepted<'a, T>,
    stage: Stage,
    peek: R,
}

impl<'i, 'a, T: Target, R: Peek> Model for Walker<'i, 'a, T, R> {
    ghost use Rattle.std.specs.Prelude.{◌<◌, ◌^◌, length, is_some};
    ghost use Rattle.unwind.specs.Looks.{IsReached};
    ghost use Rattle.unwind.specs.Views.{WalkView};

    ghost Value = { WalkView R };

    ghost view = { λ walker. record { image = walker.image.now; stage = walker.stage; peek = walker.peek } };

    ghost invariant = { λ walker. (length walker.image.now < 2 ^ 32) × IsReached walker.image.now (is_some T.SHAPE.link) walker.stage };
}

impl<'i, 'a, T: Target, R: Peek> Walker<'i, 'a, T, R> {
    /// The walk from the registers of a machine: the address of its next instruction, its stack pointer and, where the target has
    /// one, its link register. `peek` gives the words of its memory.
    pub fn new(image: &'i Accepted<'a, T>, pc: u64, sp: u64, link: u64, peek: R) -> Self
        requires { length image.now < 2 ^ 32 }
        ensures { result ≡ record { image = image.now; stage = Stage.Start pc sp link; peek = peek } }
    {
        Walker {
            image,
            stage: Stage::Start { pc, sp, link },
            peek,
        }
    }

    /// The next frame, innermost first; behind the last one `End`, or why the walk can't go on. After these it's the same again.
    pub fn next(&mut self) -> Walked
        ensures step { let machine = machine_of T.instructions T.fits T.MACHINE T.QUANTUM T.SHAPE T.GROWTH T.begins in
            IsStageBy machine self.old.image (λ looks. walk.next_stage looks (R.memory self.old.peek) self.old.stage) self.new.stage }
        ensures again { IsOver self.old.stage → self.new.stage ≡ self.old.stage }
        ensures answer { result ≡ answer_at self.new.stage }
        ensures image { self.new.image ≡ self.old.image }
        ensures peek { self.new.peek ≡ self.old.peek }

        // The tables of the frame's function have a depth, a line and a file for it.
        ensures told { IsToldBy self.new.image result }

        // So a walk ends.
        ensures fewer { FallsAt self.old.stage self.new.stage result }
    {
        reaches(self.image);
        self.stage = next_stage(self.image, &self.peek, self.stage);
        answer(self.stage)
    }
}

fn answer(stage: Stage) -> Walked
    ensures { result ≡ answer_at stage }
{
    match stage {
        Stage::At(place) => Walked::Frame(place.seen),
        Stage::Start { .. } | Stage::End => Walked::End,
        Stage::No(refusal) => Walked::No(refusal),
    }
}
