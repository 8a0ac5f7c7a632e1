ghost use Rattle.std.specs.Prelude.{◌≡◌, ◌<◌, ◌+◌, ◌^◌, ℕ, Option, is_some, length};
ghost use Rattle.std.specs.Option.{option_and_then};
ghost use Rattle.elf_image.specs.Contents.{table_in};
ghost use Rattle.image_rules.specs.Machine.{machine_of};
ghost use Rattle.image_rules.specs.Parts.{count_in, text_range};
ghost use Rattle.asm_target.specs.FlowFunction as range;
ghost use Rattle.pclntab.specs.Func as table;
ghost use Rattle.unwind.specs.Looks as looks;
ghost use Rattle.unwind.specs.Looks.{IsReached, IsStageBy, IsTold};
ghost use Rattle.unwind.specs.Walk as walk;
ghost use Rattle.unwind.specs.Walk.{FallsAt, IsOver, answer_at};

use crate::peek::Peek;
use crate::stage::{Place, Stage};
use asm_target::Target;
use image_check::{Accepted, Seen, UnwindNo};
use image_model::listed_is_text;
use image_rules::sound_in_model;
use pcvalue::{Answer, values_are_settled};

// Where the walk stands after one more step.
pub(crate) fn next_stage<T: Target, R: Peek>(image: &Accepted<T>, peek: &R, from: Stage) -> Stage
    requires reached { IsReached image.now (is_some T.SHAPE.link) from }
    ensures again { IsOver from → result ≡ from }
    ensures step { let machine = machine_of T.instructions T.fits T.MACHINE T.QUANTUM T.SHAPE T.GROWTH T.begins in
        IsStageBy machine image.now (λ looks. walk.next_stage looks (R.memory peek.now) from) result }
{
    match from {
        Stage::Start { pc, sp, link } => begin(image, pc, sp, link),
        Stage::At(place) => leave(image, peek, place),
        Stage::End | Stage::No(_) => from,
    }
}

// The first frame.
fn begin<T: Target>(image: &Accepted<T>, pc: u64, sp: u64, link: u64) -> Stage
    ensures { let machine = machine_of T.instructions T.fits T.MACHINE T.QUANTUM T.SHAPE T.GROWTH T.begins in
        IsStageBy machine image.now (λ looks. walk.begun looks (looks.function_at pc) pc sp link) result }
{
    let Some(func) = image.find(pc) else {
        return Stage::No(UnwindNo::U1(pc));
    };
    if image.instr_at(pc).is_none() {
        return Stage::No(UnwindNo::U2(pc));
    }
    let link = if has_link::<T>() { Some(link) } else { None };
    Stage::At(Place {
        seen: Seen { func, pc, look: pc },
        sp,
        link,
    })
}

// The frame of the caller, by the depth of the frame's function.
fn leave<T: Target, R: Peek>(image: &Accepted<T>, peek: &R, place: Place) -> Stage
    requires told { IsTold image.now place.seen }
    ensures { let machine = machine_of T.instructions T.fits T.MACHINE T.QUANTUM T.SHAPE T.GROWTH T.begins in
        IsStageBy machine image.now (λ looks. walk.next_stage looks (R.memory peek.now) (Stage.At place)) result }
{
    if is_top(image, place.seen.func) {
        return Stage::End;
    }
    let depth = depth_at(image, place.seen);
    if depth > u64::MAX - place.sp {
        return Stage::No(UnwindNo::U5(place.sp, depth));
    }
    let at = word_place::<T>(place.sp, depth);
    match return_word(peek, place.link, at, depth) {
        Some(word) => enter_caller(image, place.sp, depth, word),
        None => Stage::No(UnwindNo::U3(at)),
    }
}

// The frame that a return address leads to.
fn enter_caller<T: Target>(image: &Accepted<T>, sp: u64, depth: u64, word: u64) -> Stage
    requires { sp + depth < 2 ^ 64 }
    ensures { let machine = machine_of T.instructions T.fits T.MACHINE T.QUANTUM T.SHAPE T.GROWTH T.begins in
        IsStageBy machine image.now (λ looks. walk.returned looks sp depth word) result }
{
    let (first, past) = image.text();
    if word < first || past <= word {
        return Stage::End;
    }
    let Some(func) = caller_at(image, word) else {
        return Stage::No(UnwindNo::U4(word));
    };
    let pushed = if has_link::<T>() { 0 } else { 8 };
    if pushed > u64::MAX - (sp + depth) {
        return Stage::No(UnwindNo::U5(sp, depth));
    }
    Stage::At(Place {
        seen: Seen {
            func,
            pc: word,
            look: word - 1,
        },
        sp: sp + depth + pushed,
        link: None,
    })
}

// The function of the call that ends at the address and is no call of a routine that grows the stack.
fn caller_at<T: Target>(image: &Accepted<T>, past: u64) -> Option<u32>
    ensures { let machine = machine_of T.instructions T.fits T.MACHINE T.QUANTUM T.SHAPE T.GROWTH T.begins in
        looks.IsCallerBy machine image.now past result }
{
    match image.after_call(past) {
        Some(at) => image.find(at),
        None => None,
    }
}

// Whether a stack ends in the function.
fn is_top<T: Target>(image: &Accepted<T>, func: u32) -> bool
    requires { func < count_in image.now }
    ensures { result ≡ looks.is_top image.now func }
{
    image.function(func).flags() % 2 == 1
}

fn depth_at<T: Target>(image: &Accepted<T>, seen: Seen) -> u64
    requires { IsTold image.now seen }
    ensures { result ≡ looks.depth_by (table.depth_at (table_in image.now) seen.func seen.look) }
{
    match image.function(seen.func).depth(seen.look) {
        Answer::Value(depth) if depth >= 0 => depth as u64,
        _ => 0,
    }
}

// Where a return address stands in memory.
fn word_place<T: Target>(sp: u64, depth: u64) -> u64
    requires { sp + depth < 2 ^ 64 }
    ensures { result ≡ walk.place_by (is_some T.SHAPE.link) sp depth }
{
    if has_link::<T>() { sp } else { sp + depth }
}

// At depth 0 the first frame's return address is in the link register, where there is one.
fn return_word<R: Peek>(peek: &R, link: Option<u64>, at: u64, depth: u64) -> Option<u64>
    ensures { result ≡ walk.word_by (R.memory peek.now) link at depth }
{
    match link {
        Some(link) if depth == 0 => Some(link),
        _ => peek.word(at),
    }
}

fn has_link<T: Target>() -> bool
    ensures { result ≡ is_some T.SHAPE.link }
{
    T::SHAPE.link.is_some()
}

// What a step leads to is told of by the image's tables, and with each frame fewer are left.
pub(crate) fn reaches<T: Target>(image: &Accepted<T>)
    ensures { let machine = machine_of T.instructions T.fits T.MACHINE T.QUANTUM T.SHAPE T.GROWTH T.begins in
        (memory : ℕ → Option ℕ) (from stage : Stage) → length image.now < 2 ^ 32 → IsReached image.now (is_some T.SHAPE.link) from
        → IsStageBy machine image.now (λ looks. walk.next_stage looks memory from) stage
        → IsReached image.now (is_some T.SHAPE.link) stage × FallsAt from stage (answer_at stage) }
{
    image.sound();
    values_are_settled();
    sound_in_model::<T>();
    listed_is_text::<T>();
}
