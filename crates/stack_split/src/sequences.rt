ghost use Rattle.std.specs.Prelude.{◌≡◌, ◌≤◌, ◌+◌, ◌++◌, List, [], map, length, Bool, if◌then◌else◌};
ghost use Rattle.asm_target.specs.Frames.{IsFrame};
ghost use Rattle.stack_split.specs.Opening.{check_of, opening, plain};

use asm_target::{Few, FrameShape, Guard, Picked, Target};

/// The instructions that begin a function with this frame. With `check` they begin with the check whether the stack has room
/// for it, behind which stands the block that has the stack grow, if that is its place; then come those that enter the frame,
/// none where its size is 0.
pub fn prologue<T: Target>(frame: FrameShape, check: bool) -> Few<Picked<T::Instr>>
    requires { IsFrame T.MACHINE frame }
    ensures { result ≡ opening (T.check frame) (T.entry frame) check }
{
    let mut code = check_code::<T>(frame, check);
    let entry = T::enter(frame);
    append_plain(&mut code, &entry);
    code
}

/// The instructions that leave the frame, none where its size is 0.
pub fn epilogue<T: Target>(frame: FrameShape) -> Few<T::Instr>
    requires { IsFrame T.MACHINE frame }
    ensures { result ≡ T.exit frame }
{
    T::leave(frame)
}

// The check, where one is due.
fn check_code<T: Target>(frame: FrameShape, check: bool) -> Few<Picked<T::Instr>>
    requires { IsFrame T.MACHINE frame }
    ensures code { result ≡ (if check then check_of (T.check frame) else []) }
    ensures room { length result + length (T.entry frame) ≤ 14 }
{
    if check {
        guard_code::<T>(frame)
    } else {
        Few::new()
    }
}

fn guard_code<T: Target>(frame: FrameShape) -> Few<Picked<T::Instr>>
    requires { IsFrame T.MACHINE frame }
    ensures code { result ≡ check_of (T.check frame) }
    ensures room { length result + length (T.entry frame) ≤ 14 }
{
    let guard = T::guard(frame);
    let mut code = Few::new();
    append(&mut code, &guard.head);
    if guard.in_place {
        append(&mut code, &guard.block);
    }
    code
}

// Appends items to others.
fn append<I: Copy + Default>(code: &mut Few<I>, more: &Few<I>)
    requires { length code.old + length more.now ≤ 14 }
    ensures { code.new ≡ code.old ++ more.now }
{
    for index in 0..more.len() {
        code.push(more.get(index));
    }
}

// Appends instructions that refer to nothing.
fn append_plain<I: Copy + Default>(code: &mut Few<Picked<I>>, more: &Few<I>)
    requires { length code.old + length more.now ≤ 14 }
    ensures { code.new ≡ code.old ++ map plain more.now }
{
    for index in 0..more.len() {
        code.push(Picked {
            instr: more.get(index),
            refer: None,
        });
    }
}
