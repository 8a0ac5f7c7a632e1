ghost use Rattle.std.specs.Prelude.{◌≡◌, ℕ};
ghost use Rattle.goasm_base.specs.declared.pos.Pos.{Pos};
ghost use Rattle.goasm_base.specs.declared.statement.Function.{Function};
ghost use Rattle.asm_target.specs.declared.body.Body.{Body};
ghost use Rattle.asm_target.specs.declared.select_no.SelectNo.{SelectNo};
ghost use Rattle.stack_split.specs.FrameSizes.{frame_for};
ghost use Rattle.obj_rewrite.specs.Rewriting.{rules_of};
ghost use Rattle.obj_rewrite.specs.Rewritten.{IsRefusedAt, IsRewritten, IsTooLarge};

use asm_target::Target;

/// A function has one answer: it has one list of instructions, or one first statement that is refused for one reason, or a frame that is
/// too large.
pub fn one_answer<T: Target>()
    ensures one { (func : Function) (body other : Body T.Instr) → let frame = frame_for T.MACHINE func in
        let rules = rules_of T.instructions T.SHAPE T.begins T.selection frame in
        IsRewritten rules func frame (T.check frame) (T.entry frame) body
        → IsRewritten rules func frame (T.check frame) (T.entry frame) other
        → (body.frame ≡ other.frame) × (body.code ≡ other.code) }
    ensures never { (func : Function) (body : Body T.Instr) (place : Pos) (why : SelectNo) → let frame = frame_for T.MACHINE func in
        let rules = rules_of T.instructions T.SHAPE T.begins T.selection frame in
        IsRewritten rules func frame (T.check frame) (T.entry frame) body
        → ¬ IsRefusedAt rules func frame (T.check frame) (T.entry frame) place why }
    ensures first { (func : Function) (place other : Pos) (why reason : SelectNo) → let frame = frame_for T.MACHINE func in
        let rules = rules_of T.instructions T.SHAPE T.begins T.selection frame in
        IsRefusedAt rules func frame (T.check frame) (T.entry frame) place why
        → IsRefusedAt rules func frame (T.check frame) (T.entry frame) other reason
        → (place ≡ other) × (why ≡ reason) }
    ensures large { (func : Function) (body : Body T.Instr) (place other : Pos) (total : ℕ) (why : SelectNo)
        → let frame = frame_for T.MACHINE func in let rules = rules_of T.instructions T.SHAPE T.begins T.selection frame in
        IsTooLarge T.MACHINE func place total
        → (¬ IsRewritten rules func frame (T.check frame) (T.entry frame) body)
        × (¬ IsRefusedAt rules func frame (T.check frame) (T.entry frame) other why) }
{}
