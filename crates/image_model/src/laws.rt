// Laws about the definitions in specs/, each the contract of a function that does nothing.
ghost use Rattle.std.specs.Prelude.{◌≡◌, ◌<◌, ℕ, Some, None, true};
ghost use Rattle.std.specs.Option.{option_map};
ghost use Rattle.asm_target.specs.FlowRules.{IsFlowSound};
ghost use Rattle.flow_rules.specs.Placing.{Surroundings};
ghost use Rattle.image_model.specs.Image.{Line, is_served};
ghost use Rattle.image_model.specs.Joined.{AreFlowSound, IsCallOf, IsLineOf, IsMachine, IsSoundFunction, IsText, Text, joined, line_of};
ghost use Rattle.image_model.specs.Listed.{AreFunctions, Listed, text_of};
ghost use Rattle.image_model.specs.Sample.{calling};
ghost use Rattle.image_model.specs.Soundness.{IsSound};

use asm_target::Target;

/// The instructions of each function are found at their addresses, and nothing else is.
pub fn lines_stand()
    ensures found { (text : Text) (i k : ℕ) → IsText text → i < text.count → k < (text.code i).rules.count
        → (joined text).line_at ((text.code i).rules.at k) ≡ Some (line_of (text.code i) k) }
    ensures only { (text : Text) (address : ℕ) (line : Line) → IsText text
        → (joined text).line_at address ≡ Some line → IsLineOf text address line }
{}

/// A call is found by the address behind it exactly where it's no call of a routine that grows the stack.
pub fn calls_end()
    ensures found { (text : Text) (i k : ℕ) → IsText text → i < text.count → k < (text.code i).rules.count
        → is_served text.is_growth_routine ((text.code i).placed k).effect.next ≡ true
        → (joined text).after_call ((text.code i).placed k).past ≡ Some ((text.code i).rules.at k) }
    ensures only { (text : Text) (address place : ℕ) → IsText text
        → (joined text).after_call address ≡ Some place → IsCallOf text address place }
{}

/// A function that breaks no flow rule is sound in the image.
pub fn functions_are_sound()
    ensures { (text : Text) (i : ℕ) → IsText text → IsMachine text → i < text.count → IsFlowSound (text.code i).rules
        → IsSoundFunction (joined text) (text.code i) }
{}

/// Where no function breaks a flow rule, the image is sound.
pub fn image_is_sound()
    ensures { (text : Text) → IsText text → IsMachine text → AreFlowSound text → IsSound (joined text) }
{}

/// Functions of a target's instructions, one behind the other, are a text of machine code.
pub fn listed_is_text<T: Target>()
    ensures text { (around : Surroundings) (count : ℕ) (functions : ℕ → Listed T.Instr)
        → AreFunctions T.instructions T.fits around count functions
        → IsText (text_of T.instructions T.SHAPE T.GROWTH T.begins around count functions) }
    ensures machine { (around : Surroundings) (count : ℕ) (functions : ℕ → Listed T.Instr)
        → AreFunctions T.instructions T.fits around count functions
        → IsMachine (text_of T.instructions T.SHAPE T.GROWTH T.begins around count functions) }
{}

// What is asked of functions holds of two, of which one calls the other.
fn can_hold()
    ensures text { IsText calling }
    ensures machine { IsMachine calling }
    ensures flow { AreFlowSound calling }
    ensures line { option_map (λ line. line.entry) ((joined calling).line_at 0x1005) ≡ Some 0x1000 }
    ensures padding { (joined calling).line_at 0x1006 ≡ None }
    ensures call { (joined calling).after_call 0x1005 ≡ Some 0x1000 }
    ensures none { (joined calling).after_call 0x1011 ≡ None }
{}
