ghost use Rattle.std.specs.Prelude.{◌≡◌, List, ℕ, Bool};
ghost use Rattle.asm_parse.specs.Words as spec;
ghost use Rattle.asm_parse.specs.Words.{IsAskable, Tells};

use asm_grammar::{Draft, Word};

/// Whether the names that have to be words of the target are.
pub fn are_words<W: Fn(&[u8]) -> bool>(is_word: &W, operands: &[Draft<'_>]) -> bool
    requires { IsAskable (W.pre is_word.now) }
    ensures { (word : List ℕ → Bool) → Tells (W.post is_word.now) word → result ≡ spec.are_words word operands.now }
{
    for operand in operands {
        if !has_words(is_word, operand) {
            return false;
        }
    }
    true
}

fn has_words<W: Fn(&[u8]) -> bool>(is_word: &W, operand: &Draft<'_>) -> bool
    requires { IsAskable (W.pre is_word.now) }
    ensures { (word : List ℕ → Bool) → Tells (W.post is_word.now) word → result ≡ spec.has_words word operand.now }
{
    match operand {
        Draft::Mem {
            off: _,
            base,
            index,
        } => { is_base(is_word, base) && is_index(is_word, index) }
        Draft::Pair(first, second) => is_word(first.as_slice()) && is_word(second.as_slice()),
        Draft::Shifted {
            reg,
            kind: _,
            amount: _,
        } => is_word(reg.as_slice()),
        _ => true,
    }
}

// `SP` is the machine's stack pointer also where it is no word of the target.
fn is_base<W: Fn(&[u8]) -> bool>(is_word: &W, base: &Word<'_>) -> bool
    requires { IsAskable (W.pre is_word.now) }
    ensures { (word : List ℕ → Bool) → Tells (W.post is_word.now) word → result ≡ spec.is_base word base.now }
{
    match base.as_slice() {
        b"SP" => true,
        name => is_word(name),
    }
}

fn is_index<W: Fn(&[u8]) -> bool>(is_word: &W, index: &Option<(Word<'_>, u8)>) -> bool
    requires { IsAskable (W.pre is_word.now) }
    ensures { (word : List ℕ → Bool) → Tells (W.post is_word.now) word → result ≡ spec.is_index word index.now }
{
    match index {
        None => true,
        Some((name, _)) => is_word(name.as_slice()),
    }
}
