use link_names::Meaning;

/// What an address is kept by: what a symbol stands for, in a form that can be hashed.
#[derive(Clone, Copy, PartialEq, Eq, Hash)]
pub enum Key {
    Function(usize, usize),
    Value(usize, usize),
    Outside(usize),
}

ghost use Rattle.std.specs.Prelude.{◌≡◌};
ghost use Rattle.link_places.specs.Keys.{meaning_of};

/// The key of a meaning.
pub fn key_of(meaning: Meaning) -> Key
    ensures { meaning_of result ≡ meaning }
{
    match meaning {
        Meaning::Function { unit, number } => Key::Function(unit, number),
        Meaning::Value { unit, number } => Key::Value(unit, number),
        Meaning::Outside(number) => Key::Outside(number),
    }
}
