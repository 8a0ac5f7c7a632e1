ghost use Rattle.std.specs.Prelude.{◌≡◌};

use goasm_base::Bytes;
use std::marker::Model;

/// The words of a command, without the program's name.
#[derive(Debug, Drop)]
pub struct Words {
    list: Vec<Bytes>,
}

impl Model for Words {
    ghost use Rattle.std.specs.Prelude.{ℕ, List};

    ghost Value = { List (List ℕ) };

    ghost view = { λ w. w.list.items };
}

impl Words {
    /// These words. It takes no memory.
    pub fn new(list: Vec<Bytes>) -> Self
        ensures { result ≡ list.items }
    {
        Words { list }
    }

    pub fn as_slice(&self) -> &[Bytes]
        ensures { result.now ≡ self.now }
    {
        self.list.as_slice()
    }
}
