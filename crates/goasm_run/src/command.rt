ghost use Rattle.std.specs.Prelude.{◌≡◌};
ghost use Rattle.goasm_run.specs.Commands.{command_of};

/// The commands, by their first word.
#[derive(Clone, Copy, Debug, PartialEq, Eq)]
pub enum Command {
    /// `lookup TABLE PC`
    Lookup,
    /// `bytes TARGET FILE`
    Bytes,
    /// `expand LIST`
    Expand,
    /// `listing TARGET LIST`
    Listing,
    /// `check IMAGE`
    Check,
    /// `dis IMAGE`
    Dis,
    /// `unwind IMAGE DUMP`
    Unwind,
}

impl Command {
    /// The command that a word names.
    #[tactic(auto, unfolding(crate::specs::Commands::command_of))]
    pub fn named(word: &[u8]) -> Option<Command>
        ensures { result ≡ command_of word.now }
    {
        if word == b"lookup".as_slice() {
            return Some(Command::Lookup);
        }
        if word == b"bytes".as_slice() {
            return Some(Command::Bytes);
        }
        if word == b"expand".as_slice() {
            return Some(Command::Expand);
        }
        if word == b"listing".as_slice() {
            return Some(Command::Listing);
        }
        if word == b"check".as_slice() {
            return Some(Command::Check);
        }
        if word == b"dis".as_slice() {
            return Some(Command::Dis);
        }
        if word == b"unwind".as_slice() {
            return Some(Command::Unwind);
        }
        None
    }
}
