ghost use Rattle.std.specs.Prelude.{◌≡◌};
ghost use Rattle.goasm_run.specs.Bytes.{architecture_of};
ghost use Rattle.goasm_run.specs.Images.{architecture_in, architecture_numbered};

use goasm_base::behind_or_empty;

/// The place of the machine's number in an image (`e_machine` of the ELF header).
const MACHINE: usize = 18;

/// The architectures whose code is read, by their names in Go (GOARCH).
#[derive(Clone, Copy, Debug, PartialEq, Eq)]
pub enum Architecture {
    /// `amd64`
    Amd64,
}

impl Architecture {
    /// The architecture that a word names.
    #[tactic(auto, unfolding(crate::specs::Bytes::architecture_of))]
    pub fn named(word: &[u8]) -> Option<Architecture>
        ensures { result ≡ architecture_of word.now }
    {
        if word == b"amd64".as_slice() {
            return Some(Architecture::Amd64);
        }
        None
    }

    /// The architecture of an image.
    #[tactic(auto, unfolding(crate::specs::Images::architecture_in))]
    pub fn of_image(image: &[u8]) -> Option<Architecture>
        ensures { result ≡ architecture_in image.now }
    {
        match behind_or_empty(image, MACHINE) {
            [low, high, ..] => Architecture::numbered(u16::from(*low) + 256 * u16::from(*high)),
            _ => None,
        }
    }

    // The architecture of this machine number of ELF.
    fn numbered(number: u16) -> Option<Architecture>
        ensures { result ≡ architecture_numbered number }
    {
        match number {
            62 => Some(Architecture::Amd64),
            _ => None,
        }
    }
}
