use machine_dump::Dump;
use unwind::Peek;

/// The memory of a dump.
#[derive(Clone, Copy)]
pub struct Words<'d, 'a> {
    pub dump: &'d Dump<'a>,
}

impl<'d, 'a> Peek for Words<'d, 'a> {
    ghost use Rattle.text_chain.specs.Chain.{words_of};

    ghost memory = { λ words at. words_of words.dump.now at };

    fn word(&self, at: u64) -> Option<u64> {
        self.dump.word(at)
    }
}
