ghost use Rattle.std.specs.Prelude.{◌≡◌, ℕ, List, ◌≤◌, Option, OnOk, OnErr};
ghost use Rattle.goasm_base.specs.Shelf.{Rose};
ghost use Rattle.goasm_base.specs.Sink.{with_more, TookPrefix};

use thiserror::Error;

/// A write failed.
#[derive(Clone, Copy, Debug, PartialEq, Eq, Error)]
#[error("cannot write")]
pub struct Failed;

/// Where a command writes its text.
pub trait Sink {
    /// The bytes that it took so far, where it tells them.
    ghost took: { Self → Option (List ℕ) };

    /// How many writes failed. A count that reaches the greatest `u64` stays there.
    ghost faults: { Self → ℕ };

    /// Writes all of the bytes. After a write that failed, a prefix of them was taken.
    fn write(&mut self, bytes: &[u8]) -> Result<(), Failed>
        ensures ok { OnOk result (took self.new ≡ with_more (took self.old) bytes.now) }
        ensures err { OnErr result (TookPrefix (took self.old) (took self.new) bytes.now) }

        // The count doesn't fall, and a write that failed is counted.
        ensures faults { faults self.old ≤ faults self.new }
        ensures failed { OnErr result (Rose (faults self.old) (faults self.new)) };
}
