ghost use Rattle.std.specs.Prelude.{◌≡◌, ℕ, Option};

/// The memory of a machine that stands still, by its words of eight bytes, the lowest first.
pub trait Peek {
    /// The word at each address.
    ghost memory: { Self → ℕ → Option ℕ };

    /// The word at the address. `None` where one of its bytes isn't there.
    fn word(&self, at: u64) -> Option<u64>
        ensures { result ≡ memory self.now at };
}
