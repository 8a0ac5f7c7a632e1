ghost use Rattle.std.specs.Prelude.{◌≡◌, ℕ, ◌≤◌, None, take, OnOk, OnErr, IsTrue};
ghost use Rattle.std.specs.Io.KnownBytes.{Appends};
ghost use Rattle.goasm_base.specs.Shelf.{Rose};
ghost use Rattle.goasm_base.specs.Sink.{with_more, TookPrefix};

use goasm_base::{Failed, Sink, behind};
use std::io::Write;

/// An output stream. What it took isn't told.
#[derive(Drop)]
pub struct Stream<W: Write + Drop> {
    pub writer: W,
    /// How many writes failed.
    pub faults: u64,
}

impl<W: Write + Drop> Stream<W> {
    pub fn new(writer: W) -> Self
        ensures writer { result.writer ≡ writer }
        ensures faults { result.faults ≡ 0 }
    {
        Stream { writer, faults: 0 }
    }
}

impl<W: Write + Drop> Sink for Stream<W> {
    ghost took = { λ _. None };

    ghost faults = { λ s. s.faults };

    /// Where the writer tells what it holds, it was given all of the bytes, or a prefix of them where the write failed.
    fn write(&mut self, bytes: &[u8]) -> Result<(), Failed>
        ensures ok { OnOk result (None ≡ with_more None bytes.now) }
        ensures err { OnErr result (TookPrefix None None bytes.now) }
        ensures faults { self.old.faults ≤ self.new.faults }
        ensures failed { OnErr result (Rose self.old.faults self.new.faults) }

        ensures all { OnOk result (Appends (W.contents self.old.writer) (W.contents self.new.writer) bytes.now) }
        ensures part { (count : ℕ) × Appends (W.contents self.old.writer) (W.contents self.new.writer) (take count bytes.now) }
    {
        if write_all(&mut self.writer, bytes) {
            return Ok(());
        }
        self.faults = self.faults.saturating_add(1);
        Err(Failed)
    }
}

// Whether all of the bytes were written. A write that takes nothing of a piece has failed.
#[tactic(auto, using(crate::proofs::StreamLemmas::rest_behind, crate::proofs::StreamLemmas::wrote_behind))]
fn write_all<W: Write>(writer: &mut W, bytes: &[u8]) -> bool
    ensures all { IsTrue result → Appends (W.contents writer.old) (W.contents writer.new) bytes.now }
    ensures part { (count : ℕ) × Appends (W.contents writer.old) (W.contents writer.new) (take count bytes.now) }
{
    let mut rest = bytes;
    while !rest.is_empty() {
        match writer.write(rest) {
            Ok(0) | Err(_) => return false,
            Ok(count) => rest = behind(rest, count),
        }
    }
    writer.flush().is_ok()
}
