ghost use Rattle.std.specs.Prelude.{◌≡◌, ◌≢◌, ◌⊎◌, ℕ, List, ◌≤◌, Some};
ghost use Rattle.goasm_base.specs.Shelf.{Files};
ghost use Rattle.goasm_base.specs.Sink.{with_more};
ghost use Rattle.goasm_run.specs.Changes.{shelf_change, sink_change, FailsToTake};
ghost use Rattle.goasm_run.specs.Endings.{Text, Refusal};
ghost use Rattle.goasm_run.specs.Plan.{Malformed, EndsIn, StopsAt, MakesReads, EndsOver};
ghost use Rattle.goasm_run.specs.Commands.{plan_of};
ghost use Rattle.goasm_run.specs.Lines.{words_line, memory_line, unread_line};
ghost use Rattle.goasm_run.specs.Statuses.{OutFailed, ErrFailed, KeptBack, Told, IsWritten};

use crate::lines;
use crate::program::answers::one_answer;
use crate::program::dispatch::answer;
use crate::stop::Stop;
use crate::words::Words;
use goasm_base::{Failed, Memory, Shelf, Sink};
use std::alloc::Global;

/// Runs the command that the words ask for, and answers the program's status:
///
/// - 0: the standard output took the command's text
/// - 1: the input meets a refusal, which the standard error took
/// - 2: the words have no command's form
/// - 3: memory was wanting
/// - 4: a file that the words name couldn't be read
/// - 5: the standard output or the standard error failed
///
/// A text is whole before the first byte of it is written.
#[tactic(auto, using(crate::proofs::StatusLemmas::text_ends, crate::proofs::StatusLemmas::words_stopped))]
pub fn goasm_main<F: Shelf, O: Sink, E: Sink>(
    alloc: Global,
    words: &Words,
    shelf: &mut F,
    out: &mut O,
    err: &mut E,
) -> u8
    ensures range { result ≤ 5 }

    // What each status says.
    ensures text { result ≡ 0 → (text : List ℕ)
        × EndsIn (shelf_change F.holds F.faults F.reads shelf.old shelf.new) (plan_of words.now) (Text text)
        × (O.took out.new ≡ with_more (O.took out.old) text) }
    ensures refused { result ≡ 1 → (line : List ℕ)
        × EndsIn (shelf_change F.holds F.faults F.reads shelf.old shelf.new) (plan_of words.now) (Refusal line)
        × (E.took err.new ≡ with_more (E.took err.old) line) }
    ensures words { result ≡ 2 → (plan_of words.now ≡ Malformed)
        × (E.took err.new ≡ with_more (E.took err.old) words_line) }
    ensures memory { result ≡ 3 → E.took err.new ≡ with_more (E.took err.old) memory_line }
    ensures unread { result ≡ 4 → (name : List ℕ)
        × StopsAt (shelf_change F.holds F.faults F.reads shelf.old shelf.new) (plan_of words.now) name
        × (E.took err.new ≡ with_more (E.took err.old) (unread_line name)) }
    ensures unwritten { result ≡ 5 →
        OutFailed (shelf_change F.holds F.faults F.reads shelf.old shelf.new) (plan_of words.now)
        (sink_change O.took O.faults out.old out.new) (sink_change E.took E.faults err.old err.new)
        ⊎ ErrFailed (shelf_change F.holds F.faults F.reads shelf.old shelf.new) (plan_of words.now)
        (sink_change O.took O.faults out.old out.new) (sink_change E.took E.faults err.old err.new) }
    ensures out_kept { result ≢ 0 → result ≢ 5 → O.took out.new ≡ O.took out.old }
    ensures err_kept { result ≡ 0 → E.took err.new ≡ E.took err.old }

    // With any status the reads that were made are the first ones that the words ask for, each made once.
    ensures reads { MakesReads (shelf_change F.holds F.faults F.reads shelf.old shelf.new) (plan_of words.now) }

    // When a status comes, over a shelf that tells its files.
    ensures malformed { plan_of words.now ≡ Malformed → (result ≡ 2) ⊎ (result ≡ 5) }
    ensures succeeds { (files : Files) (text : List ℕ) → F.holds shelf.old ≡ Some files
        → EndsOver files (plan_of words.now) (Text text)
        → ((result ≡ 0) × (O.took out.new ≡ with_more (O.took out.old) text))
        ⊎ ((result ≡ 5) × FailsToTake (sink_change O.took O.faults out.old out.new) text)
        ⊎ KeptBack result (shelf_change F.holds F.faults F.reads shelf.old shelf.new) (plan_of words.now)
        (sink_change O.took O.faults out.old out.new) (sink_change E.took E.faults err.old err.new) }
    ensures refuses { (files : Files) (line : List ℕ) → F.holds shelf.old ≡ Some files
        → EndsOver files (plan_of words.now) (Refusal line)
        → ((result ≡ 1) × (E.took err.new ≡ with_more (E.took err.old) line))
        ⊎ KeptBack result (shelf_change F.holds F.faults F.reads shelf.old shelf.new) (plan_of words.now)
        (sink_change O.took O.faults out.old out.new) (sink_change E.took E.faults err.old err.new) }
{
    one_answer();
    match answer(alloc, words, shelf) {
        Ok(text) => match out.write(text.as_slice()) {
            Ok(()) => 0,
            Err(Failed) => 5,
        },
        Err(stop) => tell(alloc, err, stop),
    }
}

// Writes the line that says why there is no text, and answers the status.
fn tell<E: Sink>(alloc: Global, err: &mut E, stop: Stop) -> u8
    ensures { Told (sink_change E.took E.faults err.old err.new) stop result }
{
    match stop {
        Stop::Refused(line) => write_line(err, line.as_slice(), 1),
        Stop::Words => write_line(err, lines::WORDS, 2),
        Stop::Memory => write_line(err, lines::MEMORY, 3),
        Stop::Unread(name) => match lines::unread(alloc, name.as_slice()) {
            Ok(line) => write_line(err, line.as_slice(), 4),
            Err(Memory) => write_line(err, lines::MEMORY, 3),
        },
    }
}

// Writes a line, and answers its status, or 5 where the write failed.
fn write_line<E: Sink>(err: &mut E, line: &[u8], status: u8) -> u8
    ensures { IsWritten (sink_change E.took E.faults err.old err.new) result status line.now }
{
    match err.write(line) {
        Ok(()) => status,
        Err(Failed) => 5,
    }
}
