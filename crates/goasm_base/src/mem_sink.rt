ghost use Rattle.std.specs.Prelude.{◌≡◌, ◌+◌, ◌≤◌, [], ◌++◌, length, take, OnOk, OnErr, is_err, Some};
ghost use Rattle.goasm_base.specs.Shelf.{Rose};
ghost use Rattle.goasm_base.specs.Sink.{with_more, TookPrefix};
ghost use Rattle.goasm_base.specs.MemSink as mem_sink;
ghost use Rattle.goasm_base.specs.MemSink.{write_fails, after_write};

use crate::sink::{Failed, Sink};
use std::marker::Model;

/// Bytes taken into memory of a fixed size. A write fails where its bytes don't fit, or where its
/// number, counted from 0, is listed; it then takes as many bytes as fit and the list allows.
#[derive(Debug, Drop)]
pub struct MemSink {
    room: Vec<u8>,
    len: usize,
    failing: Vec<(u32, u32)>,
    writes: u32,
    faults: u64,
}

impl Model for MemSink {
    ghost use Rattle.std.specs.Prelude.{◌≤◌, length, take};
    ghost use Rattle.goasm_base.specs.MemSink.{SinkState};

    ghost Value = { SinkState };

    ghost view = { λ s. record { taken = take s.len s.room.items; room = length s.room.items; failing = s.failing.items; writes = s.writes; faults = s.faults } };

    ghost invariant = { λ s. s.len ≤ length s.room.items };
}

impl MemSink {
    /// A sink that keeps what it takes in the first bytes of `room`, whose length is the most that it can
    /// take. Each pair of `failing` has a write's number and how many bytes that write still takes; of
    /// several pairs of one number the first counts. It takes no memory.
    pub fn new(room: Vec<u8>, failing: Vec<(u32, u32)>) -> Self
        ensures { result ≡ record { taken = []; room = length room.items; failing = failing.items; writes = 0; faults = 0 } }
    {
        MemSink {
            room,
            len: 0,
            failing,
            writes: 0,
            faults: 0,
        }
    }

    /// The bytes that it took.
    pub fn taken(&self) -> &[u8]
        ensures { result.now ≡ self.now.taken }
    {
        &self.room[..self.len]
    }
}

// What the first pair of this number says.
fn first_paired(pairs: &[(u32, u32)], number: u32) -> Option<u32>
    ensures { result ≡ mem_sink.first_paired pairs.now number }
{
    for (listed, count) in pairs {
        if *listed == number {
            return Some(*count);
        }
    }
    None
}

// Puts the bytes behind the first `at` of the room.
fn put(room: &mut Vec<u8>, at: usize, bytes: &[u8])
    requires { at + length bytes.now ≤ length room.old.items }
    ensures front { take (at + length bytes.now) room.new.items ≡ take at room.old.items ++ bytes.now }
    ensures len { length room.new.items ≡ length room.old.items }
{
    room[at..at + bytes.len()].copy_from_slice(bytes);
}

impl Sink for MemSink {
    ghost took = { λ s. Some s.taken };

    ghost faults = { λ s. s.faults };

    /// Fails exactly where the write's number is listed or the bytes pass the room that is left.
    fn write(&mut self, bytes: &[u8]) -> Result<(), Failed>
        ensures ok { OnOk result (Some self.new.taken ≡ with_more (Some self.old.taken) bytes.now) }
        ensures err { OnErr result (TookPrefix (Some self.old.taken) (Some self.new.taken) bytes.now) }
        ensures faults { self.old.faults ≤ self.new.faults }
        ensures failed { OnErr result (Rose self.old.faults self.new.faults) }

        ensures state { self.new ≡ after_write self.old bytes.now }
        ensures fails { is_err result ≡ write_fails self.old bytes.now }
    {
        let listed = first_paired(&self.failing, self.writes);
        self.writes = self.writes.saturating_add(1);
        let fits = bytes.len().min(self.room.len() - self.len);
        let count = match listed {
            Some(most) => fits.min(most as usize),
            None => fits,
        };
        put(&mut self.room, self.len, &bytes[..count]);
        self.len += count;
        if listed.is_some() || fits < bytes.len() {
            self.faults = self.faults.saturating_add(1);
            return Err(Failed);
        }
        Ok(())
    }
}
