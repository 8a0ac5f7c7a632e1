ghost use Rattle.std.specs.Prelude.{◌≡◌, ◌<◌, ◌^◌, length, Some, IfOk};
ghost use Rattle.machine_dump.specs.Faults.{Judges, dump_fault, machine_in, pc_in, sp_in, link_in};
ghost use Rattle.machine_dump.specs.Contents.{byte_of, word_in};

use crate::fault::DumpNo;
use crate::header::read_header;
use crate::marks::Marks;
use crate::range::judge_ranges;
use crate::search::word_at;
use std::marker::Model;

/// A recorded state of a machine: its program counter, its stack pointer, its link register and parts of its memory. Contracts see
/// the text.
#[derive(Drop)]
pub struct Dump<'a> {
    bytes: &'a [u8],
    // The number of the machine, the ELF's `e_machine`.
    machine: u16,
    pc: u64,
    sp: u64,
    link: u64,
    // The text behind the first four lines.
    body: Marks<'a>,
}

impl<'a> Model for Dump<'a> {
    ghost use Rattle.std.specs.Prelude.{ℕ, List};
    ghost use Rattle.machine_dump.specs.Read.{IsRead};

    ghost Value = { List ℕ };

    ghost view = { λ d. d.bytes.now };

    ghost invariant = { λ d. IsRead d.bytes.now d.body d.machine d.pc d.sp d.link };
}

impl<'a> Dump<'a> {
    /// Reads the dump that the text is, and keeps the slice. It's refused exactly where a line isn't as the form has it, is missing
    /// or isn't ended, or where a range begins below the end of the one before it or touches that, with the first such line. It
    /// takes time by the length of the text, and no memory.
    #[tactic(auto, unfolding(crate::specs::Faults::dump_fault))]
    pub fn read(bytes: &'a [u8]) -> Result<Dump<'a>, DumpNo>
        requires { length bytes.now < 2 ^ 32 }
        ensures exact { Judges result (dump_fault bytes.now) }
        ensures text { IfOk result (λ dump. dump ≡ bytes.now) }
    {
        let header = read_header(bytes)?;
        judge_ranges(header.body)?;
        Ok(Dump {
            bytes,
            machine: header.machine,
            pc: header.pc,
            sp: header.sp,
            link: header.link,
            body: Marks::new(header.body),
        })
    }

    /// The number of the machine that it's a state of, as the ELF has it: 62 for amd64, 183 for arm64, 243 for riscv64.
    pub fn machine(&self) -> u16
        ensures { machine_in self.now ≡ Some result }
    {
        self.machine
    }

    /// The program counter.
    pub fn pc(&self) -> u64
        ensures { pc_in self.now ≡ Some result }
    {
        self.pc
    }

    /// The stack pointer.
    pub fn sp(&self) -> u64
        ensures { sp_in self.now ≡ Some result }
    {
        self.sp
    }

    /// The link register; 0 on amd64.
    pub fn link(&self) -> u64
        ensures { link_in self.now ≡ Some result }
    {
        self.link
    }

    /// The word at an address, eight bytes with the lowest first. `None` exactly where one of them stands in no range, also where
    /// its address would pass 2^64 - 1. It's found by halves, so that it takes little time in a dump of many ranges.
    pub fn word(&self, at: u64) -> Option<u64>
        ensures { result ≡ word_in (byte_of self.now) at }
    {
        word_at(&self.body, at)
    }
}
