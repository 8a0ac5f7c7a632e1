ghost use Rattle.std.specs.Prelude.{◌≡◌, ◌≢◌, ◌<◌, ◌≤◌, ◌^◌, ◌+◌, ◌↔◌, List, ℤ, Some, length, IsTrue, IfOk, IfSome};
ghost use Rattle.std.specs.Option.{option_map};
ghost use Rattle.pclntab.specs.Func as spec;
ghost use Rattle.pclntab.specs.Places.{text_start};
ghost use Rattle.pclntab.specs.Ready.{IsReady, IsFuncOf};
ghost use Rattle.pclntab.specs.Table.{NamesPcTable};
ghost use Rattle.pclntab.specs.Func.{HasPc, entry_of, end_of, name_of, args_of, flags_of, depth_at, line_at, file_at, answer_at, FieldTellsOver, DepthsOver, LinesOver, FilesOver};
ghost use Rattle.pcvalue.specs.Cover.{Ascends};

use crate::names::text_from;
use crate::places;
use crate::words::u32_at;
use goasm_base::{Memory, behind};
use pcvalue::{Answer, value_at, values_over};
use std::alloc::Global;
use std::marker::Model;

/// A function of a table. Contracts see the table's bytes and the function's number, from 0 in the order of entries.
#[derive(Drop)]
pub struct Func<'a> {
    bytes: &'a [u8],
    index: u32,
}

impl<'a> Model for Func<'a> {
    ghost use Rattle.std.specs.Prelude.{◌<◌};
    ghost use Rattle.pclntab.specs.Places.{func_count};
    ghost use Rattle.pclntab.specs.Func.{FuncView};
    ghost use Rattle.pclntab.specs.Ready.{IsFuncOf};

    ghost Value = { FuncView };

    ghost view = { λ f. record { bytes = f.bytes.now; index = f.index } };

    ghost invariant = { λ f. IsFuncOf f.bytes.now f.index };
}

impl<'a> Func<'a> {
    pub(crate) fn new(bytes: &'a [u8], index: u32) -> Self
        requires { IsFuncOf bytes.now index }
        ensures { result ≡ record { bytes = bytes.now; index = index } }
    {
        Func { bytes, index }
    }

    /// The address of its first instruction.
    pub fn entry(&self) -> u64
        ensures { result ≡ entry_of self.now.bytes self.now.index }
    {
        let bytes = self.bytes;
        places::text_start(bytes) + u64::from(places::entry_offset(bytes, self.index))
    }

    /// The first address behind it.
    pub fn end(&self) -> u64
        ensures end { result ≡ end_of self.now.bytes self.now.index }
        ensures near { result < text_start self.now.bytes + 2 ^ 32 }
    {
        let bytes = self.bytes;
        places::text_start(bytes) + u64::from(places::entry_offset(bytes, self.index + 1))
    }

    /// Whether the address lies in its range.
    pub fn has(&self, pc: u64) -> bool
        ensures { IsTrue result ↔ HasPc self.now.bytes self.now.index pc }
    {
        self.entry() <= pc && pc < self.end()
    }

    /// Its name with the package's path, as `runtime.main`.
    pub fn name(&self) -> &'a [u8]
        ensures { name_of self.now.bytes self.now.index ≡ Some result.now }
    {
        let bytes = self.bytes;
        match text_from(bytes, places::name_place(bytes, self.index)) {
            Some(name) => name,
            None => unreachable!(),
        }
    }

    /// The size of its arguments and results in bytes, or -2^31 where it isn't known.
    pub fn args(&self) -> i32
        ensures { result ≡ args_of self.now.bytes self.now.index }
    {
        let bytes = self.bytes;
        u32_at(bytes, places::args_field(bytes, self.index)).cast_signed()
    }

    /// Its flags: 1 where a stack ends in it, 2 where it writes the stack pointer in a way that no table tells, 4
    /// where it is written in assembly.
    pub fn flags(&self) -> u8
        ensures { result ≡ flags_of self.now.bytes self.now.index }
    {
        let bytes = self.bytes;
        bytes[places::flags_field(bytes, self.index)]
    }

    /// The stack depth at an address in its range: by how many bytes the stack pointer is below its value at the
    /// entry.
    pub fn depth(&self, pc: u64) -> Answer
        requires { HasPc self.now.bytes self.now.index pc }
        ensures depth { result ≡ depth_at self.now.bytes self.now.index pc }
        ensures known { result ≢ Answer.Bad }
    {
        let bytes = self.bytes;
        self.look_up(places::depth_field(bytes, self.index), pc)
    }

    /// The line of the source at an address in its range.
    pub fn line(&self, pc: u64) -> Answer
        requires { HasPc self.now.bytes self.now.index pc }
        ensures line { result ≡ line_at self.now.bytes self.now.index pc }
        ensures known { result ≢ Answer.Bad }
    {
        let bytes = self.bytes;
        self.look_up(places::line_field(bytes, self.index), pc)
    }

    /// The name of the source file at an address in its range. `None` exactly where the table has no value there,
    /// the value is below 0, or its word or name lies outside the bytes.
    pub fn file(&self, pc: u64) -> Option<&'a [u8]>
        requires { HasPc self.now.bytes self.now.index pc }
        ensures { option_map (λ name. name.now) result ≡ file_at self.now.bytes self.now.index pc }
    {
        let bytes = self.bytes;
        let Answer::Value(number) = self.look_up(places::file_field(bytes, self.index), pc) else {
            return None;
        };
        if number < 0 {
            return None;
        }
        let unit = u32_at(bytes, places::unit_field(bytes, self.index));
        file_name(bytes, number as u64 + u64::from(unit))
    }

    /// The stack depths of stretches of the function, one behind the other from its entry on, each up to its end in bytes from
    /// there. `None` exactly where the record names no depth table, or that isn't in its least form, ends before or behind the
    /// last stretch, or changes within one.
    pub fn depths_over(&self, alloc: Global, ends: &[u32]) -> Result<Option<Vec<i32>>, Memory>
        requires rising { Ascends 0 ends.now }
        ensures values { IfOk result (λ found. IfSome found (λ values. DepthsOver self.now.bytes self.now.index ends.now values.items)) }
        ensures only { (values : List ℤ) → DepthsOver self.now.bytes self.now.index ends.now values
            → IfOk result (λ found. option_map (λ v. v.items) found ≡ Some values) }
    {
        self.values_over(alloc, places::depth_field(self.bytes, self.index), ends)
    }

    /// The lines of stretches of the function, one behind the other from its entry on, each up to its end in bytes from
    /// there. `None` exactly where the record names no line table, or that isn't in its least form, ends before or behind the
    /// last stretch, or changes within one.
    pub fn lines_over(&self, alloc: Global, ends: &[u32]) -> Result<Option<Vec<i32>>, Memory>
        requires rising { Ascends 0 ends.now }
        ensures values { IfOk result (λ found. IfSome found (λ values. LinesOver self.now.bytes self.now.index ends.now values.items)) }
        ensures only { (values : List ℤ) → LinesOver self.now.bytes self.now.index ends.now values
            → IfOk result (λ found. option_map (λ v. v.items) found ≡ Some values) }
    {
        self.values_over(alloc, places::line_field(self.bytes, self.index), ends)
    }

    /// The file numbers of stretches of the function, one behind the other from its entry on, each up to its end in bytes from
    /// there. `None` exactly where the record names no file table, or that isn't in its least form, ends before or behind the
    /// last stretch, or changes within one. `Table::has_file` says whether a number stands for a file.
    pub fn files_over(&self, alloc: Global, ends: &[u32]) -> Result<Option<Vec<i32>>, Memory>
        requires rising { Ascends 0 ends.now }
        ensures values { IfOk result (λ found. IfSome found (λ values. FilesOver self.now.bytes self.now.index ends.now values.items)) }
        ensures only { (values : List ℤ) → FilesOver self.now.bytes self.now.index ends.now values
            → IfOk result (λ found. option_map (λ v. v.items) found ≡ Some values) }
    {
        self.values_over(alloc, places::file_field(self.bytes, self.index), ends)
    }

    // The values of the pc-value table that a field of the record names.
    fn values_over(
        &self,
        alloc: Global,
        field: usize,
        ends: &[u32],
    ) -> Result<Option<Vec<i32>>, Memory>
        requires rising { Ascends 0 ends.now }
        requires field { field + 4 ≤ length self.now.bytes }
        ensures values { IfOk result (λ found. IfSome found (λ values. FieldTellsOver self.now.bytes field ends.now values.items)) }
        ensures only { (values : List ℤ) → FieldTellsOver self.now.bytes field ends.now values
            → IfOk result (λ found. option_map (λ v. v.items) found ≡ Some values) }
    {
        let bytes = self.bytes;
        values_over(
            alloc,
            behind(bytes, places::pcs_start(bytes) as usize),
            u32_at(bytes, field),
            places::quantum(bytes),
            ends,
        )
    }

    // What the pc-value table that a field of the record names says of an address.
    #[tactic(auto, unfolding(crate::specs::Func::answer_at))]
    fn look_up(&self, field: usize, pc: u64) -> Answer
        requires pc { HasPc self.now.bytes self.now.index pc }
        requires field { field + 4 ≤ length self.now.bytes }
        ensures answer { result ≡ answer_at self.now.bytes self.now.index field pc }
        ensures known { NamesPcTable self.now.bytes field → result ≢ Answer.Bad }
    {
        let bytes = self.bytes;
        let place = pc - self.entry();
        prove!(pc < self.end());
        value_at(
            behind(bytes, places::pcs_start(bytes) as usize),
            u32_at(bytes, field),
            places::quantum(bytes),
            place as u32,
        )
    }
}

#[tactic(auto, unfolding(crate::specs::Func::file_name))]
fn file_name(bytes: &[u8], number: u64) -> Option<&[u8]>
    requires ready { IsReady bytes.now }
    requires number { number < 2 ^ 33 }
    ensures { option_map (λ name. name.now) result ≡ spec.file_name bytes.now number }
{
    let word = places::units_start(bytes) + 4 * number;
    if word + 4 > bytes.len() as u64 {
        return None;
    }
    let name = places::files_start(bytes) + u64::from(u32_at(bytes, word as usize));
    text_from(bytes, name as usize)
}
