// The fields of a table, read where the earlier steps of reading have shown that they lie in the bytes.
ghost use Rattle.std.specs.Prelude.{◌≡◌, ◌+◌, ◌^◌, ◌≤◌, ◌<◌, length};
ghost use Rattle.pclntab.specs.Places as spec;
ghost use Rattle.pclntab.specs.Places.{header_size, record_size};
ghost use Rattle.pclntab.specs.Ready.{IsReady};

use crate::words::{u32_at, u64_at};

pub const HEADER_SIZE: usize = 72;

/// The size of a record without the line of the declaration.
pub const RECORD_BASE: usize = 40;

pub const MAGIC: u32 = 0xFFFF_FFF1;

/// The magic number of the Go 1.18 form.
pub const OLD_MAGIC: u32 = 0xFFFF_FFF0;

// Where the fields of the header stand.
pub const ZEROS_FIELD: usize = 4;

pub const QUANTUM_FIELD: usize = 6;

pub const POINTER_SIZE_FIELD: usize = 7;

pub const FUNC_COUNT_FIELD: usize = 8;

pub const TEXT_START_FIELD: usize = 24;

pub const NAMES_START_FIELD: usize = 32;

pub const UNITS_START_FIELD: usize = 40;

pub const FILES_START_FIELD: usize = 48;

pub const PCS_START_FIELD: usize = 56;

pub const FUNCS_START_FIELD: usize = 64;

pub fn quantum(bytes: &[u8]) -> u8
    requires { header_size ≤ length bytes.now }
    ensures { result ≡ spec.quantum bytes.now }
{
    bytes[QUANTUM_FIELD]
}

pub fn pointer_size(bytes: &[u8]) -> u8
    requires { header_size ≤ length bytes.now }
    ensures { result ≡ spec.pointer_size bytes.now }
{
    bytes[POINTER_SIZE_FIELD]
}

pub fn func_count(bytes: &[u8]) -> u64
    requires { header_size ≤ length bytes.now }
    ensures { result ≡ spec.func_count bytes.now }
{
    u64_at(bytes, FUNC_COUNT_FIELD)
}

pub fn text_start(bytes: &[u8]) -> u64
    requires { header_size ≤ length bytes.now }
    ensures { result ≡ spec.text_start bytes.now }
{
    u64_at(bytes, TEXT_START_FIELD)
}

pub fn names_start(bytes: &[u8]) -> u64
    requires { header_size ≤ length bytes.now }
    ensures { result ≡ spec.names_start bytes.now }
{
    u64_at(bytes, NAMES_START_FIELD)
}

pub fn units_start(bytes: &[u8]) -> u64
    requires { header_size ≤ length bytes.now }
    ensures { result ≡ spec.units_start bytes.now }
{
    u64_at(bytes, UNITS_START_FIELD)
}

pub fn files_start(bytes: &[u8]) -> u64
    requires { header_size ≤ length bytes.now }
    ensures { result ≡ spec.files_start bytes.now }
{
    u64_at(bytes, FILES_START_FIELD)
}

pub fn pcs_start(bytes: &[u8]) -> u64
    requires { header_size ≤ length bytes.now }
    ensures { result ≡ spec.pcs_start bytes.now }
{
    u64_at(bytes, PCS_START_FIELD)
}

pub fn funcs_start(bytes: &[u8]) -> u64
    requires { header_size ≤ length bytes.now }
    ensures { result ≡ spec.funcs_start bytes.now }
{
    u64_at(bytes, FUNCS_START_FIELD)
}

/// The size of the line of the declaration in a record: the Go 1.18 form has none.
#[tactic(auto, unfolding(crate::specs::Places::line_size))]
fn line_size(bytes: &[u8]) -> usize
    requires { header_size ≤ length bytes.now }
    ensures size { result ≡ spec.line_size bytes.now }
    ensures short { result ≤ 4 }
{
    if u32_at(bytes, 0) == OLD_MAGIC { 0 } else { 4 }
}

pub fn record_size(bytes: &[u8]) -> usize
    requires { header_size ≤ length bytes.now }
    ensures size { result ≡ spec.record_size bytes.now }
    ensures short { result ≤ 44 }
{
    RECORD_BASE + line_size(bytes)
}

pub fn pair_place(bytes: &[u8], index: u32) -> usize
    requires ready { IsReady bytes.now }
    requires index { index ≤ spec.func_count bytes.now }
    ensures { result ≡ spec.pair_place bytes.now index }
{
    funcs_start(bytes) as usize + 8 * index as usize
}

/// The entry of the function with this number, in bytes from the text's address; with the number of functions,
/// the end of the last one.
pub fn entry_offset(bytes: &[u8], index: u32) -> u32
    requires ready { IsReady bytes.now }
    requires index { index ≤ spec.func_count bytes.now }
    ensures { result ≡ spec.entry_offset bytes.now index }
{
    u32_at(bytes, pair_place(bytes, index))
}

pub fn record_field(bytes: &[u8], index: u32) -> usize
    requires ready { IsReady bytes.now }
    requires index { index < spec.func_count bytes.now }
    ensures { result ≡ spec.record_field bytes.now index }
{
    pair_place(bytes, index) + 4
}

pub fn record_place(bytes: &[u8], index: u32) -> usize
    requires ready { IsReady bytes.now }
    requires index { index < spec.func_count bytes.now }
    ensures place { result ≡ spec.record_place bytes.now index }
    ensures near { result < 2 ^ 33 }
{
    funcs_start(bytes) as usize + u32_at(bytes, record_field(bytes, index)) as usize
}

pub fn name_field(bytes: &[u8], index: u32) -> usize
    requires ready { IsReady bytes.now }
    requires index { index < spec.func_count bytes.now }
    ensures { result ≡ spec.name_field bytes.now index }
{
    record_place(bytes, index) + 4
}

pub fn args_field(bytes: &[u8], index: u32) -> usize
    requires ready { IsReady bytes.now }
    requires index { index < spec.func_count bytes.now }
    ensures { result ≡ spec.args_field bytes.now index }
{
    record_place(bytes, index) + 8
}

pub fn depth_field(bytes: &[u8], index: u32) -> usize
    requires ready { IsReady bytes.now }
    requires index { index < spec.func_count bytes.now }
    ensures { result ≡ spec.depth_field bytes.now index }
{
    record_place(bytes, index) + 16
}

pub fn file_field(bytes: &[u8], index: u32) -> usize
    requires ready { IsReady bytes.now }
    requires index { index < spec.func_count bytes.now }
    ensures { result ≡ spec.file_field bytes.now index }
{
    record_place(bytes, index) + 20
}

pub fn line_field(bytes: &[u8], index: u32) -> usize
    requires ready { IsReady bytes.now }
    requires index { index < spec.func_count bytes.now }
    ensures { result ≡ spec.line_field bytes.now index }
{
    record_place(bytes, index) + 24
}

pub fn tables_field(bytes: &[u8], index: u32) -> usize
    requires ready { IsReady bytes.now }
    requires index { index < spec.func_count bytes.now }
    ensures { result ≡ spec.tables_field bytes.now index }
{
    record_place(bytes, index) + 28
}

pub fn unit_field(bytes: &[u8], index: u32) -> usize
    requires ready { IsReady bytes.now }
    requires index { index < spec.func_count bytes.now }
    ensures { result ≡ spec.unit_field bytes.now index }
{
    record_place(bytes, index) + 32
}

pub fn flags_field(bytes: &[u8], index: u32) -> usize
    requires ready { IsReady bytes.now }
    requires index { index < spec.func_count bytes.now }
    ensures { result ≡ spec.flags_field bytes.now index }
{
    record_place(bytes, index) + 37 + line_size(bytes)
}

pub fn data_field(bytes: &[u8], index: u32) -> usize
    requires ready { IsReady bytes.now }
    requires index { index < spec.func_count bytes.now }
    ensures { result ≡ spec.data_field bytes.now index }
{
    record_place(bytes, index) + 39 + line_size(bytes)
}

/// The first place behind a record and the words that belong to it.
pub fn record_end(bytes: &[u8], index: u32) -> usize
    requires ready { IsReady bytes.now }
    requires index { index < spec.func_count bytes.now }
    requires fits { spec.record_place bytes.now index + record_size bytes.now ≤ length bytes.now }
    ensures { result ≡ spec.record_end bytes.now index }
{
    let tables = u32_at(bytes, tables_field(bytes, index)) as usize;
    let data = usize::from(bytes[data_field(bytes, index)]);
    record_place(bytes, index) + record_size(bytes) + 4 * tables + 4 * data
}

pub fn name_place(bytes: &[u8], index: u32) -> usize
    requires ready { IsReady bytes.now }
    requires index { index < spec.func_count bytes.now }
    requires fits { spec.record_place bytes.now index + record_size bytes.now ≤ length bytes.now }
    ensures { result ≡ spec.name_place bytes.now index }
{
    names_start(bytes) as usize + u32_at(bytes, name_field(bytes, index)) as usize
}
