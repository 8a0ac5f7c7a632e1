// The steps by which a table is read, in their order. Each is refused with the first fault of its part.
ghost use Rattle.std.specs.Prelude.{◌≡◌, ℕ, ◌+◌, ◌^◌, ◌<◌, ◌≤◌, length, IsTrue, MatchResult};
ghost use Rattle.memchr.specs.Find.{IsLastByte, is_byte};
ghost use Rattle.pclntab.specs.Places.{func_count, entry_offset, record_place, record_size, quantum, name_place};
ghost use Rattle.pclntab.specs.Texts.{ends_at};
ghost use Rattle.pclntab.specs.Table.{IsHeader, HasTables, HasOrder, HasRecord, HasName, IsFunc, IsTable, pc_bytes, NamesPcTable};
ghost use Rattle.pclntab.specs.Faults.{Judges, header_fault, tables_fault, entry_fault, order_fault, record_fault, name_fault, pc_fault, func_fault, table_fault};
ghost use Rattle.goasm_base.specs.Refusals.{first_below};
ghost use Rattle.pclntab.specs.Ready.{IsReady};

use crate::fault::TableNo;
use crate::names;
use crate::pc_tables::PcTables;
use crate::places::{
    self, FILES_START_FIELD, FUNCS_START_FIELD, HEADER_SIZE, MAGIC, NAMES_START_FIELD, OLD_MAGIC,
    PCS_START_FIELD, POINTER_SIZE_FIELD, QUANTUM_FIELD, TEXT_START_FIELD, UNITS_START_FIELD,
    ZEROS_FIELD,
};
use crate::words::u32_at;
use goasm_base::behind;
use memchr::memrchr;

// The greatest address at which a text may begin: offsets from it have 32 bits.
const LAST_TEXT_START: u64 = u64::MAX - u32::MAX as u64;

/// Reads the whole table.
#[tactic(auto, unfolding(crate::specs::Faults::table_fault))]
pub fn judge(bytes: &[u8]) -> Result<(), TableNo>
    requires { length bytes.now < 2 ^ 32 }
    ensures exact { Judges result (table_fault bytes.now) }
    ensures form { MatchResult result (λ _. IsTable bytes.now) (λ _. IsTable bytes.now → ⊥) }
{
    judge_header(bytes)?;
    judge_tables(bytes)?;
    judge_order(bytes)?;
    judge_funcs(bytes)
}

#[tactic(auto, unfolding(crate::specs::Faults::header_fault))]
fn judge_header(bytes: &[u8]) -> Result<(), TableNo>
    ensures exact { Judges result (header_fault bytes.now) }
    ensures form { MatchResult result (λ _. IsHeader bytes.now) (λ _. IsHeader bytes.now → ⊥) }
{
    if bytes.len() < 4 || !matches!(u32_at(bytes, 0), MAGIC | OLD_MAGIC) {
        return Err(TableNo::TB1(0));
    }
    if bytes.len() < HEADER_SIZE {
        return Err(TableNo::TB2(bytes.len() as u64));
    }
    if bytes[ZEROS_FIELD] != 0 || bytes[ZEROS_FIELD + 1] != 0 {
        return Err(TableNo::TB2(ZEROS_FIELD as u64));
    }
    if !matches!(places::quantum(bytes), 1 | 2 | 4) {
        return Err(TableNo::TB2(QUANTUM_FIELD as u64));
    }
    if places::pointer_size(bytes) != 8 {
        return Err(TableNo::TB2(POINTER_SIZE_FIELD as u64));
    }
    if places::text_start(bytes) > LAST_TEXT_START {
        return Err(TableNo::TB2(TEXT_START_FIELD as u64));
    }
    Ok(())
}

#[tactic(auto, unfolding(crate::specs::Faults::tables_fault))]
fn judge_tables(bytes: &[u8]) -> Result<(), TableNo>
    requires { IsHeader bytes.now }
    ensures exact { Judges result (tables_fault bytes.now) }
    ensures form { MatchResult result (λ _. HasTables bytes.now) (λ _. HasTables bytes.now → ⊥) }
{
    let length = bytes.len() as u64;
    if places::names_start(bytes) > length {
        return Err(TableNo::TB4(NAMES_START_FIELD as u64));
    }
    if places::units_start(bytes) > length {
        return Err(TableNo::TB4(UNITS_START_FIELD as u64));
    }
    if places::files_start(bytes) > length {
        return Err(TableNo::TB4(FILES_START_FIELD as u64));
    }
    if places::pcs_start(bytes) > length {
        return Err(TableNo::TB4(PCS_START_FIELD as u64));
    }
    let funcs = places::funcs_start(bytes);
    if funcs > length {
        return Err(TableNo::TB4(FUNCS_START_FIELD as u64));
    }
    let room = length - funcs;
    if room < 4 || (room - 4) / 8 < places::func_count(bytes) {
        return Err(TableNo::TB4(FUNCS_START_FIELD as u64));
    }
    Ok(())
}

#[tactic(auto, unfolding(crate::specs::Faults::order_fault), using(goasm_base::proofs::RefusalLemmas::below_zero, goasm_base::proofs::RefusalLemmas::below_next, goasm_base::proofs::RefusalLemmas::below_found))]
fn judge_order(bytes: &[u8]) -> Result<(), TableNo>
    requires { IsReady bytes.now }
    ensures exact { Judges result (order_fault bytes.now) }
    ensures form { MatchResult result (λ _. HasOrder bytes.now) (λ _. HasOrder bytes.now → ⊥) }
{
    let last = (places::func_count(bytes) as u32).saturating_sub(1);
    for index in 0..last {
        judge_entry(bytes, index)?;
    }
    Ok(())
}

#[tactic(auto, unfolding(crate::specs::Faults::entry_fault))]
fn judge_entry(bytes: &[u8], index: u32) -> Result<(), TableNo>
    requires ready { IsReady bytes.now }
    requires index { index + 1 < func_count bytes.now }
    ensures exact { Judges result (entry_fault bytes.now index) }
    ensures form { MatchResult result (λ _. entry_offset bytes.now index ≤ entry_offset bytes.now (index + 1)) (λ _. entry_offset bytes.now index ≤ entry_offset bytes.now (index + 1) → ⊥) }
{
    if places::entry_offset(bytes, index + 1) < places::entry_offset(bytes, index) {
        return Err(TableNo::TB3(places::pair_place(bytes, index + 1) as u64));
    }
    Ok(())
}

#[tactic(auto, using(goasm_base::proofs::RefusalLemmas::below_zero, goasm_base::proofs::RefusalLemmas::below_next, goasm_base::proofs::RefusalLemmas::below_found))]
fn judge_funcs(bytes: &[u8]) -> Result<(), TableNo>
    requires { IsReady bytes.now }
    ensures exact { Judges result (first_below (func_count bytes.now) (func_fault bytes.now)) }
    ensures form { MatchResult result (λ _. (index : ℕ) → index < func_count bytes.now → IsFunc bytes.now index) (λ _. ((index : ℕ) → index < func_count bytes.now → IsFunc bytes.now index) → ⊥) }
{
    let last_zero = memrchr(0, bytes);
    let mut tables = pc_tables(bytes);
    for index in 0..places::func_count(bytes) as u32 {
        judge_func(bytes, index, last_zero, &mut tables)?;
    }
    Ok(())
}

fn pc_tables(bytes: &[u8]) -> PcTables<'_>
    requires { IsReady bytes.now }
    ensures { result ≡ record { bytes = pc_bytes bytes.now; quantum = quantum bytes.now } }
{
    PcTables::new(
        behind(bytes, places::pcs_start(bytes) as usize),
        places::quantum(bytes),
    )
}

#[tactic(auto, unfolding(crate::specs::Faults::func_fault))]
fn judge_func(
    bytes: &[u8],
    index: u32,
    last_zero: Option<usize>,
    tables: &mut PcTables<'_>,
) -> Result<(), TableNo>
    requires ready { IsReady bytes.now }
    requires index { index < func_count bytes.now }
    requires last { IsLastByte (is_byte 0) bytes.now last_zero }
    requires tables { tables.old ≡ record { bytes = pc_bytes bytes.now; quantum = quantum bytes.now } }
    ensures exact { Judges result (func_fault bytes.now index) }
    ensures form { MatchResult result (λ _. IsFunc bytes.now index) (λ _. IsFunc bytes.now index → ⊥) }
    ensures same { tables.new ≡ tables.old }
{
    judge_record(bytes, index)?;
    judge_name(bytes, index, last_zero)?;
    judge_pc_table(bytes, places::depth_field(bytes, index), tables)?;
    judge_pc_table(bytes, places::file_field(bytes, index), tables)?;
    judge_pc_table(bytes, places::line_field(bytes, index), tables)
}

#[tactic(auto, unfolding(crate::specs::Faults::record_fault))]
fn judge_record(bytes: &[u8], index: u32) -> Result<(), TableNo>
    requires ready { IsReady bytes.now }
    requires index { index < func_count bytes.now }
    ensures exact { Judges result (record_fault bytes.now index) }
    ensures form { MatchResult result (λ _. HasRecord bytes.now index) (λ _. HasRecord bytes.now index → ⊥) }
{
    let field = places::record_field(bytes, index) as u64;
    if bytes.len() < places::record_place(bytes, index) + places::record_size(bytes) {
        return Err(TableNo::TB4(field));
    }
    if bytes.len() < places::record_end(bytes, index) {
        return Err(TableNo::TB4(field));
    }
    Ok(())
}

#[tactic(auto, unfolding(crate::specs::Faults::name_fault))]
fn judge_name(bytes: &[u8], index: u32, last_zero: Option<usize>) -> Result<(), TableNo>
    requires ready { IsReady bytes.now }
    requires index { index < func_count bytes.now }
    requires fits { record_place bytes.now index + record_size bytes.now ≤ length bytes.now }
    requires last { IsLastByte (is_byte 0) bytes.now last_zero }
    ensures exact { Judges result (name_fault bytes.now index) }
    ensures form { MatchResult result (λ _. HasName bytes.now index) (λ _. HasName bytes.now index → ⊥) }
{
    let field = places::name_field(bytes, index) as u64;
    let name = places::name_place(bytes, index);
    if name > bytes.len() {
        return Err(TableNo::TB4(field));
    }
    if !names::ends_at(bytes, name, last_zero) {
        return Err(TableNo::TB6(field));
    }
    Ok(())
}

#[tactic(auto, unfolding(crate::specs::Faults::pc_fault))]
fn judge_pc_table(bytes: &[u8], field: usize, tables: &mut PcTables<'_>) -> Result<(), TableNo>
    requires field { field + 4 ≤ length bytes.now }
    requires tables { tables.old ≡ record { bytes = pc_bytes bytes.now; quantum = quantum bytes.now } }
    ensures exact { Judges result (pc_fault bytes.now field) }
    ensures form { MatchResult result (λ _. NamesPcTable bytes.now field) (λ _. NamesPcTable bytes.now field → ⊥) }
    ensures same { tables.new ≡ tables.old }
{
    if tables.has(u32_at(bytes, field)) {
        Ok(())
    } else {
        Err(TableNo::TB5(field as u64))
    }
}
