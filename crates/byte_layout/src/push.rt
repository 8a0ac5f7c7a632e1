ghost use Rattle.std.specs.Prelude.{◌≡◌, ◌+◌, ◌%◌, ◌^◌, ◌<◌, ◌++◌, length, vec_len, OnOk, OnErr};
ghost use Rattle.std.specs.List.{flat_map};
ghost use Rattle.byteorder.specs.Endian.{little_bytes};
ghost use Rattle.byte_layout.specs.Stands.{Stands};
ghost use Rattle.byte_layout.specs.Joined.{padded};

use byteorder::{ByteOrder, LittleEndian};
use std::alloc::AllocError;

/// Appends a number of four bytes, the lowest first.
pub fn push_u32(bytes: &mut Vec<u8>, number: u32) -> Result<(), AllocError>
    ensures ok { OnOk result (bytes.new.items ≡ bytes.old.items ++ little_bytes 4 number) }
    ensures err { OnErr result (bytes.new.items ≡ bytes.old.items) }
{
    let mut word = [0; 4];
    LittleEndian::write_u32(&mut word, number);
    bytes.extend_from_slice(&word)
}

/// Appends a number of eight bytes, the lowest first.
pub fn push_u64(bytes: &mut Vec<u8>, number: u64) -> Result<(), AllocError>
    ensures ok { OnOk result (bytes.new.items ≡ bytes.old.items ++ little_bytes 8 number) }
    ensures err { OnErr result (bytes.new.items ≡ bytes.old.items) }
{
    let mut word = [0; 8];
    LittleEndian::write_u64(&mut word, number);
    bytes.extend_from_slice(&word)
}

/// Appends numbers of four bytes each. Without memory the bytes still begin with those that they were.
#[tactic(auto, using(crate::proofs::PushedLemmas::pushed_none, crate::proofs::PushedLemmas::pushed_next, crate::proofs::PushedLemmas::pushed_all))]
pub fn push_words(bytes: &mut Vec<u8>, words: &[u32]) -> Result<(), AllocError>
    ensures ok { OnOk result (bytes.new.items ≡ bytes.old.items ++ flat_map (little_bytes 4) words.now) }
    ensures err { OnErr result (Stands bytes.new.items 0 bytes.old.items) }
{
    for word in words {
        push_u32(bytes, *word)?;
    }
    Ok(())
}

/// Appends zeros up to the next multiple of a unit. Without memory the bytes still begin with those that they were.
#[tactic(auto, using(crate::proofs::JoinedLemmas::padded_whole, crate::proofs::JoinedLemmas::padded_near))]
pub fn pad(bytes: &mut Vec<u8>, unit: usize) -> Result<(), AllocError>
    requires { 0 < unit }
    ensures ok { OnOk result (bytes.new.items ≡ padded unit bytes.old.items) }
    ensures whole { OnOk result (length bytes.new.items % unit ≡ 0) }
    ensures near { OnOk result (length bytes.new.items < length bytes.old.items + unit) }
    ensures err { OnErr result (Stands bytes.new.items 0 bytes.old.items) }
{
    push_zeros(bytes, unit)?;
    Ok(())
}

#[tactic(auto, unfolding(crate::specs::Joined::padded), using(crate::proofs::StandsLemmas::stands_begun))]
fn push_zeros(bytes: &mut Vec<u8>, unit: usize) -> Result<(), AllocError>
    requires { 0 < unit }
    ensures ok { OnOk result (bytes.new.items ≡ padded unit bytes.old.items) }
    ensures err { OnErr result (Stands bytes.new.items 0 bytes.old.items) }
{
    let gap = (unit - bytes.len() % unit) % unit;
    for _ in 0..gap {
        bytes.push(0)?;
    }
    Ok(())
}

/// Appends a part at the next multiple of a unit, with zeros before it. Without memory the bytes still begin with those
/// that they were.
#[tactic(auto, using(crate::proofs::JoinedLemmas::padded_begun))]
pub fn push_part(bytes: &mut Vec<u8>, unit: usize, part: &[u8]) -> Result<(), AllocError>
    requires { 0 < unit }
    ensures ok { OnOk result (bytes.new.items ≡ padded unit bytes.old.items ++ part.now) }
    ensures err { OnErr result (Stands bytes.new.items 0 bytes.old.items) }
{
    pad(bytes, unit)?;
    bytes.extend_from_slice(part)?;
    Ok(())
}
