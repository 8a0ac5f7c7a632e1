ghost use Rattle.std.specs.Prelude.{◌≡◌, ◌+◌, ◌≤◌, length};
ghost use Rattle.pclntab.specs.Words as spec;

use byteorder::{ByteOrder, LittleEndian};

/// The number in the four bytes at a place, the lowest byte first.
#[tactic(auto, unfolding(crate::specs::Words::u32_at))]
pub fn u32_at(bytes: &[u8], at: usize) -> u32
    requires { at + 4 ≤ length bytes.now }
    ensures { result ≡ spec.u32_at bytes.now at }
{
    LittleEndian::read_u32(&bytes[at..at + 4])
}

/// The number in the eight bytes at a place, the lowest byte first.
#[tactic(auto, unfolding(crate::specs::Words::u64_at))]
pub fn u64_at(bytes: &[u8], at: usize) -> u64
    requires { at + 8 ≤ length bytes.now }
    ensures { result ≡ spec.u64_at bytes.now at }
{
    u64::from(u32_at(bytes, at)) + (u64::from(u32_at(bytes, at + 4)) << 32)
}
