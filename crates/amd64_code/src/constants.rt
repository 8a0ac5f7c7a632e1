//! Constants and displacements, written and read: signed, lowest byte first. A reader sees 0 past the end of its bytes: whether a
//! spelling stands there is asked when the bytes are compared.
ghost use Rattle.std.specs.Prelude.{◌≡◌, ◌≤◌, ◌<◌, ◌+◌, ◌++◌, ◌∷◌, [], length, slice_index};
ghost use Rattle.arrayvec.specs.ArrayVec.{array_vec_len};
ghost use Rattle.std.specs.Int.{w32, to_le_bytes};
ghost use Rattle.machine_effect.specs.Numbers.{fits as fits_bits};
ghost use Rattle.amd64_code.specs.Constants as spec;

use asm_target::Spelled;

/// The byte at this place, 0 past the end.
pub fn byte_at(bytes: &[u8], place: usize) -> u8
    ensures { result ≡ slice_index bytes.now place }
{
    match bytes.get(place) {
        Some(byte) => *byte,
        None => 0,
    }
}

/// The signed number of the first byte.
#[tactic(auto, unfolding(crate::specs::Constants::byte_in))]
pub fn byte_in(bytes: &[u8]) -> i8
    ensures { result ≡ spec.byte_in bytes.now }
{
    byte_at(bytes, 0).cast_signed()
}

/// The number of the first four bytes, lowest first.
#[tactic(auto, unfolding(crate::specs::Constants::unsigned_in))]
pub fn unsigned_in(bytes: &[u8]) -> u32
    ensures { result ≡ spec.unsigned_in bytes.now }
{
    u32::from_le_bytes([
        byte_at(bytes, 0),
        byte_at(bytes, 1),
        byte_at(bytes, 2),
        byte_at(bytes, 3),
    ])
}

/// The signed number of the first four bytes, lowest first.
#[tactic(auto, unfolding(crate::specs::Constants::long_in))]
pub fn long_in(bytes: &[u8]) -> i32
    ensures { result ≡ spec.long_in bytes.now }
{
    unsigned_in(bytes).cast_signed()
}

/// The signed number of the first eight bytes, lowest first.
#[tactic(auto, unfolding(crate::specs::Constants::quad_in))]
pub fn quad_in(bytes: &[u8]) -> i64
    ensures { result ≡ spec.quad_in bytes.now }
{
    i64::from_le_bytes([
        byte_at(bytes, 0),
        byte_at(bytes, 1),
        byte_at(bytes, 2),
        byte_at(bytes, 3),
        byte_at(bytes, 4),
        byte_at(bytes, 5),
        byte_at(bytes, 6),
        byte_at(bytes, 7),
    ])
}

/// Appends these bytes.
pub fn push_all(out: &mut Spelled, bytes: &[u8])
    requires { array_vec_len out.old + length bytes.now ≤ 15 }
    ensures bytes { out.new.items ≡ out.old.items ++ bytes.now }
    ensures len { array_vec_len out.new ≡ array_vec_len out.old + length bytes.now }
{
    let _fits = out.try_extend_from_slice(bytes);
}

/// Appends a constant of one byte.
pub fn push_byte(out: &mut Spelled, constant: i8)
    requires { array_vec_len out.old ≤ 14 }
    ensures bytes { out.new.items ≡ out.old.items ++ spec.byte_of constant }
    ensures len { array_vec_len out.new ≡ array_vec_len out.old + 1 }
{
    out.push(constant.cast_unsigned());
}

/// Appends a constant of four bytes without a sign.
pub fn push_unsigned(out: &mut Spelled, constant: u32)
    requires { array_vec_len out.old ≤ 11 }
    ensures bytes { out.new.items ≡ out.old.items ++ to_le_bytes w32 constant }
    ensures len { array_vec_len out.new ≡ array_vec_len out.old + 4 }
{
    push_all(out, &constant.to_le_bytes());
}

/// Appends a constant of four bytes.
pub fn push_long(out: &mut Spelled, constant: i32)
    requires { array_vec_len out.old ≤ 11 }
    ensures bytes { out.new.items ≡ out.old.items ++ spec.long_of constant }
    ensures len { array_vec_len out.new ≡ array_vec_len out.old + 4 }
{
    push_unsigned(out, constant.cast_unsigned());
}

/// Appends a constant of eight bytes.
pub fn push_quad(out: &mut Spelled, constant: i64)
    requires { array_vec_len out.old ≤ 7 }
    ensures bytes { out.new.items ≡ out.old.items ++ spec.quad_of constant }
    ensures len { array_vec_len out.new ≡ array_vec_len out.old + 8 }
{
    push_all(out, &constant.cast_unsigned().to_le_bytes());
}

/// Whether a constant is a signed byte.
pub fn is_byte(constant: i32) -> bool
    ensures { result ≡ fits_bits 8 constant }
{
    -128 <= constant && constant <= 127
}

/// Appends a constant of one byte where that is enough, of four otherwise.
#[tactic(auto, unfolding(crate::specs::Constants::short_of))]
pub fn push_short(out: &mut Spelled, constant: i32)
    requires { array_vec_len out.old ≤ 11 }
    ensures bytes { out.new.items ≡ out.old.items ++ spec.short_of constant }
    ensures most { array_vec_len out.new ≤ array_vec_len out.old + 4 }
{
    match i8::try_from(constant) {
        Ok(byte) => push_byte(out, byte),
        Err(_) => push_long(out, constant),
    }
}
