ghost use Rattle.std.specs.Prelude.{◌≡◌, ℕ, pos, nat_lt, ◌^◌, Some, None, IfSome, IsTrue, if◌then◌else◌};
ghost use Rattle.machine_effect.specs.Numbers.{fits as fits_bits};
ghost use Rattle.amd64_table.specs.declared.memory.Rm.{Rm};
ghost use Rattle.amd64_table.specs.Operands.{bits_of};
ghost use Rattle.amd64_table.specs.Texts.{rm_operand};

use amd64_table::{Operand, Rm, Width};

/// The operand as a register or a place in memory; `None` exactly where it's neither.
pub fn rm_of(operand: Operand) -> Option<Rm>
    ensures found { IfSome result (λ rm. rm_operand rm ≡ operand) }
    ensures only { (rm : Rm) → rm_operand rm ≡ operand → result ≡ Some rm }
{
    match operand {
        Operand::Reg(reg) => Some(Rm::Reg(reg)),
        Operand::Mem(mem) => Some(Rm::Mem(mem)),
        _ => None,
    }
}

/// The constant, where it has 32 bits with a sign.
pub fn long_of(constant: i64) -> Option<i32>
    ensures { result ≡ (if fits_bits 32 constant then Some constant else None) }
{
    i32::try_from(constant).ok()
}

/// The constant, where it has 8 bits with a sign.
pub fn byte_of(constant: i64) -> Option<i8>
    ensures { result ≡ (if fits_bits 8 constant then Some constant else None) }
{
    i8::try_from(constant).ok()
}

/// The constant, where it has 32 bits without a sign.
pub fn unsigned_of(constant: i64) -> Option<u32>
    ensures found { IfSome result (λ n. pos n ≡ constant) }
    ensures only { (n : ℕ) → pos n ≡ constant → IsTrue (nat_lt n (2 ^ 32)) → result ≡ Some n }
{
    u32::try_from(constant).ok()
}

/// The constant as the count of a shift, where it is below the width in bits.
#[tactic(auto, unfolding(amd64_table::specs::Operands::bits_of))]
pub fn count_of(width: Width, constant: i64) -> Option<u8>
    ensures found { IfSome result (λ n. pos n ≡ constant) }
    ensures only { (n : ℕ) → pos n ≡ constant → IsTrue (nat_lt n (bits_of width)) → result ≡ Some n }
{
    u8::try_from(constant).ok()
}
