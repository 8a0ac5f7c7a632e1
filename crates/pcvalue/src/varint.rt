ghost use Rattle.std.specs.Prelude.{◌≡◌};
ghost use Rattle.std.specs.Option.{option_map};
ghost use Rattle.pcvalue.specs.Varint as spec;

// The number that the bytes begin with, and the bytes behind it. `None` where a number is cut, has more
// than 5 bytes or passes 32 bits.
#[tactic(auto, unfolding(crate::specs::Varint::varint))]
pub fn varint(bytes: &[u8]) -> Option<(u32, &[u8])>
    ensures { option_map (λ read. (read.0, read.1.now)) result ≡ spec.varint bytes.now }
{
    varint_within(5, bytes)
}

#[tactic(auto, unfolding(crate::specs::Varint::varint_within))]
fn varint_within(most: u8, bytes: &[u8]) -> Option<(u32, &[u8])>
    ensures { option_map (λ read. (read.0, read.1.now)) result ≡ spec.varint_within most bytes.now }
{
    if most == 0 {
        return None;
    }
    match bytes {
        [] => None,
        [byte, rest @ ..] if *byte < 128 => Some((u32::from(*byte), rest)),
        [byte, rest @ ..] => {
            let (high, rest) = varint_within(most - 1, rest)?;
            let number = u64::from(*byte - 128) + 128 * u64::from(high);
            if number <= u64::from(u32::MAX) {
                Some((number as u32, rest))
            } else {
                None
            }
        }
    }
}
