ghost use Rattle.std.specs.Prelude.{◌≡◌, ◌+◌, ◌==◌, ◌∷◌, [], length, IfSome, None};
ghost use Rattle.machine_dump.specs.Lines.{lines_of, is_ended};

use goasm_base::behind;
use memchr::memchr;

/// The text of the first line, and what stands behind its newline. `None` where no newline is left.
pub fn split_line(bytes: &[u8]) -> Option<(&[u8], &[u8])>
    ensures line { IfSome result (λ split. lines_of bytes.now ≡ split.0.now ∷ lines_of split.1.now) }
    ensures ended { IfSome result (λ split. is_ended split.1.now ≡ is_ended bytes.now) }
    ensures size { IfSome result (λ split. length split.0.now + 1 + length split.1.now ≡ length bytes.now) }
    ensures none { result ≡ None → lines_of bytes.now ≡ [] }
    ensures unended { result ≡ None → is_ended bytes.now ≡ (length bytes.now == 0) }
{
    match memchr(b'\n', bytes) {
        Some(place) => Some((&bytes[..place], behind(bytes, place + 1))),
        None => None,
    }
}
