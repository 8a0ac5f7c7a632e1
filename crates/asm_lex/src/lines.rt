ghost use Rattle.std.specs.Prelude.{◌≡◌};
ghost use Rattle.asm_lex.specs.Lines as spec;

use goasm_base::LAST_LINE;

/// The line on which stands what follows these bytes, of which the first stands on this line.
#[tactic(auto, unfolding(crate::specs::Lines::line_after))]
pub fn line_after(line: u32, bytes: &[u8]) -> u32
    ensures { result ≡ spec.line_after line bytes.now }
{
    let mut line = line;
    for byte in bytes {
        if *byte == b'\n' {
            line = next_line(line);
        }
    }
    line
}

fn next_line(line: u32) -> u32
    ensures { result ≡ spec.next_line line }
{
    if line < LAST_LINE { line + 1 } else { line }
}
