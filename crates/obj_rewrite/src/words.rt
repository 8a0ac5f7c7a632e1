ghost use Rattle.std.specs.Prelude.{◌≡◌, bytes_eq, Some};
ghost use Rattle.obj_rewrite.specs.Words as words;

use goasm_base::Stmt;

/// Whether a label among the operands of this mnemonic's statements says where the machine goes on. CALL and BL come back, and ADR
/// and ADRP only make an address.
pub fn goes_to_labels(op: &[u8]) -> bool
    ensures { result ≡ words.goes_to_labels op.now }
{
    !(is(op, b"CALL") || is(op, b"BL") || is(op, b"ADR") || is(op, b"ADRP"))
}

fn is(op: &[u8], word: &[u8]) -> bool
    ensures { result ≡ bytes_eq op.now word.now }
{
    op == word
}

/// Whether the statement is a RET, behind which the depth is again the one before it.
pub fn is_return(stmt: &Stmt) -> bool
    ensures { result ≡ words.is_return stmt.now }
{
    is(stmt.op.as_slice(), b"RET")
}

// Whether the function doesn't go on behind the statement.
fn is_end(stmt: &Stmt) -> bool
    ensures { result ≡ words.is_end (Some stmt.now) }
{
    let op = stmt.op.as_slice();
    is(op, b"RET") || is(op, b"JMP") || is(op, b"B")
}

/// Whether a function of these statements could run past its end, so that a jump to itself is appended.
pub fn runs_on(stmts: &[Stmt]) -> bool
    ensures { result ≡ words.runs_on stmts.now }
{
    match stmts.last() {
        Some(stmt) => !is_end(stmt),
        None => true,
    }
}
