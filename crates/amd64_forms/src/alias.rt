ghost use Rattle.std.specs.Prelude.{◌≡◌, Some, IfSome};
ghost use Rattle.amd64_forms.specs.declared.alias.Alias.{Alias};
ghost use Rattle.amd64_forms.specs.Names as spec;

/// A name that statements may begin with beside those of the instruction list.
#[derive(Clone, Copy, Debug, PartialEq, Eq)]
pub enum Alias {
    /// MOVBQZX: MOVBLZX.
    Movbqzx,
    /// MOVWQZX: MOVWLZX.
    Movwqzx,
    /// MOVLQZX: MOVL.
    Movlqzx,
    /// JLO: JCS.
    Jlo,
    /// JHS: JCC.
    Jhs,
    /// SETLO: SETCS.
    Setlo,
    /// SETHS: SETCC.
    Seths,
    /// CMOVQLO: CMOVQCS.
    Cmovqlo,
    /// CMOVQHS: CMOVQCC.
    Cmovqhs,
    /// CMOVLLO: CMOVLCS.
    Cmovllo,
    /// CMOVLHS: CMOVLCC.
    Cmovlhs,
    /// JZ, of a label: JEQ.
    Jz,
    /// JE, of a label: JEQ.
    Je,
    /// JNZ, of a label: JNE.
    Jnz,
    /// JC, of a label: JCS.
    Jc,
    /// JB, of a label: JCS.
    Jb,
    /// JNC, of a label: JCC.
    Jnc,
    /// JAE, of a label: JCC.
    Jae,
    /// JA, of a label: JHI.
    Ja,
    /// JBE, of a label: JLS.
    Jbe,
    /// JG, of a label: JGT.
    Jg,
    /// JL, of a label: JLT.
    Jl,
    /// JS, of a label: JMI.
    Js,
    /// JNS, of a label: JPL.
    Jns,
    /// B, of a label or a symbol: JMP.
    B,
    /// BL, of a label or a symbol: CALL.
    Bl,
    /// ADJSP: SUBQ of a constant from SP, or ADDQ of a constant to it.
    Adjsp,
    /// NOP: nothing.
    Nop,
    /// PCDATA: nothing.
    Pcdata,
    /// FUNCDATA: nothing.
    Funcdata,
}

/// The other name that is written so; `None` exactly where none is.
#[tactic(auto, unfolding(crate::specs::Names::alias_text))]
pub fn alias_named(name: &[u8]) -> Option<Alias>
    ensures found { IfSome result (λ alias. spec.alias_text alias ≡ name.now) }
    ensures only { (alias : Alias) → spec.alias_text alias ≡ name.now → result ≡ Some alias }
{
    let alias = match name {
        b"MOVBQZX" => Alias::Movbqzx,
        b"MOVWQZX" => Alias::Movwqzx,
        b"MOVLQZX" => Alias::Movlqzx,
        b"JLO" => Alias::Jlo,
        b"JHS" => Alias::Jhs,
        b"SETLO" => Alias::Setlo,
        b"SETHS" => Alias::Seths,
        b"CMOVQLO" => Alias::Cmovqlo,
        b"CMOVQHS" => Alias::Cmovqhs,
        b"CMOVLLO" => Alias::Cmovllo,
        b"CMOVLHS" => Alias::Cmovlhs,
        b"JZ" => Alias::Jz,
        b"JE" => Alias::Je,
        b"JNZ" => Alias::Jnz,
        b"JC" => Alias::Jc,
        b"JB" => Alias::Jb,
        b"JNC" => Alias::Jnc,
        b"JAE" => Alias::Jae,
        b"JA" => Alias::Ja,
        b"JBE" => Alias::Jbe,
        b"JG" => Alias::Jg,
        b"JL" => Alias::Jl,
        b"JS" => Alias::Js,
        b"JNS" => Alias::Jns,
        b"B" => Alias::B,
        b"BL" => Alias::Bl,
        b"ADJSP" => Alias::Adjsp,
        b"NOP" => Alias::Nop,
        b"PCDATA" => Alias::Pcdata,
        b"FUNCDATA" => Alias::Funcdata,
        _ => return None,
    };
    Some(alias)
}
