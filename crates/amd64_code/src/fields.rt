ghost use Rattle.std.specs.Prelude.{◌≡◌, ◌<◌};
ghost use Rattle.amd64_code.specs.Reading as spec;
ghost use Rattle.amd64_code.specs.ModRm.{field_in};

use crate::head::Legacy;
use crate::modrm::{field_in, low_in, operand_size, rm_in};
use crate::registers::{reg_at, xmm_at};
use crate::rex::Rex;
use amd64_table::{Mem, Reg, Rm, Width, Xmm};
use goasm_base::behind_or_empty;

/// What stands around an opcode: the prefixes before it, and the bytes behind it.
#[derive(Clone, Copy)]
pub struct Fields<'a> {
    pub lock: bool,
    pub legacy: Legacy,
    pub rex: Rex,
    /// From ModRM or the constant on.
    pub tail: &'a [u8],
}

impl Fields<'_> {
    /// The width that REX's bit w tells.
    pub fn width(&self) -> Width
        ensures { result ≡ spec.width_in self.now.rex }
    {
        if self.rex.w { Width::Q } else { Width::L }
    }

    /// ModRM's field reg as a digit.
    pub fn digit(&self) -> u8
        ensures digit { result ≡ field_in self.now.tail.now }
        ensures below { result < 8 }
    {
        field_in(self.tail)
    }

    /// The register of ModRM's field reg.
    pub fn reg(&self) -> Reg
        ensures { result ≡ spec.reg_in self.now.rex self.now.tail.now }
    {
        reg_at(self.rex.r, field_in(self.tail))
    }

    /// The register whose low bits stand in the opcode.
    pub fn opcode_reg(&self, opcode: u8) -> Reg
        ensures { result ≡ spec.opcode_reg self.now.rex opcode }
    {
        reg_at(self.rex.b, opcode % 8)
    }

    /// The X register of ModRM's field reg.
    pub fn xmm(&self) -> Xmm
        ensures { result ≡ spec.xmm_in self.now.rex self.now.tail.now }
    {
        xmm_at(self.rex.r, field_in(self.tail))
    }

    /// The X register of ModRM's field rm.
    pub fn low_xmm(&self) -> Xmm
        ensures { result ≡ spec.low_xmm_in self.now.rex self.now.tail.now }
    {
        xmm_at(self.rex.b, low_in(self.tail))
    }

    /// The register or memory of ModRM.
    pub fn rm(&self) -> Rm
        ensures { result ≡ spec.operand_in self.now.rex self.now.tail.now }
    {
        rm_in(self.rex.x, self.rex.b, self.tail)
    }

    /// The memory of ModRM. A register is none: what is made of one has another spelling.
    pub fn mem(&self) -> Mem
        ensures { result ≡ spec.memory_in self.now.rex self.now.tail.now }
    {
        match self.rm() {
            Rm::Mem(mem) => mem,
            Rm::Reg(base) => Mem::Base { base, disp: 0 },
        }
    }

    /// What is behind ModRM, SIB and displacement.
    pub fn constant(&self) -> &[u8]
        ensures { result.now ≡ spec.behind_operand self.now.tail.now }
    {
        behind_or_empty(self.tail, operand_size(self.tail))
    }
}
