ghost use Rattle.std.specs.Prelude.{◌≡◌, ℕ, ℤ, pos, ◌+ℤ◌, ◌-ℤ◌, ◌≤ℤ◌, ◌^◌, Some, None, IfSome, if◌then◌else◌};
ghost use Rattle.machine_effect.specs.Numbers.{fits as fits_bits};
ghost use Rattle.amd64_table.specs.declared.reg.Reg.TheVariants.{Sp};
ghost use Rattle.amd64_forms.specs.declared.rows.Resolved.{Resolved};
ghost use Rattle.amd64_table.specs.declared.memory.Scale.{Scale};
ghost use Rattle.amd64_table.specs.declared.memory.Mem.TheVariants as memory;
ghost use Rattle.amd64_table.specs.Operands.{factor_of};
ghost use Rattle.amd64_select.specs.Operands as spec;

use amd64_forms::{Resolved, Spoken, is_tls, long_of, reg_named, xmm_named};
use amd64_table::{Mem, Mnemonic, Operand as Shown, Reg, Scale};
use asm_target::Site;
use goasm_base::Operand;

/// What an operand is, as it stands or with eased numbers; `None` exactly where it's nothing that an instruction can have.
pub fn taken(ease: bool, spoken: Spoken, site: Site, operand: &Operand) -> Option<Resolved>
    ensures found { IfSome result (λ x. spec.Resolves spoken site (spec.taken ease site operand.now) x) }
    ensures only { (x : Resolved) → spec.Resolves spoken site (spec.taken ease site operand.now) x → result ≡ Some x }
{
    if ease {
        eased(spoken, site, operand)
    } else {
        resolved(spoken, site, operand)
    }
}

#[tactic(auto, unfolding(crate::specs::Operands::Resolves))]
fn resolved(spoken: Spoken, site: Site, operand: &Operand) -> Option<Resolved>
    ensures found { IfSome result (λ x. spec.Resolves spoken site operand.now x) }
    ensures only { (x : Resolved) → spec.Resolves spoken site operand.now x → result ≡ Some x }
{
    match operand {
        Operand::Imm(value) => Some(Resolved::Plain(Shown::Const(value.cast_signed()))),
        Operand::Word(name) => register(name.as_slice()),
        Operand::Mem {
            off,
            base,
            index: None,
        } => based(*off, base.as_slice()),
        Operand::Mem {
            off,
            base,
            index: Some((index, scale)),
        } => indexed(*off, base.as_slice(), index.as_slice(), *scale),
        Operand::Sym { address, .. } => Some(symbol(spoken, *address)),
        Operand::Arg { off, address, .. } => on_stack(*address, arguments_at(site), *off),
        Operand::Auto { off, address } => on_stack(*address, locals_at(site), *off),
        Operand::Label(_) => Some(Resolved::Plain(Shown::Goal(0))),
        Operand::Pair(..) | Operand::Shifted { .. } => None,
    }
}

#[tactic(auto, unfolding(crate::specs::Operands::Resolves))]
fn eased(spoken: Spoken, site: Site, operand: &Operand) -> Option<Resolved>
    ensures found { IfSome result (λ x. spec.Resolves spoken site (spec.eased site operand.now) x) }
    ensures only { (x : Resolved) → spec.Resolves spoken site (spec.eased site operand.now) x → result ≡ Some x }
{
    match operand {
        Operand::Imm(_) => Some(Resolved::Plain(Shown::Const(0))),
        Operand::Word(name) => register(name.as_slice()),
        Operand::Mem {
            base,
            index: None,
            ..
        } => based(0, base.as_slice()),
        Operand::Mem {
            base,
            index: Some((index, _)),
            ..
        } => indexed(0, base.as_slice(), index.as_slice(), 1),
        Operand::Sym { address, .. } => Some(symbol(spoken, *address)),
        Operand::Arg { address, .. } => eased_on_stack(*address, arguments_at(site)),
        Operand::Auto { address, .. } => eased_on_stack(*address, locals_at(site)),
        Operand::Label(_) => Some(Resolved::Plain(Shown::Goal(0))),
        Operand::Pair(..) | Operand::Shifted { .. } => None,
    }
}

#[tactic(auto, unfolding(crate::specs::Operands::IsRegister))]
fn register(name: &[u8]) -> Option<Resolved>
    ensures found { IfSome result (λ x. spec.IsRegister name.now x) }
    ensures only { (x : Resolved) → spec.IsRegister name.now x → result ≡ Some x }
{
    match reg_named(name) {
        Some(reg) => Some(Resolved::Plain(Shown::Reg(reg))),
        None => Some(Resolved::Plain(Shown::Wide(xmm_named(name)?))),
    }
}

#[tactic(auto, using(amd64_forms::proofs::Apart::reg_no_tls), unfolding(crate::specs::Operands::IsBased))]
fn based(off: i64, base: &[u8]) -> Option<Resolved>
    ensures found { IfSome result (λ x. spec.IsBased off base.now x) }
    ensures only { (x : Resolved) → spec.IsBased off base.now x → result ≡ Some x }
{
    match reg_named(base) {
        Some(reg) => Some(placed(false, reg, long_of(off)?)),
        None if is_tls(base) && off == 0 => Some(Resolved::Plain(Shown::Tls)),
        None => None,
    }
}

fn indexed(off: i64, base: &[u8], index: &[u8], factor: u8) -> Option<Resolved>
    ensures found { IfSome result (λ x. spec.IsIndexed off base.now index.now factor x) }
    ensures only { (x : Resolved) → spec.IsIndexed off base.now index.now factor x → result ≡ Some x }
{
    Some(Resolved::Plain(Shown::Mem(Mem::Indexed {
        base: reg_named(base)?,
        index: reg_named(index)?,
        scale: scale_of(factor)?,
        disp: long_of(off)?,
    })))
}

#[tactic(auto, unfolding(amd64_table::specs::Operands::factor_of))]
fn scale_of(factor: u8) -> Option<Scale>
    ensures found { IfSome result (λ scale. factor_of scale ≡ factor) }
    ensures only { (scale : Scale) → factor_of scale ≡ factor → result ≡ Some scale }
{
    match factor {
        1 => Some(Scale::One),
        2 => Some(Scale::Two),
        4 => Some(Scale::Four),
        8 => Some(Scale::Eight),
        _ => None,
    }
}

#[tactic(auto, unfolding(crate::specs::Operands::goes_to_symbols))]
fn symbol(spoken: Spoken, address: bool) -> Resolved
    ensures { result ≡ spec.symbol spoken address }
{
    let place = Mem::Symbol { distance: 0 };
    match spoken {
        _ if address => Resolved::Address(place),
        Spoken::Listed(Mnemonic::Jump | Mnemonic::JumpIf(_) | Mnemonic::Call) | Spoken::Direct(_) =>
            { Resolved::Plain(Shown::Goal(0)) }
        _ => Resolved::Plain(Shown::Mem(place)),
    }
}

#[tactic(auto, unfolding(crate::specs::Operands::arguments_at))]
fn arguments_at(site: Site) -> i64
    ensures at { result ≡ spec.arguments_at site }
    ensures low { pos 0 ≤ℤ result }
    ensures high { result ≤ℤ pos (2 ^ 33) }
{
    i64::from(site.depth) + 8
}

#[tactic(auto, unfolding(crate::specs::Operands::locals_at))]
fn locals_at(site: Site) -> i64
    ensures at { result ≡ spec.locals_at site }
    ensures low { (pos 0 -ℤ pos 8) ≤ℤ result }
    ensures high { result ≤ℤ pos (2 ^ 33) }
{
    if site.frame.saves_bp {
        i64::from(site.depth) - 8
    } else {
        i64::from(site.depth)
    }
}

// A place in memory on the stack, or its address.
fn on_stack(address: bool, at: i64, off: i64) -> Option<Resolved>
    ensures found { IfSome result (λ x. spec.IsPlaced address Sp (at +ℤ off) x) }
    ensures only { (x : Resolved) → spec.IsPlaced address Sp (at +ℤ off) x → result ≡ Some x }
{
    Some(placed(address, Reg::Sp, long_sum(at, off)?))
}

// With an offset by which it lies at the stack pointer.
fn eased_on_stack(address: bool, at: i64) -> Option<Resolved>
    requires low { (pos 0 -ℤ pos 8) ≤ℤ at }
    requires high { at ≤ℤ pos (2 ^ 33) }
    ensures found { IfSome result (λ x. spec.IsPlaced address Sp (at +ℤ (pos 0 -ℤ at)) x) }
    ensures only { (x : Resolved) → spec.IsPlaced address Sp (at +ℤ (pos 0 -ℤ at)) x → result ≡ Some x }
{
    let _ = at;
    Some(placed(address, Reg::Sp, 0))
}

fn placed(address: bool, base: Reg, disp: i32) -> Resolved
    ensures { result ≡ spec.place address (memory.Base base disp) }
{
    let place = Mem::Base { base, disp };
    if address {
        Resolved::Address(place)
    } else {
        Resolved::Plain(Shown::Mem(place))
    }
}

fn long_sum(one: i64, other: i64) -> Option<i32>
    ensures { result ≡ (if fits_bits 32 (one +ℤ other) then Some (one +ℤ other) else None) }
{
    long_of(one.checked_add(other)?)
}
