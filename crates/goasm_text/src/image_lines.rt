// The lines of images, and the codes of their faults and of those of their tables.
ghost use Rattle.std.specs.Prelude.{◌≡◌, ◌≢◌, ◌==◌, [], ◌++◌, codes, IfOk, OnOk, if◌then◌else◌};
ghost use Rattle.image_rules.specs.declared.check_no.CheckNo.TheVariants as checks;
ghost use Rattle.image_rules.specs.declared.check_no.ProfileNo.TheVariants as profiles;
ghost use Rattle.goasm_text.specs.Lines.{check_line, depths_text, image_code, image_line, image_offset, offset_line, profile_line, table_code, table_offset};

use crate::lines::{at_address, at_offset};
use elf_image::ImageNo;
use flow_rules::FlowNo;
use goasm_base::{Bytes, Memory, Text};
use image_rules::{CheckNo, ProfileNo};
use pclntab::TableNo;
use std::alloc::Global;

/// The code and the offset of a table's fault.
pub fn table_fault(fault: TableNo) -> (&'static [u8], u64)
    ensures code { result.0.now ≡ table_code fault }
    ensures offset { result.1 ≡ table_offset fault }
{
    match fault {
        TableNo::TB1(offset) => (b"TB1", offset),
        TableNo::TB2(offset) => (b"TB2", offset),
        TableNo::TB3(offset) => (b"TB3", offset),
        TableNo::TB4(offset) => (b"TB4", offset),
        TableNo::TB5(offset) => (b"TB5", offset),
        TableNo::TB6(offset) => (b"TB6", offset),
    }
}

// The code and the offset of an image's fault.
fn image_fault(fault: ImageNo) -> (&'static [u8], u64)
    ensures code { result.0.now ≡ image_code fault }
    ensures offset { result.1 ≡ image_offset fault }
{
    match fault {
        ImageNo::I1(offset) => (b"I1", offset),
        ImageNo::I2(offset) => (b"I2", offset),
        ImageNo::I3(offset) => (b"I3", offset),
        ImageNo::I4(offset) => (b"I4", offset),
    }
}

/// The line of bytes that are no image.
pub fn of_image(alloc: Global, name: &[u8], no: ImageNo) -> Result<Bytes, Memory>
    ensures { IfOk result (λ line. line ≡ image_line name.now no) }
{
    let (code, offset) = image_fault(no);
    at_offset(alloc, name, code, offset)
}

/// The line of an image that isn't sound.
pub fn of_check(alloc: Global, name: &[u8], no: CheckNo) -> Result<Bytes, Memory>
    requires { no ≢ checks.Memory }
    ensures { IfOk result (λ line. line ≡ check_line name.now no) }
{
    match no {
        CheckNo::K1(why) => of_profile(alloc, name, why),
        CheckNo::K2(address) => at_address(alloc, name, b"K2", address),
        CheckNo::K3(broken) => of_flow(alloc, name, broken),
        CheckNo::K4(address) => at_address(alloc, name, b"K4", address),
        CheckNo::K5(address) => at_address(alloc, name, b"K5", address),
        CheckNo::Memory => unreachable!(),
    }
}

fn of_profile(alloc: Global, name: &[u8], why: ProfileNo) -> Result<Bytes, Memory>
    ensures { IfOk result (λ line. line ≡ profile_line name.now why) }
{
    match why {
        ProfileNo::Image(fault) => {
            let (code, offset) = image_fault(fault);
            within(alloc, name, code, offset)
        }
        ProfileNo::Table(fault) => {
            let (code, offset) = table_fault(fault);
            within(alloc, name, code, offset)
        }
        ProfileNo::Profile => unlike(alloc, name),
    }
}

// `FILE: K1 CODE at OFFSET`
fn within(alloc: Global, name: &[u8], code: &[u8], offset: u64) -> Result<Bytes, Memory>
    ensures { IfOk result (λ line. line ≡ offset_line name.now (codes "K1 " ++ code.now) offset) }
{
    let mut whole = Text::new(alloc);
    whole.push(b"K1 ")?;
    whole.push(code)?;
    at_offset(alloc, name, whole.finish().as_slice(), offset)
}

// `FILE: K1 profile`
fn unlike(alloc: Global, name: &[u8]) -> Result<Bytes, Memory>
    ensures { IfOk result (λ line. line ≡ profile_line name.now profiles.Profile) }
{
    let mut line = Text::new(alloc);
    line.push(name)?;
    line.push(b": K1 profile\n")?;
    Ok(line.finish())
}

fn of_flow(alloc: Global, name: &[u8], broken: FlowNo) -> Result<Bytes, Memory>
    ensures { IfOk result (λ line. line ≡ check_line name.now (checks.K3 broken)) }
{
    let mut code = Text::new(alloc);
    code.push(b"K3 F")?;
    code.push_unsigned(u64::from(broken.rule))?;
    push_depths(&mut code, broken)?;
    at_address(alloc, name, code.finish().as_slice(), broken.at)
}

// Appends the depths of F1.
fn push_depths(text: &mut Text, broken: FlowNo) -> Result<(), Memory>
    ensures { OnOk result (text.new ≡ text.old ++ (if broken.rule == 1 then depths_text broken.depths else [])) }
{
    if broken.rule != 1 {
        return Ok(());
    }
    text.push(b" ")?;
    text.push_decimal(broken.depths.0)?;
    text.push(b" ")?;
    text.push_decimal(broken.depths.1)
}
