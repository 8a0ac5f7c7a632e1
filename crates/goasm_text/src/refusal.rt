use asm_lex::LexNo;
use asm_macro::MacroNo;
use asm_parse::ParseNo;
use branch_size::SizeNo;
use elf_image::ImageNo;
use image_rules::CheckNo;
use machine_dump::DumpNo;
use obj_rewrite::RewriteNo;
use pclntab::TableNo;
use text_chain::ChainNo;

/// Why a reading call answered no value.
#[derive(Debug, Drop)]
pub enum Refusal {
    /// A source has no tokens.
    Lex(LexNo),
    /// Sources have no expansion.
    Macro(MacroNo),
    /// Tokens say no unit.
    Parse(ParseNo),
    /// A function has no instructions.
    Rewrite(RewriteNo),
    /// Instructions have no sizes.
    Size(SizeNo),
    /// Bytes are no function table.
    Table(TableNo),
    /// Bytes are no image.
    Image(ImageNo),
    /// An image is not sound.
    Check(CheckNo),
    /// A text is no dump.
    Dump(DumpNo),
    /// An image and a dump have no call chain.
    Chain(ChainNo),
}
