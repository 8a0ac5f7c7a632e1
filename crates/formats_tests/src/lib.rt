//! Tests of the crates of texts, tables and images, a module for each: `goasm_base`, `pcvalue`, `pclntab` and `elf_image`
//! with `byte_layout`.
#![tactic(auto)]

#[cfg(test)]
mod base_tests;
#[cfg(test)]
mod elf_image_tests;
#[cfg(test)]
mod one_function;
#[cfg(test)]
mod pclntab_tests;
#[cfg(test)]
mod pcvalue_tests;
