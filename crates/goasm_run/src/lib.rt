//! The commands of Goasm: from the words to the text written, with every refusal and its status.
#![tactic(auto)]

mod architecture;
mod build;
#[cfg(test)]
mod bytes_tests;
mod command;
mod commands;
#[cfg(test)]
mod expand_tests;
#[cfg(test)]
mod image_tests;
mod image_text;
mod laws;
mod limits;
mod lines;
mod list;
#[cfg(test)]
mod listing_tests;
mod part;
mod parts;
mod program;
mod read;
mod sources;
mod stop;
#[cfg(test)]
mod test_runs;
#[cfg(test)]
mod tests;
#[cfg(test)]
mod unwind_tests;
mod words;

pub use laws::kept_runs_are_unwound;
pub use program::goasm_main::goasm_main;
pub use words::Words;
