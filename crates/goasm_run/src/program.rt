//! From the words to a status: which command they name, and what of its answer is written.

pub mod answers;
pub mod dispatch;
pub mod goasm_main;
