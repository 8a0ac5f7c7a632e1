//! From a function's statements to its instructions, which aren't placed yet: with what enters and leaves its frame, the check
//! whether the stack has room, and the depth of the stack at each.
#![tactic(auto)]

mod draft;
mod function;
mod goals;
mod laws;
mod rewrite_no;
mod statements;
mod words;

pub use function::rewrite;
pub use laws::one_answer;
pub use rewrite_no::RewriteNo;
