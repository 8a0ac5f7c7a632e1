//! Tests of `amd64_select`, on statements as a source writes them: which instructions they become, each form and each row with its
//! borders, and why others become none; frames and checks of the stack, the forms of jumps, and the addresses that instructions hold.
#![tactic(auto)]

#[cfg(test)]
mod borders;
#[cfg(test)]
mod frames;
#[cfg(test)]
mod jumps;
#[cfg(test)]
mod listed;
#[cfg(test)]
mod processor;
#[cfg(test)]
mod refusals;
#[cfg(test)]
mod rows;
#[cfg(test)]
mod shapes;
#[cfg(test)]
mod statements;
