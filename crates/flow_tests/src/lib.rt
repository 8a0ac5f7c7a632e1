//! Tests of the flow rules, over a made-up target with a link register and over amd64.
#![tactic(auto)]

#[cfg(test)]
mod linked;
#[cfg(test)]
mod placing;
#[cfg(test)]
mod stacked;
