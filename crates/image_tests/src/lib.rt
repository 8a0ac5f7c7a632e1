//! Tests of the check of images, of what is kept beside an image, of recorded states, and of walks.
#![tactic(auto)]

#[cfg(test)]
mod check_tests;
#[cfg(test)]
mod dump_tests;
#[cfg(test)]
mod images;
#[cfg(test)]
mod marks;
#[cfg(test)]
mod walk_tests;
