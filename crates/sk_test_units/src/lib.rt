//! Tests of single crates: values that were worked out by hand, and what no clause says. They stand here
//! and not in the crates, since a crate that has tests is proved twice.
#![tactic(auto)]

#[cfg(test)]
mod boxes;
#[cfg(test)]
mod grown;
#[cfg(test)]
mod intervals;
#[cfg(test)]
mod motions;
#[cfg(test)]
mod roots;
#[cfg(test)]
mod signs;
#[cfg(test)]
mod spellings;
#[cfg(test)]
mod steps;
#[cfg(test)]
mod streams;
#[cfg(test)]
mod words;
