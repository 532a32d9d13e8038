//! Tests that cross the crates: worked sketches through the top call, with reports and refusals that
//! were worked out by hand.
#![tactic(auto)]

#[cfg(test)]
mod below;
#[cfg(test)]
mod by_order;
#[cfg(test)]
mod calls;
#[cfg(test)]
mod claims;
#[cfg(test)]
mod closings;
#[cfg(test)]
mod damaged;
#[cfg(test)]
mod derived;
#[cfg(test)]
mod devices;
#[cfg(test)]
mod flips;
#[cfg(test)]
mod limits;
#[cfg(test)]
mod lives;
#[cfg(test)]
mod merges;
#[cfg(test)]
mod offers;
#[cfg(test)]
mod placements;
#[cfg(test)]
mod row;
#[cfg(test)]
mod scripts;
#[cfg(test)]
mod sessions;
#[cfg(test)]
mod tables;
#[cfg(test)]
mod texts;
#[cfg(test)]
mod tolerances;
#[cfg(test)]
mod trees;
#[cfg(test)]
mod usage;
